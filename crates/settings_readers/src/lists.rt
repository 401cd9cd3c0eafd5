// Arrays.
ghost use Rattle.std.specs.Prelude.{◌≡◌, ◌≤◌, ◌++◌, [], IfOk, decimal, length, ◌&&◌, nat_le};
ghost use Rattle.toml.specs.View.{view, items_view};
ghost use Rattle.settings_readers.specs.KeyFaults.{Gives, IsAnswer};
ghost use Rattle.settings_readers.specs.Values.{array_of, each, on_table, sized};

use crate::fault::KeyFault;
use crate::keys::Keys;
use crate::place::Place;
use crate::readers::{Element, Row};
use std::alloc::Global;
use toml::Value;

/// The item of a number, at the path that its number ends.
fn numbered<E: Element>(
    alloc: Global,
    element: &E,
    before: &[E::Item],
    value: &Value,
    above: &[u8],
    number: usize,
) -> Result<E::Item, KeyFault>
    ensures { IsAnswer (E.gives element.now before.now (above.now ++ decimal number) (view value.now)) result }
{
    let number = format!(in alloc; "{}", number)?;
    element.read(alloc, before, &Place::new(above, number.as_bytes()), value)
}

/// The items of an array, each read in turn.
fn each<E: Element>(
    alloc: Global,
    element: &E,
    array: &[Value],
    above: &[u8],
) -> Result<Vec<E::Item>, KeyFault>
    ensures gives { Gives (λ v. v.items) (each (E.gives element.now) above.now (items_view array.now) [] 1) result }
    ensures len { IfOk result (λ v. length v.items ≡ length array.now) }
{
    let mut before = Vec::new(alloc);
    for (i, value) in array.iter().enumerate() {
        match numbered(alloc, element, &before, value, above, i + 1) {
            Ok(item) => before.push(item)?,
            Err(fault) => return Err(fault),
        }
    }
    Ok(before)
}

// Whether a length is from `low` to `high`.
fn is_sized(low: usize, high: usize, len: usize) -> bool
    ensures { result ≡ (nat_le low len && nat_le len high) }
{
    low <= len && len <= high
}

fn sized<'a>(
    alloc: Global,
    low: usize,
    high: usize,
    place: &Place,
    value: &'a Value,
) -> Result<&'a [Value], KeyFault>
    ensures gives { Gives (λ a. items_view a.now) (sized low high place.now (view value.now)) result }
    ensures least { IfOk result (λ a. low ≤ length a.now) }
    ensures most { IfOk result (λ a. length a.now ≤ high) }
{
    match value.as_array() {
        None => place.wrong_type(alloc),
        Some(array) => {
            if !is_sized(low, high, array.len()) {
                return place.out_of_range(alloc);
            }
            Ok(array)
        }
    }
}

/// An array of `low` to `high` items.
#[derive(Drop)]
pub struct Items<E> {
    pub low: usize,
    pub high: usize,
    pub element: E,
}

impl<E: Element> Items<E> {
    /// The items, each read in turn. The length of the array is tested first.
    pub fn read(
        &self,
        alloc: Global,
        place: &Place,
        value: &Value,
    ) -> Result<Vec<E::Item>, KeyFault>
        ensures gives { Gives (λ v. v.items) (array_of self.now.low self.now.high (E.gives self.now.element) place.now (view value.now)) result }
        ensures least { IfOk result (λ v. self.now.low ≤ length v.items) }
        ensures most { IfOk result (λ v. length v.items ≤ self.now.high) }
    {
        let array = sized(alloc, self.low, self.high, place, value)?;
        let above = place.below(alloc)?;
        each(alloc, &self.element, array, &above)
    }
}

/// Items that are tables.
#[derive(Drop)]
pub struct Rows<R>(pub R);

impl<R: Row> Element for Rows<R> {
    type Item = R::Item;

    ghost gives = { λ r before. on_table (R.gives r.0 before) };

    fn read(
        &self,
        alloc: Global,
        before: &[R::Item],
        place: &Place,
        value: &Value,
    ) -> Result<R::Item, KeyFault> {
        match value.as_table() {
            None => place.wrong_type(alloc),
            Some(table) => {
                let above = place.below(alloc)?;
                let keys = Keys {
                    table,
                    above: &above,
                };
                self.0.read(alloc, before, &keys)
            }
        }
    }
}

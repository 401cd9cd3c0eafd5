// The order of the texts of a pool, by which a text is found in few comparisons, whichever texts they are.
ghost use Rattle.std.specs.Prelude.{◌≡◌, ◌<◌, ◌^◌, ◌++◌, ◌∷◌, [], List, ℕ, OnOk, IfOk, All, length};
ghost use Rattle.value_pool.specs.Table.{HasPlaces, IsOrder, place_in, IsSlotWithin, texts_at};

use crate::chains::Slot;
use link_texts::NoMemory;
use std::alloc::Global;
use std::collections::BTreeMap;

/// What finds a text past the first steps of its chain.
#[derive(Drop)]
pub(crate) enum Order {
    /// Its chain: none has been long.
    Unneeded,
    /// The order of all texts, each with its place.
    Places(BTreeMap<Vec<u8>, u32>),
    /// Its chain: there was no memory for the order.
    Refused,
}

// Puts a text into the order, with its place.
#[cold]
#[inline(never)]
fn put(
    alloc: Global,
    places: &mut BTreeMap<Vec<u8>, u32>,
    text: &[u8],
    place: u32,
) -> Result<(), NoMemory>
    ensures { OnOk result ((texts : List (List ℕ)) → HasPlaces places.old texts → place ≡ length texts → HasPlaces places.new (texts ++ text.now ∷ [])) }
{
    let key = Vec::from_slice(alloc, text)?;
    match places.insert(key, place) {
        Ok(_) => return Ok(()),
        Err(_) => return Err(NoMemory),
    }
}

/// The place of a text in the order.
#[cold]
#[inline(never)]
pub(crate) fn place_in(places: &BTreeMap<Vec<u8>, u32>, text: &[u8]) -> Option<u32>
    ensures { result ≡ place_in places.now text.now }
{
    match places.get(text) {
        Some(place) => Some(*place),
        None => None,
    }
}

// The order of these texts.
fn places_of(
    alloc: Global,
    bytes: &[u8],
    slots: &[Slot],
) -> Result<BTreeMap<Vec<u8>, u32>, NoMemory>
    requires within { All (IsSlotWithin bytes.now) slots.now }
    requires few { length slots.now < 2 ^ 32 }
    ensures { IfOk result (λ places. HasPlaces places (texts_at bytes.now slots.now)) }
{
    let mut places = BTreeMap::new(alloc);
    for place in 0..slots.len() {
        let slot = slots[place];
        let text = &bytes[slot.start as usize..slot.end as usize];
        put(alloc, &mut places, text, place as u32)?;
    }
    Ok(places)
}

impl Order {
    /// The order of these texts. Without memory for it there is none.
    #[cold]
    #[inline(never)]
    pub(crate) fn of(alloc: Global, bytes: &[u8], slots: &[Slot]) -> Order
        requires within { All (IsSlotWithin bytes.now) slots.now }
        requires few { length slots.now < 2 ^ 32 }
        ensures { IsOrder result (texts_at bytes.now slots.now) }
    {
        match places_of(alloc, bytes, slots) {
            Ok(places) => Order::Places(places),
            Err(NoMemory) => Order::Refused,
        }
    }

    /// Takes one text more into the order. Without memory for it there is none any more.
    pub(crate) fn take(&mut self, alloc: Global, text: &[u8], place: u32)
        ensures { (texts : List (List ℕ)) → IsOrder self.old texts → place ≡ length texts → IsOrder self.new (texts ++ text.now ∷ []) }
    {
        match self {
            Order::Places(places) => match put(alloc, places, text, place) {
                Ok(()) => {}
                Err(NoMemory) => *self = Order::Refused,
            },
            Order::Unneeded => {}
            Order::Refused => {}
        }
    }
}

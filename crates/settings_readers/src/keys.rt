// Keys of a table.
ghost use Rattle.std.specs.Prelude.{◌≡◌, ◌++◌, map, option_map};
ghost use Rattle.toml.specs.Data.{get_member};
ghost use Rattle.toml.specs.View.{view, table_view};
ghost use Rattle.link_texts.specs.Texts.{stands_among};
ghost use Rattle.settings_readers.specs.KeyFaults.{IsAnswer};
ghost use Rattle.settings_readers.specs.Values.{defaulted, known, needed, optional, without, without_both};

use crate::fault::KeyFault;
use crate::place::Place;
use crate::readers::Reader;
use std::alloc::Global;
use toml::{Table, Value};

/// The keys of a table, and what stands before them in their paths: nothing, or a path and a point.
#[derive(Clone, Copy)]
pub struct Keys<'a> {
    pub table: &'a Table,
    pub above: &'a [u8],
}

/// The value at a key.
#[tactic(auto, using(toml::proofs::Views::table_get))]
fn find<'a>(table: &'a Table, key: &str) -> Option<&'a Value>
    ensures { option_map (λ v. view v.now) result ≡ get_member key.now (table_view table.now) }
{
    table.get(key)
}

/// Whether a key is one of those listed.
pub fn is_listed(listed: &[&str], key: &str) -> bool
    ensures { result ≡ stands_among (map (λ k. k.now) listed.now) key.now }
{
    listed.iter().any(|other| *other == key)
}

// Whether a key is one of those of two lists.
fn is_in_lists(listed: &[&str], others: &[&str], key: &str) -> bool
    ensures { result ≡ stands_among (map (λ k. k.now) listed.now ++ map (λ k. k.now) others.now) key.now }
{
    is_listed(listed, key) || is_listed(others, key)
}

impl Keys<'_> {
    /// Refuses a table that has a key of neither list: the fault names the least such key by its bytes.
    pub fn known(&self, alloc: Global, listed: &[&str], others: &[&str]) -> Result<(), KeyFault>
        ensures { IsAnswer (known (stands_among (map (λ k. k.now) listed.now ++ map (λ k. k.now) others.now)) (table_view self.now.table.now) self.now.above.now) result }
    {
        let above = self.above;
        let table = self.table;
        for (key, _value) in table {
            if !is_in_lists(listed, others, key.as_str()) {
                return Place::new(above, key.as_str().as_bytes()).unknown_key(alloc);
            }
        }
        Ok(())
    }

    /// An item, where a key does not belong beside it.
    pub fn without<X: Copy>(&self, alloc: Global, key: &str, item: X) -> Result<X, KeyFault>
        ensures { IsAnswer (without item (table_view self.now.table.now) self.now.above.now key.now) result }
    {
        match find(self.table, key) {
            None => Ok(item),
            Some(_) => Place::new(self.above, key.as_bytes()).unknown_key(alloc),
        }
    }

    /// An item, where neither of two keys belongs beside it.
    pub fn without_both<X: Copy>(
        &self,
        alloc: Global,
        key: &str,
        other: &str,
        item: X,
    ) -> Result<X, KeyFault>
        ensures { IsAnswer (without_both item (table_view self.now.table.now) self.now.above.now key.now other.now) result }
    {
        self.without(alloc, key, ())?;
        self.without(alloc, other, item)
    }

    /// What a reader gives at a key that has to be there.
    pub fn needed<R: Reader>(
        &self,
        alloc: Global,
        reader: &R,
        key: &str,
    ) -> Result<R::Item, KeyFault>
        ensures { IsAnswer (needed (R.gives reader.now) (table_view self.now.table.now) self.now.above.now key.now) result }
    {
        let place = Place::new(self.above, key.as_bytes());
        match find(self.table, key) {
            None => place.missing_key(alloc),
            Some(value) => reader.read(alloc, &place, value),
        }
    }

    /// What a reader gives at a key that may be there.
    pub fn optional<R: Reader>(
        &self,
        alloc: Global,
        reader: &R,
        key: &str,
    ) -> Result<Option<R::Item>, KeyFault>
        ensures { IsAnswer (optional (R.gives reader.now) (table_view self.now.table.now) self.now.above.now key.now) result }
    {
        let place = Place::new(self.above, key.as_bytes());
        match find(self.table, key) {
            None => Ok(None),
            Some(value) => Ok(Some(reader.read(alloc, &place, value)?)),
        }
    }

    /// The same, or a default where the key is not there.
    pub fn defaulted<R: Reader>(
        &self,
        alloc: Global,
        reader: &R,
        default: R::Item,
        key: &str,
    ) -> Result<R::Item, KeyFault>
        ensures { IsAnswer (defaulted (R.gives reader.now) default (table_view self.now.table.now) self.now.above.now key.now) result }
    {
        let given = self.optional(alloc, reader, key)?;
        Ok(given.unwrap_or(default))
    }
}

// What a reader is.
ghost use Rattle.std.specs.Prelude.{◌≡◌, List, ℕ, Option, Result};
ghost use Rattle.toml.specs.Data.{Data, Members};
ghost use Rattle.toml.specs.View.{view, table_view};
ghost use Rattle.settings_readers.specs.declared.fault.KeyFault.{KeyFault};
ghost use Rattle.settings_readers.specs.KeyFaults.{IsAnswer};

use crate::fault::KeyFault;
use crate::keys::Keys;
use crate::place::Place;
use std::alloc::Global;
use toml::Value;

/// A reader of a value; `gives` is what it gives at a path.
pub trait Reader {
    type Item: Drop;

    ghost gives: { Self → List ℕ → Data → Result Self.Item KeyFault };

    fn read(&self, alloc: Global, place: &Place, value: &Value) -> Result<Self::Item, KeyFault>
        ensures { IsAnswer (gives self.now place.now (view value.now)) result };
}

/// A reader of the items of an array, each in the light of those before it.
pub trait Element {
    type Item: Drop;

    ghost gives: { Self → List Self.Item → List ℕ → Data → Result Self.Item KeyFault };

    fn read(
        &self,
        alloc: Global,
        before: &[Self::Item],
        place: &Place,
        value: &Value,
    ) -> Result<Self::Item, KeyFault>
        ensures { IsAnswer (gives self.now before.now place.now (view value.now)) result };
}

/// A reader of the keys of a table that is an item of an array, in the light of the items before it.
pub trait Row {
    type Item: Drop;

    ghost gives: { Self → List Self.Item → Members → List ℕ → Result Self.Item KeyFault };

    fn read(
        &self,
        alloc: Global,
        before: &[Self::Item],
        keys: &Keys,
    ) -> Result<Self::Item, KeyFault>
        ensures { IsAnswer (gives self.now before.now (table_view keys.now.table.now) keys.now.above.now) result };
}

/// Words that name choices.
pub trait Choices {
    type Item: Drop;

    ghost gives: { Self → List ℕ → Option Self.Item };

    fn named(&self, text: &str) -> Option<Self::Item>
        ensures { result ≡ gives self.now text.now };
}

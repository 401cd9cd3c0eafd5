// Where a value stands.
ghost use Rattle.std.specs.Prelude.{◌≡◌, ◌++◌, Err, IfOk, codes};
ghost use Rattle.settings_readers.specs.KeyFaults.{IsAnswer};
ghost use Rattle.settings_readers.specs.declared.fault.KeyFault.TheVariants as fault;

use crate::fault::KeyFault;
use link_base::{NoMemory, Text};
use std::alloc::Global;
use std::marker::Model;

/// Where a value stands: the keys, and the numbers of items from 1, on the way down to it, joined by
/// points, as `field.2.kind`. Contracts see the bytes of this path.
#[derive(Drop)]
pub struct Place<'a> {
    above: &'a [u8],
    key: &'a [u8],
}

impl<'a> Model for Place<'a> {
    ghost use Rattle.std.specs.Prelude.{List, ℕ, ◌++◌};

    ghost Value = { List ℕ };

    ghost view = { λ p. p.above.now ++ p.key.now };
}

impl<'a> Place<'a> {
    /// The place of a key; `above` is empty or ends in a point.
    pub fn new(above: &'a [u8], key: &'a [u8]) -> Place<'a>
        ensures { result ≡ above.now ++ key.now }
    {
        Place { above, key }
    }

    /// The path, as a fault names it.
    pub fn text(&self, alloc: Global) -> Result<Text, NoMemory>
        ensures { IfOk result (λ text. text ≡ self.now) }
    {
        let mut bytes = Vec::from_slice(alloc, self.above)?;
        bytes.extend_from_slice(self.key)?;
        Ok(Text::of(bytes))
    }

    /// Refuses a key that is not known, or does not belong.
    pub fn unknown_key<T>(&self, alloc: Global) -> Result<T, KeyFault>
        ensures { IsAnswer (Err (fault.UnknownKey self.now)) result }
    {
        Err(KeyFault::UnknownKey {
            key: self.text(alloc)?,
        })
    }

    /// Refuses a table without a key that has to be there.
    pub fn missing_key<T>(&self, alloc: Global) -> Result<T, KeyFault>
        ensures { IsAnswer (Err (fault.MissingKey self.now)) result }
    {
        Err(KeyFault::MissingKey {
            key: self.text(alloc)?,
        })
    }

    /// Refuses a value that has another type.
    pub fn wrong_type<T>(&self, alloc: Global) -> Result<T, KeyFault>
        ensures { IsAnswer (Err (fault.WrongType self.now)) result }
    {
        Err(KeyFault::WrongType {
            key: self.text(alloc)?,
        })
    }

    /// Refuses a value that is out of its range.
    pub fn out_of_range<T>(&self, alloc: Global) -> Result<T, KeyFault>
        ensures { IsAnswer (Err (fault.OutOfRange self.now)) result }
    {
        Err(KeyFault::OutOfRange {
            key: self.text(alloc)?,
        })
    }

    /// What stands before the keys and the items of the value here: the path and a point.
    pub fn below(&self, alloc: Global) -> Result<Vec<u8>, NoMemory>
        ensures { IfOk result (λ above. above.items ≡ self.now ++ codes ".") }
    {
        let mut bytes = Vec::from_slice(alloc, self.above)?;
        bytes.extend_from_slice(self.key)?;
        bytes.extend_from_slice(b".")?;
        Ok(bytes)
    }
}

// The values of a record, where they stand.
ghost use Rattle.std.specs.Prelude.{◌≡◌, ◌<◌, All, length, slice_index_or};
ghost use Rattle.link_base.specs.Standard.{IsPlaced, value_in, value_seen, values_in, absent_value};

use crate::region::TextRegion;
use crate::rows::Cell;
use crate::standard::Value;
use std::marker::Model;

/// A standard value where it stands: `value_seen` is the value.
#[derive(Clone, Copy)]
pub enum ValueRef<'a> {
    /// The value is missing.
    Absent,
    /// A standard text, in UTF-8.
    Word(&'a [u8]),
    /// A day, counted from 1970-01-01, which is 0.
    Day(i32),
}

impl Value {
    /// The value where it stands.
    pub fn as_ref(&self) -> ValueRef<'_>
        ensures { value_seen result ≡ self.now }
    {
        match self {
            Value::Absent => ValueRef::Absent,
            Value::Word(text) => ValueRef::Word(text.bytes()),
            Value::Day(day) => ValueRef::Day(*day),
        }
    }
}

/// The values of a record, where they stand, which contracts see as the list of them.
#[derive(Drop)]
pub struct Row<'a> {
    words: &'a TextRegion,
    cells: &'a [Cell],
}

impl<'a> Model for Row<'a> {
    ghost use Rattle.std.specs.Prelude.{All, length, List};
    ghost use Rattle.link_base.specs.Standard.{IsPlaced, values_in};
    ghost use Rattle.link_base.specs.declared.standard.Value.{Value as FieldValue};

    ghost Value = { List FieldValue };

    ghost view = { λ r. values_in r.words.now r.cells.now };

    ghost invariant = { λ r. All (IsPlaced (length r.words.now)) r.cells.now };
}

impl<'a> Row<'a> {
    // The row of these cells, whose words are among these.
    pub(crate) fn of(words: &'a TextRegion, cells: &'a [Cell]) -> Row<'a>
        requires { All (IsPlaced (length words.now)) cells.now }
        ensures { result ≡ values_in words.now cells.now }
    {
        Row { words, cells }
    }

    /// The number of values.
    pub fn len(&self) -> usize
        ensures { result ≡ length self.now }
    {
        self.cells.len()
    }

    /// The value at a place, from 0.
    pub fn value(&self, at: usize) -> ValueRef<'a>
        requires { at < length self.now }
        ensures { value_seen result ≡ slice_index_or self.now at absent_value }
    {
        value_of(self.words, self.cells[at])
    }
}

// The value of a cell, where these are the words.
fn value_of<'v>(words: &'v TextRegion, cell: Cell) -> ValueRef<'v>
    requires { IsPlaced (length words.now) cell }
    ensures { value_seen result ≡ value_in words.now cell }
{
    match cell {
        Cell::Absent => ValueRef::Absent,
        Cell::Word(at) => ValueRef::Word(words.get(at as usize)),
        Cell::Day(day) => ValueRef::Day(day),
    }
}

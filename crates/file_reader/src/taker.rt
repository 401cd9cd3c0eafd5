// What takes the rows of a table.
ghost use Rattle.std.specs.Prelude.{◌≡◌, ◌<◌, ◌++◌, ◌∷◌, [], ℕ, All, List, length, OnOk, slice_index_or};
ghost use Rattle.csv.specs.Records.{fields_of};
ghost use Rattle.file_reader.specs.Rows.{cells_of};
ghost use Rattle.file_reader.specs.Table.{IsFieldText};
ghost use Rattle.file_reader.specs.Takers.{HasRoom};

use crate::fields::field_of;
use crate::layout::Column;
use csv::ByteRecord;
use link_base::{IdSet, NoMemory};
use std::alloc::Global;
use std::marker::Model;

/// The ids of the rows of a file, or none where the file has no ids, and the number of its rows.
#[derive(Drop)]
pub struct TableIds {
    pub ids: IdSet,
    pub rows: u32,
}

/// The needed fields of a row after its id, where they stand, which contracts see as the list of them.
#[derive(Drop)]
pub struct RowFields<'a> {
    columns: &'a [Column],
    row: &'a ByteRecord,
}

impl<'a> Model for RowFields<'a> {
    ghost use Rattle.std.specs.Prelude.{ℕ, List};
    ghost use Rattle.csv.specs.Records.{fields_of};
    ghost use Rattle.file_reader.specs.Rows.{cells_of};

    ghost Value = { List (List ℕ) };

    ghost view = { λ r. cells_of r.columns.now (fields_of r.row.now) };
}

impl<'a> RowFields<'a> {
    // The fields of a row in these columns.
    pub(crate) fn of(columns: &'a [Column], row: &'a ByteRecord) -> RowFields<'a>
        ensures { result ≡ cells_of columns.now (fields_of row.now) }
    {
        RowFields { columns, row }
    }

    /// The number of fields.
    #[inline(always)]
    pub fn len(&self) -> usize
        ensures { result ≡ length self.now }
    {
        self.columns.len()
    }

    /// The field at a place, from 0.
    #[inline(always)]
    pub fn field(&self, at: usize) -> &'a [u8]
        requires { at < length self.now }
        ensures { result.now ≡ slice_index_or self.now at [] }
    {
        field_of(self.row, self.columns[at].place)
    }
}

/// What takes the rows of a table one by one, as they are read, each as the list of its fields.
pub trait RowTaker {
    /// How many fields each row has.
    ghost width: { Self → ℕ };

    /// How many rows it can take.
    ghost most: { Self → ℕ };

    /// How it stood before it took these rows, in order, and stands after them.
    ghost took: { Self → List (List (List ℕ)) → Self → Type 0 };

    /// Makes room for about so many rows from a text of so many bytes, before it takes the first.
    fn make_room(&mut self, alloc: Global, rows: u32, bytes: usize) -> Result<(), NoMemory>
        ensures same_width { width self.new ≡ width self.old }
        ensures same_most { most self.new ≡ most self.old }
        ensures none { OnOk result ((before : Self) → took before [] self.old → took before [] self.new) };

    /// Takes the next row.
    fn take(&mut self, alloc: Global, row: &RowFields<'_>) -> Result<(), NoMemory>
        requires room { (before : Self) × HasRoom (λ rows. took before rows self.old) (most self.old) }
        requires fields { length row.now ≡ width self.old }
        requires texts { All IsFieldText row.now }
        ensures same_width { width self.new ≡ width self.old }
        ensures same_most { most self.new ≡ most self.old }
        ensures one_more { OnOk result ((before : Self) (rows : List (List (List ℕ))) → took before rows self.old → took before (rows ++ row.now ∷ []) self.new) };
}

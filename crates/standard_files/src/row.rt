// A row in standard values.
ghost use Rattle.std.specs.Prelude.{◌≡◌, ◌+◌, ◌^◌, ◌<◌, ◌≤◌, [], All, length, sum_by, IsUtf8, OnOk, Some, None, if◌then◌else◌};
ghost use Rattle.std.specs.Option.{option_or};
ghost use Rattle.link_limits.specs.declared.TheConstants.{MOST_FIELDS};
ghost use Rattle.file_reader.specs.Table.{IsFieldText};
ghost use Rattle.standard_files.specs.Kept.{IsMade};

use crate::sorts::TextSort;
use crate::values::ValueTables;
use file_reader::RowFields;
use link_base::{NoMemory, RowsWriter};
use standardise::TextRoom;
use std::alloc::Global;

// The number of dates of a row that cannot be read, and the place of the first.
#[derive(Drop)]
pub(crate) struct StandardRow {
    // Room in which a text is made, where it has to be.
    room: TextRoom,
    pub(crate) unreadable: u32,
    pub(crate) first: Option<usize>,
}

impl StandardRow {
    pub(crate) fn new(alloc: Global) -> StandardRow {
        StandardRow {
            room: TextRoom::new(alloc),
            unreadable: 0,
            first: None,
        }
    }

    // Notes whether the text at a place is a date that cannot be read.
    fn note(&mut self, place: usize, is_unreadable: bool)
        requires few { self.old.unreadable ≤ place }
        requires short { place < MOST_FIELDS }
        ensures unreadable { self.new.unreadable ≡ self.old.unreadable + (if is_unreadable then 1 else 0) }
        ensures first { self.new.first ≡ option_or self.old.first (if is_unreadable then Some place else None) }
    {
        if is_unreadable {
            self.unreadable += 1;
            self.first = self.first.or(Some(place));
        }
    }

    // Appends a row of a table in standard values to the open row, which has none, and tells of it in place of what was told
    // before.
    pub(crate) fn take_in(
        &mut self,
        alloc: Global,
        tables: &ValueTables,
        sorts: &[TextSort],
        row: &RowFields<'_>,
        rows: &mut RowsWriter,
    ) -> Result<(), NoMemory>
        requires width { length row.now ≡ length sorts.now }
        requires few { length sorts.now ≤ MOST_FIELDS }
        requires texts { All IsFieldText row.now }
        requires empty { rows.old.row ≡ [] }
        requires room { sum_by length rows.old.rows + length sorts.now < 2 ^ 32 }
        ensures rows { OnOk result (rows.new.rows ≡ rows.old.rows) }
        ensures made { OnOk result (IsMade tables.now sorts.now row.now rows.new.row self.new.unreadable self.new.first) }
    {
        self.unreadable = 0;
        self.first = None;
        for (column, sort) in sorts.iter().enumerate() {
            let text = text_of(row.field(column));
            let told = tables.add_value(alloc, *sort, text, &mut self.room, rows)?;
            self.note(column, told);
        }
        Ok(())
    }
}

fn text_of(bytes: &[u8]) -> &str
    requires { IsUtf8 bytes.now }
    ensures { result.now ≡ bytes.now }
{
    unsafe { str::from_utf8_unchecked(bytes) }
}

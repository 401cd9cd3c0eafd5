// A row of a journal file.
ghost use Rattle.std.specs.Prelude.{◌≡◌, ◌<◌, length, slice_index_or};
ghost use Rattle.file_reader.specs.Rows.{no_row};
ghost use Rattle.review_journal.specs.Rows.{journal_columns, written_in};
ghost use Rattle.review_journal.specs.Row.{written_of};

use file_reader::Table;

// The fields of a row, as they are written. A journal of the first version names no step.
#[derive(Clone, Copy)]
pub(crate) struct Row<'t> {
    pub(crate) number: &'t [u8],
    pub(crate) date: &'t [u8],
    pub(crate) reviewer: &'t [u8],
    pub(crate) step: Option<&'t [u8]>,
    pub(crate) id_a: &'t [u8],
    pub(crate) id_b: &'t [u8],
    pub(crate) verdict: &'t [u8],
}

// The row at a position of the table of a journal of a version.
pub(crate) fn row_at(table: &Table, at: u32, second: bool) -> Row<'_>
    requires within { at < length table.now }
    requires width { length (slice_index_or table.now at no_row).fields ≡ length (journal_columns second) }
    ensures { written_of result ≡ written_in second (slice_index_or table.now at no_row).fields }
{
    if second {
        return Row {
            number: table.field(at, 0),
            date: table.field(at, 1),
            reviewer: table.field(at, 2),
            step: Some(table.field(at, 3)),
            id_a: table.field(at, 4),
            id_b: table.field(at, 5),
            verdict: table.field(at, 6),
        };
    }
    Row {
        number: table.field(at, 0),
        date: table.field(at, 1),
        reviewer: table.field(at, 2),
        step: None,
        id_a: table.field(at, 3),
        id_b: table.field(at, 4),
        verdict: table.field(at, 5),
    }
}

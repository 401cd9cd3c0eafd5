// The journal in a file.
ghost use Rattle.std.specs.Prelude.{◌≡◌, ◌≤◌, All, [], IfOk, length};
ghost use Rattle.file_reader.specs.Table.{records_in, HasTexts};
ghost use Rattle.link_base.specs.Fault.{IsAnswer};
ghost use Rattle.link_limits.specs.declared.TheConstants.{MOST_ENTRIES};
ghost use Rattle.file_reader.specs.Rows.{wanted_of, TableRow};
ghost use Rattle.review_journal.specs.Verdict.{IsWithinFiles};
ghost use Rattle.review_journal.specs.Reading.{entries_read, journal_in, journal_under, journal_wanted};
ghost use Rattle.review_journal.specs.Rows.{journal_columns};

use crate::entries::entry_of;
use crate::journal::Journal;
use crate::row::row_at;
use file_reader::{Layout, Table, has_column, read_table};
use link_base::{Fault, FileRole, NoMemory, StdFile};
use link_limits::MOST_ENTRIES;
use std::alloc::Global;

// The columns of a journal of the second version.
pub(crate) const COLUMNS: [&[u8]; 7] = [
    b"number",
    b"date",
    b"reviewer",
    b"step",
    b"id_a",
    b"id_b",
    b"verdict",
];

// What is wanted of a journal of a version.
fn layout(alloc: Global, second: bool) -> Result<Layout, NoMemory>
    ensures wanted { IfOk result (λ layout. wanted_of layout ≡ journal_wanted second) }
    ensures delimiter { IfOk result (λ layout. layout.delimiter ≡ 44) }
{
    if second {
        return Layout::of(alloc, &COLUMNS, MOST_ENTRIES);
    }
    Layout::of(
        alloc,
        &[
            b"number",
            b"date",
            b"reviewer",
            b"id_a",
            b"id_b",
            b"verdict",
        ],
        MOST_ENTRIES,
    )
}

// The journal in the rows of a table.
fn entries_in(
    alloc: Global,
    table: &Table,
    second: bool,
    a: &StdFile,
    b: &StdFile,
) -> Result<Journal, Fault>
    requires width { All (λ (r : TableRow). length r.fields ≡ length (journal_columns second)) table.now }
    requires texts { HasTexts table.now }
    requires few { length table.now ≤ MOST_ENTRIES }
    ensures answer { IsAnswer (entries_read second a.now b.now [] table.now) result }
    ensures within { IfOk result (λ j. All (IsWithinFiles (length a.now) (length b.now)) j) }
{
    let mut journal = Journal::new(alloc);
    for at in 0..table.rows() {
        let row = row_at(table, at, second);
        match entry_of(alloc, &journal, at + 1, &row, a, b) {
            Ok(entry) => journal.push(entry)?,
            Err(fault) => return Err(fault),
        }
    }
    Ok(journal)
}

// The journal in a file of a version.
fn read_version(
    alloc: Global,
    bytes: &[u8],
    second: bool,
    a: &StdFile,
    b: &StdFile,
) -> Result<Journal, Fault>
    ensures answer { IsAnswer (journal_under second a.now b.now (records_in 44 bytes.now)) result }
    ensures within { IfOk result (λ j. All (IsWithinFiles (length a.now) (length b.now)) j) }
{
    let layout = layout(alloc, second)?;
    match read_table(alloc, bytes, FileRole::Journal, &layout) {
        Ok(table) => entries_in(alloc, &table, second, a, b),
        Err(fault) => Err(fault),
    }
}

/// The journal in a file, or its first fault. A file of no bytes has no entries. The second version, whose entries say
/// which step of review they are, is known by its column `step`; in the first each verdict stands alone.
pub fn read_journal(alloc: Global, bytes: &[u8], a: &StdFile, b: &StdFile) -> Result<Journal, Fault>
    ensures answer { IsAnswer (journal_in a.now b.now bytes.now) result }
    ensures within { IfOk result (λ j. All (IsWithinFiles (length a.now) (length b.now)) j) }
{
    if bytes.is_empty() {
        return Ok(Journal::new(alloc));
    }
    let second = has_column(alloc, bytes, b',', b"step")?;
    read_version(alloc, bytes, second, a, b)
}

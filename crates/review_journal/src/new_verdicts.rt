// The new verdicts in a file.
ghost use Rattle.std.specs.Prelude.{◌≡◌, ◌≤◌, ◌<◌, ◌+◌, All, [], IfOk, length, slice_index_or};
ghost use Rattle.link_base.specs.Fault.{IsAnswer};
ghost use Rattle.link_limits.specs.declared.TheConstants.{MOST_ROWS};
ghost use Rattle.file_reader.specs.Rows.{wanted_of, TableRow, no_row};
ghost use Rattle.review_journal.specs.Batch.{NamesRecords, verdict_in, verdicts_of, verdicts_read, verdicts_wanted};

use crate::batch::{NewVerdict, Verdicts};
use crate::words::verdict_of;
use file_reader::{Layout, Table, known_pair, read_table};
use link_base::{Fault, FileRole, NoMemory, StdFile};
use link_limits::MOST_ROWS;
use std::alloc::Global;

fn layout(alloc: Global) -> Result<Layout, NoMemory>
    ensures wanted { IfOk result (λ layout. wanted_of layout ≡ verdicts_wanted) }
    ensures delimiter { IfOk result (λ layout. layout.delimiter ≡ 44) }
{
    Layout::of(alloc, &[b"id_a", b"id_b", b"verdict"], MOST_ROWS)
}

// The new verdict of the row at a position.
#[tactic(auto, unfolding(crate::specs::Batch::verdict_in))]
fn verdict_at(
    alloc: Global,
    rows: &Table,
    at: u32,
    a: &StdFile,
    b: &StdFile,
) -> Result<NewVerdict, Fault>
    requires within { at < length rows.now }
    requires width { length (slice_index_or rows.now at no_row).fields ≡ 3 }
    requires few { length rows.now ≤ MOST_ROWS }
    ensures answer { IsAnswer (verdict_in a.now b.now (at + 1) (slice_index_or rows.now at no_row).fields) result }
    ensures placed { IfOk result (NamesRecords (length a.now) (length b.now)) }
{
    let row = at + 1;
    let role = FileRole::Verdicts;
    let pair = known_pair(alloc, role, row, rows.field(at, 0), rows.field(at, 1), a, b)?;
    let verdict = verdict_of(role, row, rows.field(at, 2))?;
    Ok(NewVerdict {
        a: pair.a,
        b: pair.b,
        verdict,
    })
}

// The new verdicts of the rows of a table.
fn verdicts_in(alloc: Global, table: &Table, a: &StdFile, b: &StdFile) -> Result<Verdicts, Fault>
    requires width { All (λ (r : TableRow). length r.fields ≡ 3) table.now }
    requires few { length table.now ≤ MOST_ROWS }
    ensures answer { IsAnswer (verdicts_read a.now b.now [] table.now) result }
    ensures placed { IfOk result (λ batch. All (NamesRecords (length a.now) (length b.now)) batch) }
{
    let mut rows = Vec::new(alloc);
    for at in 0..table.rows() {
        match verdict_at(alloc, table, at, a, b) {
            Ok(verdict) => rows.push(verdict)?,
            Err(fault) => return Err(fault),
        }
    }
    Ok(Verdicts::new(rows))
}

/// The new verdicts in a file, or its first fault.
pub fn read_verdicts(
    alloc: Global,
    bytes: &[u8],
    a: &StdFile,
    b: &StdFile,
) -> Result<Verdicts, Fault>
    ensures answer { IsAnswer (verdicts_of a.now b.now bytes.now) result }
    ensures placed { IfOk result (λ batch. All (NamesRecords (length a.now) (length b.now)) batch) }
{
    let layout = layout(alloc)?;
    match read_table(alloc, bytes, FileRole::Verdicts, &layout) {
        Ok(table) => verdicts_in(alloc, &table, a, b),
        Err(fault) => Err(fault),
    }
}

// The entry of a row of a journal.
ghost use Rattle.std.specs.Prelude.{◌≡◌, IfOk, OnOk, length, true};
ghost use Rattle.link_base.specs.Fault.{Gives, IsAnswer};
ghost use Rattle.link_base.specs.Standard.{IsDay};
ghost use Rattle.file_reader.specs.Table.{IsFieldText};
ghost use Rattle.review_journal.specs.Batch.{is_not_before};
ghost use Rattle.review_journal.specs.Verdict.{IsReviewer, IsWithinFiles, fits_after};
ghost use Rattle.review_journal.specs.Reading.{dated, entry_in, fitting, numbered, signed, CanFollow};
ghost use Rattle.review_journal.specs.Row.{written_of};

use crate::entry::Entry;
use crate::journal::Journal;
use crate::row::Row;
use crate::words::{step_of, verdict_of};
use file_reader::known_pair;
use itoa::Buffer;
use link_base::{Fault, FileRole, StdFile, Text};
use std::alloc::Global;
use value_forms::read_iso;

// Tests that the number of a row is its own.
fn test_number(row: u32, text: &[u8]) -> Result<(), Fault>
    ensures answer { Gives (λ _. text.now) (numbered row text.now) result }
{
    let mut digits = Buffer::new();
    if text != digits.format(row).as_bytes() {
        return Err(Fault::BadNumber { row });
    }
    Ok(())
}

// The day of a row, which is not before that of the entry before.
fn date_of(journal: &Journal, row: u32, text: &[u8]) -> Result<i32, Fault>
    ensures answer { IsAnswer (dated journal.now row text.now) result }
    ensures day { IfOk result IsDay }
    ensures not_back { IfOk result (λ date. is_not_before journal.now date ≡ true) }
{
    let date = read_iso(text).ok_or(Fault::BadDate { row })?;
    if !journal.is_not_before(date) {
        let role = FileRole::Journal;
        return Err(Fault::DateBack { role, row });
    }
    Ok(date)
}

// Tests that a row names a reviewer.
fn test_reviewer(row: u32, text: &[u8]) -> Result<(), Fault>
    requires { IsFieldText text.now }
    ensures answer { Gives (λ _. text.now) (signed row text.now) result }
    ensures named { OnOk result (IsReviewer text.now) }
{
    if text.is_empty() {
        return Err(Fault::EmptyReviewer { row });
    }
    Ok(())
}

// An entry whose step may stand after the entries before.
fn fitting_entry(journal: &Journal, row: u32, entry: Entry) -> Result<Entry, Fault>
    ensures answer { IsAnswer (fitting journal.now row entry) result }
    ensures same { IfOk result (λ e. e ≡ entry) }
    ensures fits { IfOk result (λ e. fits_after journal.now e ≡ true) }
{
    if !journal.fits(&entry) {
        return Err(Fault::BadStep { row });
    }
    Ok(entry)
}

// The entry of a row after the entries before.
#[tactic(auto, unfolding(crate::specs::Reading::entry_in))]
pub(crate) fn entry_of(
    alloc: Global,
    journal: &Journal,
    number: u32,
    row: &Row,
    a: &StdFile,
    b: &StdFile,
) -> Result<Entry, Fault>
    requires { IsFieldText row.now.reviewer.now }
    ensures answer { IsAnswer (entry_in a.now b.now journal.now number (written_of row.now)) result }
    ensures follows { IfOk result (CanFollow journal.now) }
    ensures within { IfOk result (IsWithinFiles (length a.now) (length b.now)) }
{
    test_number(number, row.number)?;
    let date = date_of(journal, number, row.date)?;
    test_reviewer(number, row.reviewer)?;
    let pair = known_pair(alloc, FileRole::Journal, number, row.id_a, row.id_b, a, b)?;
    let verdict = verdict_of(FileRole::Journal, number, row.verdict)?;
    let step = step_of(number, row.step)?;
    let entry = Entry {
        date,
        reviewer: Text::new(alloc, row.reviewer)?,
        step,
        a: pair.a,
        b: pair.b,
        verdict,
    };
    fitting_entry(journal, number, entry)
}

// The text of a journal.
ghost use Rattle.std.specs.Prelude.{◌≡◌, ◌<◌, ◌+◌, ◌^◌, ◌++◌, All, IfOk, OnOk, length};
ghost use Rattle.csv.specs.Writing.{default_writer, row_text};
ghost use Rattle.link_base.specs.Standard.{IsDay};
ghost use Rattle.review_journal.specs.Verdict.{IsWithinFiles};
ghost use Rattle.review_journal.specs.Reading.{entry_line, fields_with, text_of_journal};

use crate::entry::Entry;
use crate::journal::Journal;
use crate::reading::COLUMNS;
use crate::words::{word_of_step, word_of_verdict};
use csv_rows::push_row;
use itoa::Buffer;
use link_base::{NoMemory, StdFile, Text};
use std::alloc::Global;
use value_forms::day_text;

// Appends the line of an entry with this number and this date.
fn push_line<'t>(
    text: &mut Vec<u8>,
    number: &'t [u8],
    date: &'t [u8],
    entry: &'t Entry,
    a: &'t StdFile,
    b: &'t StdFile,
) -> Result<(), NoMemory>
    requires within { IsWithinFiles (length a.now) (length b.now) entry.now }
    ensures { OnOk result (text.new.items ≡ text.old.items ++ row_text default_writer (fields_with number.now date.now a.now b.now entry.now)) }
{
    push_row(
        text,
        &[
            number,
            date,
            entry.reviewer.bytes(),
            word_of_step(entry.step),
            a.id(entry.a),
            b.id(entry.b),
            word_of_verdict(entry.verdict),
        ],
    )
}

// Appends the line of the entry at a place.
fn push_entry(
    text: &mut Vec<u8>,
    at: u32,
    entry: &Entry,
    a: &StdFile,
    b: &StdFile,
) -> Result<(), NoMemory>
    requires small { at + 1 < 2 ^ 32 }
    requires day { IsDay entry.now.date }
    requires within { IsWithinFiles (length a.now) (length b.now) entry.now }
    ensures { OnOk result (text.new.items ≡ text.old.items ++ entry_line a.now b.now (at, entry.now)) }
{
    let mut number = Buffer::new();
    let date = day_text(entry.date);
    push_line(text, number.format(at + 1).as_bytes(), &date, entry, a, b)
}

/// The text of a journal, which is of the second version: the header `number,date,reviewer,step,id_a,id_b,verdict`, and a
/// line for each entry in order.
pub fn journal_text(
    alloc: Global,
    journal: &Journal,
    a: &StdFile,
    b: &StdFile,
) -> Result<Text, NoMemory>
    requires { All (IsWithinFiles (length a.now) (length b.now)) journal.now }
    ensures { IfOk result (λ text. text ≡ text_of_journal a.now b.now journal.now) }
{
    let entries = journal.entries();
    let mut text = Vec::new(alloc);
    push_row(&mut text, &COLUMNS)?;
    for at in 0..entries.len() {
        push_entry(&mut text, at as u32, &entries[at], a, b)?;
    }
    Ok(Text::of(text))
}

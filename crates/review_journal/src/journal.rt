// The journal: its entries in order, and the last one on each pair.
ghost use Rattle.std.specs.Prelude.{◌≡◌, ◌≤◌, ◌<◌, ◌+◌, ◌++◌, ◌∷◌, [], ℤ, int_le, AllPairs, OnErr, OnOk, length, take, option_copied, true};
ghost use Rattle.std.specs.Option.{option_map_or};
ghost use Rattle.link_base.specs.Standard.{IsDay};
ghost use Rattle.link_limits.specs.declared.TheConstants.{MOST_ENTRIES};
ghost use Rattle.link_base.specs.Rule.{IsPairBefore};
ghost use Rattle.review_journal.specs.Verdict.{last_on, verdict_on, confirms_in, fits_after, IsJournal, IsReviewer};
ghost use Rattle.review_journal.specs.Batch.{added, batch_fault, IsAdded, is_not_before, last_date, with_verdicts};

use crate::batch::{NewVerdict, Verdicts};
use crate::entry::Entry;
use crate::possible::first_not_among;
use crate::steps::{is_decided, step_by};
use link_base::{Fault, FileRole, NoMemory, PairAt, Step, Text, Verdict};
use link_limits::MOST_ENTRIES;
use std::alloc::Global;
use std::collections::BTreeMap;
use std::marker::Model;

/// A journal of clerical review, which contracts see as the list of its entries.
#[derive(Drop)]
pub struct Journal {
    entries: Vec<Entry>,
    // Where the last entry on each pair stands, found in few steps whichever pairs the entries are on.
    places: BTreeMap<(u32, u32), u32>,
}

impl Model for Journal {
    ghost use Rattle.std.specs.Prelude.{List};
    ghost use Rattle.review_journal.specs.declared.entry.Entry.{Entry};

    ghost Value = { List Entry };

    ghost use Rattle.review_journal.specs.Verdict.{IsJournal};
    ghost use Rattle.review_journal.specs.Places.{IsIndexed};

    ghost view = { λ j. j.entries.items };

    ghost invariant = { λ j. IsJournal j.entries.items × IsIndexed j.places j.entries.items };
}

impl Journal {
    /// The journal of no entries, which takes no memory.
    pub fn new(alloc: Global) -> Journal
        ensures { result ≡ [] }
    {
        Journal {
            entries: Vec::new(alloc),
            places: BTreeMap::new(alloc),
        }
    }

    /// The entries, from the first to the last.
    pub fn entries(&self) -> &[Entry]
        ensures all { result.now ≡ self.now }
        ensures kept { IsJournal result.now }
    {
        &self.entries
    }

    // The last entry on a pair.
    fn last_on(&self, a: u32, b: u32) -> Option<&Entry>
        ensures { option_copied result ≡ last_on self.now a b }
    {
        if self.entries.is_empty() {
            return None;
        }
        match self.places.get(&(a, b)) {
            Some(place) => Some(&self.entries[*place as usize]),
            None => None,
        }
    }

    /// The verdict on a pair, found by an index: none where no entry names the pair, and undecided where the last one that
    /// does waits for a second reviewer.
    pub fn verdict(&self, a: u32, b: u32) -> Option<Verdict>
        ensures { result ≡ verdict_on self.now a b }
    {
        match self.last_on(a, b) {
            Some(entry) => match entry.step {
                Step::First => Some(Verdict::Undecided),
                Step::Single | Step::Confirm => Some(entry.verdict),
            },
            None => None,
        }
    }

    /// Whether a verdict of a reviewer on a pair confirms the last entry on it, found by an index.
    pub fn confirms(&self, reviewer: &[u8], a: u32, b: u32, verdict: Verdict) -> bool
        ensures { result ≡ confirms_in self.now reviewer.now a b verdict }
    {
        match self.last_on(a, b) {
            Some(entry) => {
                entry.step == Step::First
                    && entry.verdict == verdict
                    && entry.reviewer.bytes() != reviewer
            }
            None => false,
        }
    }

    /// Whether the step of an entry may stand after the entries.
    pub fn fits(&self, entry: &Entry) -> bool
        ensures { result ≡ fits_after self.now entry.now }
    {
        match entry.step {
            Step::Single => true,
            Step::First => is_decided(entry.verdict),
            Step::Confirm => {
                is_decided(entry.verdict)
                    && self.confirms(entry.reviewer.bytes(), entry.a, entry.b, entry.verdict)
            }
        }
    }

    /// The day of the last entry, which is the latest.
    pub fn last_date(&self) -> Option<i32>
        ensures last { result ≡ last_date self.now }
        ensures latest { (date : ℤ) → is_not_before self.now date ≡ option_map_or (λ last. int_le last date) result true }
    {
        match self.entries.last() {
            Some(entry) => Some(entry.date),
            None => None,
        }
    }

    /// Whether a day is not before that of any entry.
    pub fn is_not_before(&self, date: i32) -> bool
        ensures { result ≡ is_not_before self.now date }
    {
        match self.last_date() {
            Some(last) => last <= date,
            None => true,
        }
    }

    /// Appends an entry.
    pub fn push(&mut self, entry: Entry) -> Result<(), NoMemory>
        requires room { length self.old < MOST_ENTRIES }
        requires day { IsDay entry.date }
        requires not_back { is_not_before self.old entry.date ≡ true }
        requires reviewer { IsReviewer entry.reviewer }
        requires fits { fits_after self.old entry ≡ true }
        ensures added { OnOk result (self.new ≡ self.old ++ entry ∷ []) }
        ensures unchanged { OnErr result (self.new ≡ self.old) }
    {
        let place = self.entries.len();
        let pair = (entry.a, entry.b);
        if self.entries.push(entry).is_err() {
            return Err(NoMemory);
        }
        match self.places.insert(pair, place as u32) {
            Ok(_) => return Ok(()),
            Err(_) => {
                self.entries.truncate(place);
                return Err(NoMemory);
            }
        }
    }

    // The first fault of a batch.
    fn batch_fault(&self, rows: &[NewVerdict], date: i32, possible: &[PairAt]) -> Option<Fault>
        requires { AllPairs IsPairBefore possible.now }
        ensures first { result ≡ batch_fault self.now rows.now date possible.now }
    {
        if rows.len() > MOST_ENTRIES as usize - self.entries.len() {
            return Some(Fault::TooManyEntries {
                limit: u64::from(MOST_ENTRIES),
            });
        }
        if !rows.is_empty() && !self.is_not_before(date) {
            return Some(Fault::DateBack {
                role: FileRole::Verdicts,
                row: 1,
            });
        }
        match first_not_among(rows, possible) {
            Some(place) => Some(Fault::NotPossible {
                row: place as u32 + 1,
            }),
            None => None,
        }
    }

    // Appends an entry for each new verdict, in order. Without memory for all of them there may be some.
    fn push_verdicts(
        &mut self,
        alloc: Global,
        rows: &[NewVerdict],
        date: i32,
        reviewer: &str,
        double: bool,
    ) -> Result<(), NoMemory>
        requires room { length self.old + length rows.now ≤ MOST_ENTRIES }
        requires day { IsDay date }
        requires not_back { 0 < length rows.now → is_not_before self.old date ≡ true }
        requires reviewer { IsReviewer reviewer.now }
        ensures added { OnOk result (self.new ≡ with_verdicts double date reviewer.now self.old rows.now) }
        ensures kept { take (length self.old) self.new ≡ self.old }
    {
        for row in rows {
            let confirming = self.confirms(reviewer.as_bytes(), row.a, row.b, row.verdict);
            let entry = Entry {
                date,
                reviewer: Text::new(alloc, reviewer.as_bytes())?,
                step: step_by(double, row.verdict, confirming),
                a: row.a,
                b: row.b,
                verdict: row.verdict,
            };
            self.push(entry)?;
        }
        Ok(())
    }

    /// Adds a batch of new verdicts of a reviewer on a day: an entry for each, in order. Where `double` asks for two
    /// reviewers, a decided verdict confirms a first one of the same kind by another reviewer, or waits for one. A batch
    /// that is refused changes nothing.
    pub fn add(
        &mut self,
        alloc: Global,
        batch: &Verdicts,
        date: i32,
        reviewer: &str,
        possible: &[PairAt],
        double: bool,
    ) -> Result<(), Fault>
        requires day { IsDay date }
        requires reviewer { IsReviewer reviewer.now }
        requires rising { AllPairs IsPairBefore possible.now }
        ensures answer { IsAdded (added double date reviewer.now possible.now self.old batch.now) self.old self.new result }
    {
        let rows = batch.rows();
        if let Some(fault) = self.batch_fault(rows, date, possible) {
            return Err(fault);
        }
        let entries = self.entries.len();
        let places = self.places.clone()?;
        match self.push_verdicts(alloc, rows, date, reviewer, double) {
            Ok(()) => return Ok(()),
            Err(NoMemory) => {
                self.entries.truncate(entries);
                self.places = places;
                return Err(Fault::NoMemory);
            }
        }
    }
}

// Rows that are being made, value by value.
ghost use Rattle.std.specs.Prelude.{◌≡◌, ◌+◌, ◌^◌, ◌≤◌, ◌<◌, [], IfOk, IfSome, OnErr, OnOk, length, slice_index_or, sum_by};
ghost use Rattle.link_base.specs.Standard.{BeginsAs, IsPlaced, value_in};
ghost use Rattle.link_base.specs.RowsWriter.{no_rows, with_row, with_value};
ghost use Rattle.link_base.specs.declared.standard.Value.TheVariants as value;

use crate::region::{TextRegion, end_behind};
use crate::rows::{Cell, StdRows};
use link_texts::NoMemory;
use std::alloc::Global;
use std::collections::BTreeMap;
use std::marker::Model;
use value_pool::hash;

// The most bytes of a word of which each row keeps a copy of its own.
const MOST_COPIED: usize = 255;

// How many bytes a word may have for which room is made beforehand.
const USUAL_BYTES: usize = 8;

/// Rows that are being made, value by value. Contracts see the rows that are closed, and the values of the row that is open.
#[derive(Drop)]
pub struct RowsWriter {
    words: TextRegion,
    // The places of longer words among the words, by their hashes: so that one that comes again need not be kept again.
    longer: BTreeMap<u32, u32>,
    cells: Vec<Cell>,
    // Where each closed row ends among the cells; it begins where the one before it ends.
    ends: Vec<u32>,
    // Where the open row begins among the cells.
    begun: usize,
}

impl Model for RowsWriter {
    ghost use Rattle.link_base.specs.RowsWriter.{AreOpen, WrittenRows, written_rows};

    ghost Value = { WrittenRows };

    ghost view = { λ w. written_rows w.words w.cells.items w.ends.items w.begun };

    ghost invariant = { λ w. AreOpen w.words w.cells.items w.ends.items w.begun };
}

impl RowsWriter {
    /// No rows, with room for so many of so many fields, and of words of a usual length.
    pub fn with_capacity(alloc: Global, rows: u32, fields: u8) -> Result<RowsWriter, NoMemory>
        ensures { IfOk result (λ made. made ≡ no_rows) }
    {
        let values = rows as usize * fields as usize;
        Ok(RowsWriter {
            words: TextRegion::with_capacity(alloc, values, values * USUAL_BYTES)?,
            longer: BTreeMap::new(alloc),
            cells: Vec::with_capacity(alloc, values)?,
            ends: Vec::with_capacity(alloc, rows as usize)?,
            begun: 0,
        })
    }

    /// Appends a word to the open row, and keeps a copy of it. A word of more than 255 bytes that comes again is not kept again.
    #[inline(always)]
    pub fn add_word(&mut self, word: &[u8]) -> Result<(), NoMemory>
        requires { sum_by length self.old.rows + length self.old.row < 2 ^ 32 }
        ensures { OnOk result (self.new ≡ with_value self.old (value.Word word.now)) }
    {
        self.cells.reserve(1)?;
        let cell = word_cell(&mut self.words, &mut self.longer, word)?;
        self.cells.push_reserved(cell);
        Ok(())
    }

    /// Appends a day to the open row.
    pub fn add_day(&mut self, day: i32) -> Result<(), NoMemory>
        ensures { OnOk result (self.new ≡ with_value self.old (value.Day day)) }
    {
        self.cells.push(Cell::Day(day))?;
        Ok(())
    }

    /// Appends a missing value to the open row.
    pub fn add_absent(&mut self) -> Result<(), NoMemory>
        ensures { OnOk result (self.new ≡ with_value self.old value.Absent) }
    {
        self.cells.push(Cell::Absent)?;
        Ok(())
    }

    /// Makes a row of the values of the open row, and opens the next one.
    pub fn close(&mut self) -> Result<(), NoMemory>
        ensures { OnOk result (self.new ≡ with_row self.old) }
    {
        let end = end_behind(self.cells.len(), 0)?;
        self.ends.push(end)?;
        self.begun = end as usize;
        Ok(())
    }

    /// The rows. None is open.
    pub fn finish(self) -> StdRows
        requires { self.row ≡ [] }
        ensures { result ≡ self.rows }
    {
        StdRows::of(self.words, self.cells, self.ends)
    }
}

// The place of a word among the words, if one with its hash stands there that is the same.
#[inline(never)]
fn place_of(words: &TextRegion, longer: &BTreeMap<u32, u32>, word: &[u8]) -> Option<u32>
    ensures within { IfSome result (λ at. at < length words.now) }
    ensures text { IfSome result (λ at. slice_index_or words.now at [] ≡ word.now) }
{
    let at = *longer.get(&hash(word))?;
    if at as usize >= words.len() {
        return None;
    }
    if words.get(at as usize) == word {
        return Some(at);
    }
    None
}

// The cell of a word, which goes behind the words unless it is a longer one and stands among them.
#[inline(always)]
fn word_cell(
    words: &mut TextRegion,
    longer: &mut BTreeMap<u32, u32>,
    word: &[u8],
) -> Result<Cell, NoMemory>
    requires { length words.old < 2 ^ 32 }
    ensures begun { BeginsAs words.old words.new }
    ensures few { length words.new ≤ length words.old + 1 }
    ensures placed { IfOk result (IsPlaced (length words.new)) }
    ensures value { IfOk result (λ cell. value_in words.new cell ≡ value.Word word.now) }
    ensures err { OnErr result (words.new ≡ words.old) }
{
    if word.len() > MOST_COPIED {
        if let Some(at) = place_of(words, longer, word) {
            return Ok(Cell::Word(at));
        }
        if longer.insert(hash(word), words.len() as u32).is_err() {
            return Err(NoMemory);
        }
    }
    let at = words.len() as u32;
    words.push(word)?;
    Ok(Cell::Word(at))
}

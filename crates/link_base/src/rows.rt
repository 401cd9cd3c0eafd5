// The values of records, row by row.
ghost use Rattle.std.specs.Prelude.{◌≡◌, ◌<◌, [], IfOk, length, replicate, slice_index_or};
ghost use Rattle.link_base.specs.Region.{EndsAt, pieces_from};
ghost use Rattle.link_base.specs.Standard.{AreCells, values_in};

use crate::region::{TextRegion, piece_in};
use crate::row::Row;
use link_texts::NoMemory;
use std::alloc::Global;
use std::marker::Model;

// A value of a record, whose word stands among the words of its file.
#[derive(Clone, Copy)]
pub(crate) enum Cell {
    Absent,
    // The place of the word.
    Word(u32),
    Day(i32),
}

/// Rows of standard values, which contracts see as the list of them. The words of all rows stand in one region of bytes, and no
/// value has memory of its own.
#[derive(Drop)]
pub struct StdRows {
    words: TextRegion,
    cells: Vec<Cell>,
    // Where each row ends among the cells; it begins where the one before it ends.
    ends: Vec<u32>,
}

impl Model for StdRows {
    ghost use Rattle.std.specs.Prelude.{List, length};
    ghost use Rattle.link_base.specs.Region.{EndsAt, pieces_from};
    ghost use Rattle.link_base.specs.Standard.{AreCells, values_in};
    ghost use Rattle.link_base.specs.declared.standard.Value.{Value as FieldValue};

    ghost Value = { List (List FieldValue) };

    ghost view = { λ r. pieces_from (values_in r.words r.cells.items) 0 r.ends.items };

    ghost invariant = { λ r. EndsAt (length r.cells.items) 0 r.ends.items × AreCells r.words r.cells.items };
}

impl StdRows {
    // The rows of these cells, which end at these places.
    pub(crate) fn of(words: TextRegion, cells: Vec<Cell>, ends: Vec<u32>) -> StdRows
        requires rising { EndsAt (length cells.items) 0 ends.items }
        requires cells { AreCells words cells.items }
        ensures { result ≡ pieces_from (values_in words cells.items) 0 ends.items }
    {
        StdRows { words, cells, ends }
    }

    // So many rows of no values.
    pub(crate) fn empty(alloc: Global, count: usize) -> Result<StdRows, NoMemory>
        ensures { IfOk result (λ rows. rows ≡ replicate count []) }
    {
        Ok(StdRows {
            words: TextRegion::new(alloc),
            cells: Vec::new(alloc),
            ends: vec![in alloc; 0; count]?,
        })
    }

    /// The number of rows.
    pub fn len(&self) -> usize
        ensures { result ≡ length self.now }
    {
        self.ends.len()
    }

    /// The row at a place, from 0.
    pub fn row(&self, at: usize) -> Row<'_>
        requires { at < length self.now }
        ensures { result ≡ slice_index_or self.now at [] }
    {
        Row::of(&self.words, piece_in(&self.cells, &self.ends, at))
    }
}

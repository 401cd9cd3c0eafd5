// The table of a file.
ghost use Rattle.std.specs.Prelude.{◌≡◌, ◌<◌, ◌*◌, ◌++◌, [], IfOk, length, OnOk, slice_index_or};
ghost use Rattle.file_reader.specs.Rows.{AreIdsFor, no_row, rows_in, table_rows};
ghost use Rattle.file_reader.specs.Takers.{HasCells};

use crate::layout::Layout;
use crate::taker::{RowFields, RowTaker, TableIds};
use link_base::{IdSet, NoMemory, TextRegion};
use std::alloc::Global;
use std::marker::Model;

// The fields of rows, side by side: how many each row has, and how many rows there may be.
#[derive(Drop)]
pub(crate) struct Cells {
    width: usize,
    most: u32,
    cells: TextRegion,
}

impl Cells {
    // No rows, of what a layout wants.
    pub(crate) fn of(alloc: Global, layout: &Layout) -> Result<Cells, NoMemory>
        ensures { IfOk result (λ made. made ≡ record { width = length layout.now.columns.items; most = layout.now.most_rows; cells = [] }) }
    {
        let cells = TextRegion::with_capacity(alloc, 0, 0)?;
        Ok(Cells {
            width: layout.columns.len(),
            most: layout.most_rows,
            cells,
        })
    }
}

// Appends the fields of a row.
fn push_fields(cells: &mut TextRegion, row: &RowFields<'_>) -> Result<(), NoMemory>
    ensures { OnOk result (cells.new ≡ cells.old ++ row.now) }
{
    for at in 0..row.len() {
        cells.push(row.field(at))?;
    }
    Ok(())
}

impl RowTaker for Cells {
    ghost width = { λ c. c.width };

    ghost most = { λ c. c.most };

    ghost took = { λ before rows c. HasCells c.width c.cells rows };

    fn make_room(&mut self, alloc: Global, rows: u32, bytes: usize) -> Result<(), NoMemory> {
        let fields = (rows as usize).saturating_mul(self.width);
        self.cells = TextRegion::with_capacity(alloc, fields.min(bytes), bytes)?;
        Ok(())
    }

    fn take(&mut self, alloc: Global, row: &RowFields<'_>) -> Result<(), NoMemory> {
        push_fields(&mut self.cells, row)?;
        Ok(())
    }
}

/// The needed columns of a file, which contracts see as the list of its rows, each with its id and its
/// other fields. A row's position is its number from 0.
#[derive(Drop)]
pub struct Table {
    // The ids of the rows, or none where the file has no ids.
    ids: IdSet,
    // The number of fields of each row, and of rows.
    width: usize,
    rows: u32,
    // The fields, row by row.
    cells: TextRegion,
}

impl Model for Table {
    ghost use Rattle.std.specs.Prelude.{◌≡◌, ◌*◌, List, length};
    ghost use Rattle.file_reader.specs.Rows.{AreIdsFor, table_rows, TableRow};

    ghost Value = { List TableRow };

    ghost view = { λ t. table_rows t.rows t.width t.cells t.ids };

    ghost invariant = { λ t. (length t.cells ≡ t.rows * t.width) × AreIdsFor t.rows t.ids };
}

impl Table {
    // The table of the rows with these ids, whose fields these are.
    pub(crate) fn new(told: TableIds, cells: Cells) -> Table
        requires whole { length cells.cells ≡ told.rows * cells.width }
        requires ids { AreIdsFor told.rows told.ids }
        ensures { result ≡ table_rows told.rows cells.width cells.cells told.ids }
    {
        Table {
            ids: told.ids,
            width: cells.width,
            rows: told.rows,
            cells: cells.cells,
        }
    }

    /// The number of rows.
    pub fn rows(&self) -> u32
        ensures { result ≡ length self.now }
    {
        self.rows
    }

    /// The id of the row at a position, or nothing where the file has no ids.
    pub fn id(&self, at: u32) -> &[u8]
        requires { at < length self.now }
        ensures { result.now ≡ (slice_index_or self.now at no_row).id }
    {
        if at < self.ids.len() {
            self.ids.id(at)
        } else {
            b""
        }
    }

    /// A field of the row at a position, by its place among the needed columns after the id.
    pub fn field(&self, at: u32, column: u32) -> &[u8]
        requires row { at < length self.now }
        requires column { column < length (slice_index_or self.now at no_row).fields }
        ensures { result.now ≡ slice_index_or (slice_index_or self.now at no_row).fields column [] }
    {
        cell_of(&self.cells, self.rows, self.width, at, column as usize)
    }
}

// A cell of one of so many rows of so many cells each.
fn cell_of(cells: &TextRegion, rows: u32, width: usize, at: u32, place: usize) -> &[u8]
    requires whole { length cells.now ≡ rows * width }
    requires row { at < rows }
    requires place { place < width }
    ensures { result.now ≡ slice_index_or (slice_index_or (rows_in rows width cells.now) at []) place [] }
{
    let _len = cells.len();
    cells.get(at as usize * width + place)
}

// The capacities in a file, row by row.
ghost use Rattle.std.specs.Prelude.{◌≡◌, ◌≤◌, ◌<◌, ◌+◌, IfOk, IfSome, length, slice_index_or};
ghost use Rattle.link_base.specs.Fault.{Gives, IsAnswer};
ghost use Rattle.link_limits.specs.declared.TheConstants.{MOST_CAPACITY, MOST_ROWS};
ghost use Rattle.file_reader.specs.Rows.{no_row};
ghost use Rattle.file_reader.specs.Table.{HasWidth};
ghost use Rattle.candidate_links.specs.Capacities.{AreCapacities, IsCapacityLayout, IsCapacityTable, IsListed, capacities_by, capacities_in, capacities_wanted, capacity_in, capacity_named};

use crate::capacities::Capacities;
use csv_rows::read_decimal;
use file_reader::{Layout, Table, known_record, read_table};
use link_base::{Fault, FileRole, NoMemory, StdFile, Text, distinct_ids};
use link_limits::{MOST_CAPACITY, MOST_ROWS};
use std::alloc::Global;

fn layout(alloc: Global) -> Result<Layout, NoMemory>
    ensures { IfOk result IsCapacityLayout }
{
    let mut columns = Vec::new(alloc);
    columns.push(Text::new(alloc, b"capacity")?)?;
    Ok(Layout {
        delimiter: b',',
        id: Some(Text::new(alloc, b"id_b")?),
        columns,
        most_rows: MOST_ROWS,
    })
}

// The capacity that a text writes.
fn capacity_of(text: &[u8]) -> Option<u32>
    ensures value { result ≡ capacity_named text.now }
    ensures allowed { IfSome result (λ capacity. capacity ≤ MOST_CAPACITY) }
{
    read_decimal(text, MOST_CAPACITY)
}

// The position of the record of B that a row names, and the capacity that it gives.
#[derive(Drop)]
pub(crate) struct Listed {
    at: u32,
    capacity: u32,
}

// What the row at a position lists.
fn listed_at(alloc: Global, table: &Table, at: u32, b: &StdFile) -> Result<Listed, Fault>
    requires within { at < length table.now }
    requires width { HasWidth capacities_wanted table.now }
    requires few { length table.now ≤ MOST_ROWS }
    ensures answer { Gives (λ listed. listed.capacity) (capacity_in b.now (at + 1) (slice_index_or table.now at no_row)) result }
    ensures listed { IfOk result (IsListed b.now (slice_index_or table.now at no_row).id) }
{
    let row = at + 1;
    let of_b = match known_record(alloc, FileRole::Capacities, row, b"id_b", table.id(at), b) {
        Ok(of_b) => of_b,
        Err(fault) => return Err(fault),
    };
    match capacity_of(table.field(at, 0)) {
        Some(capacity) => Ok(Listed { at: of_b, capacity }),
        None => Err(Fault::BadCapacity { row }),
    }
}

// The capacities of the records of B by the rows of a table: 1 where no row names the record.
fn capacities_of(alloc: Global, table: &Table, b: &StdFile) -> Result<Vec<u32>, Fault>
    requires { IsCapacityTable table.now }
    ensures answer { Gives (λ each. each.items) (capacities_by b.now table.now) result }
    ensures capacities { IfOk result (λ each. AreCapacities b.now each.items) }
{
    distinct_ids(b);
    let mut each = vec![in alloc; 1u32; b.rows() as usize]?;
    for at in 0..table.rows() {
        match listed_at(alloc, table, at, b) {
            Ok(listed) => each[listed.at as usize] = listed.capacity,
            Err(fault) => return Err(fault),
        }
    }
    Ok(each)
}

/// The capacities of the records of B, as a file lists them: `id_b,capacity` in a row for a record, 1 for a record that is not
/// listed. A capacity is at most [`MOST_CAPACITY`], in decimal digits without a leading zero. Or the first fault of the file:
/// that of its table, and else that of its first row that names no record of B, or has no capacity.
pub fn read_capacities(alloc: Global, bytes: &[u8], b: &StdFile) -> Result<Capacities, Fault>
    ensures answer { IsAnswer (capacities_in b.now bytes.now) result }
    ensures capacities { IfOk result (AreCapacities b.now) }
{
    let layout = layout(alloc)?;
    match read_table(alloc, bytes, FileRole::Capacities, &layout) {
        Ok(table) => match capacities_of(alloc, &table, b) {
            Ok(each) => Ok(Capacities::new(each)),
            Err(fault) => Err(fault),
        },
        Err(fault) => Err(fault),
    }
}

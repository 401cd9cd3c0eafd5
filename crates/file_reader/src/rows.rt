// The rows of a table.
ghost use Rattle.std.specs.Prelude.{◌≡◌, ◌≤◌, ◌<◌, [], IfOk, is_some, IsTrue, length};
ghost use Rattle.csv.specs.Records.{fields_of};
ghost use Rattle.file_reader.specs.Table.{records_in, header_fault, id_fault, length_fault, row_fault, rows_read, table_of, taken, Tests, text_fault, under_header, utf8_fault};
ghost use Rattle.link_base.specs.Fault.{IsAnswer};
ghost use Rattle.file_reader.specs.Rows.{field_columns, heading_of, heading_under, needed_of, wanted_of};
ghost use Rattle.file_reader.specs.Reader.{FillsRows, KeepsId, TakesTableRow};
ghost use Rattle.file_reader.specs.Takers.{IsTableFor, ReadsInto};

use crate::fields::{are_plain, field_of, is_text};
use crate::header::{find_columns, needed_names, test_header};
use crate::layout::{Column, Head, Layout};
use crate::records::Records;
use crate::room::Room;
use crate::table::{Cells, Table};
use crate::taker::{RowFields, RowTaker, TableIds};
use csv::ByteRecord;
use link_base::{Fault, FileRole, IdSet, NoMemory, Text};
use link_limits::MOST_FIELD_BYTES;
use std::alloc::Global;

// Tests that the needed fields of a row are texts.
#[inline(never)]
fn test_utf8(alloc: Global, head: &Head, number: u32, row: &ByteRecord) -> Result<(), Fault>
    ensures fault { Tests (utf8_fault (heading_of head.now) number (fields_of row.now)) result }
{
    for needed in &head.columns {
        if !is_text(field_of(row, needed.place)) {
            let column = needed.name.copy(alloc)?;
            return Err(Fault::NotUtf8 {
                role: head.role,
                row: number,
                column,
            });
        }
    }
    Ok(())
}

// Tests that the needed fields of a row are not too long.
#[inline(never)]
fn test_lengths(alloc: Global, head: &Head, number: u32, row: &ByteRecord) -> Result<(), Fault>
    ensures fault { Tests (length_fault (heading_of head.now) number (fields_of row.now)) result }
{
    for needed in &head.columns {
        if field_of(row, needed.place).len() > MOST_FIELD_BYTES {
            let column = needed.name.copy(alloc)?;
            return Err(Fault::FieldTooLong {
                role: head.role,
                row: number,
                column,
            });
        }
    }
    Ok(())
}

// Tests the needed fields of a row, which are mostly short and ASCII together.
#[inline(always)]
fn test_texts(alloc: Global, head: &Head, number: u32, row: &ByteRecord) -> Result<(), Fault>
    ensures fault { Tests (text_fault (heading_of head.now) number (fields_of row.now)) result }
{
    let bytes = row.as_slice();
    if bytes.len() <= MOST_FIELD_BYTES && are_plain(bytes) {
        return Ok(());
    }
    match test_utf8(alloc, head, number, row) {
        Ok(()) => {}
        Err(fault) => return Err(fault),
    }
    test_lengths(alloc, head, number, row)
}

// Tests an id, and keeps it.
#[inline(always)]
fn keep_id(
    alloc: Global,
    role: FileRole,
    number: u32,
    id: &[u8],
    ids: &mut IdSet,
) -> Result<(), Fault>
    requires { length ids.old < number }
    ensures fault { KeepsId (id_fault role number id.now ids.old) id.now ids.old ids.new result }
{
    if id.is_empty() {
        return Err(Fault::EmptyId { role, row: number });
    }
    match ids.keep(alloc, id) {
        Ok(Some(place)) => Err(Fault::RepeatedId {
            role,
            row: number,
            first: place as u32 + 1,
        }),
        Ok(None) => Ok(()),
        Err(NoMemory) => Err(Fault::NoMemory),
    }
}

// The id of a row, or nothing.
fn id_in<'r>(head: &Head, row: &'r ByteRecord) -> &'r [u8]
    ensures { result.now ≡ (taken (heading_of head.now) (fields_of row.now)).id }
{
    match head.columns.first() {
        Some(column) if head.has_id => field_of(row, column.place),
        _ => b"",
    }
}

// Tests a row, and keeps its id.
#[inline(always)]
fn take_row(
    alloc: Global,
    head: &Head,
    number: u32,
    ids: &mut IdSet,
    row: &ByteRecord,
) -> Result<(), Fault>
    requires fresh { length ids.old < number }
    requires few { number ≤ head.now.most_rows }
    ensures fault { TakesTableRow (row_fault (heading_of head.now) number ids.old (fields_of row.now)) (heading_of head.now) (fields_of row.now) ids.old ids.new result }
{
    if row.len() != head.width {
        return Err(Fault::Ragged {
            role: head.role,
            row: number,
        });
    }
    match test_texts(alloc, head, number, row) {
        Ok(()) => {}
        Err(fault) => return Err(fault),
    }
    if head.has_id {
        return keep_id(alloc, head.role, number, id_in(head, row), ids);
    }
    Ok(())
}

// The needed columns after the id.
fn columns_after_id(head: &Head) -> &[Column]
    requires { IsTrue head.now.has_id → 1 ≤ length head.now.columns.items }
    ensures { result.now ≡ field_columns (heading_of head.now) }
{
    if head.has_id {
        &head.columns[1..]
    } else {
        &head.columns
    }
}

// Hands the rows that are left to a taker, for which room is made, and tells how many they are.
fn fill_rows<T: RowTaker>(
    alloc: Global,
    left: &mut Records<'_>,
    row: &mut ByteRecord,
    head: &Head,
    room: Room,
    ids: &mut IdSet,
    taker: &mut T,
) -> Result<u32, Fault>
    requires id { IsTrue head.now.has_id → 1 ≤ length head.now.columns.items }
    requires no_ids { ids.old ≡ [] }
    requires width { T.width taker.old ≡ length (field_columns (heading_of head.now)) }
    requires most { head.now.most_rows ≤ T.most taker.old }
    requires none { T.took taker.old [] taker.old }
    ensures answer { FillsRows head.now.has_id head.now.most_rows (λ rows. T.took taker.old rows taker.new) (rows_read (heading_of head.now) [] left.old) ids.new result }
{
    taker.make_room(alloc, room.rows, room.bytes)?;
    let columns = columns_after_id(head);
    let mut rows: u32 = 0;
    'rows: while left.next(row)? {
        if rows >= head.most_rows {
            return Err(Fault::TooManyRows {
                role: head.role,
                limit: u64::from(head.most_rows),
            });
        }
        rows += 1;
        match take_row(alloc, head, rows, ids, row) {
            Ok(()) => taker.take(alloc, &RowFields::of(columns, row))?,
            Err(fault) => return Err(fault),
        }
    }
    Ok(rows)
}

// Hands the rows that are left to a taker, and gives their ids.
fn read_left<T: RowTaker>(
    alloc: Global,
    left: &mut Records<'_>,
    row: &mut ByteRecord,
    head: &Head,
    room: Room,
    taker: &mut T,
) -> Result<TableIds, Fault>
    requires id { IsTrue head.now.has_id → 1 ≤ length head.now.columns.items }
    requires width { T.width taker.old ≡ length (field_columns (heading_of head.now)) }
    requires most { head.now.most_rows ≤ T.most taker.old }
    requires none { T.took taker.old [] taker.old }
    ensures answer { ReadsInto head.now.has_id head.now.most_rows (λ rows. T.took taker.old rows taker.new) (rows_read (heading_of head.now) [] left.old) result }
{
    let mut ids = room.for_ids(alloc, head)?;
    match fill_rows(alloc, left, row, head, room, &mut ids, taker) {
        Ok(rows) => Ok(TableIds { ids, rows }),
        Err(fault) => Err(fault),
    }
}

// The file under a header, or the fault of the header.
fn head_of(
    alloc: Global,
    role: FileRole,
    layout: &Layout,
    names: &[Text],
    row: &ByteRecord,
) -> Result<Head, Fault>
    requires { names.now ≡ needed_of (wanted_of layout.now) }
    ensures fault { Tests (header_fault role (needed_of (wanted_of layout.now)) (fields_of row.now)) result }
    ensures heading { IfOk result (λ head. heading_of head ≡ heading_under role (wanted_of layout.now) (fields_of row.now)) }
{
    match test_header(alloc, role, names, row) {
        Ok(()) => {}
        Err(fault) => return Err(fault),
    }
    let columns = find_columns(alloc, names, row)?;
    Ok(Head {
        role,
        most_rows: layout.most_rows,
        width: row.len(),
        has_id: layout.id.is_some(),
        columns,
    })
}

// Hands the rows under a header to a taker.
fn read_under<T: RowTaker>(
    alloc: Global,
    left: &mut Records<'_>,
    row: &mut ByteRecord,
    role: FileRole,
    layout: &Layout,
    room: Room,
    taker: &mut T,
) -> Result<TableIds, Fault>
    requires width { T.width taker.old ≡ length layout.now.columns.items }
    requires most { layout.now.most_rows ≤ T.most taker.old }
    requires none { T.took taker.old [] taker.old }
    ensures answer { ReadsInto (is_some layout.now.id) layout.now.most_rows (λ rows. T.took taker.old rows taker.new) (under_header role (wanted_of layout.now) (fields_of row.old) left.old) result }
{
    let names = needed_names(alloc, layout)?;
    match head_of(alloc, role, layout, &names, row) {
        Ok(head) => read_left(alloc, left, row, &head, room, taker),
        Err(fault) => Err(fault),
    }
}

// Hands the rows of the records that are left, of which the first is the header, to a taker.
fn read_records<T: RowTaker>(
    alloc: Global,
    left: &mut Records<'_>,
    row: &mut ByteRecord,
    role: FileRole,
    layout: &Layout,
    room: Room,
    taker: &mut T,
) -> Result<TableIds, Fault>
    requires width { T.width taker.old ≡ length layout.now.columns.items }
    requires most { layout.now.most_rows ≤ T.most taker.old }
    requires none { T.took taker.old [] taker.old }
    ensures answer { ReadsInto (is_some layout.now.id) layout.now.most_rows (λ rows. T.took taker.old rows taker.new) (table_of role (wanted_of layout.now) left.old) result }
{
    match left.next(row) {
        Ok(true) => read_under(alloc, left, row, role, layout, room, taker),
        Ok(false) => Err(Fault::NoHeader { role }),
        Err(NoMemory) => Err(Fault::NoMemory),
    }
}

/// Reads a CSV file (RFC 4180) and hands the needed fields of each row to a taker that has taken none, as the row is
/// read, or tells the first fault of the file: of the header, and else of the first row at fault. One byte order mark at
/// the start is dropped. Columns that are not needed are not looked at.
pub fn read_rows<T: RowTaker>(
    alloc: Global,
    bytes: &[u8],
    role: FileRole,
    layout: &Layout,
    taker: &mut T,
) -> Result<TableIds, Fault>
    requires width { T.width taker.old ≡ length layout.now.columns.items }
    requires most { layout.now.most_rows ≤ T.most taker.old }
    requires none { T.took taker.old [] taker.old }
    ensures answer { ReadsInto (is_some layout.now.id) layout.now.most_rows (λ rows. T.took taker.old rows taker.new) (table_of role (wanted_of layout.now) (records_in layout.now.delimiter bytes.now)) result }
{
    let mut left = Records::new(alloc, bytes, layout.delimiter);
    let mut row = ByteRecord::new(alloc);
    let room = Room::of(bytes, layout.most_rows);
    read_records(alloc, &mut left, &mut row, role, layout, room, taker)
}

/// The table of a CSV file (RFC 4180), or its first fault: of the header, and else of the first row at
/// fault. One byte order mark at the start is dropped. Columns that are not needed are not looked at.
pub fn read_table(
    alloc: Global,
    bytes: &[u8],
    role: FileRole,
    layout: &Layout,
) -> Result<Table, Fault>
    ensures sound { IfOk result (IsTableFor (wanted_of layout.now)) }
    ensures answer { IsAnswer (table_of role (wanted_of layout.now) (records_in layout.now.delimiter bytes.now)) result }
{
    let mut cells = Cells::of(alloc, layout)?;
    match read_rows(alloc, bytes, role, layout, &mut cells) {
        Ok(told) => Ok(Table::new(told, cells)),
        Err(fault) => Err(fault),
    }
}

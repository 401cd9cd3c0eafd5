// The header of a table.
ghost use Rattle.std.specs.Prelude.{◌≡◌, ◌++◌, ◌∷◌, [], IfOk, OnOk};
ghost use Rattle.csv.specs.Records.{fields_of};
ghost use Rattle.file_reader.specs.Table.{records_in, header_fault, missing_fault, repeated_fault, Tests};
ghost use Rattle.file_reader.specs.Rows.{header_has, column_in, columns_of, needed_of, wanted_of};

use crate::fields::{count_of, place_of};
use crate::layout::{Column, Layout};
use crate::records::Records;
use csv::ByteRecord;
use link_base::{Fault, FileRole, NoMemory, Text};
use link_limits::MOST_COLUMNS;
use std::alloc::Global;

// Appends a copy of a name.
fn push_name(alloc: Global, names: &mut Vec<Text>, name: &Text) -> Result<(), NoMemory>
    ensures { OnOk result (names.new.items ≡ names.old.items ++ name.now ∷ []) }
{
    let name = name.copy(alloc)?;
    names.push(name)?;
    Ok(())
}

// Appends copies of names.
fn push_names(alloc: Global, names: &mut Vec<Text>, more: &[Text]) -> Result<(), NoMemory>
    ensures { OnOk result (names.new.items ≡ names.old.items ++ more.now) }
{
    for name in more {
        push_name(alloc, names, name)?;
    }
    Ok(())
}

// The names of the needed columns, the id first.
pub(crate) fn needed_names(alloc: Global, layout: &Layout) -> Result<Vec<Text>, NoMemory>
    ensures { IfOk result (λ names. names.items ≡ needed_of (wanted_of layout.now)) }
{
    let mut names = Vec::new(alloc);
    if let Some(id) = &layout.id {
        push_name(alloc, &mut names, id)?;
    }
    push_names(alloc, &mut names, &layout.columns)?;
    Ok(names)
}

// Tests that no name stands twice in a header.
fn test_repeated(
    alloc: Global,
    role: FileRole,
    names: &[Text],
    row: &ByteRecord,
) -> Result<(), Fault>
    ensures fault { Tests (repeated_fault role names.now (fields_of row.now)) result }
{
    for name in names {
        if count_of(row, name.bytes()) > 1 {
            let column = name.copy(alloc)?;
            return Err(Fault::RepeatedColumn { role, column });
        }
    }
    Ok(())
}

// Tests that each name stands in a header.
fn test_missing(
    alloc: Global,
    role: FileRole,
    names: &[Text],
    row: &ByteRecord,
) -> Result<(), Fault>
    ensures fault { Tests (missing_fault role names.now (fields_of row.now)) result }
{
    for name in names {
        if count_of(row, name.bytes()) == 0 {
            let column = name.copy(alloc)?;
            return Err(Fault::NoColumn { role, column });
        }
    }
    Ok(())
}

// Tests a header.
pub(crate) fn test_header(
    alloc: Global,
    role: FileRole,
    names: &[Text],
    row: &ByteRecord,
) -> Result<(), Fault>
    ensures fault { Tests (header_fault role names.now (fields_of row.now)) result }
{
    match test_repeated(alloc, role, names, row) {
        Ok(()) => {}
        Err(fault) => return Err(fault),
    }
    match test_missing(alloc, role, names, row) {
        Ok(()) => {}
        Err(fault) => return Err(fault),
    }
    if row.len() > MOST_COLUMNS as usize {
        let count = row.len().min(u32::MAX as usize) as u32;
        return Err(Fault::TooManyColumns {
            role,
            count,
            limit: u64::from(MOST_COLUMNS),
        });
    }
    Ok(())
}

// Appends a needed column with its place.
fn push_column(
    alloc: Global,
    columns: &mut Vec<Column>,
    name: &Text,
    row: &ByteRecord,
) -> Result<(), NoMemory>
    ensures { OnOk result (columns.new.items ≡ columns.old.items ++ column_in (fields_of row.now) name.now ∷ []) }
{
    let place = place_of(row, name.bytes());
    let name = name.copy(alloc)?;
    columns.push(Column { name, place })?;
    Ok(())
}

// The needed columns with their places.
pub(crate) fn find_columns(
    alloc: Global,
    names: &[Text],
    row: &ByteRecord,
) -> Result<Vec<Column>, NoMemory>
    ensures { IfOk result (λ columns. columns.items ≡ columns_of names.now (fields_of row.now)) }
{
    let mut columns = Vec::new(alloc);
    for name in names {
        push_column(alloc, &mut columns, name, row)?;
    }
    Ok(columns)
}

// Whether the first record that is left has a column of this name.
fn first_has(left: &mut Records<'_>, row: &mut ByteRecord, column: &[u8]) -> Result<bool, NoMemory>
    ensures { IfOk result (λ has. has ≡ header_has column.now left.old) }
{
    if left.next(row)? {
        return Ok(count_of(row, column) > 0);
    }
    Ok(false)
}

/// Whether a text has a header, its first record (RFC 4180), with a column of this name. One byte order mark at the start
/// is dropped.
pub fn has_column(
    alloc: Global,
    bytes: &[u8],
    delimiter: u8,
    column: &[u8],
) -> Result<bool, NoMemory>
    ensures { IfOk result (λ has. has ≡ header_has column.now (records_in delimiter bytes.now)) }
{
    let mut left = Records::new(alloc, bytes, delimiter);
    let mut row = ByteRecord::new(alloc);
    first_has(&mut left, &mut row, column)
}

// What is wanted of a file.
ghost use Rattle.std.specs.Prelude.{◌≡◌, IfOk, None, map};
ghost use Rattle.file_reader.specs.Rows.{wanted_of};

use link_base::{FileRole, NoMemory, Text};
use std::alloc::Global;

/// What is wanted of a file: the byte between its fields, its id column if it has one, the other needed
/// columns in order, and the most rows that it may have.
#[derive(Drop)]
pub struct Layout {
    pub delimiter: u8,
    pub id: Option<Text>,
    pub columns: Vec<Text>,
    pub most_rows: u32,
}

// Columns of these names.
fn columns_of(alloc: Global, names: &[&[u8]]) -> Result<Vec<Text>, NoMemory>
    ensures { IfOk result (λ columns. columns.items ≡ map (λ name. name.now) names.now) }
{
    let mut columns = Vec::new(alloc);
    for name in names {
        columns.push(Text::new(alloc, name)?)?;
    }
    Ok(columns)
}

impl Layout {
    /// What is wanted of a file with columns of these names between commas, none of them an id, and so many rows at most.
    pub fn of(alloc: Global, names: &[&[u8]], most_rows: u32) -> Result<Layout, NoMemory>
        ensures wanted { IfOk result (λ layout. wanted_of layout ≡ record { id = None; columns = map (λ name. name.now) names.now; most = most_rows }) }
        ensures delimiter { IfOk result (λ layout. layout.delimiter ≡ 44) }
    {
        let columns = columns_of(alloc, names)?;
        Ok(Layout {
            delimiter: b',',
            id: None,
            columns,
            most_rows,
        })
    }
}

// A needed column, and its place in the header.
#[derive(Drop)]
pub(crate) struct Column {
    pub(crate) name: Text,
    pub(crate) place: usize,
}

// A file under its header.
#[derive(Drop)]
pub(crate) struct Head {
    pub(crate) role: FileRole,
    pub(crate) most_rows: u32,
    pub(crate) width: usize,
    pub(crate) has_id: bool,
    pub(crate) columns: Vec<Column>,
}

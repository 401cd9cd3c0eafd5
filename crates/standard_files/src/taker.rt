// What makes standard values of the rows of a file as they are read.
ghost use Rattle.std.specs.Prelude.{length};
ghost use Rattle.link_limits.specs.declared.TheConstants.{MOST_ROWS};
ghost use Rattle.standard_files.specs.Kept.{HasTaken};

use crate::file_values::FileValues;
use crate::values::ValueTables;
use file_reader::{RowFields, RowTaker};
use link_base::{NoMemory, RowsWriter};
use link_limits::MOST_FIELDS;
use std::alloc::Global;

// The values that were made, and the tables that they go by.
#[derive(Drop)]
pub(crate) struct ValueTaker<'t> {
    pub(crate) tables: &'t ValueTables,
    pub(crate) values: FileValues,
}

impl<'t> RowTaker for ValueTaker<'t> {
    ghost width = { λ t. length t.values.sorts.items };

    ghost most = { λ t. MOST_ROWS };

    ghost took = { λ before rows t. HasTaken before.tables.now before.values.sorts.items t.tables.now t.values rows };

    fn make_room(&mut self, alloc: Global, rows: u32, bytes: usize) -> Result<(), NoMemory> {
        let fields = self.values.sorts.len().min(MOST_FIELDS as usize) as u8;
        self.values.rows = RowsWriter::with_capacity(alloc, rows, fields)?;
        Ok(())
    }

    fn take(&mut self, alloc: Global, row: &RowFields<'_>) -> Result<(), NoMemory> {
        self.values.take(alloc, self.tables, row)?;
        Ok(())
    }
}

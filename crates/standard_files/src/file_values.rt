// The standard values of a file, as its rows are read.
ghost use Rattle.std.specs.Prelude.{◌≡◌, ◌≤◌, ◌++◌, ◌∷◌, [], ℕ, All, List, length, IfOk, OnOk};
ghost use Rattle.link_base.specs.Standard.{HaveDistinctIds, records_of};
ghost use Rattle.link_base.specs.declared.tables.Tables.{Tables as PlanTables};
ghost use Rattle.link_limits.specs.declared.TheConstants.{MOST_FIELDS, MOST_ROWS};
ghost use Rattle.file_reader.specs.Table.{IsFieldText};
ghost use Rattle.file_reader.specs.Takers.{HasRoom};
ghost use Rattle.standard_files.specs.Files.{date_in_row};
ghost use Rattle.standard_files.specs.Kept.{HasValues};

use crate::files::StandardFile;
use crate::row::StandardRow;
use crate::sorts::TextSort;
use crate::values::ValueTables;
use file_reader::RowFields;
use link_base::{IdSet, NoMemory, RowsWriter, StdFile, distinct_ids};
use std::alloc::Global;

// Where a date stands: its row, numbered from 1, and its field.
#[derive(Clone, Copy)]
pub(crate) struct DatePlace {
    pub(crate) row: u32,
    pub(crate) field: usize,
}

// A file in standard values, and the place of its first date that cannot be read.
#[derive(Drop)]
pub(crate) struct DatedFile {
    pub(crate) file: StandardFile,
    pub(crate) first: Option<DatePlace>,
}

// What is made of the rows of a file that were read: their values and their number, the number of their dates that cannot
// be read, and the place of the first.
#[derive(Drop)]
pub(crate) struct FileValues {
    pub(crate) sorts: Vec<TextSort>,
    row: StandardRow,
    pub(crate) rows: RowsWriter,
    count: u32,
    unreadable: u32,
    first: Option<DatePlace>,
}

impl FileValues {
    // Of no rows, whose fields hold these.
    pub(crate) fn new(alloc: Global, sorts: Vec<TextSort>) -> Result<FileValues, NoMemory>
        requires { length sorts.items ≤ MOST_FIELDS }
        ensures sorts { IfOk result (λ made. made.sorts.items ≡ sorts.items) }
        ensures none { IfOk result (λ made. (t : PlanTables) → HasValues t made.sorts.items made []) }
    {
        let rows = RowsWriter::with_capacity(alloc, 0, 0)?;
        Ok(FileValues {
            sorts,
            row: StandardRow::new(alloc),
            rows,
            count: 0,
            unreadable: 0,
            first: None,
        })
    }

    // Takes the next row.
    pub(crate) fn take(
        &mut self,
        alloc: Global,
        tables: &ValueTables,
        row: &RowFields<'_>,
    ) -> Result<(), NoMemory>
        requires room { HasRoom (HasValues tables.now self.old.sorts.items self.old) MOST_ROWS }
        requires fields { length row.now ≡ length self.old.sorts.items }
        requires texts { All IsFieldText row.now }
        ensures sorts { self.new.sorts.items ≡ self.old.sorts.items }
        ensures kept { OnOk result ((rows : List (List (List ℕ))) → HasValues tables.now self.old.sorts.items self.old rows → HasValues tables.now self.new.sorts.items self.new (rows ++ row.now ∷ [])) }
    {
        self.row
            .take_in(alloc, tables, &self.sorts, row, &mut self.rows)?;
        self.rows.close()?;
        self.count += 1;
        self.unreadable += self.row.unreadable;
        self.first = self.first.or(date_of(self.count, self.row.first));
        Ok(())
    }

    // The file of the records with these ids.
    pub(crate) fn finish(self, ids: IdSet) -> DatedFile
        requires closed { self.rows.row ≡ [] }
        requires as_many { length ids ≡ length self.rows.rows }
        ensures file { result ≡ record { file = record { records = records_of ids self.rows.rows; unreadable = self.unreadable }; first = self.first } }
        ensures distinct { HaveDistinctIds result.file.records }
    {
        let file = StdFile::of(ids, self.rows.finish());
        distinct_ids(&file);
        DatedFile {
            file: StandardFile {
                file,
                unreadable: self.unreadable,
            },
            first: self.first,
        }
    }
}

// The place of a date of a row.
fn date_of(row: u32, field: Option<usize>) -> Option<DatePlace>
    ensures { result ≡ date_in_row row field }
{
    match field {
        Some(field) => Some(DatePlace { row, field }),
        None => None,
    }
}

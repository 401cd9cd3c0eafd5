// Standard values, rows and files.
ghost use Rattle.std.specs.Prelude.{◌≡◌, ◌<◌, IfNone, IfOk, IfSome, length, slice_index_or};
ghost use Rattle.link_base.specs.Standard.{ids_alone, HaveDistinctIds, IsFreshId, no_record, position_of_id, records_of};

use crate::ids::IdSet;
use crate::row::Row;
use crate::rows::StdRows;
use link_texts::{NoMemory, Piece, Text};
use std::alloc::Global;
use std::marker::Model;

/// A standard value of a field.
#[derive(Drop)]
pub enum Value {
    /// The value is missing.
    Absent,
    /// A standard text, in UTF-8.
    Word(Text),
    /// A day, counted from 1970-01-01, which is 0.
    Day(i32),
}

/// A file in standard values, which contracts see as the list of its records. No id stands twice.
#[derive(Drop)]
pub struct StdFile {
    ids: IdSet,
    rows: StdRows,
}

impl Model for StdFile {
    ghost use Rattle.std.specs.Prelude.{◌≡◌, List, length};
    ghost use Rattle.link_base.specs.Standard.{Record, records_of};

    ghost Value = { List Record };

    ghost view = { λ f. records_of f.ids f.rows };

    ghost invariant = { λ f. length f.ids ≡ length f.rows };
}

impl StdFile {
    /// The file of the records with these ids and these rows, in order.
    pub fn of(ids: IdSet, rows: StdRows) -> StdFile
        requires as_many { length ids ≡ length rows }
        ensures { result ≡ records_of ids rows }
    {
        StdFile { ids, rows }
    }

    /// The file of the same ids without any values, whose ids take as much memory as they need where they rise.
    pub fn ids_alone(self, alloc: Global) -> Result<StdFile, NoMemory>
        ensures { IfOk result (λ file. file ≡ ids_alone self) }
    {
        let count = self.rows.len();
        drop(self.rows);
        let ids = self.ids.copied(alloc)?;
        let rows = StdRows::empty(alloc, count)?;
        Ok(StdFile { ids, rows })
    }

    /// The number of records.
    pub fn rows(&self) -> u32
        ensures { result ≡ length self.now }
    {
        self.ids.len()
    }

    /// The id of the record at a position.
    pub fn id(&self, at: u32) -> &[u8]
        requires { at < length self.now }
        ensures { result.now ≡ (slice_index_or self.now at no_record).id }
    {
        self.id_piece(at).text()
    }

    /// The id of the record at a position, as a piece of the room of all ids.
    pub fn id_piece(&self, at: u32) -> Piece<'_>
        requires { at < length self.now }
        ensures { result ≡ (slice_index_or self.now at no_record).id }
    {
        self.ids.piece(at)
    }

    /// The values of the record at a position.
    pub fn row(&self, at: u32) -> Row<'_>
        requires { at < length self.now }
        ensures { result ≡ (slice_index_or self.now at no_record).row }
    {
        self.rows.row(at as usize)
    }

    /// The position of the record with an id, found by an index. `None` exactly where no record has it.
    pub fn find(&self, id: &[u8]) -> Option<u32>
        ensures position { result ≡ position_of_id id.now self.now }
        ensures within { IfSome result (λ at. at < length self.now) }
        ensures fresh { IfNone result (IsFreshId id.now self.now) }
    {
        self.ids.find(id)
    }
}

/// Law: the ids of a file's records are distinct.
pub fn distinct_ids(file: &StdFile)
    ensures { HaveDistinctIds file.now }
{
    file.ids.distinct();
}

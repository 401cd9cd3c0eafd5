// The rows of a file by the ids of their keys.
ghost use Rattle.std.specs.Prelude.{◌≡◌, ℕ, List, length, option_map, IfOk, Some};
ghost use Rattle.block_passes.specs.Ids.{AreAllHeld, id_key_in, rows_with_ids};
ghost use Rattle.block_passes.specs.Numbering.{bytes_of_ids};
ghost use Rattle.block_passes.specs.IndexRows.{id_index_rows};
ghost use Rattle.block_passes.specs.Keys.{AreReady, row_at};

use crate::coded_rows::{CodedRows, RowsByCode};
use crate::ids::{IdKey, id_key};
use link_base::{NoMemory, StdFile};
use std::alloc::Global;
use value_forms::Pass;
use value_pool::Pool;

// The keys of the rows of a file in a pass as ids of a pool.
#[derive(Drop)]
struct PooledKeys<'f> {
    alloc: Global,
    file: &'f StdFile,
    pass: &'f Pass,
    pool: &'f Pool,
}

impl<'f> CodedRows for PooledKeys<'f> {
    ghost count = { λ k. length k.file.now };

    ghost code_of = { λ k at. option_map bytes_of_ids (id_key_in k.pool.now.texts (row_at k.file.now at) k.pass.now) };

    ghost are_ready = { λ k. AreReady k.pass.now k.file.now × AreAllHeld k.pool.now.texts k.pass.now k.file.now };

    fn rows(&self) -> u32 {
        self.file.rows()
    }

    fn put_code(&self, at: u32, code: &mut Vec<u8>) -> Result<bool, NoMemory> {
        code.clear();
        match id_key(self.alloc, &self.file.row(at), self.pass, self.pool)? {
            None => Ok(false),
            Some(key) => {
                code.extend_from_slice(key.code())?;
                Ok(true)
            }
        }
    }
}

/// The rows of a file by the ids of their keys in a blocking pass. What it gives for the ids of a
/// key is the word `id_index_rows`.
#[derive(Drop)]
pub struct IdIndex {
    rows: RowsByCode,
}

impl IdIndex {
    /// The rising list of the positions whose ids are those of this key. It takes no memory.
    #[tactic(auto, unfolding(crate::specs::IndexRows::id_index_rows))]
    pub fn rows_of(&self, key: &IdKey) -> &[u32]
        ensures { result.now ≡ id_index_rows self.now key.now }
    {
        let rows = &self.rows;
        rows.groups.rows(rows.numbering.place(key.code()))
    }
}

/// The index of a file by the ids of its rows' keys in a blocking pass: for each key the rising
/// list of the positions of the rows that have it.
pub fn build_index_in(
    alloc: Global,
    file: &StdFile,
    pass: &Pass,
    pool: &Pool,
) -> Result<IdIndex, NoMemory>
    requires ready { AreReady pass.now file.now }
    requires held { AreAllHeld pool.now.texts pass.now file.now }
    ensures { IfOk result (λ index. (ids : List ℕ) → id_index_rows index ids ≡ rows_with_ids pool.now.texts pass.now file.now (Some ids)) }
{
    let keys = PooledKeys {
        alloc,
        file,
        pass,
        pool,
    };
    let rows = RowsByCode::of(alloc, &keys)?;
    Ok(IdIndex { rows })
}

// The rows of a file by their keys.
ghost use Rattle.std.specs.Prelude.{◌≡◌, ◌<◌, ◌^◌, ℕ, List, [], length, map, slice_index_or, IfOk, Some};
ghost use Rattle.block_passes.specs.Ids.{AreAllHeld};
ghost use Rattle.block_passes.specs.IndexRows.{index_rows};
ghost use Rattle.block_passes.specs.Keys.{AreReady, row_at, rows_with_key, rows_with_number, key_ids, key_in_pass};
ghost use Rattle.block_passes.specs.CodedRows.{AreByCode};
ghost use Rattle.block_passes.specs.PassIds.{AreByPart};

use crate::coded_rows::{CodedRows, RowsByCode};
use crate::codes::FileKeys;
use crate::groups::Groups;
use crate::keys::PassKey;
use crate::part_ids::KeyedPool;
use crate::pass_ids::{PassIds, part_numbers};
use link_base::{NoMemory, StdFile};
use std::alloc::Global;
use std::marker::Model;
use value_forms::{Pass, PassList};

/// The rows of a file by their keys in a blocking pass. What it gives for a key is the
/// word `index_rows`.
#[derive(Drop)]
pub struct Index {
    rows: RowsByCode,
}

impl Index {
    /// The rising list of the positions whose key is equal to this one.
    #[tactic(auto, unfolding(crate::specs::IndexRows::index_rows))]
    pub fn rows_of(&self, key: &PassKey) -> &[u32]
        ensures { result.now ≡ index_rows self.now key.now }
    {
        let rows = &self.rows;
        rows.groups.rows(rows.numbering.place(key.code()))
    }
}

/// The index of a file by the keys of its rows in a blocking pass: for each key the rising list of
/// the positions of the rows that have it.
pub fn build_index(alloc: Global, file: &StdFile, pass: &Pass) -> Result<Index, NoMemory>
    requires { AreReady pass.now file.now }
    ensures { IfOk result (λ index. (key : List (List ℕ)) → index_rows index key ≡ rows_with_key pass.now file.now (Some key)) }
{
    let rows = RowsByCode::of(alloc, &FileKeys { file, pass })?;
    Ok(Index { rows })
}

/// For each row of a file the rows of another that have its key in a pass, or its number, which contracts see as
/// the list of these lists.
#[derive(Drop)]
pub struct PassRows {
    numbers: Vec<u32>,
    groups: Groups,
}

impl Model for PassRows {
    ghost use Rattle.std.specs.Prelude.{ℕ, List, [], map, slice_index_or};

    ghost Value = { List (List ℕ) };

    ghost view = { λ p. map (λ n. slice_index_or p.groups n []) p.numbers.items };
}

impl PassRows {
    fn of(numbers: Vec<u32>, groups: Groups) -> PassRows
        ensures { result ≡ map (λ n. slice_index_or groups n []) numbers.items }
    {
        PassRows { numbers, groups }
    }

    /// The rows of `b` for each row of `a`: the rising list of those with the same key.
    pub fn new(alloc: Global, a: &StdFile, b: &StdFile, pass: &Pass) -> Result<PassRows, NoMemory>
        requires ready_a { AreReady pass.now a.now }
        requires ready_b { AreReady pass.now b.now }
        ensures len { IfOk result (λ rows. length rows ≡ length a.now) }
        ensures rows { IfOk result (λ rows. (at : ℕ) → at < length a.now → slice_index_or rows at [] ≡ rows_with_key pass.now b.now (key_in_pass (row_at a.now at) pass.now)) }
    {
        let keys_a = FileKeys { file: a, pass };
        let keys_b = FileKeys { file: b, pass };
        let rows = PassRows::by_code(alloc, &keys_a, &keys_b)?;
        Ok(rows)
    }

    // The rows of `b` with the code of each row of `a`.
    fn by_code<K: CodedRows>(alloc: Global, a: &K, b: &K) -> Result<PassRows, NoMemory>
        requires ready_a { K.are_ready a.now }
        requires ready_b { K.are_ready b.now }
        ensures { IfOk result (AreByCode (K.code_of a.now) (K.count a.now) (K.code_of b.now) (K.count b.now)) }
    {
        let index = RowsByCode::of(alloc, b)?;
        let mut numbers = Vec::with_capacity(alloc, a.rows() as usize)?;
        let mut code = Vec::new(alloc);
        for at in 0..a.rows() {
            let has_code = a.put_code(at, &mut code)?;
            numbers.push(index.numbering.find(has_code, &code))?;
        }
        Ok(PassRows::of(numbers, index.groups))
    }

    /// The same rows in the pass `at`, by the ids of the parts of the keys in a pool: no text is made or sought.
    pub fn new_in(
        alloc: Global,
        a: &StdFile,
        b: &StdFile,
        passes: &PassList,
        at: usize,
        keyed: &KeyedPool<'_>,
    ) -> Result<PassRows, NoMemory>
        requires at { at < length passes.now }
        requires ready_a { AreReady (slice_index_or passes.now at []) a.now }
        requires ready_b { AreReady (slice_index_or passes.now at []) b.now }
        requires held_a { AreAllHeld keyed.now.pool.now.texts (slice_index_or passes.now at []) a.now }
        requires held_b { AreAllHeld keyed.now.pool.now.texts (slice_index_or passes.now at []) b.now }
        requires keys_a { keyed.now.a.now ≡ key_ids keyed.now.pool.now.texts passes.now a.now }
        requires keys_b { keyed.now.b.now ≡ key_ids keyed.now.pool.now.texts passes.now b.now }
        ensures len { IfOk result (λ rows. length rows ≡ length a.now) }
        ensures rows { IfOk result (λ rows. (j : ℕ) → j < length a.now → slice_index_or rows j [] ≡ rows_with_key (slice_index_or passes.now at []) b.now (key_in_pass (row_at a.now j) (slice_index_or passes.now at []))) }
    {
        let passes = passes.passes();
        let of_a = PassIds::of(keyed.a, passes, at, a.rows());
        let of_b = PassIds::of(keyed.b, passes, at, b.rows());
        let parts = passes[at].parts().len();
        if parts == 1 {
            let rows = PassRows::by_part(alloc, &of_a, &of_b, keyed.pool.len())?;
            return Ok(rows);
        }
        let found = PassRows::by_code(alloc, &of_a, &of_b)?;
        Ok(found)
    }

    // The rows in a pass of one part: the place of its text among those of the pool is the number of a key, so that no key is
    // numbered.
    fn by_part(
        alloc: Global,
        a: &PassIds<'_>,
        b: &PassIds<'_>,
        texts: u32,
    ) -> Result<PassRows, NoMemory>
        ensures { IfOk result (AreByPart a.now b.now texts) }
    {
        let of_b = part_numbers(alloc, b)?;
        let groups = Groups::new(alloc, &of_b, texts)?;
        let numbers = part_numbers(alloc, a)?;
        Ok(PassRows::of(numbers, groups))
    }

    /// The rows of the second file with the number of each row of the first: the rising list of those with the same number, and
    /// none where it is `count` or more.
    pub fn of_numbers(
        alloc: Global,
        numbers_a: Vec<u32>,
        numbers_b: &[u32],
        count: u32,
    ) -> Result<PassRows, NoMemory>
        requires { length numbers_b.now < 2 ^ 32 }
        ensures { IfOk result (λ rows. rows ≡ map (rows_with_number numbers_b.now count) numbers_a.items) }
    {
        let groups = Groups::new(alloc, numbers_b, count)?;
        Ok(PassRows::of(numbers_a, groups))
    }

    /// The rows of the second file for a row of the first, rising.
    pub fn rows(&self, at: u32) -> &[u32]
        requires { at < length self.now }
        ensures { result.now ≡ slice_index_or self.now at [] }
    {
        self.groups.rows(self.numbers[at as usize])
    }

    /// How many rows the first file has.
    pub fn len(&self) -> usize
        ensures { result ≡ length self.now }
    {
        self.numbers.len()
    }
}

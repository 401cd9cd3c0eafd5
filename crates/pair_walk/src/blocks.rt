// The rows of B that share a key with each row of A.
ghost use Rattle.std.specs.Prelude.{◌≡◌, ◌<◌, ◌≤◌, ◌-◌, ◌^◌, length, slice_index_or, take, IfOk, IfSome, OnOk, sum_by};
ghost use Rattle.block_passes.specs.Keys.{key_ids};
ghost use Rattle.pair_walk.specs.Joining.{AreKeyed};
ghost use Rattle.pair_walk.specs.Rows.{pairs_of_rows, AreAllReady, AreKeysHeld, all_rows, no_partners};

use crate::merging::join_row;
use crate::passes::find_passes;
use crate::walker::Walker;
use block_passes::{KeyedPool, PassRows};
use link_base::{NoMemory, StdFile};
use std::alloc::Global;
use std::marker::Model;
use value_forms::PassList;
use value_pool::{MaybeId, Pool};

// How many rows of B the first rows of a pass list, or all that can be counted.
fn listed_in(pass: &PassRows, rows: u32) -> usize
    requires { rows ≤ length pass.now }
    ensures { result < 2 ^ 64 - 1 → sum_by length (take rows pass.now) ≤ result }
{
    let mut listed = 0usize;
    for at in 0..rows {
        listed = listed.saturating_add(pass.rows(at).len());
    }
    listed
}

/// The blocks of two files: for each record of A those of B that share a key with it in some blocking pass (Newcombe et al.
/// 1959). Contracts see the list of these rows. They are walked as often as they are needed.
#[derive(Drop)]
pub struct Blocks {
    passes: Vec<PassRows>,
    width: u32,
    rows: u32,
}

impl Model for Blocks {
    ghost use Rattle.std.specs.Prelude.{List};
    ghost use Rattle.pair_walk.specs.Joining.{AreRising, AreAsLong, joined_from};
    ghost use Rattle.pair_walk.specs.Rows.{RowAt};

    ghost Value = { List RowAt };

    ghost view = { λ b. joined_from b.passes.items b.width 0 b.rows };

    ghost invariant = { λ b. AreAsLong b.passes.items b.rows × AreRising b.passes.items b.width b.rows };
}

impl Blocks {
    /// The blocks of two files by their blocking passes: for each row of `a` the rows of `b` that have its key in some pass.
    pub fn new(
        alloc: Global,
        a: &StdFile,
        b: &StdFile,
        passes: &PassList,
    ) -> Result<Blocks, NoMemory>
        requires ready_a { AreAllReady passes.now a.now }
        requires ready_b { AreAllReady passes.now b.now }
        ensures { IfOk result (λ blocks. blocks ≡ all_rows a.now b.now passes.now) }
    {
        Blocks::by(alloc, a, b, passes, None)
    }

    /// The same blocks, by the ids of the parts of the keys in a pool: no text is made or sought, but for a pass of more than four
    /// parts.
    pub fn new_in(
        alloc: Global,
        a: &StdFile,
        b: &StdFile,
        passes: &PassList,
        pool: &Pool,
        keys_a: &[MaybeId],
        keys_b: &[MaybeId],
    ) -> Result<Blocks, NoMemory>
        requires ready_a { AreAllReady passes.now a.now }
        requires ready_b { AreAllReady passes.now b.now }
        requires held_a { AreKeysHeld pool.now.texts passes.now a.now }
        requires held_b { AreKeysHeld pool.now.texts passes.now b.now }
        requires keys_a { keys_a.now ≡ key_ids pool.now.texts passes.now a.now }
        requires keys_b { keys_b.now ≡ key_ids pool.now.texts passes.now b.now }
        ensures { IfOk result (λ blocks. blocks ≡ all_rows a.now b.now passes.now) }
    {
        let keyed = KeyedPool {
            pool,
            a: keys_a,
            b: keys_b,
        };
        Blocks::by(alloc, a, b, passes, Some(&keyed))
    }

    // The blocks, by ids where they are given.
    fn by(
        alloc: Global,
        a: &StdFile,
        b: &StdFile,
        passes: &PassList,
        keyed: Option<&KeyedPool<'_>>,
    ) -> Result<Blocks, NoMemory>
        requires ready_a { AreAllReady passes.now a.now }
        requires ready_b { AreAllReady passes.now b.now }
        requires keyed { IfSome keyed (λ keyed. AreKeyed passes.now a.now b.now keyed.now) }
        ensures { IfOk result (λ blocks. blocks ≡ all_rows a.now b.now passes.now) }
    {
        let found = find_passes(alloc, a, b, passes, keyed)?;
        Ok(Blocks {
            passes: found,
            width: b.rows(),
            rows: a.rows(),
        })
    }

    /// How many rows A has.
    pub fn rows(&self) -> u32
        ensures { result ≡ length self.now }
    {
        self.rows
    }

    // At most how many pairs these rows come to, where that can be counted: one that shares a key in two passes is counted in both.
    pub(crate) fn most_pairs(&self) -> usize
        ensures { result < 2 ^ 64 - 1 → length (pairs_of_rows self.now) ≤ result }
    {
        let rows = self.rows;
        let mut pairs = 0usize;
        for pass in &self.passes {
            pairs = pairs.saturating_add(listed_in(pass, rows));
        }
        pairs
    }

    // Puts the rows of B for a row of A, rising, in place of what stood in `bs`.
    pub(crate) fn partners(&self, alloc: Global, at: u32, bs: &mut Vec<u32>) -> Result<(), NoMemory>
        requires { at < length self.now }
        ensures { OnOk result (slice_index_or self.now at no_partners ≡ record { a = at; bs = bs.new.items }) }
    {
        join_row(alloc, &self.passes, at, bs)
    }

    /// A walk over the rows from the first on.
    pub fn walk(&self) -> Walker<'_>
        ensures left { result.left ≡ self.now }
        ensures given { result.given ≡ 0 }
    {
        Walker {
            blocks: self,
            at: 0,
            given: 0,
        }
    }
}

// The list of the compared pairs.
ghost use Rattle.std.specs.Prelude.{◌≡◌, ◌++◌, map, List, IfOk, OnOk};
ghost use Rattle.link_base.specs.Standard.{Record};
ghost use Rattle.value_forms.specs.declared.passes.Part.{Part};
ghost use Rattle.pair_walk.specs.Rows.{compared_pairs, pair, pairs_of_rows, AreAllReady, AreKeysHeld, all_rows};
ghost use Rattle.pair_walk.specs.Walker.{GivesPairs};

use crate::blocks::Blocks;
use crate::fault::WalkFault;
use crate::walker::{RowPairs, Walker};
use block_passes::key_ids;
use link_base::{NoMemory, PairAt, StdFile};
use std::alloc::Global;
use std::marker::Model;
use value_forms::PassList;
use value_pool::Pool;

/// The compared pairs, rising, which contracts see as the list of them.
#[derive(Drop)]
pub struct Pairs {
    pairs: Vec<PairAt>,
}

impl Model for Pairs {
    ghost use Rattle.std.specs.Prelude.{List};
    ghost use Rattle.link_base.specs.declared.rule.PairAt.{PairAt};

    ghost Value = { List PairAt };

    ghost view = { λ p. p.pairs.items };
}

impl Pairs {
    /// The pairs, rising by the positions in A and then in B.
    pub fn get(&self) -> &[PairAt]
        ensures { result.now ≡ self.now }
    {
        &self.pairs
    }
}

/// The rows of a walk, joined, are the compared pairs: the pairs of the product that share a key in
/// some pass, rising.
pub fn rows_joined()
    ensures { (a b : List Record) (passes : List (List Part)) → pairs_of_rows (all_rows a b passes) ≡ compared_pairs a b passes }
{}

// Appends the pairs of a row.
fn push_row(pairs: &mut Vec<PairAt>, row: &RowPairs) -> Result<(), NoMemory>
    ensures { OnOk result (pairs.new.items ≡ pairs.old.items ++ map (pair row.now.a) row.now.bs.items) }
{
    let a = row.a;
    for b in &row.bs {
        pairs.push(PairAt { a, b: *b })?;
    }
    Ok(())
}

// The pairs of the rows that a new walker gives.
fn collect(alloc: Global, mut walker: Walker<'_>) -> Result<Pairs, WalkFault>
    requires { walker.given ≡ 0 }
    ensures { GivesPairs (pairs_of_rows walker.entry.left) result }
{
    let mut pairs = Vec::new(alloc);
    let mut row = RowPairs::new(alloc);
    'rows: loop {
        match walker.next_row(alloc, &mut row) {
            Err(fault) => return Err(fault),
            Ok(false) => return Ok(Pairs { pairs }),
            Ok(true) => match push_row(&mut pairs, &row) {
                Ok(()) => {}
                Err(NoMemory) => return Err(WalkFault::NoMemory),
            },
        }
    }
}

/// The compared pairs of two files: those that share a key in some blocking pass. There are too many
/// exactly where they are more than `MOST_PAIRS`.
pub fn walk(alloc: Global, a: &StdFile, b: &StdFile, passes: &PassList) -> Result<Pairs, WalkFault>
    requires ready_a { AreAllReady passes.now a.now }
    requires ready_b { AreAllReady passes.now b.now }
    ensures { GivesPairs (compared_pairs a.now b.now passes.now) result }
{
    match Blocks::new(alloc, a, b, passes) {
        Ok(blocks) => collect(alloc, blocks.walk()),
        Err(NoMemory) => Err(WalkFault::NoMemory),
    }
}

// The blocks by the ids of the parts of the keys, which are made here.
fn blocks_in(
    alloc: Global,
    a: &StdFile,
    b: &StdFile,
    passes: &PassList,
    pool: &Pool,
) -> Result<Blocks, NoMemory>
    requires ready_a { AreAllReady passes.now a.now }
    requires ready_b { AreAllReady passes.now b.now }
    requires held_a { AreKeysHeld pool.now.texts passes.now a.now }
    requires held_b { AreKeysHeld pool.now.texts passes.now b.now }
    ensures { IfOk result (λ blocks. blocks ≡ all_rows a.now b.now passes.now) }
{
    let keys_a = key_ids(alloc, a, passes, pool)?;
    let keys_b = key_ids(alloc, b, passes, pool)?;
    let blocks = Blocks::new_in(alloc, a, b, passes, pool, &keys_a, &keys_b)?;
    Ok(blocks)
}

/// The same pairs, found by the ids of the texts of the keys, which stand in a pool.
pub fn walk_in(
    alloc: Global,
    a: &StdFile,
    b: &StdFile,
    passes: &PassList,
    pool: &Pool,
) -> Result<Pairs, WalkFault>
    requires ready_a { AreAllReady passes.now a.now }
    requires ready_b { AreAllReady passes.now b.now }
    requires held_a { AreKeysHeld pool.now.texts passes.now a.now }
    requires held_b { AreKeysHeld pool.now.texts passes.now b.now }
    ensures { GivesPairs (compared_pairs a.now b.now passes.now) result }
{
    match blocks_in(alloc, a, b, passes, pool) {
        Ok(blocks) => collect(alloc, blocks.walk()),
        Err(NoMemory) => Err(WalkFault::NoMemory),
    }
}

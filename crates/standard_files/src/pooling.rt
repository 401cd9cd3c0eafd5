// The pooled values of two files.
ghost use Rattle.std.specs.Prelude.{◌≡◌, ◌≤◌, [], All, IfOk, length};
ghost use Rattle.link_base.specs.Answers.{GivesBut};
ghost use Rattle.value_pool.specs.Pool.{is_want_of_pool};
ghost use Rattle.standard_files.specs.Ready.{AreInRange, ArePooled, IsRowFor};
ghost use Rattle.standard_files.specs.Sides.{pooled_values, all_texts};
ghost use Rattle.standard_files.specs.Taking.{IsTaken, TakesTexts};

use crate::canons::take_canons;
use crate::keys::take_keys;
use crate::texts::{TextIds, take_texts};
use comparators::IdTable;
use link_base::{NoMemory, StdFile};
use link_limits::{MOST_FIELDS, MOST_POOL_LIMIT};
use std::alloc::Global;
use std::marker::Model;
use value_forms::{CompareKind, PassList};
use value_pool::{MaybeId, Pool, PoolFault};

/// The values of two files in a pool. Contracts see the texts of the pool, its limit, the tables of what the rows of each
/// file are compared by, and the ids of the parts of their keys.
#[derive(Drop)]
pub struct PooledValues {
    pub pool: Pool,
    pub a: IdTable,
    pub b: IdTable,
    /// The ids of the parts of the keys of A: record by record and pass by pass one for each part, `None` where it is missing.
    pub keys_a: Vec<MaybeId>,
    /// The same of B.
    pub keys_b: Vec<MaybeId>,
}

impl Model for PooledValues {
    ghost use Rattle.standard_files.specs.Sides.{PooledView};

    ghost Value = { PooledView };

    ghost view = { λ p. record { texts = p.pool.texts; limit = p.pool.limit; a = p.a; b = p.b; keys_a = p.keys_a.items; keys_b = p.keys_b.items } };
}

// What is kept of the rows of both files: what they are compared by, and the ids of the parts of their keys.
#[derive(Drop)]
struct TakenValues {
    a: IdTable,
    b: IdTable,
    keys: TextIds,
}

/// How many bytes a text of the pool may have for which room is made beforehand.
const USUAL_BYTES: u64 = 8;

/// For how many texts at most room is made beforehand, unless a file has more rows.
const MOST_USUAL: u32 = 65_536;

// For how many distinct texts of two files of so many rows room is made beforehand: five for four rows where they are few,
// since most names and days of few rows differ, and as many as the larger file has rows where they are many.
fn usual_texts(rows_a: u32, rows_b: u32) -> u32 {
    let rows = rows_a.saturating_add(rows_b);
    let usual = rows.saturating_add(rows / 4).min(MOST_USUAL);
    usual.max(rows_a).max(rows_b)
}

// An empty pool, with room for so many texts of a usual length.
fn new_pool(alloc: Global, limit: u64, texts: u32) -> Result<Pool, NoMemory>
    requires { limit ≤ MOST_POOL_LIMIT }
    ensures texts { IfOk result (λ pool. pool.texts ≡ []) }
    ensures limit { IfOk result (λ pool. pool.limit ≡ limit) }
{
    let mut pool = Pool::new(alloc, limit)?;
    pool.reserve(alloc, texts, u64::from(texts) * USUAL_BYTES)?;
    Ok(pool)
}

// Takes the three groups of texts, and gives what is kept of the rows of both files.
fn take_values(
    alloc: Global,
    pool: &mut Pool,
    kinds: &[CompareKind],
    passes: &PassList,
    a: &StdFile,
    b: &StdFile,
) -> Result<TakenValues, PoolFault>
    requires few { length kinds.now ≤ MOST_FIELDS }
    requires rows_a { All (IsRowFor kinds.now) a.now }
    requires rows_b { All (IsRowFor kinds.now) b.now }
    requires parts { AreInRange (length kinds.now) passes.now }
    ensures { TakesTexts pool.old pool.new (all_texts kinds.now passes.now a.now b.now) (λ t. IsTaken pool.new.texts kinds.now passes.now a.now t.a t.keys.a.items × IsTaken pool.new.texts kinds.now passes.now b.now t.b t.keys.b.items) result }
{
    let texts = take_texts(alloc, pool, a, b)?;
    let tables = take_canons(alloc, pool, kinds, a, b, &texts)?;
    let keys = take_keys(alloc, pool, kinds, passes, a, b, texts, &tables)?;
    let (a, b) = tables;
    Ok(TakenValues { a, b, keys })
}

/// Takes the texts of two files into a pool of at most `limit` bytes, at most `MOST_POOL_LIMIT`: the standard texts, then the canons by which the fields
/// are compared, and then the parts of the keys of the passes, in each group those of A before those of B, row by row. The ids of
/// the parts are kept. `Full` names the first text that passes the limit.
pub fn pool_values(
    alloc: Global,
    kinds: &[CompareKind],
    passes: &PassList,
    a: &StdFile,
    b: &StdFile,
    limit: u64,
) -> Result<PooledValues, PoolFault>
    requires few { length kinds.now ≤ MOST_FIELDS }
    requires limit { limit ≤ MOST_POOL_LIMIT }
    requires rows_a { All (IsRowFor kinds.now) a.now }
    requires rows_b { All (IsRowFor kinds.now) b.now }
    requires parts { AreInRange (length kinds.now) passes.now }
    ensures gives { GivesBut is_want_of_pool (λ pooled. pooled) (pooled_values limit kinds.now passes.now a.now b.now) result }
    ensures pooled { IfOk result (ArePooled kinds.now passes.now a.now b.now) }
{
    let mut pool = match new_pool(alloc, limit, usual_texts(a.rows(), b.rows())) {
        Ok(pool) => pool,
        Err(NoMemory) => return Err(PoolFault::NoMemory),
    };
    let taken = take_values(alloc, &mut pool, kinds, passes, a, b)?;
    pool.are_distinct();
    let TakenValues { a, b, keys } = taken;
    Ok(PooledValues {
        pool,
        a,
        b,
        keys_a: keys.a,
        keys_b: keys.b,
    })
}

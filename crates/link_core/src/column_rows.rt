// The rows with the same field in one column, found by the numbers of the fields.
ghost use Rattle.std.specs.Prelude.{◌≡◌, ◌≤◌, ◌++◌, IfOk, OnOk, length, map};
ghost use Rattle.link_base.specs.Fault.{Gives, IsAnswer};
ghost use Rattle.link_core.specs.Pairs.{items_of, matched_columns, pairs_from};
ghost use Rattle.pair_decisions.specs.Decisions.{pairs_within};
ghost use Rattle.pair_walk.specs.Rows.{pair};

use crate::column_numbers::number_column;
use block_passes::PassRows;
use link_base::{Fault, FileRole, NoMemory, PairAt, Text};
use link_limits::{MOST_PAIRS, MOST_POOL_LIMIT, MOST_ROWS};
use std::alloc::Global;
use value_pool::Pool;

/// For each row of a column of A the rows of B with the same field. The faults of A come before those of B. Each file is given
/// back once its fields have numbers.
pub(crate) fn match_rows(alloc: Global, column: &str, a: Text, b: Text) -> Result<PassRows, Fault>
    ensures few { IfOk result (λ rows. length rows ≤ MOST_ROWS) }
    ensures answer { IsAnswer (matched_columns column.now a b) result }
{
    let pool = Pool::new(alloc, MOST_POOL_LIMIT)?;
    let of_a = match number_column(alloc, FileRole::A, column, a.bytes(), pool) {
        Ok(numbers) => numbers,
        Err(fault) => return Err(fault),
    };
    drop(a);
    let of_b = match number_column(alloc, FileRole::B, column, b.bytes(), of_a.pool) {
        Ok(numbers) => numbers,
        Err(fault) => return Err(fault),
    };
    drop(b);
    let count = of_b.pool.len();
    drop(of_b.pool);
    let rows = PassRows::of_numbers(alloc, of_a.numbers, &of_b.numbers, count)?;
    Ok(rows)
}

// Appends the pairs of a row.
fn push_pairs(pairs: &mut Vec<PairAt>, a: u32, bs: &[u32]) -> Result<(), NoMemory>
    ensures { OnOk result (pairs.new.items ≡ pairs.old.items ++ map (pair a) bs.now) }
{
    for b in bs {
        pairs.push(PairAt { a, b: *b })?;
    }
    Ok(())
}

/// The pairs of the rows, where they are at most `MOST_PAIRS`: more are never listed.
pub(crate) fn list_pairs(alloc: Global, rows: &PassRows) -> Result<Vec<PairAt>, Fault>
    requires { length rows.now ≤ MOST_ROWS }
    ensures answer { Gives items_of (pairs_within (pairs_from 0 rows.now)) result }
{
    let mut pairs = Vec::with_capacity(alloc, rows.len())?;
    for at in 0..rows.len() as u32 {
        let bs = rows.rows(at);
        if (pairs.len() + bs.len()) as u64 > MOST_PAIRS {
            return Err(Fault::TooManyPairs { limit: MOST_PAIRS });
        }
        push_pairs(&mut pairs, at, bs)?;
    }
    Ok(pairs)
}

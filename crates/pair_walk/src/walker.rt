// The pairs row by row.
ghost use Rattle.std.specs.Prelude.{◌≡◌, ◌<◌, ◌≤◌, ◌-◌, ◌^◌, [], length};
ghost use Rattle.pair_walk.specs.Rows.{pairs_of_rows};

use crate::blocks::Blocks;
use crate::fault::WalkFault;
use link_base::NoMemory;
use link_limits::MOST_PAIRS;
use std::alloc::Global;
use std::marker::Model;

/// The pairs of a row of A: its position, and the rising list of the positions of B, which may be empty.
#[derive(Drop)]
pub struct RowPairs {
    pub a: u32,
    pub bs: Vec<u32>,
}

impl RowPairs {
    /// A row of no pairs, for a walk to fill. It takes no memory.
    pub fn new(alloc: Global) -> RowPairs
        ensures a { result.a ≡ 0 }
        ensures bs { result.bs.items ≡ [] }
    {
        RowPairs {
            a: 0,
            bs: Vec::new(alloc),
        }
    }
}

/// The compared pairs of two files, row by row. Contracts see the list of the rows not yet given and
/// the number of pairs given so far.
#[derive(Drop)]
pub struct Walker<'b> {
    pub(crate) blocks: &'b Blocks,
    pub(crate) at: u32,
    pub(crate) given: u64,
}

impl<'b> Model for Walker<'b> {
    ghost use Rattle.std.specs.Prelude.{◌≤◌, drop, length};
    ghost use Rattle.link_limits.specs.declared.TheConstants.{MOST_PAIRS};
    ghost use Rattle.pair_walk.specs.Walker.{Walked};

    ghost Value = { Walked };

    ghost view = { λ w. record { left = drop w.at w.blocks.now; given = w.given } };

    ghost invariant = { λ w. (w.at ≤ length w.blocks.now) × (w.given ≤ MOST_PAIRS) };
}

impl<'b> Walker<'b> {
    ghost use Rattle.pair_walk.specs.Walker.{NextRow};

    /// At most how many pairs are still to come, for the making of room, or 2^64 - 1 where they are too many to count: a pair
    /// that shares a key in two passes is counted in both, and what was given is counted too.
    pub fn most_pairs(&self) -> usize
        ensures { result < 2 ^ 64 - 1 → length (pairs_of_rows self.now.left) ≤ result }
    {
        self.blocks.most_pairs()
    }

    /// The pairs of the next row of A, put in place of what stood in `row`; `false` exactly where every row was given. There are
    /// too many pairs exactly where those given so far and those of this row pass `MOST_PAIRS`. A refusal leaves the walk as it
    /// was; what stands in `row` then says nothing.
    pub fn next_row(&mut self, alloc: Global, row: &mut RowPairs) -> Result<bool, WalkFault>
        ensures { NextRow self.old self.new row.new result }
    {
        if self.at >= self.blocks.rows() {
            return Ok(false);
        }
        let a = self.at;
        if let Err(NoMemory) = self.blocks.partners(alloc, a, &mut row.bs) {
            return Err(WalkFault::NoMemory);
        }
        let given = self.given + row.bs.len() as u64;
        if given > MOST_PAIRS {
            return Err(WalkFault::TooManyPairs { limit: MOST_PAIRS });
        }
        row.a = a;
        self.at = a + 1;
        self.given = given;
        Ok(true)
    }
}

// Seats, what trees are grown over, and the tree.

use assignment_steps::{Field, Reached};

/// The seats at the records of B, numbered from 0 as they are taken first. A seat belongs to its `owner`, a
/// record of B, and `sitter` is the record of A that sits there; `seat` says for a linked record of A where it
/// sits. The seats of a record of B hang together: `last` is its last one, and `earlier` the one before a
/// seat. `left` says how many more a record of B may have.
#[derive(Drop)]
pub struct Seats {
    pub seat: Vec<usize>,
    pub sitter: Vec<usize>,
    pub owner: Vec<usize>,
    pub earlier: Vec<Option<usize>>,
    pub last: Vec<Option<usize>>,
    pub left: Vec<u32>,
    pub count: usize,
}

/// A seat that nobody has, with its record of B.
#[derive(Clone, Copy)]
pub struct Hole {
    pub b: usize,
    pub seat: usize,
}

/// What a tree is grown over, with the seats at the records of B. `like` has beside each record of A one of the same
/// edges, which may be itself.
#[derive(Clone, Copy)]
pub struct Ground<'a> {
    pub field: Field<'a>,
    pub seats: &'a Seats,
    pub like: &'a [usize],
}

/// An alternating tree as it grows, with what it has reached: its nearest end so far is at a record of A. `held` is the
/// record of B whose records of A are joining. `twin` is a note: at the place that `like` has beside a record of A stands
/// the last one whose edges were relaxed, of this search or an earlier one. It is tested where it is used.
#[derive(Drop)]
pub struct Tree {
    pub reached: Reached,
    pub held: Option<usize>,
    pub twin: Vec<usize>,
}

// Candidates with prices.

use crate::maybe_edge::MaybeEdge;

/// A candidate whose value is positive.
#[derive(Clone, Copy)]
pub struct Edge {
    pub a: u32,
    pub b: u32,
    pub value: u32,
}

/// The edges, and a price for each record.
#[derive(Clone, Copy)]
pub struct Net<'a> {
    pub edges: &'a [Edge],
    pub price_a: &'a [u32],
    pub price_b: &'a [u32],
}

/// What a search goes over: the edges, the places where those of each record of A begin, the prices, the links of the
/// records of A and the one at the root.
#[derive(Clone, Copy)]
pub struct Field<'a> {
    pub edges: &'a [Edge],
    pub starts: &'a [u32],
    pub price_a: &'a [u32],
    pub price_b: &'a [u32],
    pub link_a: &'a [MaybeEdge],
    pub root: usize,
}

/// Where a search ended: the distance, the record of B that is free there, if one is, and else the record of A that gives
/// its link up.
#[derive(Clone, Copy)]
pub struct Grown {
    pub end: u32,
    pub free: Option<usize>,
    pub last: usize,
}

/// Ways to a root: the edge by which each record of B was reached, and when each record of A was.
#[derive(Clone, Copy)]
pub struct Ways<'a> {
    pub root: usize,
    pub from: &'a [u32],
    pub rank: &'a [u32],
}

/// The edges by their records of A, and turned by their records of B, as the other side sees them: there
/// `a` is a record of B. With each the places where a record's edges begin.
#[derive(Clone, Copy)]
pub struct Board<'a> {
    pub edges: &'a [Edge],
    pub starts: &'a [u32],
    pub turned: &'a [Edge],
    pub turned_starts: &'a [u32],
}

/// Prices and links that are proposed: beside each record of A the number of the record of B that it is to be
/// linked to.
#[derive(Clone, Copy)]
pub struct Proposal<'a> {
    pub price_a: &'a [u32],
    pub price_b: &'a [u32],
    pub mates: &'a [u32],
}

// The edges at a level: with so many last bits of their values left out.

use crate::numbers::{NONE, at, put};
use crate::side::{Side, link};
use assignment_steps::{Board, Edge};

/// The edges by both sides, and how many last bits of their values are left out.
#[derive(Clone, Copy)]
pub struct Level<'a> {
    pub board: Board<'a>,
    pub shift: u32,
}

/// The edges of a record, which stand together.
#[inline(always)]
pub(crate) fn edges_of<'a>(edges: &'a [Edge], starts: &[u32], record: u32) -> &'a [Edge] {
    let place = record as usize;
    if place + 1 >= starts.len() {
        return &edges[..0];
    }
    let start = starts[place] as usize;
    let end = starts[place + 1] as usize;
    if start > end || end > edges.len() {
        return &edges[..0];
    }
    &edges[start..end]
}

/// Gives each record the least price that covers its edges.
pub(crate) fn cover(level: Level<'_>, own: &mut Side, other: &Side) {
    for record in 0..own.records {
        let edges = edges_of(level.board.edges, level.board.starts, record);
        let price = edges.iter().fold(0u32, |price, edge| {
            let paid = at(&other.price, edge.b);
            price.max(edge.value.wrapping_shr(level.shift).saturating_sub(paid))
        });
        put(&mut own.price, record, price);
    }
}

/// Whether the prices of an edge's records add up to its value.
#[inline(always)]
pub(crate) fn is_tight(level: Level<'_>, own: &Side, other: &Side, edge: Edge) -> bool {
    let paid = at(&own.price, edge.a).wrapping_add(at(&other.price, edge.b));
    paid == edge.value.wrapping_shr(level.shift)
}

/// Takes the links away that are not tight.
pub(crate) fn part_loose(level: Level<'_>, own: &mut Side, other: &mut Side) {
    for edge in level.board.edges {
        if at(&own.mate, edge.a) == edge.b && !is_tight(level, own, other, *edge) {
            put(&mut own.mate, edge.a, NONE);
            put(&mut other.mate, edge.b, NONE);
        }
    }
}

/// Links records without links over tight edges, in the order of the edges.
pub(crate) fn link_tight(level: Level<'_>, own: &mut Side, other: &mut Side) {
    for edge in level.board.edges {
        let is_free = at(&own.mate, edge.a) == NONE && at(&other.mate, edge.b) == NONE;
        if is_free && is_tight(level, own, other, *edge) {
            link(own, other, edge.a, edge.b);
        }
    }
}

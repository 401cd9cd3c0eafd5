// Links as links of the edges: of turned edges, and of records side by side.
ghost use Rattle.std.specs.Prelude.{◌≡◌, ◌≢◌, ◌<◌, ℕ, length, MatchOption, Some};
ghost use Rattle.assignment_steps.specs.Market.{edge, IsMatched, IsInRange};
ghost use Rattle.assignment_steps.specs.Between.{AreJoined, AreJoinedAs, AreJoinedWith, IsTakenUp, IsOf, KeepsLinks};

use crate::market::{Board, Edge};
use crate::maybe_edge::{MaybeEdge, has_link, link_of};

/// The place of the edge of two records.
fn place_of(board: Board<'_>, a: usize, b: u32) -> Option<usize>
    ensures { MatchOption result ((k : ℕ) → IsOf board.entry a k → (edge board.entry.edges.now k).b ≢ b) (λ k. IsOf board.entry a k × ((edge board.entry.edges.now k).b ≡ b)) }
{
    if a >= board.starts.len() || a + 1 >= board.starts.len() {
        return None;
    }
    let end = (board.starts[a + 1] as usize).min(board.edges.len());
    for k in board.starts[a] as usize..end {
        if board.edges[k].b == b {
            return Some(k);
        }
    }
    None
}

/// Links the records of the edge `k`, if neither has a link.
fn join(edges: &[Edge], link_a: &mut [MaybeEdge], link_b: &mut [MaybeEdge], k: usize)
    requires place { k < length edges.now }
    requires in_range { IsInRange edges.now (length link_a.old) (length link_b.old) }
    requires matched { IsMatched edges.now link_a.old link_b.old }
    ensures keeps { KeepsLinks edges.now link_a.old link_b.old link_a.new link_b.new }
    ensures joined { IsTakenUp edges.now link_a.new link_b.new k }
{
    let edge = edges[k];
    let a = edge.a as usize;
    let b = edge.b as usize;
    if has_link(link_a, a) {
        return;
    }
    if has_link(link_b, b) {
        return;
    }
    link_a[a] = MaybeEdge::at(k);
    link_b[b] = MaybeEdge::at(k);
}

/// Links the records of the turned edge at a place, if there is one.
fn join_turned(
    board: Board<'_>,
    link_a: &mut [MaybeEdge],
    link_b: &mut [MaybeEdge],
    place: Option<usize>,
)
    requires in_range { IsInRange board.edges.now (length link_a.old) (length link_b.old) }
    requires matched { IsMatched board.edges.now link_a.old link_b.old }
    ensures keeps { KeepsLinks board.entry.edges.now link_a.old link_b.old link_a.new link_b.new }
    ensures joined { (j : ℕ) → place ≡ Some j → j < length board.entry.turned.now → AreJoined board.entry link_a.new link_b.new (edge board.entry.turned.now j).b (edge board.entry.turned.now j).a }
{
    let Some(j) = place else {
        return;
    };
    if j >= board.turned.len() {
        return;
    }
    let turned = board.turned[j];
    join_mate(board, link_a, link_b, turned.b as usize, turned.a);
}

/// Links records as the links of the turned edges do.
pub fn join_as_turned(
    board: Board<'_>,
    link_a: &mut [MaybeEdge],
    link_b: &mut [MaybeEdge],
    links: &[MaybeEdge],
)
    requires in_range { IsInRange board.edges.now (length link_a.old) (length link_b.old) }
    requires matched { IsMatched board.edges.now link_a.old link_b.old }
    ensures matched { IsMatched board.entry.edges.now link_a.new link_b.new }
    ensures joined { AreJoinedAs board.entry link_a.new link_b.new links.now (length links.now) }
{
    for i in 0..links.len() {
        join_turned(board, link_a, link_b, link_of(links, i));
    }
}

/// Links a record of A with a record of B, if they have an edge.
fn join_mate(
    board: Board<'_>,
    link_a: &mut [MaybeEdge],
    link_b: &mut [MaybeEdge],
    a: usize,
    mate: u32,
)
    requires in_range { IsInRange board.edges.now (length link_a.old) (length link_b.old) }
    requires matched { IsMatched board.edges.now link_a.old link_b.old }
    ensures keeps { KeepsLinks board.entry.edges.now link_a.old link_b.old link_a.new link_b.new }
    ensures joined { AreJoined board.entry link_a.new link_b.new a mate }
{
    let Some(k) = place_of(board, a, mate) else {
        return;
    };
    join(board.edges, link_a, link_b, k);
}

/// Links each record of A with the record of B beside it, where they have an edge.
pub(crate) fn join_mates(
    board: Board<'_>,
    link_a: &mut [MaybeEdge],
    link_b: &mut [MaybeEdge],
    mates: &[u32],
)
    requires in_range { IsInRange board.edges.now (length link_a.old) (length link_b.old) }
    requires matched { IsMatched board.edges.now link_a.old link_b.old }
    ensures matched { IsMatched board.entry.edges.now link_a.new link_b.new }
    ensures joined { AreJoinedWith board.entry link_a.new link_b.new mates.now (length mates.now) }
{
    for a in 0..mates.len() {
        join_mate(board, link_a, link_b, a, mates[a]);
    }
}

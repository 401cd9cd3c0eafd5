// Prices, links and room of the side that searches.
ghost use Rattle.std.specs.Prelude.{◌≡◌, ◌*◌, ◌/◌, ℕ, IfOk, MatchOption, None, is_some, length, nat_lt, sum};
ghost use Rattle.assignment_steps.specs.Market.{number, AreListed, IsInRange};
ghost use Rattle.assignment_steps.specs.Between.{IsBetween, ReachAll};
ghost use Rattle.assignment_steps.specs.Reached.{IsAtRest};
ghost use Rattle.assignment.specs.Sides.{HasRun, IsOther, IsSide, IsSideOf, IsTakenOver};

use crate::market::Tree;
use crate::room::{Spare, free_links, room_for_side, take_proposal};
use crate::round::search_each;
use assignment_steps::{
    Board, Edge, MaybeEdge, Net, adopt_all, join_as_turned, link_tight, waiting,
};
use link_base::NoMemory;
use std::alloc::Global;

/// How many times each edge may be looked at by the first searches.
const LOOKS: usize = 4;

/// Prices, links and room of the side that searches, whose records are called those of A.
#[derive(Drop)]
pub struct Side {
    pub price_a: Vec<u32>,
    pub price_b: Vec<u32>,
    pub link_a: Vec<MaybeEdge>,
    pub link_b: Vec<MaybeEdge>,
    pub tree: Tree,
    pub spare: Spare,
}

/// The other side, over the turned edges, and room for its links as links of the edges.
#[derive(Drop)]
pub struct Other {
    pub side: Side,
    pub link_a: Vec<MaybeEdge>,
    pub link_b: Vec<MaybeEdge>,
}

/// A side at first: each record of A has a price that reaches the values of its edges, no record of B has
/// a price, and no record a link.
pub fn first_side(
    alloc: Global,
    edges: &[Edge],
    price_a: Vec<u32>,
    price_b: Vec<u32>,
) -> Result<Side, NoMemory>
    requires reach { ReachAll edges.now (length price_a.items) price_a.items price_b.items }
    requires none { (b : ℕ) → number price_b.items b ≡ 0 }
    requires in_range { IsInRange edges.now (length price_a.items) (length price_b.items) }
    ensures { IfOk result (IsSideOf edges.now (length price_a.items) (length price_b.items)) }
{
    let rows_a = price_a.len();
    let rows_b = price_b.len();
    let links = free_links(alloc, rows_a, rows_b)?;
    match room_for_side(alloc, edges, rows_a as u32, rows_b as u32) {
        Ok(room) => Ok(Side {
            price_a,
            price_b,
            link_a: links.a,
            link_b: links.b,
            tree: room.tree,
            spare: room.spare,
        }),
        Err(error) => {
            drop(price_a);
            drop(price_b);
            drop(links);
            Err(error)
        }
    }
}

/// The sum of prices.
fn sum_of(prices: &[u32]) -> u128
    ensures { result ≡ sum prices.now }
{
    let mut total = 0u128;
    for i in 0..prices.len() {
        total += u128::from(prices[i]);
    }
    total
}

/// The other side where its first prices add up to clearly less than those of this side: less is left to
/// fall then.
pub fn other_if_less(
    alloc: Global,
    turned: &[Edge],
    other_a: Vec<u32>,
    other_b: Vec<u32>,
    price_a: &[u32],
) -> Result<Option<Other>, NoMemory>
    requires reach { ReachAll turned.now (length other_a.items) other_a.items other_b.items }
    requires none { (r : ℕ) → number other_b.items r ≡ 0 }
    requires rows { length other_b.items ≡ length price_a.now }
    requires in_range { IsInRange turned.now (length other_a.items) (length other_b.items) }
    ensures chosen { IfOk result (λ o. is_some o ≡ nat_lt (sum other_a.items) (sum price_a.now / 32 * 31)) }
    ensures other { IfOk result (λ o. MatchOption o (Unit {0}) (IsOther turned.now (length price_a.now) (length other_a.items))) }
{
    if sum_of(&other_a) >= sum_of(price_a) / 32 * 31 {
        drop(other_a);
        drop(other_b);
        return Ok(None);
    }
    let rows_a = price_a.len();
    let rows_b = other_a.len();
    let side = first_side(alloc, turned, other_a, other_b)?;
    match free_links(alloc, rows_a, rows_b) {
        Ok(links) => Ok(Some(Other {
            side,
            link_a: links.a,
            link_b: links.b,
        })),
        Err(error) => {
            drop(side);
            Err(error)
        }
    }
}

/// Links over tight edges and searches, which is all that most lists need. Where records of A wait still, takes
/// a proposal over if it serves, and takes every record of A up in turn.
fn settle(
    board: Board<'_>,
    price_a: &mut [u32],
    price_b: &mut [u32],
    link_a: &mut [MaybeEdge],
    link_b: &mut [MaybeEdge],
    tree: &mut Tree,
    spare: &mut Spare,
)
    requires listed { AreListed board.edges.now (length price_a.old) board.starts.now }
    requires between { IsBetween board.edges.now price_a.old price_b.old link_a.old link_b.old 0 }
    requires rest { IsAtRest (length price_a.old) (length price_b.old) (length board.edges.now) tree.old.reached }
    ensures { IsBetween board.entry.edges.now price_a.new price_b.new link_a.new link_b.new (length price_a.new) }
{
    let net = Net {
        edges: board.edges,
        price_a,
        price_b,
    };
    link_tight(net, link_a, link_b);
    tree.looks = board.edges.len().saturating_mul(LOOKS);
    search_each(
        board.edges,
        board.starts,
        price_a,
        price_b,
        link_a,
        link_b,
        tree,
        true,
    );
    if waiting(price_a, link_a) == 0 {
        return;
    }
    take_proposal(board, price_a, price_b, link_a, link_b, spare);
    search_each(
        board.edges,
        board.starts,
        price_a,
        price_b,
        link_a,
        link_b,
        tree,
        false,
    );
}

/// Settles each record of a side.
pub fn run(board: Board<'_>, side: &mut Side)
    requires listed { AreListed board.edges.now (length side.old.price_a.items) board.starts.now }
    requires side { IsSide board.edges.now side.old }
    ensures { HasRun board.entry.edges.now side.old side.new }
{
    settle(
        board,
        &mut side.price_a,
        &mut side.price_b,
        &mut side.link_a,
        &mut side.link_b,
        &mut side.tree,
        &mut side.spare,
    );
}

/// Lets the other side search first, if it is there, and takes its prices and links over.
pub fn run_other(board: Board<'_>, side: &mut Side, other: Option<Other>)
    requires listed { AreListed board.turned.now (length side.old.price_b.items) board.turned_starts.now }
    requires side { IsSide board.edges.now side.old }
    requires other { MatchOption other (Unit {0}) (IsOther board.turned.now (length side.old.price_a.items) (length side.old.price_b.items)) }
    ensures side { IsSideOf board.entry.edges.now (length side.old.price_a.items) (length side.old.price_b.items) side.new }
    ensures taken { MatchOption other (Unit {0}) (λ _. IsTakenOver board.entry side.new) }
{
    let Some(mut other) = other else {
        return;
    };
    let turned = Board {
        edges: board.turned,
        starts: board.turned_starts,
        turned: board.edges,
        turned_starts: board.starts,
    };
    run(turned, &mut other.side);
    join_as_turned(
        board,
        &mut other.link_a,
        &mut other.link_b,
        &other.side.link_a,
    );
    let net = Net {
        edges: board.edges,
        price_a: &other.side.price_b,
        price_b: &other.side.price_a,
    };
    adopt_all(
        net,
        &other.link_a,
        &other.link_b,
        &mut side.price_a,
        &mut side.price_b,
        &mut side.link_a,
        &mut side.link_b,
    );
    drop(other);
}

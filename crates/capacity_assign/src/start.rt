// Prices, links, seats and the tree before any record of A is taken up.
ghost use Rattle.std.specs.Prelude.{◌≡◌, ◌+◌, ◌<◌, ◌≤◌, ◌^◌, ℕ, All, AllPairs, IfOk, length};
ghost use Rattle.price_check.specs.Assignment.{IsBefore};
ghost use Rattle.assignment_steps.specs.Market.{AreSmall, AreStarts, IsInRange, edge};
ghost use Rattle.assignment_steps.specs.Candidates.{edges_of};
ghost use Rattle.capacity_assign.specs.Prepared.{AreClosed, AreEmpty, Closes, IsAtStart};
ghost use Rattle.capacity_assign.specs.Seating.{seating};
ghost use Rattle.capacity_assign.specs.Solution.{HasSmallValue};

use crate::market::{Seats, Tree};
use assignment_steps::{Edge, MaybeEdge, Reached, edges_of, first_prices, raise_to, starts_of};
use link_base::{Candidate, NoMemory};
use link_limits::MOST_PAIRS;
use std::alloc::Global;

/// The edges of candidates, with the places where those of each record of A begin.
#[derive(Drop)]
pub struct ListedEdges {
    pub edges: Vec<Edge>,
    pub starts: Vec<u32>,
}

/// Prices, links, seats and the tree.
#[derive(Drop)]
pub struct Start {
    pub price_a: Vec<u32>,
    pub price_b: Vec<u32>,
    pub link_a: Vec<MaybeEdge>,
    pub seats: Seats,
    pub tree: Tree,
}

/// The edges of candidates.
pub fn listed_edges(
    alloc: Global,
    rows_a: usize,
    candidates: &[Candidate],
) -> Result<ListedEdges, NoMemory>
    requires few { length candidates.now ≤ MOST_PAIRS }
    requires rising { AllPairs IsBefore candidates.now }
    requires small { All HasSmallValue candidates.now }
    requires rows { rows_a + 1 < 2 ^ 64 }
    ensures edges { IfOk result (λ l. l.edges.items ≡ edges_of candidates.now) }
    ensures starts { IfOk result (λ l. AreStarts l.edges.items rows_a l.starts.items) }
{
    let edges = edges_of(alloc, candidates)?;
    let starts = starts_of(alloc, &edges, rows_a)?;
    Ok(ListedEdges { edges, starts })
}

/// For each record of B without a place the greatest value of its edges, and 0 for the others.
fn closed_prices(alloc: Global, edges: &[Edge], capacity: &[u32]) -> Result<Vec<u32>, NoMemory>
    requires small { AreSmall edges.now }
    requires within { (k : ℕ) → k < length edges.now → (edge edges.now k).b < length capacity.now }
    ensures { IfOk result (λ v. AreClosed edges.now capacity.now v.items) }
{
    let mut prices = vec![in alloc; 0u32; capacity.len()]?;
    for k in 0..edges.len() {
        close(&mut prices, capacity, edges[k]);
    }
    Ok(prices)
}

/// A price of the edge's record of B that reaches its value, where the record has no place.
fn close(prices: &mut [u32], capacity: &[u32], edge: Edge)
    requires within { edge.b < length capacity.now }
    requires records { length prices.old ≡ length capacity.now }
    ensures { Closes capacity.now edge prices.old prices.new }
{
    if capacity[edge.b as usize] > 0 {
        return;
    }
    raise_to(prices, edge.b as usize, edge.value);
}

/// Seats before any is taken.
fn no_seats(alloc: Global, rows_a: usize, capacity: &[u32]) -> Result<Seats, NoMemory>
    ensures { IfOk result (λ s. AreEmpty rows_a capacity.now (seating s)) }
{
    let seat = vec![in alloc; 0usize; rows_a]?;
    let sitter = vec![in alloc; 0usize; rows_a]?;
    let owner = vec![in alloc; 0usize; rows_a]?;
    let earlier = vec![in alloc; None; rows_a]?;
    let last = vec![in alloc; None; capacity.len()]?;
    let left = Vec::from_slice(alloc, capacity)?;
    Ok(Seats {
        seat,
        sitter,
        owner,
        earlier,
        last,
        left,
        count: 0,
    })
}

/// Prices that cover the edges, where those of B are those of the records that have no place; no links, no seats, and a tree
/// with nothing in it.
pub fn start_of(
    alloc: Global,
    edges: &[Edge],
    rows_a: usize,
    capacity: &[u32],
) -> Result<Start, NoMemory>
    requires small { AreSmall edges.now }
    requires in_range { IsInRange edges.now rows_a (length capacity.now) }
    ensures { IfOk result (IsAtStart edges.now rows_a capacity.now) }
{
    let price_b = closed_prices(alloc, edges, capacity)?;
    let price_a = first_prices(alloc, edges, &price_b, rows_a)?;
    let link_a = vec![in alloc; MaybeEdge::none(); rows_a]?;
    let twin = vec![in alloc; rows_a; rows_a]?;
    let seats = no_seats(alloc, rows_a, capacity)?;
    // The lists of `reached` last, so that where memory is wanting none of them is to be given back.
    match Reached::new(alloc, rows_a as u32, capacity.len() as u32, edges.len()) {
        Ok(reached) => Ok(Start {
            price_a,
            price_b,
            link_a,
            seats,
            tree: Tree {
                reached,
                held: None,
                twin,
            },
        }),
        Err(error) => {
            drop(seats);
            Err(error)
        }
    }
}

// The edges from both sides, and the sides that search over them.
ghost use Rattle.std.specs.Prelude.{◌≡◌, ◌≤◌, All, AllPairs, IfOk, length};
ghost use Rattle.price_check.specs.Assignment.{IsBefore, IsWithin};
ghost use Rattle.assignment_steps.specs.Candidates.{edges_of};
ghost use Rattle.assignment.specs.Sides.{AreTwoSides, IsGraph, HasRun};
ghost use Rattle.assignment.specs.Solution.{HasSmallValue};

use crate::side::{Other, Side, first_side, other_if_less, run, run_other};
use assignment_steps::{Board, Edge, edges_of, first_prices, starts_of, turned_edges};
use link_base::{Candidate, NoMemory};
use link_limits::MOST_PAIRS;
use std::alloc::Global;

/// The edges of candidates, by their records of A and turned, with the starts of the records.
#[derive(Drop)]
pub struct Graph {
    pub edges: Vec<Edge>,
    pub starts: Vec<u32>,
    pub turned: Vec<Edge>,
    pub turned_starts: Vec<u32>,
}

/// The side that searches, and the other side where it may search first.
#[derive(Drop)]
pub struct Sides {
    pub own: Side,
    pub other: Option<Other>,
}

/// The edges of candidates.
pub fn graph_of(
    alloc: Global,
    rows_a: u32,
    rows_b: u32,
    candidates: &[Candidate],
) -> Result<Graph, NoMemory>
    requires few { length candidates.now ≤ MOST_PAIRS }
    requires rising { AllPairs IsBefore candidates.now }
    requires within { All (IsWithin rows_a rows_b) candidates.now }
    requires small { All HasSmallValue candidates.now }
    ensures edges { IfOk result (λ g. g.edges.items ≡ edges_of candidates.now) }
    ensures graph { IfOk result (IsGraph rows_a rows_b) }
{
    let edges = edges_of(alloc, candidates)?;
    let starts = starts_of(alloc, &edges, rows_a as usize)?;
    let turned = turned_edges(alloc, &edges)?;
    let turned_starts = starts_of(alloc, &turned, rows_b as usize)?;
    Ok(Graph {
        edges,
        starts,
        turned,
        turned_starts,
    })
}

/// The sides at first.
pub fn first_sides(
    alloc: Global,
    rows_a: u32,
    rows_b: u32,
    graph: &Graph,
) -> Result<Sides, NoMemory>
    requires { IsGraph rows_a rows_b graph.now }
    ensures { IfOk result (AreTwoSides rows_a rows_b graph.now) }
{
    let price_b = vec![in alloc; 0u32; rows_b as usize]?;
    let price_a = first_prices(alloc, &graph.edges, &price_b, rows_a as usize)?;
    let other_b = vec![in alloc; 0u32; rows_a as usize]?;
    let other_a = first_prices(alloc, &graph.turned, &other_b, rows_b as usize)?;
    let other = other_if_less(alloc, &graph.turned, other_a, other_b, &price_a)?;
    match first_side(alloc, &graph.edges, price_a, price_b) {
        Ok(own) => Ok(Sides { own, other }),
        Err(error) => {
            drop(other);
            Err(error)
        }
    }
}

/// Lets the other side search, if it is there, and then the side that searches, which is given back.
pub fn run_sides(graph: &Graph, sides: Sides) -> Side
    requires graph { IsGraph (length sides.own.price_a.items) (length sides.own.price_b.items) graph.now }
    requires sides { AreTwoSides (length sides.own.price_a.items) (length sides.own.price_b.items) graph.now sides }
    ensures { HasRun graph.now.edges.items sides.own result }
{
    let Sides { mut own, other } = sides;
    let board = Board {
        edges: &graph.edges,
        starts: &graph.starts,
        turned: &graph.turned,
        turned_starts: &graph.turned_starts,
    };
    run_other(board, &mut own, other);
    run(board, &mut own);
    own
}

// Candidates as edges, and those that are linked.
ghost use Rattle.std.specs.Prelude.{◌≡◌, ◌<◌, ℕ, All, filter, length, IfOk, None, slice_index_or, Some};
ghost use Rattle.assignment_steps.specs.Candidates.{edge_from, edges_of, is_linked, HasSmallValue};

use crate::market::Edge;
use crate::maybe_edge::{MaybeEdge, link_of};
use link_base::{Candidate, NoMemory};
use std::alloc::Global;

/// A candidate as an edge, where its value is positive.
fn edge_from(c: Candidate) -> Option<Edge>
    requires { HasSmallValue c }
    ensures { result ≡ edge_from c }
{
    if c.value <= 0 {
        return None;
    }
    Some(Edge {
        a: c.a,
        b: c.b,
        value: c.value as u32,
    })
}

/// The candidates with positive values as edges.
pub fn edges_of(alloc: Global, candidates: &[Candidate]) -> Result<Vec<Edge>, NoMemory>
    requires { All HasSmallValue candidates.now }
    ensures { IfOk result (λ v. v.items ≡ edges_of candidates.now) }
{
    let edges = candidates
        .iter()
        .filter_map(|c| edge_from(*c))
        .collect(alloc)?;
    Ok(edges)
}

/// Whether a candidate is linked.
fn is_linked(edges: &[Edge], link_a: &[MaybeEdge], c: &Candidate) -> bool
    requires links { (a k : ℕ) → slice_index_or link_a.now a None ≡ Some k → k < length edges.now }
    ensures { result ≡ is_linked edges.now link_a.now c.now }
{
    if c.a as usize >= link_a.len() {
        return false;
    }
    match link_of(link_a, c.a as usize) {
        None => false,
        Some(k) => c.value > 0 && edges[k].b == c.b,
    }
}

/// The linked candidates, in their order.
pub fn linked(
    mut candidates: Vec<Candidate>,
    edges: &[Edge],
    link_a: &[MaybeEdge],
) -> Vec<Candidate>
    requires links { (a k : ℕ) → slice_index_or link_a.now a None ≡ Some k → k < length edges.now }
    ensures { result.items ≡ filter (is_linked edges.now link_a.now) candidates.items }
{
    candidates.retain(|c| is_linked(edges, link_a, c));
    candidates
}

// Where the edges of a record begin.
ghost use Rattle.std.specs.Prelude.{◌^◌, ◌+◌, ◌<◌, ◌≤◌, ℕ, length, IfOk};
ghost use Rattle.assignment_steps.specs.Market.{edge, IsRising, AreStarts, IsStart};

use crate::market::Edge;
use link_base::NoMemory;
use std::alloc::Global;

/// The first place from `k` on whose edge is of no record of A below `a`.
fn start_from(edges: &[Edge], k: usize, a: usize) -> usize
    requires rising { IsRising edges.now }
    requires within { k ≤ length edges.now }
    requires below { (j : ℕ) → j < k → (edge edges.now j).a < a }
    ensures { IsStart edges.now a result }
{
    let mut start = k;
    while start < edges.len() && (edges[start].a as usize) < a {
        start += 1;
    }
    start
}

/// For each record of A, and for one past the last, the place of its first edge.
pub fn starts_of(alloc: Global, edges: &[Edge], rows: usize) -> Result<Vec<u32>, NoMemory>
    requires rising { IsRising edges.now }
    requires few { length edges.now < 2 ^ 32 }
    requires small { rows + 1 < 2 ^ 64 }
    ensures { IfOk result (λ v. AreStarts edges.now rows v.items) }
{
    let mut starts = Vec::with_capacity(alloc, rows + 1)?;
    let mut start = 0;
    for a in 0..rows + 1 {
        start = start_from(edges, start, a);
        starts.push(start as u32)?;
    }
    Ok(starts)
}

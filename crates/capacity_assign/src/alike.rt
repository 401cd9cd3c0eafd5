// Records of A of equal edges.
ghost use Rattle.std.specs.Prelude.{ℕ, ◌+◌, ◌<◌, ◌≤◌, length, IfOk, IsTrue};
ghost use Rattle.assignment_steps.specs.Market.{AreStarts, IsStart, number};
ghost use Rattle.capacity_assign.specs.Seating.{AreAlike, AreEqual, HasCopies};

use assignment_steps::Edge;
use link_base::NoMemory;
use std::alloc::Global;

/// Whether as many edges from two places on are to the same records of B, of the same values.
fn are_equal(edges: &[Edge], one: usize, other: usize, count: usize) -> bool
    requires one { one + count ≤ length edges.now }
    requires other { other + count ≤ length edges.now }
    ensures { IsTrue result → AreEqual edges.now one other count }
{
    for i in 0..count {
        let first = edges[one + i];
        let second = edges[other + i];
        if first.b != second.b || first.value != second.value {
            return false;
        }
    }
    true
}

/// Whether two records of A have edges to the same records of B, of the same values.
fn are_alike(edges: &[Edge], starts: &[u32], a: usize, r: usize) -> bool
    requires starts { (i : ℕ) → i < length starts.now → IsStart edges.now i (number starts.now i) }
    requires one { a + 1 < length starts.now }
    requires other { r + 1 < length starts.now }
    ensures { IsTrue result → HasCopies edges.now a r × HasCopies edges.now r a }
{
    let count = starts[a + 1] - starts[a];
    if starts[r + 1] - starts[r] != count {
        return false;
    }
    let (one, other) = (starts[a] as usize, starts[r] as usize);
    are_equal(edges, one, other, count as usize)
}

/// A number of a record's edges, which is the same for equal edges and seldom for others.
fn mixed(edges: &[Edge], from: usize, to: usize) -> u64 {
    let mut mixed = 0u64;
    let mut k = from;
    while k < to && k < edges.len() {
        let edge = edges[k];
        mixed = mixed
            .wrapping_add(edge.b as u64)
            .wrapping_mul(0x9E37_79B9_7F4A_7C15);
        mixed = mixed
            .wrapping_add(edge.value as u64)
            .wrapping_mul(0x9E37_79B9_7F4A_7C15);
        mixed ^= mixed >> 29;
        k += 1;
    }
    mixed
}

/// A record of A of the same edges that is noted before `a`, or else `a`, which is noted then.
fn like_at(edges: &[Edge], starts: &[u32], noted: &mut [usize], a: usize) -> usize
    requires starts { (i : ℕ) → i < length starts.now → IsStart edges.now i (number starts.now i) }
    requires inside { a + 1 < length starts.now }
    requires slots { a < length noted.old }
    ensures there { HasCopies edges.now a result }
    ensures back { HasCopies edges.now result a }
{
    let slot = (mixed(edges, starts[a] as usize, starts[a + 1] as usize)
        % noted.len() as u64) as usize;
    let first = noted[slot];
    if first < a && are_alike(edges, starts, a, first) {
        return first;
    }
    noted[slot] = a;
    a
}

/// Beside each record of A one of the same edges, which may be itself: the first one mostly.
pub fn like_of(
    alloc: Global,
    edges: &[Edge],
    starts: &[u32],
    rows: usize,
) -> Result<Vec<usize>, NoMemory>
    requires starts { AreStarts edges.now rows starts.now }
    ensures { IfOk result (λ v. AreAlike edges.now rows v.items) }
{
    let mut like = Vec::with_capacity(alloc, rows)?;
    let mut noted = vec![in alloc; rows; rows]?;
    for a in 0..rows {
        like.push(like_at(edges, starts, &mut noted, a))?;
    }
    Ok(like)
}

// Proposals for small lists, which come to no level by themselves.
use assignment_levels::Proposer;
use assignment_steps::{Board, Edge, Proposal, starts_of, turned_edges};
use link_base::NoMemory;
use std::alloc::Global;

/// How many records a side has.
const ROWS: u32 = 7;

// Edges of most records, with values to `most` by a linear congruence (Knuth vol. 2, section 3.2.1).
fn drawn(alloc: Global, first: u32, most: u32) -> Result<Vec<Edge>, NoMemory> {
    let mut edges = Vec::new(alloc);
    let mut seed = first;
    for place in 0..ROWS * ROWS {
        seed = seed.wrapping_mul(1_664_525).wrapping_add(1_013_904_223);
        if seed / 65_536 % 3 > 0 {
            edges.push(Edge {
                a: place / ROWS,
                b: place % ROWS,
                value: (seed / 256 % most.max(1)).wrapping_add(1),
            })?;
        }
    }
    Ok(edges)
}

// What the linked edges are worth, where the prices cover each edge.
fn worth_of(edges: &[Edge], proposal: Proposal<'_>) -> Option<u64> {
    let mut worth = 0u64;
    for edge in edges {
        let value = u64::from(edge.value);
        let price_a = u64::from(*proposal.price_a.get(edge.a as usize)?);
        let price_b = u64::from(*proposal.price_b.get(edge.b as usize)?);
        if price_a.saturating_add(price_b) < value {
            return None;
        }
        let mate = proposal.mates.get(edge.a as usize)?;
        if *mate == edge.b {
            worth = worth.saturating_add(value);
        }
    }
    Some(worth)
}

// Whether a proposal over drawn edges from nothing, bit by bit, certifies itself: its links are worth the sum of its prices.
fn certifies(alloc: Global, first: u32, most: u32) -> Result<bool, NoMemory> {
    let drawn = drawn(alloc, first, most)?;
    let turned = turned_edges(alloc, &drawn)?;
    let edges = turned_edges(alloc, &turned)?;
    let rows = ROWS as usize;
    if edges.len() > rows * rows || turned.len() > rows * rows {
        return Ok(false);
    }
    let starts = starts_of(alloc, &edges, rows)?;
    let turned_starts = starts_of(alloc, &turned, rows)?;
    let board = Board {
        edges: &edges,
        starts: &starts,
        turned: &turned,
        turned_starts: &turned_starts,
    };
    let mut proposer = Proposer::new(alloc, rows, rows)?;
    proposer.propose_by_levels(board);
    let proposal = proposer.proposal();
    let prices = proposal.price_a.iter().chain(proposal.price_b);
    let sum = prices.fold(0u64, |sum, price| sum.saturating_add(u64::from(*price)));
    Ok(worth_of(&edges, proposal) == Some(sum))
}

#[test]
fn proposals_bit_by_bit_certify_themselves(rt: HostRuntime) -> Result<(), NoMemory> {
    for most in [4u32, 40, 1_474, 1_000_000] {
        for first in 1u32..6 {
            let is_certified = certifies(rt.alloc(), first, most)?;
            assert!(rt; is_certified, "values to {most}, drawn from {first}");
        }
    }
    Ok(())
}

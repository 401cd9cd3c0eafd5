// The links chosen among candidates within capacities.
ghost use Rattle.std.specs.Prelude.{◌≡◌, ◌≤◌, All, AllPairs, IfOk, length};
ghost use Rattle.price_check.specs.Assignment.{IsBefore, IsWithin};
ghost use Rattle.capacity_assign.specs.Solution.{HasSmallValue, IsAllowedCapacity};
ghost use Rattle.candidate_links.specs.Candidates.{IsChoiceWithin};

use crate::prices::prices_of;
use capacity_assign::CapacityAssigner;
use link_base::{Candidate, NoMemory};
use link_limits::MOST_PAIRS;
use std::alloc::Global;

/// The links chosen among candidates within capacities, rising by position, with the dual prices of all records of A and of B that
/// certify them. Values and prices are in eighths of a bit.
#[derive(Drop)]
pub struct LinksWithin {
    pub links: Vec<Candidate>,
    pub prices_a: Vec<i64>,
    pub prices_b: Vec<i64>,
}

/// The greatest links within capacities, among at most [`MOST_PAIRS`] candidates that rise strictly by record of A, then of B, with
/// the prices that certify them. There is a capacity of at most `link_limits::MOST_CAPACITY` for each record of B.
pub fn choose_within(
    alloc: Global,
    rows_a: u32,
    rows_b: u32,
    capacities: &[u32],
    candidates: &[Candidate],
) -> Result<LinksWithin, NoMemory>
    requires for_each { length capacities.now ≡ rows_b }
    requires allowed { All IsAllowedCapacity capacities.now }
    requires count { length candidates.now ≤ MOST_PAIRS }
    requires rising { AllPairs IsBefore candidates.now }
    requires within { All (IsWithin rows_a rows_b) candidates.now }
    requires small { All HasSmallValue candidates.now }
    ensures chosen { IfOk result (IsChoiceWithin rows_a rows_b capacities.now candidates.now) }
{
    let assigner = CapacityAssigner::new(alloc, rows_a, capacities, candidates)?;
    let solved = assigner.solve();
    let links = Vec::from_slice(alloc, solved.links())?;
    let prices_a = prices_of(alloc, rows_a, |at| solved.price_a(at))?;
    let prices_b = prices_of(alloc, rows_b, |at| solved.price_b(at))?;
    Ok(LinksWithin {
        links,
        prices_a,
        prices_b,
    })
}

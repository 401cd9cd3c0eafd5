// The links chosen among candidates.
ghost use Rattle.std.specs.Prelude.{◌≡◌, ◌≤◌, ◌^◌, All, AllPairs, Contains, IfOk, length};
ghost use Rattle.assignment.specs.Solution.{HasSmallValue};
ghost use Rattle.price_check.specs.Assignment.{IsBefore, IsWithin, worth};
ghost use Rattle.candidate_links.specs.Candidates.{dropped, dropped_of, is_same_pair, IsChoice};
ghost use Rattle.candidate_links.specs.Merging.{is_next};

use crate::merging::after_first;
use crate::prices::prices_of;
use assignment::Assigner;
use link_base::{Candidate, NoMemory, PairAt};
use link_limits::MOST_PAIRS;
use link_report::Dropped;
use price_check::prices_are_bounded;
use std::alloc::Global;

/// The links chosen among candidates, rising by position, with the dual prices of all records of A and of B that certify them, the
/// candidates that are not among them, and the sum of the links' values. Values and prices are in eighths of a bit.
#[derive(Drop)]
pub struct ChosenLinks {
    pub links: Vec<Candidate>,
    pub prices_a: Vec<i64>,
    pub prices_b: Vec<i64>,
    pub dropped: Vec<Dropped>,
    pub total: i64,
}

// Whether two candidates are of the same records.
fn is_same_pair(x: &Candidate, y: &Candidate) -> bool
    ensures { result ≡ is_same_pair x.now y.now }
{
    x.a == y.a && x.b == y.b
}

// Whether a candidate is the first of the links that are left.
fn is_next(links: &[Candidate], candidate: &Candidate) -> bool
    ensures { result ≡ is_next links.now candidate.now }
{
    match links.first() {
        Some(link) => is_same_pair(link, candidate),
        None => false,
    }
}

// A candidate that is no link.
fn dropped(candidate: &Candidate) -> Dropped
    ensures { result ≡ dropped candidate.now }
{
    Dropped {
        at: PairAt {
            a: candidate.a,
            b: candidate.b,
        },
        conflict: candidate.value > 0,
    }
}

// The candidates that are not among the links, in one pass over both.
fn dropped_of(
    alloc: Global,
    candidates: &[Candidate],
    links: &[Candidate],
) -> Result<Vec<Dropped>, NoMemory>
    requires rising { AllPairs IsBefore candidates.now }
    requires links_rise { AllPairs IsBefore links.now }
    requires among { All (Contains candidates.now) links.now }
    ensures { IfOk result (λ all. all.items ≡ dropped_of candidates.now links.now) }
{
    let mut all = Vec::new(alloc);
    let mut rest = links;
    for candidate in candidates {
        if is_next(rest, candidate) {
            rest = after_first(rest);
            continue;
        }
        all.push(dropped(candidate))?;
    }
    Ok(all)
}

// What the links are worth.
fn worth(links: &[Candidate]) -> i64
    requires { length links.now ≤ MOST_PAIRS }
    ensures { result ≡ worth links.now }
{
    let mut sum = 0;
    for link in links {
        sum += i64::from(link.value);
    }
    sum
}

/// The greatest one-to-one links among at most [`MOST_PAIRS`] candidates that rise strictly by record of A, then of B, with the
/// prices that certify them. Each price is at least 0 and at most the greatest of 0 and the candidates' values.
pub fn choose_links(
    alloc: Global,
    rows_a: u32,
    rows_b: u32,
    candidates: &[Candidate],
) -> Result<ChosenLinks, NoMemory>
    requires count { length candidates.now ≤ MOST_PAIRS }
    requires rising { AllPairs IsBefore candidates.now }
    requires within { All (IsWithin rows_a rows_b) candidates.now }
    requires small { All HasSmallValue candidates.now }
    ensures chosen { IfOk result (IsChoice rows_a rows_b candidates.now) }
{
    prices_are_bounded();
    let assigner = Assigner::new(alloc, rows_a, rows_b, candidates)?;
    let solved = assigner.solve();
    let found = solved.links();
    let links = Vec::from_slice(alloc, found)?;
    let prices_a = prices_of(alloc, rows_a, |at| solved.price_a(at))?;
    let prices_b = prices_of(alloc, rows_b, |at| solved.price_b(at))?;
    let dropped = dropped_of(alloc, candidates, found)?;
    let total = worth(found);
    Ok(ChosenLinks {
        links,
        prices_a,
        prices_b,
        dropped,
        total,
    })
}

// The first place at which something is wrong.
ghost use Rattle.std.specs.Prelude.{◌≡◌, ◌<◌, ◌≤◌, ◌^◌, pos, ◌≤ℤ◌, length, AllPairs, All, IsTrue, ◌↔◌, MatchOption, slice_index_or, ℕ, ◌+◌, min};
ghost use Rattle.price_check.specs.declared.first.TheConstants.{NEAR};
ghost use Rattle.price_check.specs.Assignment.{IsBefore, IsCovered, IsWithin};
ghost use Rattle.price_check.specs.Search.{IsCandidateBefore};
ghost use Rattle.price_check.specs.Verdict.{IsFirstBad, IsCandidate, IsAllowedPrice, IsCandidateAt, HasPositions};
ghost use Rattle.link_base.specs.declared.rule.Candidate.{Candidate as ACandidate};

use link_base::{Candidate, PairAt};

/// The first price below 0.
pub fn first_negative(prices: &[i64]) -> Option<u32>
    requires { length prices.now < 2 ^ 32 }
    ensures { IsFirstBad (λ p. pos 0 ≤ℤ p) prices.now result }
{
    for (i, p) in prices.iter().enumerate() {
        if *p < 0 {
            return Some(i as u32);
        }
    }
    None
}

fn is_covered(c: Candidate, prices_a: &[i64], prices_b: &[i64]) -> bool
    requires in_range { IsWithin (length prices_a.now) (length prices_b.now) c }
    requires small_a { All IsAllowedPrice prices_a.now }
    requires small_b { All IsAllowedPrice prices_b.now }
    ensures { IsTrue result ↔ IsCovered prices_a.now prices_b.now c }
{
    let paid = prices_a[c.a as usize] + prices_b[c.b as usize];
    i64::from(c.value) <= paid
}

/// The first candidate whose two prices do not reach its value.
pub fn first_uncovered(candidates: &[Candidate], prices_a: &[i64], prices_b: &[i64]) -> Option<u32>
    requires count { length candidates.now < 2 ^ 32 }
    requires in_range { All (IsWithin (length prices_a.now) (length prices_b.now)) candidates.now }
    requires small_a { All IsAllowedPrice prices_a.now }
    requires small_b { All IsAllowedPrice prices_b.now }
    ensures { IsFirstBad (IsCovered prices_a.now prices_b.now) candidates.now result }
{
    for (i, c) in candidates.iter().enumerate() {
        if !is_covered(*c, prices_a, prices_b) {
            return Some(i as u32);
        }
    }
    None
}

fn stands_before(c: Candidate, link: PairAt) -> bool
    ensures { IsTrue result ↔ IsCandidateBefore c link }
{
    c.a < link.a || (c.a == link.a && c.b < link.b)
}

fn has_positions(c: Candidate, link: PairAt) -> bool
    ensures { IsTrue result ↔ HasPositions link c }
{
    c.a == link.a && c.b == link.b
}

/// How many candidates stand before these positions.
fn count_before(candidates: &[Candidate], link: PairAt) -> usize
    requires { AllPairs IsBefore candidates.now }
    ensures within { result ≤ length candidates.now }
    ensures below { (k : ℕ) (d : ACandidate) → k < result → IsCandidateBefore (slice_index_or candidates.now k d) link }
    ensures above { (k : ℕ) (d : ACandidate) → result ≤ k → k < length candidates.now → IsCandidateBefore (slice_index_or candidates.now k d) link → ⊥ }
{
    let mut low = 0;
    let mut high = candidates.len();
    while low < high {
        let middle = low + (high - low) / 2;
        if stands_before(candidates[middle], link) {
            low = middle + 1;
        } else {
            high = middle;
        }
    }
    low
}

/// The place of the candidate with these positions.
pub fn candidate_at(candidates: &[Candidate], link: PairAt) -> Option<usize>
    requires { AllPairs IsBefore candidates.now }
    ensures { MatchOption result (IsCandidate candidates.now link → ⊥) (λ k. IsCandidateAt candidates.now link k) }
{
    let at = count_before(candidates, link);
    if at == candidates.len() {
        return None;
    }
    if has_positions(candidates[at], link) {
        Some(at)
    } else {
        None
    }
}

/// How many are tried from where one is likely, before it is sought among all.
pub const NEAR: usize = 4;

/// Where those end that are tried from a place on, of so many.
pub fn end_of_near(from: usize, count: usize) -> usize
    ensures value { result ≡ min (from + NEAR) count }
    ensures within { result ≤ count }
{
    from.saturating_add(NEAR).min(count)
}

/// The place of the candidate with these positions, which is likely to be one of those from a place on.
pub(crate) fn candidate_near(candidates: &[Candidate], from: usize, link: PairAt) -> Option<usize>
    requires { AllPairs IsBefore candidates.now }
    ensures { MatchOption result (IsCandidate candidates.now link → ⊥) (λ k. IsCandidateAt candidates.now link k) }
{
    for at in from..end_of_near(from, candidates.len()) {
        if has_positions(candidates[at], link) {
            return Some(at);
        }
    }
    candidate_at(candidates, link)
}

/// The first link that is no candidate.
pub fn first_stranger(candidates: &[Candidate], links: &[PairAt]) -> Option<u32>
    requires count { length links.now < 2 ^ 32 }
    requires rising { AllPairs IsBefore candidates.now }
    ensures { IsFirstBad (IsCandidate candidates.now) links.now result }
{
    let mut near = 0;
    for (i, link) in links.iter().enumerate() {
        let Some(at) = candidate_near(candidates, near, *link) else {
            return Some(i as u32);
        };
        near = at;
    }
    None
}

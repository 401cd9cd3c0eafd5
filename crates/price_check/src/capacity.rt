// The check of a certificate with capacities.
ghost use Rattle.std.specs.Prelude.{◌≡◌, ◌<◌, ◌^◌, length, AllPairs, All, IfOk, ◌↔◌};
ghost use Rattle.link_base.specs.Rule.{IsPairBefore};
ghost use Rattle.price_check.specs.Assignment.{IsBefore, IsWithin};
ghost use Rattle.price_check.specs.Verdict.{IsAllowedPrice, IsChecked, HasAllowedValue, AreCertifiedWithin, AreGreatestWithin, IsAllowedCapacity, IsVerdictWithin};

use crate::capacity_laws::certified_within_is_greatest;
use crate::certificate::{links_worth, price_total};
use crate::first::{first_negative, first_stranger, first_uncovered};
use crate::laws::certified_is_greatest;
use crate::places::{first_unplaced, place_total};
use crate::verdict::{Reason, Verified};
use link_base::{Candidate, FileRole, NoMemory, PairAt};
use std::alloc::Global;

/// The first reason why prices do not certify links within capacities, if there is one.
fn verdict(
    alloc: Global,
    rows_a: u32,
    capacity: &[u32],
    candidates: &[Candidate],
    links: &[PairAt],
    prices_a: &[i64],
    prices_b: &[i64],
) -> Result<Verified, NoMemory>
    requires rows_b { length capacity.now < 2 ^ 32 }
    requires allowed_capacities { All IsAllowedCapacity capacity.now }
    requires count { length candidates.now < 2 ^ 32 }
    requires rising { AllPairs IsBefore candidates.now }
    requires in_range { All (IsWithin rows_a (length capacity.now)) candidates.now }
    requires allowed { All HasAllowedValue candidates.now }
    requires link_count { length links.now < 2 ^ 32 }
    requires links_rising { AllPairs IsPairBefore links.now }
    requires priced_a { length prices_a.now ≡ rows_a }
    requires priced_b { length prices_b.now ≡ length capacity.now }
    requires small_a { All IsAllowedPrice prices_a.now }
    requires small_b { All IsAllowedPrice prices_b.now }
    ensures { IfOk result (λ v. IsVerdictWithin candidates.now capacity.now links.now prices_a.now prices_b.now v) }
{
    if let Some(index) = first_stranger(candidates, links) {
        return Ok(Verified::No(Reason::NotCandidate { index }));
    }
    if let Some(index) = first_unplaced(alloc, capacity, links)? {
        return Ok(Verified::No(Reason::Reused { index }));
    }
    if let Some(at) = first_negative(prices_a) {
        return Ok(Verified::No(Reason::Negative {
            side: FileRole::A,
            at,
        }));
    }
    if let Some(at) = first_negative(prices_b) {
        return Ok(Verified::No(Reason::Negative {
            side: FileRole::B,
            at,
        }));
    }
    if let Some(index) = first_uncovered(candidates, prices_a, prices_b) {
        return Ok(Verified::No(Reason::Uncovered { index }));
    }
    let worth = links_worth(candidates, links);
    let prices = price_total(prices_a) + place_total(capacity, prices_b);
    if worth != prices {
        return Ok(Verified::No(Reason::Sum {
            links: worth,
            prices,
        }));
    }
    Ok(Verified::Yes)
}

/// Whether prices certify links as a list of candidates in which no record of A stands twice and each record
/// of B at most as often as its capacity, which is then greatest, and else the first reason why not, in the
/// order of [`Reason`]: `Reused` where an earlier link has the record of A, or as many earlier links as the
/// capacity have the record of B, and in `Sum` each price of B counts as often as its record's capacity. Where
/// every capacity is 1 this is the check of a one-to-one list.
/// There is a capacity of at most `link_limits::MOST_CAPACITY` for each record of B. Candidates and links
/// rise strictly by their positions; values and prices are at most `link_limits::MOST_VALUE` in size, and
/// there is a price for each record.
pub fn check_capacity(
    alloc: Global,
    rows_a: u32,
    capacity: &[u32],
    candidates: &[Candidate],
    links: &[PairAt],
    prices_a: &[i64],
    prices_b: &[i64],
) -> Result<Verified, NoMemory>
    requires rows_b { length capacity.now < 2 ^ 32 }
    requires allowed_capacities { All IsAllowedCapacity capacity.now }
    requires count { length candidates.now < 2 ^ 32 }
    requires rising { AllPairs IsBefore candidates.now }
    requires in_range { All (IsWithin rows_a (length capacity.now)) candidates.now }
    requires allowed { All HasAllowedValue candidates.now }
    requires link_count { length links.now < 2 ^ 32 }
    requires links_rising { AllPairs IsPairBefore links.now }
    requires priced_a { length prices_a.now ≡ rows_a }
    requires priced_b { length prices_b.now ≡ length capacity.now }
    requires small_a { All IsAllowedPrice prices_a.now }
    requires small_b { All IsAllowedPrice prices_b.now }
    ensures first_reason { IfOk result (λ v. IsVerdictWithin candidates.now capacity.now links.now prices_a.now prices_b.now v) }
    ensures certified { IfOk result (λ v. (v ≡ Verified.Yes) ↔ AreCertifiedWithin candidates.now capacity.now links.now prices_a.now prices_b.now) }
    ensures greatest { IfOk result (λ v. v ≡ Verified.Yes → AreGreatestWithin candidates.now capacity.now links.now) }
    ensures one_to_one { IfOk result (λ v. All (λ n. n ≡ 1) capacity.now → IsChecked candidates.now links.now prices_a.now prices_b.now v) }
{
    certified_within_is_greatest();
    certified_is_greatest();
    let answer = verdict(
        alloc, rows_a, capacity, candidates, links, prices_a, prices_b,
    )?;
    Ok(answer)
}

// The first link that finds no place, and what prices of B add up to where each counts once for a place.
ghost use Rattle.std.specs.Prelude.{◌≡◌, ◌*◌, ◌<◌, ◌≤◌, ◌^◌, pos, ◌*ℤ◌, ◌≤ℤ◌, neg_ℤ, length, All, AllPairs, IfOk, MatchBool};
ghost use Rattle.link_limits.specs.declared.TheConstants.{MOST_CAPACITY, MOST_VALUE};
ghost use Rattle.link_base.specs.Rule.{IsPairBefore};
ghost use Rattle.price_check.specs.Assignment.{place_sum};
ghost use Rattle.price_check.specs.Search.{AreUsed, IsPairWithin};
ghost use Rattle.price_check.specs.Verdict.{IsAllowedPrice, IsFirstReused, HasPlace, IsAllowedCapacity, IsFirstUnplaced};

use link_base::{NoMemory, PairAt};
use std::alloc::Global;

/// Whether an earlier link has the record of A of the one at `i`, or as many as its capacity have its
/// record of B.
fn is_unplaced(capacity: &[u32], used: &[u32], links: &[PairAt], i: usize) -> bool
    requires place { i < length links.now }
    requires rising { AllPairs IsPairBefore links.now }
    requires records { length used.now ≡ length capacity.now }
    requires in_range { All (IsPairWithin (length capacity.now)) links.now }
    requires used { AreUsed used.now links.now i }
    ensures { MatchBool result (HasPlace capacity.now links.now i → ⊥) (HasPlace capacity.now links.now i) }
{
    let link = links[i];
    if capacity[link.b as usize] <= used[link.b as usize] {
        return true;
    }
    if i == 0 {
        return false;
    }
    if links[i - 1].a == link.a {
        return true;
    }
    false
}

/// The first link that finds no place within the capacities.
pub fn first_unplaced(
    alloc: Global,
    capacity: &[u32],
    links: &[PairAt],
) -> Result<Option<u32>, NoMemory>
    requires count { length links.now < 2 ^ 32 }
    requires rising { AllPairs IsPairBefore links.now }
    requires in_range { All (IsPairWithin (length capacity.now)) links.now }
    ensures { IfOk result (λ place. IsFirstUnplaced capacity.now links.now place) }
{
    let mut used = vec![in alloc; 0u32; capacity.len()]?;
    for i in 0..links.len() {
        if is_unplaced(capacity, &used, links, i) {
            return Ok(Some(i as u32));
        }
        used[links[i].b as usize] += 1;
    }
    Ok(None)
}

/// The first link with a position that an earlier link has: each record of B has one place.
pub fn first_reused(alloc: Global, rows_b: u32, links: &[PairAt]) -> Result<Option<u32>, NoMemory>
    requires count { length links.now < 2 ^ 32 }
    requires rising { AllPairs IsPairBefore links.now }
    requires in_range { All (IsPairWithin rows_b) links.now }
    ensures { IfOk result (λ place. IsFirstReused links.now place) }
{
    let single = vec![in alloc; 1u32; rows_b as usize]?;
    let place = first_unplaced(alloc, &single, links)?;
    Ok(place)
}

// What a price counts for where it counts once for each place of its record.
fn price_of_places(capacity: u32, price: i64) -> i64
    requires few { IsAllowedCapacity capacity }
    requires small { IsAllowedPrice price }
    ensures value { result ≡ pos capacity *ℤ price }
    ensures low { neg_ℤ (pos (MOST_CAPACITY * MOST_VALUE)) ≤ℤ result }
    ensures high { result ≤ℤ pos (MOST_CAPACITY * MOST_VALUE) }
{
    i64::from(capacity) * price
}

/// The sum of the prices of B, each as often as its record's capacity.
pub fn place_total(capacity: &[u32], prices: &[i64]) -> i64
    requires count { length capacity.now < 2 ^ 32 }
    requires records { length prices.now ≡ length capacity.now }
    requires few { All IsAllowedCapacity capacity.now }
    requires small { All IsAllowedPrice prices.now }
    ensures value { result ≡ place_sum capacity.now prices.now }
    ensures low { neg_ℤ (pos (2 ^ 32 * (MOST_CAPACITY * MOST_VALUE))) ≤ℤ result }
    ensures high { result ≤ℤ pos (2 ^ 32 * (MOST_CAPACITY * MOST_VALUE)) }
{
    let mut sum = 0;
    for i in 0..capacity.len() {
        sum += price_of_places(capacity[i], prices[i]);
    }
    sum
}

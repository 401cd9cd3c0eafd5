// Prices that cover the edges, and prices that are changed by distances.
ghost use Rattle.std.specs.Prelude.{◌≡◌, ◌+◌, ◌-◌, ◌<◌, ◌≤◌, ◌^◌, ℕ, All, Contains, IfOk, length};
ghost use Rattle.assignment_steps.specs.Between.{RaisesTo, ReachAll};
ghost use Rattle.assignment_steps.specs.Market.{number, AreSmall, IsInRange, distance};

use crate::market::Edge;
use crate::queue::FARTHEST;
use link_base::NoMemory;
use std::alloc::Global;

/// A price that is at least this value.
pub fn raise_to(prices: &mut [u32], position: usize, value: u32)
    requires { position < length prices.old }
    ensures { RaisesTo prices.old prices.new position value }
{
    if prices[position] < value {
        prices[position] = value;
    }
}

/// For each record of A the most by which the value of one of its edges passes the price of B, or 0.
pub fn first_prices(
    alloc: Global,
    edges: &[Edge],
    price_b: &[u32],
    rows_a: usize,
) -> Result<Vec<u32>, NoMemory>
    requires small { AreSmall edges.now }
    requires in_range { IsInRange edges.now rows_a (length price_b.now) }
    ensures { IfOk result (λ v. ReachAll edges.now rows_a v.items price_b.now) }
{
    let mut prices = vec![in alloc; 0u32; rows_a]?;
    for k in 0..edges.len() {
        let edge = edges[k];
        let lacks = edge.value.saturating_sub(price_b[edge.b as usize]);
        raise_to(&mut prices, edge.a as usize, lacks);
    }
    Ok(prices)
}

/// Each touched record's price rises by what its distance lacks to `end`, and the distances are put back.
pub(crate) fn raise(prices: &mut [u32], dist: &mut [u32], touched: &[u32], end: u32)
    requires same { length prices.old ≡ length dist.old }
    requires end { end ≤ FARTHEST }
    requires in_range { All (λ r. r < length dist.old) touched.now }
    requires whole { (r : ℕ) → distance dist.old r < FARTHEST → Contains touched.now r }
    requires top { (r : ℕ) → distance dist.old r ≤ FARTHEST }
    requires fits { (r : ℕ) → number prices.old r + (end - distance dist.old r) < 2 ^ 32 }
    ensures prices { (r : ℕ) → number prices.new r ≡ number prices.old r + (end - distance dist.old r) }
    ensures dist { (r : ℕ) → distance dist.new r ≡ FARTHEST }
{
    for position in touched {
        let lacks = end.saturating_sub(dist[*position as usize]);
        prices[*position as usize] += lacks;
        dist[*position as usize] = FARTHEST;
    }
}

/// The same, with prices that fall.
pub(crate) fn lower(prices: &mut [u32], dist: &mut [u32], touched: &[u32], end: u32)
    requires same { length prices.old ≡ length dist.old }
    requires end { end ≤ FARTHEST }
    requires in_range { All (λ r. r < length dist.old) touched.now }
    requires whole { (r : ℕ) → distance dist.old r < FARTHEST → Contains touched.now r }
    requires top { (r : ℕ) → distance dist.old r ≤ FARTHEST }
    requires fits { (r : ℕ) → end - distance dist.old r ≤ number prices.old r }
    ensures prices { (r : ℕ) → number prices.new r + (end - distance dist.old r) ≡ number prices.old r }
    ensures dist { (r : ℕ) → distance dist.new r ≡ FARTHEST }
{
    for position in touched {
        let lacks = end.saturating_sub(dist[*position as usize]);
        prices[*position as usize] -= lacks;
        dist[*position as usize] = FARTHEST;
    }
}

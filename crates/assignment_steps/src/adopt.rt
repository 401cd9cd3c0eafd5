// Prices and links that are proposed: taken over where they serve.
ghost use Rattle.std.specs.Prelude.{◌≡◌, ◌<◌, ◌≤◌, ◌↔◌, ℕ, length, None, Some, IsTrue};
ghost use Rattle.link_limits.specs.declared.TheConstants.{MOST_VALUE};
ghost use Rattle.assignment_steps.specs.Market.{link, number, AreCovered, AreTight, IsInRange, IsMatched, IsTight};
ghost use Rattle.assignment_steps.specs.Between.{IsBetween, AreJoinedWith, IsFor};

use crate::market::{Board, Edge, Net, Proposal};
use crate::maybe_edge::{MaybeEdge, has_link, link_of};
use crate::other_links::join_mates;
use link_limits::MOST_VALUE;

/// Whether no price is too great.
fn are_small(prices: &[u32]) -> bool
    ensures { IsTrue result ↔ ((r : ℕ) → number prices.now r ≤ MOST_VALUE) }
{
    for price in prices {
        if *price > MOST_VALUE {
            return false;
        }
    }
    true
}

/// Whether the prices of each edge reach its value.
fn cover(net: Net<'_>) -> bool
    requires in_range { IsInRange net.edges.now (length net.price_a.now) (length net.price_b.now) }
    requires small_a { (r : ℕ) → number net.price_a.now r ≤ MOST_VALUE }
    requires small_b { (r : ℕ) → number net.price_b.now r ≤ MOST_VALUE }
    ensures { IsTrue result ↔ AreCovered net.entry.edges.now net.entry.price_a.now net.entry.price_b.now }
{
    for k in 0..net.edges.len() {
        let edge = net.edges[k];
        if net.price_a[edge.a as usize] + net.price_b[edge.b as usize] < edge.value {
            return false;
        }
    }
    true
}

/// Whether a record of A has no link, or one that its prices add up to.
fn is_tight(net: Net<'_>, link_a: &[MaybeEdge], a: usize) -> bool
    requires within { a < length link_a.now }
    requires in_range { IsInRange net.edges.now (length net.price_a.now) (length net.price_b.now) }
    requires small_a { (r : ℕ) → number net.price_a.now r ≤ MOST_VALUE }
    requires small_b { (r : ℕ) → number net.price_b.now r ≤ MOST_VALUE }
    requires places { (r k : ℕ) → link link_a.now r ≡ Some k → k < length net.edges.now }
    ensures { IsTrue result ↔ ((k : ℕ) → link link_a.now a ≡ Some k → IsTight net.entry.edges.now net.entry.price_a.now net.entry.price_b.now k) }
{
    let Some(k) = link_of(link_a, a) else {
        return true;
    };
    let edge = net.edges[k];
    net.price_a[edge.a as usize] + net.price_b[edge.b as usize] == edge.value
}

/// Whether the prices of each link add up to its value.
fn are_tight(net: Net<'_>, link_a: &[MaybeEdge], link_b: &[MaybeEdge]) -> bool
    requires in_range { IsInRange net.edges.now (length net.price_a.now) (length net.price_b.now) }
    requires small_a { (r : ℕ) → number net.price_a.now r ≤ MOST_VALUE }
    requires small_b { (r : ℕ) → number net.price_b.now r ≤ MOST_VALUE }
    requires matched { IsMatched net.edges.now link_a.now link_b.now }
    ensures { IsTrue result ↔ AreTight net.entry.edges.now net.entry.price_a.now net.entry.price_b.now link_a.now }
{
    for a in 0..link_a.len() {
        if !is_tight(net, link_a, a) {
            return false;
        }
    }
    true
}

/// Whether no record without a link has a price.
fn are_free_without_price(prices: &[u32], links: &[MaybeEdge]) -> bool
    requires { length prices.now ≡ length links.now }
    ensures { IsTrue result ↔ ((r : ℕ) → link links.now r ≡ None → number prices.now r ≡ 0) }
{
    for r in 0..prices.len() {
        if !has_link(links, r) && prices[r] != 0 {
            return false;
        }
    }
    true
}

/// Whether prices cover each edge, hold each link tight and leave no price to a record of B without a link.
fn serve(net: Net<'_>, link_a: &[MaybeEdge], link_b: &[MaybeEdge]) -> bool
    requires in_range { IsInRange net.edges.now (length net.price_a.now) (length net.price_b.now) }
    requires matched { IsMatched net.edges.now link_a.now link_b.now }
    requires rows_a { length link_a.now ≡ length net.price_a.now }
    requires rows_b { length link_b.now ≡ length net.price_b.now }
    ensures { IsTrue result ↔ IsBetween net.entry.edges.now net.entry.price_a.now net.entry.price_b.now link_a.now link_b.now 0 }
{
    if !are_small(net.price_a) || !are_small(net.price_b) {
        return false;
    }
    if !cover(net) || !are_tight(net, link_a, link_b) {
        return false;
    }
    are_free_without_price(net.price_b, link_b)
}

/// Takes new prices and links over where they serve; else all stays.
pub fn adopt_all(
    net: Net<'_>,
    new_link_a: &[MaybeEdge],
    new_link_b: &[MaybeEdge],
    price_a: &mut [u32],
    price_b: &mut [u32],
    link_a: &mut [MaybeEdge],
    link_b: &mut [MaybeEdge],
)
    requires between { IsBetween net.edges.now price_a.old price_b.old link_a.old link_b.old 0 }
    requires matched { IsMatched net.edges.now new_link_a.now new_link_b.now }
    requires price_a { length net.price_a.now ≡ length price_a.old }
    requires price_b { length net.price_b.now ≡ length price_b.old }
    requires link_a { length new_link_a.now ≡ length link_a.old }
    requires link_b { length new_link_b.now ≡ length link_b.old }
    ensures between { IsBetween net.entry.edges.now price_a.new price_b.new link_a.new link_b.new 0 }
    ensures adopted { IsBetween net.entry.edges.now net.entry.price_a.now net.entry.price_b.now new_link_a.now new_link_b.now 0 → (price_a.new ≡ net.entry.price_a.now) × (price_b.new ≡ net.entry.price_b.now) × (link_a.new ≡ new_link_a.now) × (link_b.new ≡ new_link_b.now) }
{
    if serve(net, new_link_a, new_link_b) {
        price_a.copy_from_slice(net.price_a);
        price_b.copy_from_slice(net.price_b);
        link_a.copy_from_slice(new_link_a);
        link_b.copy_from_slice(new_link_b);
    }
}

/// Takes each link away.
fn clear_links(links: &mut [MaybeEdge])
    ensures none { (r : ℕ) → link links.new r ≡ None }
    ensures count { length links.new ≡ length links.old }
{
    for r in 0..links.len() {
        links[r] = MaybeEdge::none();
    }
}

/// Takes proposed prices and links over where they serve; else all stays. `spare_a` and `spare_b` are room for
/// the links.
pub fn adopt_proposal(
    board: Board<'_>,
    proposal: Proposal<'_>,
    spare_a: &mut [MaybeEdge],
    spare_b: &mut [MaybeEdge],
    price_a: &mut [u32],
    price_b: &mut [u32],
    link_a: &mut [MaybeEdge],
    link_b: &mut [MaybeEdge],
)
    requires between { IsBetween board.edges.now price_a.old price_b.old link_a.old link_b.old 0 }
    ensures between { IsBetween board.entry.edges.now price_a.new price_b.new link_a.new link_b.new 0 }
    ensures joined { IsFor (length price_a.old) (length price_b.old) proposal.entry.price_a.now proposal.entry.price_b.now spare_a.old spare_b.old → AreJoinedWith board.entry spare_a.new spare_b.new proposal.entry.mates.now (length proposal.entry.mates.now) }
    ensures adopted { IsFor (length price_a.old) (length price_b.old) proposal.entry.price_a.now proposal.entry.price_b.now spare_a.old spare_b.old → IsBetween board.entry.edges.now proposal.entry.price_a.now proposal.entry.price_b.now spare_a.new spare_b.new 0 → (price_a.new ≡ proposal.entry.price_a.now) × (price_b.new ≡ proposal.entry.price_b.now) × (link_a.new ≡ spare_a.new) × (link_b.new ≡ spare_b.new) }
{
    if proposal.price_a.len() != price_a.len() || proposal.price_b.len() != price_b.len() {
        return;
    }
    if spare_a.len() != link_a.len() || spare_b.len() != link_b.len() {
        return;
    }
    clear_links(spare_a);
    clear_links(spare_b);
    join_mates(board, spare_a, spare_b, proposal.mates);
    let net = Net {
        edges: board.edges,
        price_a: proposal.price_a,
        price_b: proposal.price_b,
    };
    adopt_all(net, spare_a, spare_b, price_a, price_b, link_a, link_b);
}

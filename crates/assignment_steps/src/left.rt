// Records of A that are left to settle.
ghost use Rattle.std.specs.Prelude.{◌≡◌, ◌<◌, ◌↔◌, ℕ, length, None};
ghost use Rattle.assignment_steps.specs.Market.{link, number};

use crate::maybe_edge::{MaybeEdge, has_link};

/// How many records of A have a price and no link.
pub fn waiting(price_a: &[u32], link_a: &[MaybeEdge]) -> usize
    requires { length link_a.now ≡ length price_a.now }
    ensures { (result ≡ 0) ↔ ((a : ℕ) → a < length price_a.now → link link_a.now a ≡ None → number price_a.now a ≡ 0) }
{
    let mut count = 0usize;
    for a in 0..price_a.len() {
        if !has_link(link_a, a) && price_a[a] > 0 {
            count = count.saturating_add(1);
        }
    }
    count
}

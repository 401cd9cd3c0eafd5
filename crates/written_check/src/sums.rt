// Links and prices that are read, as a certificate.
ghost use Rattle.std.specs.Prelude.{◌≡◌, ◌+◌, ◌<◌, ◌^◌, All, AllPairs, IfErr, length};
ghost use Rattle.price_check.specs.Assignment.{IsBefore, IsWithin};
ghost use Rattle.link_base.specs.declared.rule.Candidate.{Candidate as Link};
ghost use Rattle.price_check.specs.Verdict.{HasAllowedValue};
ghost use Rattle.written_check.specs.Certified.{AreTaken, sums_verified, ArePrices};
ghost use Rattle.written_check.specs.LinkRows.{apart_verified, IsOfRows, IsRefutationWithin, Verifies};
ghost use Rattle.written_check.specs.PricesSeen.{prices_seen};

use crate::prices::Prices;
use crate::refutation::Refutation;
use link_base::{Candidate, PairAt};
use price_check::{first_reused, first_uncovered, price_total, value_total};
use std::alloc::Global;

// Verifies that no record stands in two links.
pub(crate) fn verify_apart(
    alloc: Global,
    rows_b: u32,
    links: &[Candidate],
) -> Result<(), Refutation>
    requires few { length links.now + 1 < 2 ^ 32 }
    requires rising { AllPairs IsBefore links.now }
    requires within { All (λ (l : Link). l.b < rows_b) links.now }
    ensures kind { IfErr result IsOfRows }
    ensures answer { Verifies (λ _. links.now) (apart_verified links.now) result }
{
    let mut pairs = Vec::new(alloc);
    for link in links {
        pairs.push(PairAt {
            a: link.a,
            b: link.b,
        })?;
    }
    match first_reused(alloc, rows_b, &pairs)? {
        Some(index) => Err(Refutation::Reused { row: index + 1 }),
        None => Ok(()),
    }
}

// Verifies that prices certify links, which are taken of the candidates and share no record.
pub(crate) fn verify_sums(
    rows_a: u32,
    rows_b: u32,
    candidates: &[Candidate],
    links: &[Candidate],
    prices: &Prices,
) -> Result<(), Refutation>
    requires count { length candidates.now < 2 ^ 32 }
    requires within { All (IsWithin rows_a rows_b) candidates.now }
    requires allowed { All HasAllowedValue candidates.now }
    requires taken { AreTaken candidates.now links.now }
    requires few { length links.now + 1 < 2 ^ 32 }
    requires rows_a { length prices.now.a ≡ rows_a }
    requires rows_b { length prices.now.b ≡ rows_b }
    requires small_a { ArePrices prices.now.a }
    requires small_b { ArePrices prices.now.b }
    ensures within { IfErr result (IsRefutationWithin rows_a rows_b) }
    ensures answer { Verifies (λ _. links.now) (sums_verified candidates.now links.now (prices_seen prices.now)) result }
{
    let a = prices.a.prices();
    let b = prices.b.prices();
    if let Some(index) = first_uncovered(candidates, a, b) {
        let c = candidates[index as usize];
        return Err(Refutation::Uncovered {
            at: PairAt { a: c.a, b: c.b },
        });
    }
    let worth = value_total(links);
    let paid = price_total(a) + price_total(b);
    if worth != paid {
        return Err(Refutation::Sum {
            links: worth,
            prices: paid,
        });
    }
    Ok(())
}

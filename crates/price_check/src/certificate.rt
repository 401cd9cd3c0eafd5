// What prices and links add up to.
ghost use Rattle.std.specs.Prelude.{◌≡◌, ◌*◌, ◌<◌, ◌^◌, pos, ◌≤ℤ◌, neg_ℤ, List, length, AllPairs, All};
ghost use Rattle.link_base.specs.declared.rule.Candidate.{Candidate as ACandidate};
ghost use Rattle.link_limits.specs.declared.TheConstants.{MOST_VALUE};
ghost use Rattle.price_check.specs.Assignment.{IsBefore, worth, price_sum};
ghost use Rattle.price_check.specs.Verdict.{IsCandidate, IsAllowedPrice, HasAllowedValue, AreLinks};

use crate::first::candidate_near;
use link_base::{Candidate, PairAt};

/// The sum of prices.
pub fn price_total(prices: &[i64]) -> i64
    requires count { length prices.now < 2 ^ 32 }
    requires small { All IsAllowedPrice prices.now }
    ensures value { result ≡ price_sum prices.now }
    ensures low { neg_ℤ (pos (2 ^ 32 * MOST_VALUE)) ≤ℤ result }
    ensures high { result ≤ℤ pos (2 ^ 32 * MOST_VALUE) }
{
    let mut sum = 0;
    for p in prices {
        sum += *p;
    }
    sum
}

/// What candidates are worth together.
pub fn value_total(links: &[Candidate]) -> i64
    requires count { length links.now < 2 ^ 32 }
    requires allowed { All HasAllowedValue links.now }
    ensures { result ≡ worth links.now }
{
    let mut sum = 0;
    for link in links {
        sum += i64::from(link.value);
    }
    sum
}

/// What the links are worth.
pub fn links_worth(candidates: &[Candidate], links: &[PairAt]) -> i64
    requires count { length links.now < 2 ^ 32 }
    requires rising { AllPairs IsBefore candidates.now }
    requires small { All HasAllowedValue candidates.now }
    requires are { All (IsCandidate candidates.now) links.now }
    ensures { (chosen : List ACandidate) → AreLinks candidates.now links.now chosen → result ≡ worth chosen }
{
    let mut sum = 0;
    let mut near = 0;
    for link in links {
        let Some(k) = candidate_near(candidates, near, *link) else {
            unreachable!();
        };
        sum += i64::from(candidates[k].value);
        near = k;
    }
    sum
}

// Shares by largest remainders.
ghost use Rattle.std.specs.Prelude.{◌≡◌, ◌≤◌, ◌<◌, [], ◌∷◌, ◌++◌, length, sum, map, nat_lt, ◌==◌, ◌||◌, ◌&&◌};
ghost use Rattle.std.specs.List.{range_with_len};
ghost use Rattle.link_base.specs.Shares.{IsShares};
ghost use Rattle.sample_counts.specs.Remainders.{share_of, left_of, ahead_of, spread_of};

use link_limits::{MOST_ROWS, WHOLE_FIELD};

/// The shares of three counted outcomes, in 1,024ths: each outcome has 1, and the other 1,021 are given in proportion to
/// the counts, by largest remainders, of equal ones to the earlier outcome. Between 1 and 100,000 are counted.
pub fn shares(counts: &[u64; 3]) -> [u16; 3]
    requires some { 1 ≤ sum counts.now }
    requires few { sum counts.now ≤ MOST_ROWS }
    ensures value { result ≡ map (share_of counts.now) (range_with_len 0 3) }
    ensures valid { IsShares 3 (result ++ 0 ∷ []) }
{
    [
        share_at(counts, 0),
        share_at(counts, 1),
        share_at(counts, 2),
    ]
}

/// The same of four counted outcomes: the other 1,020 are given in proportion.
pub fn shares4(counts: &[u64; 4]) -> [u16; 4]
    requires some { 1 ≤ sum counts.now }
    requires few { sum counts.now ≤ MOST_ROWS }
    ensures value { result ≡ map (share_of counts.now) (range_with_len 0 4) }
    ensures valid { IsShares 4 result }
{
    [
        share_at(counts, 0),
        share_at(counts, 1),
        share_at(counts, 2),
        share_at(counts, 3),
    ]
}

/// What is given in proportion: the whole less 1 for each outcome.
fn spread(counts: &[u64]) -> u64
    requires { length counts.now ≤ 4 }
    ensures { result ≡ spread_of counts.now }
{
    u64::from(WHOLE_FIELD) - counts.len() as u64
}

/// What the whole parts leave.
fn left_over(counts: &[u64], n: u64) -> u64
    requires few { length counts.now ≤ 4 }
    requires n { n ≡ sum counts.now }
    requires some { 1 ≤ n }
    requires small { n ≤ MOST_ROWS }
    ensures { result ≡ left_of counts.now }
{
    let spread = spread(counts);
    let mut left = spread;
    for count in counts {
        left -= spread * *count / n;
    }
    left
}

/// The outcome at `k` comes before the one at `i`.
fn comes_ahead(rest: u64, i: usize, other: u64, k: usize) -> bool
    ensures { result ≡ (nat_lt rest other || (other == rest && nat_lt k i)) }
{
    rest < other || (other == rest && k < i)
}

/// How many outcomes are ahead of the one at `i`.
fn ahead(counts: &[u64], n: u64, i: usize) -> u64
    requires few { length counts.now ≤ 4 }
    requires n { n ≡ sum counts.now }
    requires some { 1 ≤ n }
    requires small { n ≤ MOST_ROWS }
    requires place { i < length counts.now }
    ensures { result ≡ ahead_of counts.now i }
{
    let spread = spread(counts);
    let rest = spread * counts[i] % n;
    let mut ahead = 0;
    for k in 0..counts.len() {
        let other = spread * counts[k] % n;
        ahead += u64::from(comes_ahead(rest, i, other, k));
    }
    ahead
}

/// The share of the outcome at `i`, in 1,024ths.
fn share_at(counts: &[u64], i: usize) -> u16
    requires few { length counts.now ≤ 4 }
    requires some { 1 ≤ sum counts.now }
    requires small { sum counts.now ≤ MOST_ROWS }
    requires place { i < length counts.now }
    ensures { result ≡ share_of counts.now i }
{
    let n: u64 = counts.iter().sum();
    let quota = spread(counts) * counts[i] / n;
    let more = u64::from(ahead(counts, n, i) < left_over(counts, n));
    (1 + quota + more) as u16
}

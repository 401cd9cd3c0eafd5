// The weight of an outcome: a logarithm in whole eighths.
ghost use Rattle.std.specs.Prelude.{◌≡◌, ℤ, pos, ◌-ℤ◌, ◌≤ℤ◌, ◌+◌, ◌-◌, ◌*◌, ◌^◌, ◌<◌, ◌≤◌};
ghost use Rattle.patterns.specs.Patterns.{IsEighthWeight, eighth_weight_of};

/// The base-2 logarithm of `m` over `u`, in whole eighths, rounded down.
pub fn eighth_weight(m: u16, u: u16) -> i16
    requires m_in { (1 ≤ m) × (m ≤ 1022) }
    requires u_in { (1 ≤ u) × (u ≤ 1022) }
    ensures greatest { IsEighthWeight m u result }
    ensures value { result ≡ eighth_weight_of m u }
    ensures range { ((pos 0 -ℤ pos 80) ≤ℤ result) × (result ≤ℤ pos 79) }
{
    let high = u128::from(m).pow(8);
    let low = u128::from(u).pow(8);
    if low <= high {
        i16::from(doublings_within(low, high))
    } else {
        -1 - i16::from(doublings_within(high, low - 1))
    }
}

// How often `low` can be doubled within `high`.
fn doublings_within(low: u128, high: u128) -> u8
    requires some { 1 ≤ low }
    requires ordered { low ≤ high }
    requires small { high < 2 ^ 80 }
    ensures fits { low * 2 ^ result ≤ high }
    ensures over { high < low * 2 ^ (result + 1) }
    ensures bound { result < 80 }
{
    let mut raised = low;
    let mut count: u8 = 0;
    while raised <= high - raised {
        raised += raised;
        count += 1;
    }
    count
}

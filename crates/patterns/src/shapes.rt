// How many comparison patterns there are, and the outcomes of one.
ghost use Rattle.std.specs.Prelude.{◌≡◌, ◌<◌, ◌≤◌, length};
ghost use Rattle.link_base.specs.Shares.{outcomes_of};
ghost use Rattle.patterns.specs.Patterns.{pattern_count_of, outcome_at, outcome_with, pattern_count_by, rare_of};

use link_base::{FieldShares, Outcome, Shape};
use link_limits::{MOST_FIELDS, MOST_PATTERNS};

/// How many comparison patterns a shape has, 3 to 4,096.
pub fn pattern_count(shape: &Shape) -> u16
    ensures count { result ≡ pattern_count_by (rare_of shape.now) }
    ensures some { 3 ≤ result }
    ensures few { result ≤ MOST_PATTERNS }
{
    count(&shape.rare[..usize::from(shape.fields)])
}

/// The outcome of a field, counted from 0, in a pattern.
pub fn outcome_of(shape: &Shape, pattern: u16, field: u8) -> Outcome
    requires pattern { pattern < pattern_count_by (rare_of shape.now) }
    requires field { field < shape.now.fields }
    ensures { result ≡ outcome_at (rare_of shape.now) pattern field }
{
    let fields = &shape.rare[..usize::from(shape.fields)];
    let place = usize::from(field);
    let mut rest = pattern;
    for i in 0..place {
        rest %= count(&fields[i + 1..]);
    }
    outcome_by(rest / count(&fields[place + 1..]))
}

/// How many comparison patterns fields with these shares have: 1 without a field, else 3 to 4,096.
pub fn patterns_of(shares: &[FieldShares]) -> u16
    requires { length shares.now ≤ MOST_FIELDS }
    ensures count { result ≡ pattern_count_of shares.now }
    ensures some { 1 ≤ length shares.now → 3 ≤ result }
    ensures few { result ≤ MOST_PATTERNS }
{
    let mut rare = [false; 6];
    for i in 0..shares.len() {
        rare[i] = shares[i].rare;
    }
    count(&rare[..shares.len()])
}

/// How many outcomes a field has, 4 where agreement on a rare value is one of its own, else 3.
pub fn outcome_count(rare: bool) -> u16
    ensures { result ≡ outcomes_of rare }
{
    if rare { 4 } else { 3 }
}

// How many patterns these fields have.
fn count(fields: &[bool]) -> u16
    requires { length fields.now ≤ MOST_FIELDS }
    ensures value { result ≡ pattern_count_by fields.now }
    ensures positive { 1 ≤ result }
    ensures some { 1 ≤ length fields.now → 3 ≤ result }
    ensures few { result ≤ MOST_PATTERNS }
{
    let mut count = 1;
    for rare in fields {
        count *= outcome_count(*rare);
    }
    count
}

// The outcome that a digit stands for.
fn outcome_by(digit: u16) -> Outcome
    ensures { result ≡ outcome_with digit }
{
    match digit {
        0 => Outcome::Agree,
        1 => Outcome::Disagree,
        2 => Outcome::Missing,
        _ => Outcome::Rare,
    }
}

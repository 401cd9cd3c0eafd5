// Reviewed pairs with their patterns, and their counts.
ghost use Rattle.std.specs.Prelude.{◌≡◌, ◌≤◌, ◌<◌, ◌+◌, ℕ, All, false, length, filter, sum, slice_index, slice_index_or, if◌then◌else◌};
ghost use Rattle.patterns.specs.Patterns.{pattern_count_by, rare_of};
ghost use Rattle.sample_counts.specs.Counts.{AreJudged, count_of, digit_in, is_digit};
ghost use Rattle.sample_counts.specs.Tallies.{counted_at};

use link_base::Shape;
use link_limits::MOST_ROWS;
use patterns::{digit, outcome_of};
use std::marker::Model;

/// A reviewed pair: whether it is matched, and its comparison pattern.
#[derive(Clone, Copy)]
pub struct Judged {
    pub(crate) matched: bool,
    pub(crate) pattern: u16,
}

/// The counts of the outcomes of each field among the matched and the unmatched pairs of a sample. Contracts see it as
/// which fields may be rare, and the pairs with their statuses and comparison patterns.
#[derive(Drop)]
pub struct Counts {
    shape: Shape,
    rows: Vec<Judged>,
}

impl Model for Counts {
    ghost use Rattle.patterns.specs.Patterns.{rare_of};
    ghost use Rattle.sample_counts.specs.Counts.{AreJudged, CountsState};

    ghost Value = { CountsState };

    ghost view = { λ c. record { rares = rare_of c.shape; rows = c.rows.items } };

    ghost invariant = { λ c. AreJudged (rare_of c.shape) c.rows.items };
}

// The digit of a pair's outcome in a field, where the pair has the status.
fn digit_at(shape: &Shape, row: &Judged, field: u8, matched: bool) -> Option<usize>
    requires pattern { row.now.pattern < pattern_count_by (rare_of shape.now) }
    requires field { field < shape.now.fields }
    ensures { result ≡ digit_in (rare_of shape.now) field matched row.now }
{
    if matched != row.matched {
        return None;
    }
    Some(usize::from(digit(outcome_of(shape, row.pattern, field))))
}

/// How many pairs have each outcome.
#[derive(Clone, Copy)]
pub(crate) struct Tally {
    pub(crate) agree: u64,
    pub(crate) disagree: u64,
    pub(crate) missing: u64,
    pub(crate) rare: u64,
}

// One more at a digit, where there is one.
fn more_at(tally: Tally, digit: Option<usize>) -> Tally
    requires { (k : ℕ) → k < 4 → counted_at tally k ≤ MOST_ROWS }
    ensures { (k : ℕ) → k < 4 → counted_at result k ≡ counted_at tally k + (if is_digit k digit then 1 else 0) }
{
    match digit {
        Some(0) => Tally {
            agree: tally.agree + 1,
            ..tally
        },
        Some(1) => Tally {
            disagree: tally.disagree + 1,
            ..tally
        },
        Some(2) => Tally {
            missing: tally.missing + 1,
            ..tally
        },
        Some(3) => Tally {
            rare: tally.rare + 1,
            ..tally
        },
        _ => tally,
    }
}

// How many pairs of a status have each outcome in a field.
fn tally_of(shape: &Shape, rows: &[Judged], field: u8, matched: bool) -> Tally
    requires patterns { All (λ (row : Judged). row.pattern < pattern_count_by (rare_of shape.now)) rows.now }
    requires field { field < shape.now.fields }
    requires few { length rows.now ≤ MOST_ROWS }
    ensures { (k : ℕ) → k < 4
        → counted_at result k ≡ length (filter (λ row. is_digit k (digit_in (rare_of shape.now) field matched row)) rows.now) }
{
    let mut counts = Tally {
        agree: 0,
        disagree: 0,
        missing: 0,
        rare: 0,
    };
    for row in rows {
        counts = more_at(counts, digit_at(shape, row, field, matched));
    }
    counts
}

impl Counts {
    // The counts of these pairs.
    pub(crate) fn new(shape: Shape, rows: Vec<Judged>) -> Counts
        requires { AreJudged (rare_of shape) rows.items }
        ensures rares { result.rares ≡ rare_of shape }
        ensures rows { result.rows ≡ rows.items }
    {
        Counts { shape, rows }
    }

    /// How many pairs of a status have each outcome in a field, counted from 0, in the order agree, disagree, missing, rare.
    /// Between 1 and `MOST_ROWS` pairs have the status, and none is rare where the field may not be.
    pub fn of(&self, field: u8, matched: bool) -> [u64; 4]
        requires { field < length self.now.rares }
        ensures counts { (k : ℕ) → k < 4 → slice_index result k ≡ count_of self.now field matched k }
        ensures some { 1 ≤ sum result }
        ensures few { sum result ≤ MOST_ROWS }
        ensures rare { slice_index_or self.now.rares field false ≡ false → slice_index result 3 ≡ 0 }
    {
        let counts = tally_of(&self.shape, &self.rows, field, matched);
        [counts.agree, counts.disagree, counts.missing, counts.rare]
    }
}

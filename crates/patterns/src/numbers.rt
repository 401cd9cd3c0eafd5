// The number of a comparison pattern, and its shape.
ghost use Rattle.std.specs.Prelude.{◌≡◌, ◌<◌, ◌≤◌, ℕ, false, length, map, slice_index_or};
ghost use Rattle.link_base.specs.declared.rule.Outcome.{Outcome};
ghost use Rattle.patterns.specs.Patterns.{digit_of, outcome_at, pattern_count_by, rare_of, AreSides, number_of, outcomes};

use crate::shapes::outcome_count;
use comparators::Comparator;
use link_base::{Outcome, Shape};
use link_limits::MOST_FIELDS;

/// The digit of an outcome in a comparison pattern.
pub fn digit(outcome: Outcome) -> u16
    ensures { result ≡ digit_of outcome }
{
    match outcome {
        Outcome::Agree => 0,
        Outcome::Disagree => 1,
        Outcome::Missing => 2,
        Outcome::Rare => 3,
    }
}

/// The pattern of two rows of sides, of at most `MOST_FIELDS` fields: the number whose digits are the outcomes in the order agree 0,
/// disagree 1, missing 2, rare 3, the first field most significant. The base of a digit is 4 where the field's comparator
/// can answer `Rare`, else 3. The pattern does not change when the two rows change places.
pub fn pattern_over<C: Comparator>(kinds: &[C], a: &[C::Side], b: &[C::Side]) -> u16
    requires few { length kinds.now ≤ MOST_FIELDS }
    requires sides_a { AreSides C.is_valid kinds.now a.now }
    requires sides_b { AreSides C.is_valid kinds.now b.now }
    ensures number { result ≡ number_of (map C.is_rare kinds.now) (outcomes C.outcome_of kinds.now a.now b.now) }
    ensures range { result < pattern_count_by (map C.is_rare kinds.now) }
    ensures symmetric { result ≡ number_of (map C.is_rare kinds.now) (outcomes C.outcome_of kinds.now b.now a.now) }
    ensures digits { (k : ℕ) (d : Outcome) → k < length kinds.now
        → outcome_at (map C.is_rare kinds.now) result k ≡ slice_index_or (outcomes C.outcome_of kinds.now a.now b.now) k d }
{
    let mut number = 0;
    for i in 0..kinds.len() {
        let kind = &kinds[i];
        let outcome = kind.outcome(&a[i], &b[i]);
        number = number * outcome_count(kind.rare()) + digit(outcome);
    }
    number
}

/// The shape of the patterns of 1 to `MOST_FIELDS` comparators, with which `outcome_of` reads the outcomes of a pattern.
pub fn shape_of<C: Comparator>(kinds: &[C]) -> Shape
    requires some { 1 ≤ length kinds.now }
    requires few { length kinds.now ≤ MOST_FIELDS }
    ensures fields { result.fields ≡ length kinds.now }
    ensures rare { rare_of result ≡ map C.is_rare kinds.now }
{
    let mut rare = [false; 6];
    for i in 0..kinds.len() {
        rare[i] = kinds[i].rare();
    }
    Shape {
        fields: kinds.len() as u8,
        rare,
    }
}

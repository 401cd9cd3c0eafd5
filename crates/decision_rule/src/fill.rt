// The cells of all patterns, in the order of their numbers.
ghost use Rattle.std.specs.Prelude.{◌≡◌, ◌+◌, ◌≤◌, ◌<◌, map, length};
ghost use Rattle.patterns.specs.Patterns.{pattern_count_of};
ghost use Rattle.decision_rule.specs.Filled.{all_chances, chances_at, chances_of};

use link_base::{FieldShares, RuleCell};
use link_limits::MOST_FIELDS;
use patterns::{eighth_weight, outcome_count, patterns_of};

/// The cell of a pattern, with nothing given yet.
fn cell_of(shares: &[FieldShares], pattern: u16) -> RuleCell
    requires fields { length shares.now ≤ MOST_FIELDS }
    requires pattern { pattern < pattern_count_of shares.now }
    ensures { chances_of result ≡ chances_at shares.now pattern }
{
    let mut below = patterns_of(shares);
    let mut rest = pattern;
    let mut m: u64 = 1;
    let mut u: u64 = 1;
    let mut weight: i32 = 0;
    for field in shares {
        below /= outcome_count(field.rare);
        let outcome = usize::from(rest / below);
        rest %= below;
        let share_m = field.m[outcome];
        let share_u = field.u[outcome];
        m *= u64::from(share_m);
        u *= u64::from(share_u);
        weight += i32::from(eighth_weight(share_m, share_u));
    }
    RuleCell {
        pattern,
        m,
        u,
        weight,
        link: 0,
        nonlink: 0,
    }
}

/// Writes each pattern's cell at its number.
pub fn fill(shares: &[FieldShares], cells: &mut [RuleCell])
    requires fields { length shares.now ≤ MOST_FIELDS }
    requires size { length cells.old ≡ pattern_count_of shares.now }
    ensures { map chances_of cells.new ≡ all_chances shares.now }
{
    for i in 0..cells.len() {
        cells[i] = cell_of(shares, i as u16);
    }
}

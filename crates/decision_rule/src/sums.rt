// The attained levels of a rule.
ghost use Rattle.std.specs.Prelude.{◌≤◌, vec_len};
ghost use Rattle.link_base.specs.Rule.{HasBoundedSums};
ghost use Rattle.decision_rule.specs.Rule.{AreLevelsOf};

use crate::unit::denominator;
use link_base::{Levels, RuleTable};
use link_limits::{MOST_FIELDS, MOST_PATTERNS, WHOLE_RULE};

/// The attained levels of a table of so many fields and its chances of a possible link, as sums over one denominator:
/// 1,024 to the number of fields times 65,536.
pub fn attained(fields: u8, table: &RuleTable) -> Levels
    requires fields { fields ≤ MOST_FIELDS }
    requires size { vec_len table.now.cells ≤ MOST_PATTERNS }
    ensures levels { AreLevelsOf fields table.now.cells.items result }
    ensures bounded { HasBoundedSums result }
{
    let mut levels = Levels {
        denominator: denominator(fields),
        mu: 0,
        lambda: 0,
        possible_m: 0,
        possible_u: 0,
    };
    for cell in &table.cells {
        let m = u128::from(cell.m);
        let u = u128::from(cell.u);
        let possible = u128::from(WHOLE_RULE - cell.link - cell.nonlink);
        levels.mu += u * u128::from(cell.link);
        levels.lambda += m * u128::from(cell.nonlink);
        levels.possible_m += m * possible;
        levels.possible_u += u * possible;
    }
    levels
}

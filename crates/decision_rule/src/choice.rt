// The decision on a pair.
ghost use Rattle.std.specs.Prelude.{◌≡◌};
ghost use Rattle.link_base.specs.Rule.{IsWithinRanges};
ghost use Rattle.decision_rule.specs.Rule.{decision_of};

use link_base::{Decision, RuleCell};
use link_limits::WHOLE_RULE;

/// The decision on a pair whose comparison pattern has this cell, by the low 16 bits of its border word: a link below
/// the cell's link share, a non-link from 65,536 less its non-link share on, and else a possible link.
pub fn decide(cell: &RuleCell, word: u32) -> Decision
    requires { IsWithinRanges cell.now }
    ensures { result ≡ decision_of cell.now word }
{
    let low = word % WHOLE_RULE;
    if low < cell.link {
        Decision::Link
    } else if low >= WHOLE_RULE - cell.nonlink {
        Decision::NonLink
    } else {
        Decision::Possible
    }
}

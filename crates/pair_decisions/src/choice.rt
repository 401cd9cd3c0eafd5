// The decision of a cell, whose word is drawn where there is a choice.
ghost use Rattle.std.specs.Prelude.{◌≡◌, ◌<◌};
ghost use Rattle.decision_rule.specs.Border.{border_word};
ghost use Rattle.decision_rule.specs.Rule.{decision_of};
ghost use Rattle.link_base.specs.Rule.{IsWithinRanges};

use decision_rule::{BorderWords, decide};
use link_base::{Decision, PairAt, RuleCell};
use link_limits::{MOST_ROWS, WHOLE_RULE};

/// The decision on the pair at positions whose comparison pattern has this cell: a link, a possible link or a non-link with the
/// chances of the cell, by the border word of the pair (Fellegi and Sunter 1969, section 2). The word is drawn only where the
/// cell leaves a choice.
pub fn decide_in_cell(cell: &RuleCell, words: &mut BorderWords, at: PairAt) -> Decision
    requires cell { IsWithinRanges cell.now }
    requires a { at.a < MOST_ROWS }
    requires b { at.b < MOST_ROWS }
    ensures same { words.new ≡ words.old }
    ensures decision { result ≡ decision_of cell.now (border_word words.old at.a at.b) }
{
    if cell.link == WHOLE_RULE {
        return Decision::Link;
    }
    if cell.nonlink == WHOLE_RULE {
        return Decision::NonLink;
    }
    if cell.link == 0 && cell.nonlink == 0 {
        return Decision::Possible;
    }
    decide(cell, words.word(at.a, at.b))
}

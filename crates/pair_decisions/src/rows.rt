// The row of a compared pair, as it is kept and as it is shown.
ghost use Rattle.std.specs.Prelude.{◌≡◌, ◌<◌, ◌≤◌, All, length};
ghost use Rattle.pair_decisions.specs.PairRule.{AreSidesFor, side_rule};
ghost use Rattle.pair_decisions.specs.Decisions.{IsInside};
ghost use Rattle.pair_decisions.specs.PairRows.{decided_row, shown_row, shown_verdict};

use crate::choice::decide_in_cell;
use crate::pair_rule::PairRule;
use comparators::IdTable;
use decision_rule::BorderWords;
use link_base::{Decision, PairAt, Sides, Verdict};
use link_limits::MOST_ROWS;
use link_report::PairRow;
use review_journal::Journal;

/// A compared pair: the positions of its records, its comparison pattern, and the decision of the rule. The weight is that of the
/// pattern's cell.
#[derive(Clone, Copy)]
pub struct DecidedRow {
    pub at: PairAt,
    pub pattern: u16,
    pub decision: Decision,
}

/// The row of the pair at positions: its comparison pattern, and the decision of the pattern's cell.
pub(crate) fn row_at(
    rule: &PairRule,
    words: &mut BorderWords,
    sides_a: &IdTable,
    sides_b: &IdTable,
    at: PairAt,
) -> DecidedRow
    requires words { words.old ≡ rule.now.seed }
    requires few_a { length sides_a.now.rows ≤ MOST_ROWS }
    requires few_b { length sides_b.now.rows ≤ MOST_ROWS }
    requires sides_a { All (AreSidesFor rule.now) sides_a.now.rows }
    requires sides_b { All (AreSidesFor rule.now) sides_b.now.rows }
    requires inside { IsInside (length sides_a.now.rows) (length sides_b.now.rows) at }
    ensures same { words.new ≡ words.old }
    ensures row { result ≡ decided_row (side_rule rule.now sides_a.now.rows sides_b.now.rows) at }
{
    let pattern = rule.pattern(sides_a.sides(at.a), sides_b.sides(at.b));
    DecidedRow {
        at,
        pattern,
        decision: decide_in_cell(rule.cell(pattern), words, at),
    }
}

// The verdict that is shown at a pair with this decision.
fn verdict_at(journal: &Journal, at: PairAt, decision: Decision) -> Option<Verdict>
    ensures { result ≡ shown_verdict journal.now at decision }
{
    match decision {
        Decision::Possible => journal.verdict(at.a, at.b),
        Decision::Link | Decision::NonLink => None,
    }
}

/// A row with the weight of its pattern, and with the verdict of the journal where the pair is a possible link.
pub(crate) fn shown(rule: &PairRule, journal: &Journal, row: &DecidedRow) -> PairRow
    requires { row.now.pattern < length rule.now.cells }
    ensures { result ≡ shown_row rule.now.cells journal.now row.now }
{
    PairRow {
        at: row.at,
        pattern: row.pattern,
        weight: rule.cell(row.pattern).weight,
        decision: row.decision,
        verdict: verdict_at(journal, row.at, row.decision),
    }
}

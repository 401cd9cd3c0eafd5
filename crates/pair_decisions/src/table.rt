// The rule of a plan.
ghost use Rattle.std.specs.Prelude.{◌≡◌, ◌<◌, ◌≤◌, All, IfOk, length};
ghost use Rattle.link_base.specs.declared.rule.RuleCell.{RuleCell};
ghost use Rattle.decision_rule.specs.Filled.{IsFilled, IsLeast};
ghost use Rattle.patterns.specs.Patterns.{pattern_count_by, pattern_count_of, rare_in};
ghost use Rattle.pair_decisions.specs.Comparators.{rares_of};
ghost use Rattle.pair_decisions.specs.PlanShares.{IsRuleOf, plain_all};
ghost use Rattle.link_plan.specs.Ranges.{KeepsRanges};

use decision_rule::cut_rule;
use link_base::{FieldShares, NoMemory, RuleTable};
use link_limits::MOST_FIELDS;
use link_plan::Plan;
use patterns::patterns_of;
use std::alloc::Global;

/// The filled table of a plan for these shares of its fields, at the levels that the plan asks for: one cell for each
/// comparison pattern. No randomised rule with levels at most the table's own has a lower chance of a possible link.
pub fn rule_of_shares(
    alloc: Global,
    plan: &Plan,
    shares: &[FieldShares],
) -> Result<RuleTable, NoMemory>
    requires ranges { KeepsRanges plan.now }
    requires some { 1 ≤ length shares.now }
    requires few { length shares.now ≤ MOST_FIELDS }
    requires rares { rare_in shares.now ≡ rares_of plan.now.fields }
    ensures filled { IfOk result (λ table. IsFilled shares.now plan.now.terms.mu_ppm plan.now.terms.lambda_ppm table.cells.items) }
    ensures rule { IfOk result (λ table. IsRuleOf plan.now (plain_all shares.now) table.cells.items) }
    ensures least { IfOk result (λ table. IsLeast shares.now table.cells.items) }
    ensures size { IfOk result (λ table. length table.cells.items ≡ pattern_count_of shares.now) }
    ensures patterns { IfOk result (λ table. All (λ (c : RuleCell). c.pattern < pattern_count_by (rares_of plan.now.fields)) table.cells.items) }
{
    let mut table = RuleTable::with_patterns(alloc, patterns_of(shares))?;
    cut_rule(shares, plan.terms.mu_ppm, plan.terms.lambda_ppm, &mut table);
    Ok(table)
}

// The decisions on the compared pairs of a plan.
ghost use Rattle.std.specs.Prelude.{◌≡◌, All, IfOk, true};
ghost use Rattle.link_base.specs.Fault.{Gives};
ghost use Rattle.link_core.specs.Rules.{decided, decisions_of, IsDecidedIn, rule_over, IsPreparedFor, shared_rares};
ghost use Rattle.link_core.specs.Results.{IsDecidedFor, KeepsRows};
ghost use Rattle.pair_decisions.specs.PairRule.{AreCellsOf, AreSidesFor, side_rule};
ghost use Rattle.patterns.specs.Patterns.{pattern_count_by};
ghost use Rattle.pair_decisions.specs.Comparators.{rares_of};
ghost use Rattle.pair_decisions.specs.PlanShares.{IsRuleOf};
ghost use Rattle.link_plan.specs.Ranges.{KeepsRanges};

use crate::preparing::Prepared;
use crate::rules::PlanShares;
use link_base::{Fault, FileRole, NoMemory};
use link_plan::Plan;
use pair_decisions::{
    Decided, PairRule, decide_pairs, is_the_rule, rule_has_patterns, rule_of_shares, same_patterns,
};
use std::alloc::Global;

// The rule of a plan for these shares, over its prepared files.
fn rule_for(
    alloc: Global,
    plan: &Plan,
    prepared: &Prepared,
    shares: &PlanShares,
) -> Result<PairRule, NoMemory>
    requires ranges { KeepsRanges plan.now }
    requires ready { IsPreparedFor plan.now prepared.now }
    requires rares { shared_rares shares.now ≡ rares_of plan.now.fields }
    ensures rule { IfOk result (λ rule. side_rule rule prepared.now.values.a.rows prepared.now.values.b.rows ≡ rule_over plan.now prepared.now.files shares.now) }
    ensures filled { IfOk result (λ rule. IsRuleOf plan.now shares.now rule.cells) }
    ensures cells { IfOk result (λ rule. AreCellsOf (pattern_count_by (rares_of plan.now.fields)) rule.cells) }
    ensures sides_a { IfOk result (λ rule. All (AreSidesFor rule) prepared.now.values.a.rows) }
    ensures sides_b { IfOk result (λ rule. All (AreSidesFor rule) prepared.now.values.b.rows) }
{
    let table = rule_of_shares(alloc, plan, shares.fields())?;
    rule_has_patterns();
    is_the_rule();
    same_patterns(prepared.pool());
    PairRule::new(
        alloc,
        plan,
        table,
        prepared.pool().len(),
        prepared.sides(FileRole::A),
        prepared.sides(FileRole::B),
    )
}

/// The decisions of a plan's rule for these shares on the compared pairs of its prepared files: the rule is the filled table at
/// the levels that the plan asks for, and each pair is a link, a possible link or a non-link by the cell of its comparison
/// pattern and its border word. Refused as too many pairs exactly where there are more than `MOST_PAIRS`. The rows of the pairs,
/// which `finish` writes, are kept where they are asked for.
pub fn decide_all(
    alloc: Global,
    plan: &Plan,
    prepared: &Prepared,
    shares: &PlanShares,
    with_rows: bool,
) -> Result<Decided, Fault>
    requires ranges { KeepsRanges plan.now }
    requires ready { IsPreparedFor plan.now prepared.now }
    requires rares { shared_rares shares.now ≡ rares_of plan.now.fields }
    ensures answer { Gives (decisions_of prepared.now) (decided plan.now prepared.now.files shares.now) result }
    ensures of_files { IfOk result (IsDecidedIn prepared.now) }
    ensures of_plan { IfOk result (IsDecidedFor plan.now prepared.now) }
    ensures rule { IfOk result (λ d. IsRuleOf plan.now shares.now d.rule.cells) }
    ensures rows { IfOk result (λ d. with_rows ≡ true → KeepsRows plan.now prepared.now d) }
{
    let rule = rule_for(alloc, plan, prepared, shares)?;
    let blocks = prepared.blocks(alloc, plan)?;
    decide_pairs(
        alloc,
        rule,
        &blocks,
        prepared.sides(FileRole::A),
        prepared.sides(FileRole::B),
        with_rows,
    )
}

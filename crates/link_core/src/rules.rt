// The decision rule of a plan, and its frontier of levels.
ghost use Rattle.std.specs.Prelude.{◌≡◌, ◌≤◌, All, IfOk, None, length};
ghost use Rattle.link_base.specs.Fault.{Gives, IsAnswer};
ghost use Rattle.link_core.specs.Rules.{counted_by, IsFrontierText, IsPreparedFor, IsRuleText, shared_rares};
ghost use Rattle.pair_decisions.specs.Comparators.{rares_of};
ghost use Rattle.link_limits.specs.declared.TheConstants.{MOST_FIELDS};
ghost use Rattle.pair_decisions.specs.PlanShares.{AreFieldShares, given_in, plain_all};
ghost use Rattle.link_plan.specs.Ranges.{KeepsRanges};

use crate::preparing::Prepared;
use level_frontier::{FrontierRow, frontier};
use link_base::{Fault, FieldShares, FileRole, Levels, NoMemory, RuleTable, Text};
use link_limits::PER_MILLION;
use link_plan::Plan;
use link_report::{frontier_text, rule_text};
use pair_decisions::{counted_shares, given_shares, rule_of_shares, same_patterns};
use patterns::patterns_of;
use std::alloc::Global;
use std::marker::Model;

/// The shares of a plan's fields, one to six. Contracts see the list of them.
#[derive(Drop)]
pub struct PlanShares {
    all: Vec<FieldShares>,
}

impl Model for PlanShares {
    ghost use Rattle.std.specs.Prelude.{List, length, ◌≤◌};
    ghost use Rattle.link_limits.specs.declared.TheConstants.{MOST_FIELDS};
    ghost use Rattle.pair_decisions.specs.PlanShares.{plain_all};
    ghost use Rattle.link_plan.specs.Plan.{PlainShares};

    ghost Value = { List PlainShares };

    ghost view = { λ s. plain_all s.all.items };

    ghost invariant = { λ s. (1 ≤ length s.all.items) × (length s.all.items ≤ MOST_FIELDS) };
}

impl PlanShares {
    /// The shares that the settings of a plan without a sample give.
    pub fn given(alloc: Global, plan: &Plan) -> Result<PlanShares, NoMemory>
        requires ranges { KeepsRanges plan.now }
        requires no_sample { plan.now.sample ≡ None }
        ensures shares { IfOk result (λ shares. shares ≡ given_in plan.now.fields) }
        ensures rares { IfOk result (λ shares. shared_rares shares ≡ rares_of plan.now.fields) }
    {
        let all = given_shares(alloc, plan)?;
        Ok(PlanShares { all })
    }

    // The shares, field by field.
    pub(crate) fn fields(&self) -> &[FieldShares]
        ensures shares { plain_all result.now ≡ self.now }
        ensures some { 1 ≤ length result.now }
        ensures few { length result.now ≤ MOST_FIELDS }
    {
        &self.all
    }
}

// The shares of a plan's fields by its sample of two prepared files, field by field, or the first fault of the sample.
fn counted_fields(
    alloc: Global,
    plan: &Plan,
    prepared: &Prepared,
    sample: &[u8],
) -> Result<Vec<FieldShares>, Fault>
    requires ranges { KeepsRanges plan.now }
    requires files { IsPreparedFor plan.now prepared.now }
    ensures answer { Gives (λ all. plain_all all.items) (counted_by plan.now prepared.now.files sample.now) result }
    ensures fields { IfOk result (λ all. AreFieldShares plan.now.fields all.items) }
{
    same_patterns(prepared.pool());
    let texts = prepared.pool().len();
    counted_shares(
        alloc,
        plan,
        sample,
        prepared.a(),
        prepared.b(),
        texts,
        prepared.sides(FileRole::A),
        prepared.sides(FileRole::B),
    )
}

/// The shares of a plan's fields by its sample of two prepared files, or the first fault of the sample.
pub fn counted(
    alloc: Global,
    plan: &Plan,
    prepared: &Prepared,
    sample: &[u8],
) -> Result<PlanShares, Fault>
    requires ranges { KeepsRanges plan.now }
    requires files { IsPreparedFor plan.now prepared.now }
    ensures answer { IsAnswer (counted_by plan.now prepared.now.files sample.now) result }
    ensures rares { IfOk result (λ shares. shared_rares shares ≡ rares_of plan.now.fields) }
{
    let all = counted_fields(alloc, plan, prepared, sample)?;
    Ok(PlanShares { all })
}

/// The text of the filled table of a plan for these shares.
pub fn rule_lines(alloc: Global, plan: &Plan, shares: &PlanShares) -> Result<Text, NoMemory>
    requires ranges { KeepsRanges plan.now }
    requires rares { shared_rares shares.now ≡ rares_of plan.now.fields }
    ensures { IfOk result (IsRuleText plan.now shares.now) }
{
    let table = rule_of_shares(alloc, plan, &shares.all)?;
    rule_text(alloc, &table, &plan.shape())
}

// A row before it is written.
fn no_row() -> FrontierRow {
    let levels = Levels {
        denominator: 1,
        mu: 0,
        lambda: 0,
        possible_m: 0,
        possible_u: 0,
    };
    FrontierRow {
        levels,
        slack_m: 0,
        slack_u: 0,
    }
}

/// The text of the frontier of a plan at these asked levels of links, in parts per million, for these shares.
pub fn frontier_lines(
    alloc: Global,
    plan: &Plan,
    shares: &PlanShares,
    mus: &[u32],
) -> Result<Text, NoMemory>
    requires ranges { KeepsRanges plan.now }
    requires mus { All (λ mu. mu ≤ PER_MILLION) mus.now }
    ensures { IfOk result (IsFrontierText plan.now shares.now mus.now) }
{
    let mut table = RuleTable::with_patterns(alloc, patterns_of(&shares.all))?;
    let mut rows = vec![in alloc; no_row(); mus.len()]?;
    frontier(
        &shares.all,
        plan.terms.lambda_ppm,
        mus,
        &mut table,
        &mut rows,
    );
    frontier_text(alloc, mus, &rows)
}

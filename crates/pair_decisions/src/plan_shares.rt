// The shares of a plan's fields.
ghost use Rattle.std.specs.Prelude.{◌≡◌, ◌<◌, ◌≤◌, All, None, false, IfOk, length, slice_index_or, true};
ghost use Rattle.link_base.specs.Fault.{Gives};
ghost use Rattle.link_base.specs.Shares.{IsShares};
ghost use Rattle.pair_decisions.specs.Comparators.{comparators_of, rares_of, AreSidesOf};
ghost use Rattle.pair_decisions.specs.PairRule.{pattern_over};
ghost use Rattle.pair_decisions.specs.PlanShares.{AreFieldShares, counted_in, given_in, plain_all, shares_at, shares_in, status_shares};
ghost use Rattle.link_plan.specs.Plan.{plain_shares};
ghost use Rattle.link_plan.specs.Ranges.{KeepsRanges};

use crate::comparisons::comparisons_of;
use comparators::IdTable;
use link_base::{Fault, FieldShares, NoMemory, StdFile};
use link_limits::MOST_ROWS;
use link_plan::Plan;
use sample_counts::{Counts, count_sample_over, shares, shares4};
use std::alloc::Global;

/// The shares that the settings of a plan without a sample give, one for each field.
pub fn given_shares(alloc: Global, plan: &Plan) -> Result<Vec<FieldShares>, NoMemory>
    requires ranges { KeepsRanges plan.now }
    requires no_sample { plan.now.sample ≡ None }
    ensures shares { IfOk result (λ all. plain_all all.items ≡ given_in plan.now.fields) }
    ensures fields { IfOk result (λ all. AreFieldShares plan.now.fields all.items) }
{
    let mut all = Vec::new(alloc);
    for field in plan.fields.fields() {
        if let Some(given) = field.shares {
            all.push(given)?;
        }
    }
    Ok(all)
}

// The shares of three outcomes among the pairs of a status.
fn shares_of_three(counts: &Counts, field: u8, matched: bool) -> [u16; 4]
    requires field { field < length counts.now.rares }
    requires plain { slice_index_or counts.now.rares field false ≡ false }
    ensures value { result ≡ status_shares counts.now field false matched }
    ensures valid { IsShares 3 result }
{
    let counted = counts.of(field, matched);
    let three = shares(&[counted[0], counted[1], counted[2]]);
    [three[0], three[1], three[2], 0]
}

// The shares of four outcomes among the pairs of a status.
fn shares_of_four(counts: &Counts, field: u8, matched: bool) -> [u16; 4]
    requires field { field < length counts.now.rares }
    ensures value { result ≡ status_shares counts.now field true matched }
    ensures valid { IsShares 4 result }
{
    shares4(&counts.of(field, matched))
}

/// The shares of a field, counted from 0, by the counts of a sample: of four outcomes where the field is `rare`, as the
/// counts have it, else of three.
pub fn shares_of_counts(counts: &Counts, field: u8, rare: bool) -> FieldShares
    requires field { field < length counts.now.rares }
    requires rare { rare ≡ slice_index_or counts.now.rares field false }
    ensures { plain_shares result ≡ shares_at counts.now (field, rare) }
{
    if rare {
        return FieldShares {
            rare: true,
            m: shares_of_four(counts, field, true),
            u: shares_of_four(counts, field, false),
        };
    }
    FieldShares {
        rare: false,
        m: shares_of_three(counts, field, true),
        u: shares_of_three(counts, field, false),
    }
}

// The shares of all fields of a plan by the counts of its sample.
fn shares_by(alloc: Global, plan: &Plan, counts: &Counts) -> Result<Vec<FieldShares>, NoMemory>
    requires rares { counts.now.rares ≡ rares_of plan.now.fields }
    ensures shares { IfOk result (λ all. plain_all all.items ≡ shares_in counts.now) }
    ensures fields { IfOk result (λ all. AreFieldShares plan.now.fields all.items) }
{
    let fields = plan.fields.fields();
    let mut all = Vec::new(alloc);
    for at in 0..fields.len() {
        let field = &fields[at];
        all.push(shares_of_counts(counts, at as u8, field.rare.is_some()))?;
    }
    Ok(all)
}

/// The shares of a plan's fields by its sample of two files, one for each field, or the first fault of the sample. The
/// sides stand for the records of A and B, and their ids name `texts` texts.
pub fn counted_shares(
    alloc: Global,
    plan: &Plan,
    sample: &[u8],
    a: &StdFile,
    b: &StdFile,
    texts: u32,
    sides_a: &IdTable,
    sides_b: &IdTable,
) -> Result<Vec<FieldShares>, Fault>
    requires ranges { KeepsRanges plan.now }
    requires few_a { length a.now ≤ MOST_ROWS }
    requires few_b { length b.now ≤ MOST_ROWS }
    requires rows_a { length sides_a.now.rows ≡ length a.now }
    requires rows_b { length sides_b.now.rows ≡ length b.now }
    requires sides_a { All (AreSidesOf texts plan.now.fields) sides_a.now.rows }
    requires sides_b { All (AreSidesOf texts plan.now.fields) sides_b.now.rows }
    ensures answer { Gives (λ all. plain_all all.items) (counted_in plan.now.fields (pattern_over (comparators_of texts plan.now.fields sides_a.now.rows sides_b.now.rows) sides_a.now.rows sides_b.now.rows) a.now b.now sample.now) result }
    ensures fields { IfOk result (λ all. AreFieldShares plan.now.fields all.items) }
{
    let kinds = comparisons_of(alloc, plan, texts, sides_a, sides_b)?;
    match count_sample_over(alloc, sample, a, b, &kinds, sides_a, sides_b) {
        Ok(counts) => Ok(shares_by(alloc, plan, &counts)?),
        Err(fault) => Err(fault),
    }
}

// The candidates among decided pairs.
ghost use Rattle.std.specs.Prelude.{◌≡◌, ◌≤◌, ◌≤ℤ◌, ◌++◌, pos, List, All, IfOk, IfSome, OnOk, Some, length, option_to_list};
ghost use Rattle.candidate_links.specs.Candidates.{AreCandidates, candidates_of, most_value, of_link, of_possible, weight_of_pair};
ghost use Rattle.link_base.specs.declared.rule.Candidate.{Candidate as ACandidate};
ghost use Rattle.link_base.specs.declared.rule.PairAt.{PairAt as Pair};
ghost use Rattle.pair_decisions.specs.Decisions.{AreDecisionsOn, IsInside};
ghost use Rattle.pair_decisions.specs.PairRule.{AreSidesFor, side_rule};
ghost use Rattle.link_limits.specs.declared.TheConstants.{GREATEST_WEIGHT, LEAST_WEIGHT, MOST_VALUE};

use crate::merging::{Next, after_first, next_of};
use comparators::IdTable;
use link_base::{Candidate, NoMemory, PairAt, Sides, Verdict};
use pair_decisions::{Decided, PairRule};
use review_journal::Journal;
use std::alloc::Global;

// The weight of a pair, in eighths of a bit.
fn weight_of_pair(rule: &PairRule, sides_a: &IdTable, sides_b: &IdTable, at: PairAt) -> i32
    requires sides_a { All (AreSidesFor rule.now) sides_a.now.rows }
    requires sides_b { All (AreSidesFor rule.now) sides_b.now.rows }
    requires inside { IsInside (length sides_a.now.rows) (length sides_b.now.rows) at }
    ensures weight { result ≡ weight_of_pair (side_rule rule.now sides_a.now.rows sides_b.now.rows) at }
    ensures least { LEAST_WEIGHT ≤ℤ result }
    ensures most { result ≤ℤ GREATEST_WEIGHT }
{
    let pattern = rule.pattern(sides_a.sides(at.a), sides_b.sides(at.b));
    rule.cell(pattern).weight
}

// The candidate of a link by rule, which is worth its weight.
fn of_link(rule: &PairRule, sides_a: &IdTable, sides_b: &IdTable, at: PairAt) -> Candidate
    requires sides_a { All (AreSidesFor rule.now) sides_a.now.rows }
    requires sides_b { All (AreSidesFor rule.now) sides_b.now.rows }
    requires inside { IsInside (length sides_a.now.rows) (length sides_b.now.rows) at }
    ensures candidate { Some result ≡ of_link (side_rule rule.now sides_a.now.rows sides_b.now.rows) at }
    ensures most { result.value ≤ℤ GREATEST_WEIGHT }
{
    let weight = weight_of_pair(rule, sides_a, sides_b, at);
    Candidate {
        a: at.a,
        b: at.b,
        weight,
        value: weight,
        reviewed: false,
    }
}

// The candidate of a possible link, where its verdict is that it is a link: it is worth its weight and the award.
fn of_possible(
    rule: &PairRule,
    journal: &Journal,
    award: u32,
    sides_a: &IdTable,
    sides_b: &IdTable,
    at: PairAt,
) -> Option<Candidate>
    requires award { most_value award ≤ℤ pos MOST_VALUE }
    requires sides_a { All (AreSidesFor rule.now) sides_a.now.rows }
    requires sides_b { All (AreSidesFor rule.now) sides_b.now.rows }
    requires inside { IsInside (length sides_a.now.rows) (length sides_b.now.rows) at }
    ensures candidate { result ≡ of_possible (side_rule rule.now sides_a.now.rows sides_b.now.rows) journal.now award at }
    ensures most { IfSome result (λ c. c.value ≤ℤ most_value award) }
{
    match journal.verdict(at.a, at.b) {
        Some(Verdict::Link) => {
            let weight = weight_of_pair(rule, sides_a, sides_b, at);
            Some(Candidate {
                a: at.a,
                b: at.b,
                weight,
                value: weight + award as i32,
                reviewed: true,
            })
        }
        _ => None,
    }
}

// Appends a candidate, where there is one.
fn keep(candidates: &mut Vec<Candidate>, candidate: Option<Candidate>) -> Result<(), NoMemory>
    ensures { OnOk result (candidates.new.items ≡ candidates.old.items ++ option_to_list candidate) }
{
    if let Some(candidate) = candidate {
        candidates.push(candidate)?;
    }
    Ok(())
}

/// The candidates among decided pairs, rising by position: the links by rule, each worth its weight, and the possible links whose
/// verdict is that they are links, each worth its weight and the award, all in eighths of a bit.
pub fn candidates_among(
    alloc: Global,
    decided: &Decided,
    journal: &Journal,
    award: u32,
    sides_a: &IdTable,
    sides_b: &IdTable,
) -> Result<Vec<Candidate>, NoMemory>
    requires award { most_value award ≤ℤ pos MOST_VALUE }
    requires sides_a { All (AreSidesFor decided.now.rule) sides_a.now.rows }
    requires sides_b { All (AreSidesFor decided.now.rule) sides_b.now.rows }
    requires links { All (IsInside (length sides_a.now.rows) (length sides_b.now.rows)) decided.now.links }
    requires possible { All (IsInside (length sides_a.now.rows) (length sides_b.now.rows)) decided.now.possible }
    ensures candidates { IfOk result (λ cs. (pairs : List Pair) → AreDecisionsOn sides_a.now.rows sides_b.now.rows pairs decided.now
        → AreCandidates (length sides_a.now.rows) (length sides_b.now.rows) (candidates_of (side_rule decided.now.rule sides_a.now.rows sides_b.now.rows) journal.now award pairs) cs.items) }
    ensures most { IfOk result (λ cs. All (λ (c : ACandidate). c.value ≤ℤ most_value award) cs.items) }
{
    let rule = decided.rule();
    let mut links = decided.links();
    let mut possible = decided.possible();
    let mut candidates = Vec::with_capacity(alloc, links.len())?;
    'pairs: loop {
        match next_of(links, possible) {
            Next::End => return Ok(candidates),
            Next::Link(at) => {
                candidates.push(of_link(rule, sides_a, sides_b, at))?;
                links = after_first(links);
                continue 'pairs;
            }
            Next::Possible(at) => {
                let candidate = of_possible(rule, journal, award, sides_a, sides_b, at);
                keep(&mut candidates, candidate)?;
                possible = after_first(possible);
                continue 'pairs;
            }
        }
    }
}

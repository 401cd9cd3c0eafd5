// Written files, whoever wrote them.
ghost use Rattle.std.specs.Prelude.{◌≡◌, ◌+◌, ◌<◌, ◌≤◌, ◌^◌, All, AllPairs, IfErr, IfOk, length};
ghost use Rattle.price_check.specs.Assignment.{IsBefore, IsGreatest, IsWithin};
ghost use Rattle.link_base.specs.declared.rule.RuleCell.{RuleCell as Cell};
ghost use Rattle.link_limits.specs.declared.TheConstants.{MOST_WRITTEN_BYTES};
ghost use Rattle.patterns.specs.Patterns.{pattern_count_by, rare_of};
ghost use Rattle.price_check.specs.Verdict.{HasAllowedValue};
ghost use Rattle.written_check.specs.LinkRows.{IsRefutationWithin, Verifies};
ghost use Rattle.written_check.specs.Verified.{texts_in, verified};

use crate::laws::verified_is_greatest;
use crate::links::verify_links;
use crate::prices::verify_prices;
use crate::refutation::Refutation;
use crate::rule::verify_rule;
use crate::sums::{verify_apart, verify_sums};
use link_base::{Candidate, RuleTable, Shape, StdFile, Text};
use std::alloc::Global;

/// The texts of `rule.csv`, `links.csv` and `prices.csv` as they are held.
#[derive(Drop)]
pub struct Written {
    pub rule: Text,
    pub links: Text,
    pub prices: Text,
}

/// The links of written files that meet their definitions for a rule, for rising candidates and for the records of both files: the rule
/// has the rows of its cells; the links are candidates, rising, of which no two share a record; and the prices certify them, so that
/// they are greatest. Else the first reason that refutes the files.
pub fn verify_written(
    alloc: Global,
    written: &Written,
    table: &RuleTable,
    shape: &Shape,
    candidates: &[Candidate],
    a: &StdFile,
    b: &StdFile,
) -> Result<Vec<Candidate>, Refutation>
    requires rule { length written.now.rule ≤ MOST_WRITTEN_BYTES }
    requires links { length written.now.links ≤ MOST_WRITTEN_BYTES }
    requires prices { length written.now.prices ≤ MOST_WRITTEN_BYTES }
    requires shape { All (λ (c : Cell). c.pattern < pattern_count_by (rare_of shape.now)) table.now.cells.items }
    requires count { length candidates.now < 2 ^ 32 }
    requires rising { AllPairs IsBefore candidates.now }
    requires within { All (IsWithin (length a.now) (length b.now)) candidates.now }
    requires allowed { All HasAllowedValue candidates.now }
    ensures within { IfErr result (IsRefutationWithin (length a.now) (length b.now)) }
    ensures answer { Verifies (λ links. links.items) (verified (rare_of shape.now) table.now.cells.items candidates.now a.now b.now (texts_in written.now)) result }
    ensures greatest { IfOk result (λ links. IsGreatest candidates.now links.items) }
{
    verified_is_greatest();
    match verify_rule(alloc, written.rule.bytes(), table, shape) {
        Ok(()) => {}
        Err(refutation) => return Err(refutation),
    }
    let links = match verify_links(alloc, written.links.bytes(), candidates, a, b) {
        Ok(links) => links,
        Err(refutation) => return Err(refutation),
    };
    match verify_apart(alloc, b.rows(), &links) {
        Ok(()) => {}
        Err(refutation) => return Err(refutation),
    }
    let prices = match verify_prices(alloc, written.prices.bytes(), a, b) {
        Ok(prices) => prices,
        Err(refutation) => return Err(refutation),
    };
    match verify_sums(a.rows(), b.rows(), candidates, &links, &prices) {
        Ok(()) => Ok(links),
        Err(refutation) => Err(refutation),
    }
}

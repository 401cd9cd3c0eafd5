// The decisions on the pairs of blocks.
ghost use Rattle.std.specs.Prelude.{◌≡◌, ◌≤◌, All, AllPairs, IfOk, length};
ghost use Rattle.link_base.specs.Fault.{Gives};
ghost use Rattle.link_base.specs.Rule.{IsPairBefore};
ghost use Rattle.pair_decisions.specs.Decisions.{count_with, IsInside, pairs_within};
ghost use Rattle.pair_decisions.specs.PairRule.{AreSidesFor};
ghost use Rattle.pair_decisions.specs.PairRows.{IsDecidedOn};
ghost use Rattle.pair_walk.specs.Rows.{pairs_of_rows};

use crate::pair_rule::PairRule;
use crate::rows::DecidedRow;
use crate::walking::{Found, decide_rows};
use comparators::IdTable;
use link_base::{Decision, Fault, PairAt};
use link_limits::MOST_ROWS;
use pair_walk::{Blocks, WalkFault};
use std::alloc::Global;
use std::marker::Model;

/// The decisions of a rule on all compared pairs of two files. Contracts see the rule, the rows of the pairs where they are kept,
/// how many pairs were compared, and the rising lists of the pairs that are links and possible links.
#[derive(Drop)]
pub struct Decided {
    rule: PairRule,
    found: Found,
}

impl Model for Decided {
    ghost use Rattle.std.specs.Prelude.{◌+◌, ◌≤◌, length};
    ghost use Rattle.pair_decisions.specs.Decisions.{DecidedView};

    ghost Value = { DecidedView };

    ghost view = { λ d. record { rule = d.rule; rows = d.found.rows.items; compared = d.found.compared; links = d.found.links.items; possible = d.found.possible.items } };

    ghost invariant = { λ d. length d.found.links.items + length d.found.possible.items ≤ d.found.compared };
}

impl Decided {
    /// The rule.
    pub fn rule(&self) -> &PairRule
        ensures { result.now ≡ self.now.rule }
    {
        &self.rule
    }

    /// The rows of the compared pairs before review, rising by the positions in A and then in B, where they are kept.
    pub fn rows(&self) -> &[DecidedRow]
        ensures { result.now ≡ self.now.rows }
    {
        &self.found.rows
    }

    /// The links, rising by the positions in A and then in B.
    pub fn links(&self) -> &[PairAt]
        ensures { result.now ≡ self.now.links }
    {
        &self.found.links
    }

    /// The possible links, which go to clerical review, rising by the positions in A and then in B.
    pub fn possible(&self) -> &[PairAt]
        ensures { result.now ≡ self.now.possible }
    {
        &self.found.possible
    }

    /// How many pairs were compared.
    pub fn compared(&self) -> u32
        ensures { result ≡ self.now.compared }
    {
        self.found.compared
    }

    /// How many of the compared pairs have a decision.
    pub fn count(&self, kind: Decision) -> u32
        ensures { result ≡ count_with self.now kind }
    {
        let compared = self.found.compared;
        let links = self.found.links.len() as u32;
        let possible = self.found.possible.len() as u32;
        match kind {
            Decision::Link => links,
            Decision::Possible => possible,
            Decision::NonLink => compared - (links + possible),
        }
    }
}

/// The decisions of a rule on the pairs of the blocks of two files, in one walk, which keeps the row of each pair where they are
/// asked for. There are too many pairs exactly where they are more than `MOST_PAIRS`. The sides are what the records of the two
/// files are compared by.
pub fn decide_pairs(
    alloc: Global,
    rule: PairRule,
    blocks: &Blocks,
    sides_a: &IdTable,
    sides_b: &IdTable,
    with_rows: bool,
) -> Result<Decided, Fault>
    requires few_a { length sides_a.now.rows ≤ MOST_ROWS }
    requires few_b { length sides_b.now.rows ≤ MOST_ROWS }
    requires sides_a { All (AreSidesFor rule) sides_a.now.rows }
    requires sides_b { All (AreSidesFor rule) sides_b.now.rows }
    requires inside { All (IsInside (length sides_a.now.rows) (length sides_b.now.rows)) (pairs_of_rows blocks.now) }
    requires rising { AllPairs IsPairBefore (pairs_of_rows blocks.now) }
    ensures answer { Gives (λ _. pairs_of_rows blocks.now) (pairs_within (pairs_of_rows blocks.now)) result }
    ensures decided { IfOk result (IsDecidedOn rule with_rows sides_a.now.rows sides_b.now.rows (pairs_of_rows blocks.now)) }
{
    rule.has_cells();
    match decide_rows(alloc, blocks.walk(), &rule, sides_a, sides_b, with_rows) {
        Ok(found) => Ok(Decided { rule, found }),
        Err(WalkFault::TooManyPairs { limit }) => Err(Fault::TooManyPairs { limit }),
        Err(WalkFault::NoMemory) => Err(Fault::NoMemory),
    }
}

// The rule of a plan over the sides of two files.
ghost use Rattle.std.specs.Prelude.{◌≡◌, ◌<◌, ◌≤◌, All, IfOk, Some, find, length, map};
ghost use Rattle.std.specs.List.{list_all};
ghost use Rattle.comparators.specs.Fields.{field_rare};
ghost use Rattle.link_base.specs.Rule.{IsWithinRanges};
ghost use Rattle.pair_decisions.specs.PairRule.{AreCellsOf, AreSidesFor, has_pattern, IsRuleOver, pattern_by};
ghost use Rattle.patterns.specs.Patterns.{pattern_count_by};
ghost use Rattle.pair_decisions.specs.Comparators.{answers_of, is_same_id as by_id_alone, rares_of, AreSidesOf};
ghost use Rattle.link_plan.specs.Ranges.{KeepsRanges};

use crate::comparisons::comparisons_of;
use crate::places::places_of;
use comparators::{FieldById, IdTable, IdValue, SameId};
use link_base::{NoMemory, RuleCell, RuleTable};
use link_limits::{MOST_FIELDS, MOST_ROWS};
use link_plan::Plan;
use patterns::pattern_over;
use std::alloc::Global;
use std::marker::Model;

const SAME_ID: SameId = SameId;

// A comparison of ids alone for each field.
const SAME_IDS: [SameId; MOST_FIELDS as usize] = [SAME_ID; MOST_FIELDS as usize];

fn is_same_id(comparator: &FieldById) -> bool
    ensures { result ≡ by_id_alone comparator.now }
{
    matches!(comparator, FieldById::Same)
}

fn are_same_ids(comparators: &[FieldById]) -> bool
    ensures { result ≡ list_all by_id_alone comparators.now }
{
    comparators.iter().all(|comparator| is_same_id(comparator))
}

/// The decision rule of a plan over the sides of two files. Contracts see its comparators, the cells
/// of its filled table, and the seed of its border words.
#[derive(Drop)]
pub struct PairRule {
    comparators: Vec<FieldById>,
    table: RuleTable,
    // The place of the cell of each pattern.
    places: Vec<u16>,
    seed: u64,
    // Whether all fields are compared by their ids alone.
    by_id: bool,
}

impl Model for PairRule {
    ghost use Rattle.pair_decisions.specs.PairRule.{PairRuleView};
    ghost use Rattle.pair_decisions.specs.Places.{KeepsPlaces};

    ghost Value = { PairRuleView };

    ghost view = { λ r. record { comparators = r.comparators.items; cells = r.table.cells.items; seed = r.seed } };

    ghost invariant = { λ r. KeepsPlaces r.by_id r.comparators.items r.table.cells.items r.places.items };
}

impl PairRule {
    /// The rule of a plan over the sides of two files, whose ids name `texts` texts, by its filled table, which has a cell for
    /// each pattern.
    pub fn new(
        alloc: Global,
        plan: &Plan,
        table: RuleTable,
        texts: u32,
        sides_a: &IdTable,
        sides_b: &IdTable,
    ) -> Result<PairRule, NoMemory>
        requires ranges { KeepsRanges plan.now }
        requires few_a { length sides_a.now.rows ≤ MOST_ROWS }
        requires few_b { length sides_b.now.rows ≤ MOST_ROWS }
        requires sides_a { All (AreSidesOf texts plan.now.fields) sides_a.now.rows }
        requires sides_b { All (AreSidesOf texts plan.now.fields) sides_b.now.rows }
        requires cells { AreCellsOf (pattern_count_by (rares_of plan.now.fields)) table.cells.items }
        ensures { IfOk result (IsRuleOver plan.now texts table.cells.items sides_a.now.rows sides_b.now.rows) }
    {
        let comparators = comparisons_of(alloc, plan, texts, sides_a, sides_b)?;
        let places = places_of(alloc, table.cells())?;
        let by_id = are_same_ids(&comparators);
        Ok(PairRule {
            comparators,
            table,
            places,
            seed: plan.terms.seed,
            by_id,
        })
    }

    /// The filled table.
    pub fn table(&self) -> &RuleTable
        ensures { result.now.cells.items ≡ self.now.cells }
    {
        &self.table
    }

    /// The seed of the border words.
    pub fn seed(&self) -> u64
        ensures { result ≡ self.now.seed }
    {
        self.seed
    }

    /// Law: there are as many cells as patterns of the comparators.
    pub(crate) fn has_cells(&self)
        ensures { length self.now.cells ≡ pattern_count_by (map field_rare self.now.comparators) }
    {
        let _places = &self.places;
    }

    /// The comparison pattern of a row of A and a row of B.
    pub fn pattern(&self, a: &[IdValue], b: &[IdValue]) -> u16
        requires sides_a { AreSidesFor self.now a.now }
        requires sides_b { AreSidesFor self.now b.now }
        ensures number { result ≡ pattern_by (map answers_of self.now.comparators) a.now b.now }
        ensures range { result < length self.now.cells }
    {
        if self.by_id {
            return pattern_over(&SAME_IDS[..a.len()], a, b);
        }
        pattern_over(&self.comparators, a, b)
    }

    /// The cell of a pattern.
    pub fn cell(&self, pattern: u16) -> &RuleCell
        requires pattern { pattern < length self.now.cells }
        ensures found { find (has_pattern pattern) self.now.cells ≡ Some result.now }
        ensures in_range { IsWithinRanges result.now }
    {
        let place = self.places[usize::from(pattern)];
        &self.table.cells()[usize::from(place)]
    }
}

// The decisions on the pairs of a walk.
ghost use Rattle.std.specs.Prelude.{◌≡◌, ◌<◌, ◌≤◌, ◌+◌, All, IfErr, IfOk, OnOk, length, map};
ghost use Rattle.pair_decisions.specs.Found.{AddsDecisions, AddsRow, IsFoundOf};
ghost use Rattle.pair_decisions.specs.PairRule.{AreSidesFor, side_rule};
ghost use Rattle.pair_decisions.specs.Decisions.{IsInside};
ghost use Rattle.pair_walk.specs.Rows.{pair, pairs_of_rows};
ghost use Rattle.pair_walk.specs.Walker.{RefusesPairs};

use crate::pair_rule::PairRule;
use crate::rows::{DecidedRow, row_at};
use comparators::IdTable;
use decision_rule::BorderWords;
use link_base::{Decision, NoMemory, PairAt};
use link_limits::{MOST_PAIRS, MOST_ROWS};
use pair_walk::{RowPairs, WalkFault, Walker};
use std::alloc::Global;

/// What was found so far: the rows of the pairs where they are kept, the links and the possible links, and how many pairs were
/// compared.
#[derive(Drop)]
pub(crate) struct Found {
    pub(crate) rows: Vec<DecidedRow>,
    pub(crate) links: Vec<PairAt>,
    pub(crate) possible: Vec<PairAt>,
    pub(crate) compared: u32,
}

// Keeps the row of a pair, where rows are kept, and the pair, where it is a link or a possible link.
fn keep(found: &mut Found, row: DecidedRow, with_rows: bool) -> Result<(), NoMemory>
    ensures { OnOk result (AddsRow with_rows row found.old found.new) }
{
    if with_rows {
        found.rows.push(row)?;
    }
    match row.decision {
        Decision::Link => found.links.push(row.at)?,
        Decision::Possible => found.possible.push(row.at)?,
        Decision::NonLink => {}
    }
    Ok(())
}

// Counts the pairs of a row of A, and decides on each.
fn decide_row(
    rule: &PairRule,
    words: &mut BorderWords,
    sides_a: &IdTable,
    sides_b: &IdTable,
    row: &RowPairs,
    with_rows: bool,
    found: &mut Found,
) -> Result<(), NoMemory>
    requires words { words.old ≡ rule.now.seed }
    requires few_a { length sides_a.now.rows ≤ MOST_ROWS }
    requires few_b { length sides_b.now.rows ≤ MOST_ROWS }
    requires sides_a { All (AreSidesFor rule.now) sides_a.now.rows }
    requires sides_b { All (AreSidesFor rule.now) sides_b.now.rows }
    requires inside { All (IsInside (length sides_a.now.rows) (length sides_b.now.rows)) (map (pair row.now.a) row.now.bs.items) }
    requires few { found.old.compared + length row.now.bs.items ≤ MOST_PAIRS }
    ensures same { words.new ≡ words.old }
    ensures found { OnOk result (AddsDecisions (side_rule rule.now sides_a.now.rows sides_b.now.rows) with_rows (map (pair row.now.a) row.now.bs.items) found.old found.new) }
    ensures compared { OnOk result (found.new.compared ≡ found.old.compared + length row.now.bs.items) }
{
    found.compared += row.bs.len() as u32;
    for b in &row.bs {
        let at = PairAt { a: row.a, b: *b };
        let decided = row_at(rule, words, sides_a, sides_b, at);
        keep(found, decided, with_rows)?;
    }
    Ok(())
}

/// The decisions on the pairs of the rows that a new walker gives, with the rows of these pairs where they are asked for.
pub(crate) fn decide_rows(
    alloc: Global,
    mut walker: Walker<'_>,
    rule: &PairRule,
    sides_a: &IdTable,
    sides_b: &IdTable,
    with_rows: bool,
) -> Result<Found, WalkFault>
    requires given { walker.given ≡ 0 }
    requires few_a { length sides_a.now.rows ≤ MOST_ROWS }
    requires few_b { length sides_b.now.rows ≤ MOST_ROWS }
    requires sides_a { All (AreSidesFor rule.now) sides_a.now.rows }
    requires sides_b { All (AreSidesFor rule.now) sides_b.now.rows }
    requires inside { All (IsInside (length sides_a.now.rows) (length sides_b.now.rows)) (pairs_of_rows walker.left) }
    ensures refused { IfErr result (RefusesPairs (pairs_of_rows walker.entry.left)) }
    ensures found { IfOk result (IsFoundOf (side_rule rule.now sides_a.now.rows sides_b.now.rows) with_rows (pairs_of_rows walker.entry.left)) }
{
    let mut words = BorderWords::new(rule.seed());
    let mut room = 0;
    if with_rows {
        room = walker.most_pairs().min(MOST_PAIRS as usize);
    }
    let Ok(kept) = Vec::with_capacity(alloc, room) else {
        return Err(WalkFault::NoMemory);
    };
    let mut found = Found {
        rows: kept,
        links: Vec::new(alloc),
        possible: Vec::new(alloc),
        compared: 0,
    };
    let mut row = RowPairs::new(alloc);
    'rows: loop {
        match walker.next_row(alloc, &mut row) {
            Err(fault) => return Err(fault),
            Ok(false) => return Ok(found),
            Ok(true) => match decide_row(
                rule, &mut words, sides_a, sides_b, &row, with_rows, &mut found,
            ) {
                Ok(()) => {}
                Err(NoMemory) => return Err(WalkFault::NoMemory),
            },
        }
    }
}

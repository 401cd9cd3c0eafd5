// A written rule, row by row.
ghost use Rattle.std.specs.Prelude.{◌≡◌, ◌+◌, ◌<◌, ◌^◌, All, Bool, IfErr, IfOk, IsTrue, List, Ok, length, map};
ghost use Rattle.csv.specs.Records.{fields_of};
ghost use Rattle.link_base.specs.Rule.{IsWithinRanges};
ghost use Rattle.link_base.specs.declared.rule.RuleCell.{RuleCell as Cell};
ghost use Rattle.link_report.specs.Reading.{same_row};
ghost use Rattle.link_report.specs.LinksText.{cell_fields, outcome_letters};
ghost use Rattle.patterns.specs.Patterns.{pattern_count_by, rare_of};
ghost use Rattle.written_check.specs.LinkRows.{IsOfRows, Verifies, TakesCellRow, first_difference, rule_verified};

use crate::refutation::Refutation;
use csv::ByteRecord;
use file_reader::Records;
use itoa::Buffer;
use link_base::{NoMemory, RuleCell, RuleTable, Shape};
use link_limits::WHOLE_RULE;
use link_report::{RULE_HEADER, ReadRows, has_fields, letters_of, read_rows, rows_begun};
use std::alloc::Global;

// Whether a row is that of a cell whose pattern has these letters.
fn has_fields_of(row: &ByteRecord, letters: &[u8], cell: &RuleCell) -> bool
    requires { IsWithinRanges cell.now }
    ensures { (rares : List Bool) → letters.now ≡ outcome_letters rares cell.now.pattern
        → result ≡ same_row (fields_of row.now) (cell_fields rares cell.now) }
{
    let mut pattern = Buffer::new();
    let mut m = Buffer::new();
    let mut u = Buffer::new();
    let mut weight = Buffer::new();
    let mut link = Buffer::new();
    let mut possible = Buffer::new();
    let mut nonlink = Buffer::new();
    let fields = [
        pattern.format(cell.pattern).as_bytes(),
        letters,
        m.format(cell.m).as_bytes(),
        u.format(cell.u).as_bytes(),
        weight.format(cell.weight).as_bytes(),
        link.format(cell.link).as_bytes(),
        possible
            .format(WHOLE_RULE - cell.link - cell.nonlink)
            .as_bytes(),
        nonlink.format(cell.nonlink).as_bytes(),
    ];
    has_fields(row, &fields)
}

// Whether the next of the rows that are left is that of a cell.
fn takes_row_of(
    alloc: Global,
    rows: &mut Records<'_>,
    row: &mut ByteRecord,
    cell: &RuleCell,
    shape: &Shape,
) -> Result<bool, NoMemory>
    requires shape { cell.now.pattern < pattern_count_by (rare_of shape.now) }
    requires ranges { IsWithinRanges cell.now }
    ensures { IfOk result (λ takes. TakesCellRow (cell_fields (rare_of shape.now) cell.now) rows.old rows.new takes) }
{
    if !rows.next(row)? {
        return Ok(false);
    }
    let outcomes = letters_of(alloc, shape, cell.pattern)?;
    Ok(has_fields_of(row, &outcomes, cell))
}

// The first row that is not that of its cell, by its number.
fn difference_in(
    alloc: Global,
    rows: &mut Records<'_>,
    table: &RuleTable,
    shape: &Shape,
) -> Result<Option<u32>, NoMemory>
    requires few { length rows.old + 1 < 2 ^ 32 }
    requires shape { All (λ (c : Cell). c.pattern < pattern_count_by (rare_of shape.now)) table.now.cells.items }
    ensures { IfOk result (λ number. number ≡ first_difference 1 rows.old (map (cell_fields (rare_of shape.now)) table.now.cells.items)) }
{
    let mut row = ByteRecord::new(alloc);
    let mut number = 1;
    for cell in table.cells() {
        if !takes_row_of(alloc, rows, &mut row, cell, shape)? {
            return Ok(Some(number));
        }
        number += 1;
    }
    if rows.next(&mut row)? {
        return Ok(Some(number));
    }
    Ok(None)
}

// Whether the text of a rule has the rows of the cells, in one pass.
fn is_rule_in_order(
    alloc: Global,
    text: &[u8],
    table: &RuleTable,
    shape: &Shape,
) -> Result<bool, NoMemory>
    requires few { length text.now + 1 < 2 ^ 32 }
    requires shape { All (λ (c : Cell). c.pattern < pattern_count_by (rare_of shape.now)) table.now.cells.items }
    ensures { IfOk result (λ is. IsTrue is → rule_verified (rare_of shape.now) table.now.cells.items text.now ≡ Ok text.now) }
{
    match rows_begun(alloc, text, &RULE_HEADER)? {
        Some(mut rows) => Ok(difference_in(alloc, &mut rows, table, shape)?.is_none()),
        None => Ok(false),
    }
}

// Verifies the text of a rule: in one pass where it has the rows of the cells, and else with the form tested before the rows, as
// reasons go.
pub(crate) fn verify_rule(
    alloc: Global,
    text: &[u8],
    table: &RuleTable,
    shape: &Shape,
) -> Result<(), Refutation>
    requires few { length text.now + 1 < 2 ^ 32 }
    requires shape { All (λ (c : Cell). c.pattern < pattern_count_by (rare_of shape.now)) table.now.cells.items }
    ensures kind { IfErr result IsOfRows }
    ensures answer { Verifies (λ _. text.now) (rule_verified (rare_of shape.now) table.now.cells.items text.now) result }
{
    if is_rule_in_order(alloc, text, table, shape)? {
        return Ok(());
    }
    match read_rows(alloc, text, &RULE_HEADER)? {
        ReadRows::Rows(mut rows) => match difference_in(alloc, &mut rows, table, shape)? {
            Some(row) => Err(Refutation::Rule { row }),
            None => Ok(()),
        },
        ReadRows::Bad { row } => Err(Refutation::Rule { row }),
    }
}

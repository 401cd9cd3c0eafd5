// The text of a decision rule.
ghost use Rattle.std.specs.Prelude.{◌≡◌, ◌<◌, ◌++◌, All, Bool, IfOk, List, OnOk};
ghost use Rattle.link_base.specs.Rule.{IsWithinRanges};
ghost use Rattle.link_base.specs.declared.rule.RuleCell.{RuleCell as Cell};
ghost use Rattle.link_report.specs.LinksText.{cell_row, outcome_letter, outcome_letters, text_of_rule};
ghost use Rattle.patterns.specs.Patterns.{pattern_count_by, rare_of};

use csv_rows::push_row;
use itoa::Buffer;
use link_base::{NoMemory, Outcome, RuleCell, RuleTable, Shape, Text};
use link_limits::WHOLE_RULE;
use patterns::outcome_of;
use std::alloc::Global;

fn letter_of(outcome: Outcome) -> u8
    ensures { result ≡ outcome_letter outcome }
{
    match outcome {
        Outcome::Agree => b'A',
        Outcome::Disagree => b'D',
        Outcome::Missing => b'M',
        Outcome::Rare => b'R',
    }
}

/// The letters of a comparison pattern, one for each field: A agree, D disagree, M missing, R rare.
pub fn letters_of(alloc: Global, shape: &Shape, pattern: u16) -> Result<Vec<u8>, NoMemory>
    requires { pattern < pattern_count_by (rare_of shape.now) }
    ensures { IfOk result (λ letters. letters.items ≡ outcome_letters (rare_of shape.now) pattern) }
{
    let mut letters = Vec::new(alloc);
    for field in 0..shape.fields {
        letters.push(letter_of(outcome_of(shape, pattern, field)))?;
    }
    Ok(letters)
}

// Appends the row of a cell whose pattern has these letters.
fn push_fields(text: &mut Vec<u8>, letters: &[u8], cell: &RuleCell) -> Result<(), NoMemory>
    requires { IsWithinRanges cell.now }
    ensures { (rares : List Bool) → letters.now ≡ outcome_letters rares cell.now.pattern
        → OnOk result (text.new.items ≡ text.old.items ++ cell_row rares cell.now) }
{
    let mut pattern = Buffer::new();
    let mut m = Buffer::new();
    let mut u = Buffer::new();
    let mut weight = Buffer::new();
    let mut link = Buffer::new();
    let mut possible = Buffer::new();
    let mut nonlink = Buffer::new();
    push_row(
        text,
        &[
            pattern.format(cell.pattern).as_bytes(),
            letters,
            m.format(cell.m).as_bytes(),
            u.format(cell.u).as_bytes(),
            weight.format(cell.weight).as_bytes(),
            link.format(cell.link).as_bytes(),
            possible
                .format(WHOLE_RULE - cell.link - cell.nonlink)
                .as_bytes(),
            nonlink.format(cell.nonlink).as_bytes(),
        ],
    )
}

// Appends the row of a cell.
fn push_cell(
    alloc: Global,
    text: &mut Vec<u8>,
    cell: &RuleCell,
    shape: &Shape,
) -> Result<(), NoMemory>
    requires shape { cell.now.pattern < pattern_count_by (rare_of shape.now) }
    requires ranges { IsWithinRanges cell.now }
    ensures { OnOk result (text.new.items ≡ text.old.items ++ cell_row (rare_of shape.now) cell.now) }
{
    let letters = letters_of(alloc, shape, cell.pattern)?;
    let pushed = push_fields(text, &letters, cell);
    drop(letters);
    pushed
}

/// The text of a decision rule: the header `pattern,outcomes,m,u,weight,link,possible,nonlink`, and a row for each cell
/// in the order of the table. Outcomes are a letter a field: A agree, D disagree, M missing, R rare.
#[tactic(auto, using(crate::proofs::HeaderLemmas::header_texts))]
pub fn rule_text(alloc: Global, table: &RuleTable, shape: &Shape) -> Result<Text, NoMemory>
    requires { All (λ (c : Cell). c.pattern < pattern_count_by (rare_of shape.now)) table.now.cells.items }
    ensures { IfOk result (λ text. text ≡ text_of_rule (rare_of shape.now) table.now.cells.items) }
{
    let mut text = Vec::new(alloc);
    text.extend_from_slice(b"pattern,outcomes,m,u,weight,link,possible,nonlink\n")?;
    for cell in table.cells() {
        push_cell(alloc, &mut text, cell, shape)?;
    }
    Ok(Text::of(text))
}

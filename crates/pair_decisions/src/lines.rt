// The lines of the compared pairs of two files.
ghost use Rattle.std.specs.Prelude.{◌≡◌, ◌++◌, IfOk, OnOk, length, flat_map};
ghost use Rattle.link_report.specs.PairsText.{pair_row, text_of_pairs};
ghost use Rattle.pair_decisions.specs.PairRows.{AreRowsIn, shown_rows};
ghost use Rattle.pair_decisions.specs.PairRule.{AreCellsOf};
ghost use Rattle.patterns.specs.Patterns.{pattern_count_by};
ghost use Rattle.pair_decisions.specs.Comparators.{rares_of};

use crate::deciding::Decided;
use crate::pair_rule::PairRule;
use crate::rows::{DecidedRow, shown};
use link_base::{NoMemory, Text};
use link_plan::Plan;
use link_report::{IdFields, PairsWriter, usual_id_bytes};
use review_journal::Journal;
use std::alloc::Global;

// How many bytes may follow the two ids of a line, for which room is made beforehand.
const USUAL_END: usize = 24;

// Writes the lines of rows.
#[inline(never)]
fn write_lines(
    writer: &mut PairsWriter,
    rule: &PairRule,
    rows: &[DecidedRow],
    journal: &Journal,
    a: &IdFields<'_>,
    b: &IdFields<'_>,
) -> Result<(), NoMemory>
    requires cells { length rule.now.cells ≡ pattern_count_by writer.old.rares }
    requires rows { AreRowsIn (length a.now) (length b.now) (length rule.now.cells) rows.now }
    ensures { OnOk result (writer.new.text ≡ writer.old.text ++ flat_map (pair_row writer.old.rares a.now b.now) (shown_rows rule.now.cells journal.now rows.now)) }
{
    for row in rows {
        writer.push(&shown(rule, journal, row), a, b)?;
    }
    Ok(())
}

/// The text of the rows that decisions on two files keep, whose rule has a cell for each pattern of the plan: each row with the
/// weight of its cell, and with the verdict of the journal where the pair is a possible link.
pub fn pair_lines(
    alloc: Global,
    plan: &Plan,
    decided: &Decided,
    journal: &Journal,
    a: &IdFields<'_>,
    b: &IdFields<'_>,
) -> Result<Text, NoMemory>
    requires cells { AreCellsOf (pattern_count_by (rares_of plan.now.fields)) decided.now.rule.cells }
    requires rows { AreRowsIn (length a.now) (length b.now) (length decided.now.rule.cells) decided.now.rows }
    ensures { IfOk result (λ text. text ≡ text_of_pairs (rares_of plan.now.fields) a.now b.now (shown_rows decided.now.rule.cells journal.now decided.now.rows)) }
{
    let line = usual_id_bytes(a, b).saturating_add(USUAL_END);
    let mut writer = PairsWriter::with_room(
        alloc,
        &plan.shape(),
        decided.rows().len().saturating_mul(line),
    )?;
    write_lines(&mut writer, decided.rule(), decided.rows(), journal, a, b)?;
    Ok(writer.finish())
}

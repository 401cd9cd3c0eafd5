// The compared pairs of a plan.
ghost use Rattle.std.specs.Prelude.{◌≡◌, ◌++◌, All, IfErr, IfOk, Ok, OnOk, length, flat_map};
ghost use Rattle.link_base.specs.Answers.{and_then};
ghost use Rattle.link_base.specs.Fault.{IsAnswer, Refuses};
ghost use Rattle.link_report.specs.PairsText.{ids_line, ids_text};
ghost use Rattle.pair_decisions.specs.Decisions.{IsInside, pairs_within};
ghost use Rattle.link_core.specs.Pairs.{ids_of_prepared};
ghost use Rattle.link_core.specs.Rules.{IsPreparedFor};
ghost use Rattle.pair_walk.specs.Rows.{pairs_of_rows};

use crate::preparing::Prepared;
use link_base::{Fault, StdFile, Text};
use link_limits::MOST_PAIRS;
use link_plan::Plan;
use link_report::{IdFields, IdsWriter, usual_id_bytes};
use pair_walk::{RowPairs, WalkFault, Walker};
use std::alloc::Global;

// About how many bytes the lines of the pairs of a walk have: two ids, a comma and a line feed each.
fn usual_bytes(walker: &Walker<'_>, a: &IdFields<'_>, b: &IdFields<'_>) -> usize {
    let pairs = walker.most_pairs().min(MOST_PAIRS as usize);
    pairs.saturating_mul(usual_id_bytes(a, b).saturating_add(2))
}

// Appends the ids of the pairs of the rows that a new walker gives.
fn push_rows(
    alloc: Global,
    mut walker: Walker<'_>,
    writer: &mut IdsWriter,
    a: &IdFields<'_>,
    b: &IdFields<'_>,
) -> Result<(), Fault>
    requires given { walker.given ≡ 0 }
    requires inside { All (IsInside (length a.now) (length b.now)) (pairs_of_rows walker.left) }
    ensures refused { IfErr result (Refuses (pairs_within (pairs_of_rows walker.entry.left))) }
    ensures within { IfOk result (λ _. pairs_within (pairs_of_rows walker.entry.left) ≡ Ok (pairs_of_rows walker.entry.left)) }
    ensures text { OnOk result (writer.new ≡ writer.old ++ flat_map (ids_line a.now b.now) (pairs_of_rows walker.entry.left)) }
{
    let mut row = RowPairs::new(alloc);
    'rows: loop {
        match walker.next_row(alloc, &mut row) {
            Err(WalkFault::TooManyPairs { limit }) => return Err(Fault::TooManyPairs { limit }),
            Err(WalkFault::NoMemory) => return Err(Fault::NoMemory),
            Ok(false) => return Ok(()),
            Ok(true) => writer.push_row(row.a, &row.bs, a, b)?,
        }
    }
}

// The ids of the pairs of the rows that a new walker gives.
fn ids_of_rows(alloc: Global, walker: Walker<'_>, a: &StdFile, b: &StdFile) -> Result<Text, Fault>
    requires given { walker.given ≡ 0 }
    requires inside { All (IsInside (length a.now) (length b.now)) (pairs_of_rows walker.left) }
    ensures answer { IsAnswer (and_then (pairs_within (pairs_of_rows walker.entry.left)) (λ pairs. Ok (ids_text a.now b.now pairs))) result }
{
    let ids_a = IdFields::of(alloc, a)?;
    let ids_b = IdFields::of(alloc, b)?;
    let mut writer = IdsWriter::with_room(alloc, usual_bytes(&walker, &ids_a, &ids_b))?;
    match push_rows(alloc, walker, &mut writer, &ids_a, &ids_b) {
        Ok(()) => Ok(writer.finish()),
        Err(fault) => Err(fault),
    }
}

/// The ids of the compared pairs of the two prepared files of a plan: the header `id_a,id_b`, and a line for each pair of
/// records that share a key in some blocking pass, rising by position. `TooManyPairs` comes exactly where there are more than
/// `MOST_PAIRS` pairs. The lines are written as the pairs come, and no list of the pairs is kept.
pub fn pair_ids(alloc: Global, plan: &Plan, prepared: &Prepared) -> Result<Text, Fault>
    requires { IsPreparedFor plan.now prepared.now }
    ensures answer { IsAnswer (ids_of_prepared plan.now.passes prepared.now.files) result }
{
    let blocks = prepared.blocks(alloc, plan)?;
    ids_of_rows(alloc, blocks.walk(), prepared.a(), prepared.b())
}

// The command `duplicates SETTINGS`.
ghost use Rattle.std.specs.Prelude.{◌≡◌, IfOk, length};
ghost use Rattle.command_scripts.specs.Does.{Does};
ghost use Rattle.command_scripts.specs.Steps.{sink_seen, store_seen, seen_by, Takes};
ghost use Rattle.link_core.specs.Prepared.{files_of};
ghost use Rattle.link_core.specs.Rules.{IsPreparedFor};
ghost use Rattle.link_shell.specs.DuplicatesSettings.{decided_within, duplicates_script, IsDecidedWithin, prepared_within, IsOfOneFile, within_of};
ghost use Rattle.link_plan.specs.Ranges.{KeepsRanges, NamesFiles};

use command_scripts::{Ended, load_file, print_lines};
use command_steps::{file_name, load_decisions, load_plan, prepare_files};
use dedup_groups::forest_leaders;
use link_base::FileRole;
use link_core::{Decided, PlanShares, Prepared, duplicate_lines};
use link_outside::{Refusal, Sink, Store};
use link_plan::Plan;
use std::alloc::Global;

/// A file that is ready to be compared with itself, and the decisions on its compared pairs.
#[derive(Drop)]
pub(crate) struct DecidedWithin {
    pub(crate) files: Prepared,
    pub(crate) shares: PlanShares,
    pub(crate) decided: Decided,
}

// Loads the file of a plan of a file with itself, and makes it ready to be compared.
fn load_within<S: Store>(alloc: Global, store: &mut S, plan: &Plan) -> Result<Prepared, Refusal>
    requires within { IsOfOneFile plan.now }
    requires ranges { KeepsRanges plan.now }
    requires names { NamesFiles plan.now }
    ensures takes { Takes (prepared_within plan.now) (store_seen S.tells S.held S.faults store.old store.new) (seen_by files_of result) }
    ensures ready { IfOk result (IsPreparedFor plan.now) }
    ensures same { IfOk result (λ p. length p.files.b.records ≡ length p.files.a.records) }
{
    let a = load_file(alloc, store, file_name(&plan.file_a), FileRole::A)?;
    let prepared = prepare_files(alloc, plan, a.bytes(), a.bytes());
    drop(a);
    let files = prepared?;
    Ok(files)
}

// Loads the file of a plan of a file with itself, and its sample, and decides on the compared pairs.
fn load_decided<S: Store>(
    alloc: Global,
    store: &mut S,
    plan: &Plan,
) -> Result<DecidedWithin, Refusal>
    requires within { IsOfOneFile plan.now }
    requires ranges { KeepsRanges plan.now }
    requires names { NamesFiles plan.now }
    ensures takes { Takes (decided_within plan.now) (store_seen S.tells S.held S.faults store.old store.new) (seen_by within_of result) }
    ensures found { IfOk result IsDecidedWithin }
{
    let files = load_within(alloc, store, plan)?;
    match load_decisions(alloc, store, plan, &files, false) {
        Ok(found) => Ok(DecidedWithin {
            files,
            shares: found.shares,
            decided: found.decided,
        }),
        Err(refusal) => {
            drop(files);
            Err(refusal)
        }
    }
}

// Follows the script.
pub(crate) fn perform<S: Store, O: Sink>(
    alloc: Global,
    name: &str,
    store: &mut S,
    out: &mut O,
) -> Result<Ended, Refusal>
    ensures { Does (duplicates_script name.now) (store_seen S.tells S.held S.faults store.old store.new) (sink_seen O.tells O.taken O.faults out.old out.new) result }
{
    let plan = load_plan(alloc, store, name)?;
    let copy = plan.within(alloc);
    drop(plan);
    let within = copy?;
    let decided = load_decided(alloc, store, &within);
    drop(within);
    let found = decided?;
    let lines = duplicate_lines(alloc, &found.files, &found.decided);
    drop(found);
    forest_leaders();
    print_lines(alloc, lines, out)
}

// The command `migrate SETTINGS`.
ghost use Rattle.command_scripts.specs.Does.{Does};
ghost use Rattle.command_scripts.specs.Steps.{sink_seen, store_seen, Takes};
ghost use Rattle.link_shell.specs.SettingsCommands.{journal_text, migrate_script, written_journal};
ghost use Rattle.link_plan.specs.Ranges.{KeepsRanges, NamesFiles};

use command_scripts::Ended;
use command_steps::{load_journal, load_journal_plan, load_prepared, put_journal};
use link_base::Text;
use link_core::{Prepared, journal_lines};
use link_outside::{Refusal, Sink, Store};
use link_plan::Plan;
use std::alloc::Global;

// Loads the journal of a plan, over its prepared files, and makes its text.
fn text_over<S: Store>(
    alloc: Global,
    store: &mut S,
    plan: &Plan,
    files: &Prepared,
) -> Result<Text, Refusal>
    requires { NamesFiles plan.now }
    ensures { Takes (journal_text plan.now files.now.files) (store_seen S.tells S.held S.faults store.old store.new) result }
{
    let journal = load_journal(alloc, store, plan, files)?;
    let lines = journal_lines(alloc, files, &journal);
    drop(journal);
    let text = lines?;
    Ok(text)
}

// Loads the files of a plan and its journal, and makes its text.
fn load_text<S: Store>(alloc: Global, store: &mut S, plan: &Plan) -> Result<Text, Refusal>
    requires ranges { KeepsRanges plan.now }
    requires names { NamesFiles plan.now }
    ensures { Takes (written_journal plan.now) (store_seen S.tells S.held S.faults store.old store.new) result }
{
    let files = load_prepared(alloc, store, plan)?;
    let text = text_over(alloc, store, plan, &files);
    drop(files);
    text
}

// Follows the script.
pub(crate) fn perform<S: Store, O: Sink>(
    alloc: Global,
    name: &str,
    store: &mut S,
    out: &mut O,
) -> Result<Ended, Refusal>
    ensures { Does (migrate_script name.now) (store_seen S.tells S.held S.faults store.old store.new) (sink_seen O.tells O.taken O.faults out.old out.new) result }
{
    let plan = load_journal_plan(alloc, store, name)?;
    match load_text(alloc, store, &plan) {
        Ok(text) => {
            let ended = put_journal(alloc, &plan, &text, store);
            drop(plan);
            ended
        }
        Err(refusal) => {
            drop(plan);
            Err(refusal)
        }
    }
}

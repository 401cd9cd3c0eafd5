// The command `run SETTINGS`.
ghost use Rattle.std.specs.Prelude.{IfOk};
ghost use Rattle.command_scripts.specs.Does.{Does};
ghost use Rattle.command_scripts.specs.Steps.{sink_seen, store_seen};
ghost use Rattle.command_scripts.specs.Due.{PutsAll};
ghost use Rattle.command_steps.specs.Reviewed.{IsReviewed};
ghost use Rattle.link_core.specs.Rules.{rule_in};
ghost use Rattle.link_core.specs.Results.{AreRunTexts, five_texts, KeepsRows};
ghost use Rattle.link_shell.specs.SettingsCommands.{run_puts, run_script};

use command_scripts::{Ended, Output, put_each};
use command_steps::{Reviewed, ReviewedSettings, load_reviewed_settings};
use link_base::NoMemory;
use link_core::{RunResult, finish};
use link_outside::{Refusal, Sink, Store};
use std::alloc::Global;

// Puts the five texts, in their order.
fn put_results<S: Store>(alloc: Global, made: &RunResult, store: &mut S) -> Result<Ended, Refusal>
    ensures { PutsAll (run_puts (five_texts made.now)) (store_seen S.tells S.held S.faults store.old store.new) result }
{
    let outputs = [
        Output {
            name: "pairs.csv",
            bytes: made.pairs.bytes(),
        },
        Output {
            name: "rule.csv",
            bytes: made.rule.bytes(),
        },
        Output {
            name: "links.csv",
            bytes: made.links.bytes(),
        },
        Output {
            name: "prices.csv",
            bytes: made.prices.bytes(),
        },
        Output {
            name: "report.txt",
            bytes: made.report.bytes(),
        },
    ];
    put_each(alloc, &outputs, store)
}

// The texts of what was found for a plan, whose parts go as soon as they are no more needed.
pub(crate) fn finish_found(alloc: Global, found: ReviewedSettings) -> Result<RunResult, NoMemory>
    requires found { IsReviewed found }
    requires rows { KeepsRows found.plan found.reviewed.files found.reviewed.decided }
    ensures { IfOk result (λ r. AreRunTexts found.plan found.reviewed.files.files (rule_in found.reviewed.files found.reviewed.decided) found.reviewed.journal (five_texts r)) }
{
    let ReviewedSettings { plan, reviewed } = found;
    let Reviewed {
        files,
        shares,
        decided,
        journal,
    } = reviewed;
    drop(shares);
    let made = finish(alloc, &plan, files, decided, &journal);
    drop(journal);
    drop(plan);
    made
}

// Follows the script.
pub(crate) fn perform<S: Store, O: Sink>(
    alloc: Global,
    name: &str,
    store: &mut S,
    out: &mut O,
) -> Result<Ended, Refusal>
    ensures { Does (run_script name.now) (store_seen S.tells S.held S.faults store.old store.new) (sink_seen O.tells O.taken O.faults out.old out.new) result }
{
    let found = load_reviewed_settings(alloc, store, name, true)?;
    let made = finish_found(alloc, found)?;
    let ended = put_results(alloc, &made, store);
    drop(made);
    ended
}

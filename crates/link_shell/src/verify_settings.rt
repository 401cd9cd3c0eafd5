// The command `verify SETTINGS`.
ghost use Rattle.std.specs.Prelude.{◌≡◌, ◌≤◌, IfOk, length};
ghost use Rattle.command_scripts.specs.Does.{Does};
ghost use Rattle.command_steps.specs.Reviewed.{found_of, IsReviewed};
ghost use Rattle.command_scripts.specs.Steps.{sink_seen, store_seen, Makes, seen_by, Takes};
ghost use Rattle.link_limits.specs.declared.TheConstants.{MOST_WRITTEN_BYTES};
ghost use Rattle.link_shell.specs.VerifySettings.{ended_if, TellsOf, verify_script, written_files, written_plan};
ghost use Rattle.written_check.specs.Verified.{texts_in};

use command_scripts::{Ended, load_written, print_text};
use command_steps::{ReviewedSettings, load_reviewed_settings};
use link_base::FileRole;
use link_core::{Verification, Written, verify_files};
use link_outside::{Refusal, Sink, Store};
use std::alloc::Global;

// Loads the three files that are verified.
fn load_files<S: Store>(alloc: Global, store: &mut S) -> Result<Written, Refusal>
    ensures takes { Takes written_files (store_seen S.tells S.held S.faults store.old store.new) (seen_by texts_in result) }
    ensures rule { IfOk result (λ w. length w.rule ≤ MOST_WRITTEN_BYTES) }
    ensures links { IfOk result (λ w. length w.links ≤ MOST_WRITTEN_BYTES) }
    ensures prices { IfOk result (λ w. length w.prices ≤ MOST_WRITTEN_BYTES) }
{
    let rule = load_written(alloc, store, "rule.csv", FileRole::Rule)?;
    let links = match load_written(alloc, store, "links.csv", FileRole::Links) {
        Ok(links) => links,
        Err(refusal) => {
            drop(rule);
            return Err(refusal);
        }
    };
    match load_written(alloc, store, "prices.csv", FileRole::Prices) {
        Ok(prices) => Ok(Written {
            rule,
            links,
            prices,
        }),
        Err(refusal) => {
            drop(links);
            drop(rule);
            Err(refusal)
        }
    }
}

// Loads the three files, and verifies them.
fn verify_found<S: Store>(
    alloc: Global,
    store: &mut S,
    found: &ReviewedSettings,
) -> Result<Verification, Refusal>
    requires { IsReviewed found.now }
    ensures { Makes (written_plan (found_of found.now)) TellsOf (store_seen S.tells S.held S.faults store.old store.new) result }
{
    let written = load_files(alloc, store)?;
    let reviewed = &found.reviewed;
    let verified = verify_files(
        alloc,
        &found.plan,
        &reviewed.files,
        &reviewed.decided,
        &reviewed.journal,
        &written,
    );
    drop(written);
    let told = verified?;
    Ok(told)
}

// How a command ends that was told whether files prove their links.
fn ended_of(proved: bool) -> Ended
    ensures { result ≡ ended_if proved }
{
    if proved { Ended::Done } else { Ended::Refuted }
}

// Follows the script.
pub(crate) fn perform<S: Store, O: Sink>(
    alloc: Global,
    name: &str,
    store: &mut S,
    out: &mut O,
) -> Result<Ended, Refusal>
    ensures { Does (verify_script name.now) (store_seen S.tells S.held S.faults store.old store.new) (sink_seen O.tells O.taken O.faults out.old out.new) result }
{
    let found = load_reviewed_settings(alloc, store, name, false)?;
    let verified = verify_found(alloc, store, &found);
    drop(found);
    let told = verified?;
    print_text(alloc, ended_of(told.proved), told.line, out)
}

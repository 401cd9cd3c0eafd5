// The commands of a settings file alone: their verbs, and those of them that print a text of it.
ghost use Rattle.std.specs.Prelude.{◌≡◌, map, string_bytes, option_map};
ghost use Rattle.command_scripts.specs.Does.{Does};
ghost use Rattle.command_scripts.specs.Due.{Due};
ghost use Rattle.command_scripts.specs.Steps.{sink_seen, store_seen};
ghost use Rattle.command_steps.specs.declared.front.Shared.{Shared as AnyShared};
ghost use Rattle.link_shell.specs.SettingsCommands.{of_file, open_script, pairs_script, PrintsLeastRule, rule_is_printed, rule_script, settings_named, settings_script};

use crate::words::{is_settings, word_at};
use crate::{duplicates_settings, migrate_settings, run_settings, verify_settings};
use command_scripts::{Ended, print_lines, print_text};
use command_steps::{load_described, load_reviewed_settings, load_shared};
use link_core::{open_lines, pair_ids, rule_lines};
use link_outside::{Refusal, Sink, Store};
use settings_readers::named_in;
use std::alloc::Global;

/// What a settings file alone is asked for.
#[derive(Clone, Copy)]
pub(crate) enum SettingsVerb {
    Pairs,
    Rule,
    Open,
    Migrate,
    Run,
    Verify,
    Duplicates,
}

const SETTINGS_VERBS: [(&str, SettingsVerb); 7] = [
    ("pairs", SettingsVerb::Pairs),
    ("rule", SettingsVerb::Rule),
    ("open", SettingsVerb::Open),
    ("migrate", SettingsVerb::Migrate),
    ("run", SettingsVerb::Run),
    ("verify", SettingsVerb::Verify),
    ("duplicates", SettingsVerb::Duplicates),
];

/// A settings file, and what it is asked for.
#[derive(Clone, Copy)]
pub(crate) struct SettingsRequest<'w> {
    pub(crate) verb: SettingsVerb,
    pub(crate) name: &'w str,
}

// Reads the words.
pub(crate) fn read(words: &[String]) -> Option<SettingsRequest<'_>>
    ensures { option_map of_file result ≡ settings_named (map string_bytes words.now) }
{
    if words.len() != 2 || !is_settings(word_at(words, 1)) {
        return None;
    }
    match named_in(&SETTINGS_VERBS, word_at(words, 0)) {
        Some(verb) => Some(SettingsRequest {
            verb,
            name: word_at(words, 1),
        }),
        None => None,
    }
}

/// Law: what `rule SETTINGS` prints is the text of a table of which no randomised rule with error levels at most its own has a
/// smaller chance of a possible link, for matched and for unmatched pairs (Fellegi and Sunter 1969, section 2, the theorem).
pub fn printed_rule_is_least()
    ensures { (shared : AnyShared) (due : Due) → rule_is_printed shared due → PrintsLeastRule shared due }
{}

// Follows the script of `pairs`.
fn print_pairs<S: Store, O: Sink>(
    alloc: Global,
    name: &str,
    store: &mut S,
    out: &mut O,
) -> Result<Ended, Refusal>
    ensures { Does (pairs_script name.now) (store_seen S.tells S.held S.faults store.old store.new) (sink_seen O.tells O.taken O.faults out.old out.new) result }
{
    let described = load_described(alloc, store, name)?;
    let ids = pair_ids(alloc, &described.plan, &described.files);
    drop(described);
    let text = ids?;
    print_text(alloc, Ended::Done, text, out)
}

// Follows the script of `rule`.
fn print_rule<S: Store, O: Sink>(
    alloc: Global,
    name: &str,
    store: &mut S,
    out: &mut O,
) -> Result<Ended, Refusal>
    ensures { Does (rule_script name.now) (store_seen S.tells S.held S.faults store.old store.new) (sink_seen O.tells O.taken O.faults out.old out.new) result }
{
    let shared = load_shared(alloc, store, name)?;
    let lines = rule_lines(alloc, &shared.plan, &shared.shares);
    drop(shared);
    print_lines(alloc, lines, out)
}

// Follows the script of `open`.
fn print_open<S: Store, O: Sink>(
    alloc: Global,
    name: &str,
    store: &mut S,
    out: &mut O,
) -> Result<Ended, Refusal>
    ensures { Does (open_script name.now) (store_seen S.tells S.held S.faults store.old store.new) (sink_seen O.tells O.taken O.faults out.old out.new) result }
{
    let found = load_reviewed_settings(alloc, store, name, false)?;
    let reviewed = &found.reviewed;
    let lines = open_lines(alloc, &reviewed.files, &reviewed.decided, &reviewed.journal);
    drop(found);
    print_lines(alloc, lines, out)
}

// Follows the script of a verb.
pub(crate) fn perform<S: Store, O: Sink>(
    alloc: Global,
    verb: SettingsVerb,
    name: &str,
    store: &mut S,
    out: &mut O,
) -> Result<Ended, Refusal>
    ensures { Does (settings_script verb name.now) (store_seen S.tells S.held S.faults store.old store.new) (sink_seen O.tells O.taken O.faults out.old out.new) result }
{
    match verb {
        SettingsVerb::Pairs => print_pairs(alloc, name, store, out),
        SettingsVerb::Rule => print_rule(alloc, name, store, out),
        SettingsVerb::Open => print_open(alloc, name, store, out),
        SettingsVerb::Migrate => migrate_settings::perform(alloc, name, store, out),
        SettingsVerb::Run => run_settings::perform(alloc, name, store, out),
        SettingsVerb::Verify => verify_settings::perform(alloc, name, store, out),
        SettingsVerb::Duplicates => duplicates_settings::perform(alloc, name, store, out),
    }
}

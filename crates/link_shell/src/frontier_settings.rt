// The command `frontier SETTINGS MU..`.
ghost use Rattle.std.specs.Prelude.{◌≡◌, ◌≤◌, All, IfOk, IfSome, is_some, map, string_bytes, true};
ghost use Rattle.std.specs.List.{list_all};
ghost use Rattle.command_scripts.specs.Does.{Does};
ghost use Rattle.command_scripts.specs.Steps.{sink_seen, store_seen};
ghost use Rattle.csv_rows.specs.Numbers.{number_in};
ghost use Rattle.link_core.specs.Rules.{IsFrontierText};
ghost use Rattle.link_limits.specs.declared.TheConstants.{PER_MILLION};
ghost use Rattle.link_shell.specs.SettingsCommands.{are_frontier_words, are_levels_from, asked_in, asked_of_request, frontier_script, is_level_word};
ghost use Rattle.link_plan.specs.Ranges.{KeepsRanges};

use crate::words::{MOST_LISTED, is_settings, word_at};
use command_scripts::{Ended, print_lines};
use command_steps::{Shared, load_shared};
use csv_rows::read_decimal;
use link_base::{NoMemory, Text};
use link_core::frontier_lines;
use link_limits::PER_MILLION;
use link_outside::{Refusal, Sink, Store};
use std::alloc::Global;

/// A settings file, and the words of the asked levels of links.
#[derive(Clone, Copy)]
pub(crate) struct FrontierRequest<'w> {
    pub(crate) name: &'w str,
    pub(crate) levels: &'w [String],
}

// Whether words are levels that rise.
fn are_levels(words: &[String]) -> bool
    ensures { result ≡ are_levels_from 0 (map string_bytes words.now) }
{
    let mut least = 0;
    for word in words {
        match read_decimal(word.as_bytes(), PER_MILLION) {
            Some(level) if level >= least => least = level + 1,
            _ => return false,
        }
    }
    true
}

// Reads the words: the name of the settings file, and the levels.
pub(crate) fn read(words: &[String]) -> Option<FrontierRequest<'_>>
    ensures some { is_some result ≡ are_frontier_words (map string_bytes words.now) }
    ensures asked { IfSome result (λ r. asked_of_request r ≡ asked_in (map string_bytes words.now)) }
    ensures levels { IfSome result (λ r. list_all is_level_word (map string_bytes r.levels.now) ≡ true) }
{
    if words.len() < 3 || words.len() > MOST_LISTED + 2 {
        return None;
    }
    let name = word_at(words, 1);
    let levels = &words[2..];
    if is_settings(name) && are_levels(levels) {
        Some(FrontierRequest { name, levels })
    } else {
        None
    }
}

// The levels that words write.
fn levels_of(alloc: Global, words: &[String]) -> Result<Vec<u32>, NoMemory>
    requires { list_all is_level_word (map string_bytes words.now) ≡ true }
    ensures levels { IfOk result (λ levels. levels.items ≡ map number_in (map string_bytes words.now)) }
    ensures most { IfOk result (λ levels. All (λ mu. mu ≤ PER_MILLION) levels.items) }
{
    let mut levels = Vec::new(alloc);
    for word in words {
        match read_decimal(word.as_bytes(), PER_MILLION) {
            Some(level) => levels.push(level)?,
            None => unreachable!(),
        }
    }
    Ok(levels)
}

// The text of the frontier at the levels that words write.
fn text_at(alloc: Global, shared: &Shared, words: &[String]) -> Result<Text, NoMemory>
    requires levels { list_all is_level_word (map string_bytes words.now) ≡ true }
    requires ranges { KeepsRanges shared.now.plan }
    ensures { IfOk result (IsFrontierText shared.now.plan shared.now.shares (map number_in (map string_bytes words.now))) }
{
    let levels = levels_of(alloc, words)?;
    let lines = frontier_lines(alloc, &shared.plan, &shared.shares, &levels);
    drop(levels);
    lines
}

// Follows the script.
pub(crate) fn perform<S: Store, O: Sink>(
    alloc: Global,
    request: &FrontierRequest<'_>,
    store: &mut S,
    out: &mut O,
) -> Result<Ended, Refusal>
    requires { list_all is_level_word (map string_bytes request.now.levels.now) ≡ true }
    ensures { Does (frontier_script (asked_of_request request.now)) (store_seen S.tells S.held S.faults store.old store.new) (sink_seen O.tells O.taken O.faults out.old out.new) result }
{
    let shared = load_shared(alloc, store, request.name)?;
    let lines = text_at(alloc, &shared, request.levels);
    drop(shared);
    print_lines(alloc, lines, out)
}

// The command `many SETTINGS CAPACITIES`.
ghost use Rattle.std.specs.Prelude.{◌≡◌, IfOk, IfSome, is_some, map, string_bytes};
ghost use Rattle.command_scripts.specs.Does.{Does};
ghost use Rattle.command_steps.specs.Reviewed.{found_of, IsReviewed};
ghost use Rattle.command_scripts.specs.Steps.{sink_seen, store_seen, Makes, Takes};
ghost use Rattle.link_core.specs.Many.{AreCapacitiesOf};
ghost use Rattle.link_shell.specs.DuplicatesSettings.{are_many_words, capacity_file, capacity_plan, IsLinksText, many_in, many_of_request, many_script};

use crate::words::{is_settings, is_short, word_at};
use command_scripts::{Ended, load_file, print_text};
use command_steps::{ReviewedSettings, load_reviewed_settings};
use link_base::{FileRole, Text};
use link_core::{Capacities, capacities_in_file, many_lines};
use link_outside::{Refusal, Sink, Store};
use std::alloc::Global;

/// A settings file, and a file of the capacities of the records of B.
#[derive(Clone, Copy)]
pub(crate) struct ManyRequest<'w> {
    pub(crate) name: &'w str,
    pub(crate) capacities: &'w str,
}

// Reads the words.
pub(crate) fn read(words: &[String]) -> Option<ManyRequest<'_>>
    ensures some { is_some result ≡ are_many_words (map string_bytes words.now) }
    ensures request { IfSome result (λ r. many_of_request r ≡ many_in (map string_bytes words.now)) }
{
    if words.len() != 3 {
        return None;
    }
    let name = word_at(words, 1);
    let capacities = word_at(words, 2);
    if is_settings(name) && is_short(capacities) {
        Some(ManyRequest { name, capacities })
    } else {
        None
    }
}

// Loads the capacities of the records of B.
fn load_capacities<S: Store>(
    alloc: Global,
    store: &mut S,
    found: &ReviewedSettings,
    name: &str,
) -> Result<Capacities, Refusal>
    ensures takes { Takes (capacity_file found.now.reviewed.files.files name.now) (store_seen S.tells S.held S.faults store.old store.new) result }
    ensures of_files { IfOk result (AreCapacitiesOf found.now.reviewed.files.files) }
{
    let bytes = load_file(alloc, store, name, FileRole::Capacities)?;
    let read = capacities_in_file(alloc, &found.reviewed.files, bytes.bytes());
    drop(bytes);
    let capacities = read?;
    Ok(capacities)
}

// Loads the capacities, and makes the text of links within them, and of their prices.
fn text_of_found<S: Store>(
    alloc: Global,
    store: &mut S,
    found: &ReviewedSettings,
    name: &str,
) -> Result<Text, Refusal>
    requires { IsReviewed found.now }
    ensures { Makes (capacity_plan (found_of found.now) name.now) IsLinksText (store_seen S.tells S.held S.faults store.old store.new) result }
{
    let capacities = load_capacities(alloc, store, found, name)?;
    let reviewed = &found.reviewed;
    let lines = many_lines(
        alloc,
        &found.plan,
        &reviewed.files,
        &reviewed.decided,
        &reviewed.journal,
        &capacities,
    );
    drop(capacities);
    let text = lines?;
    Ok(text)
}

// Follows the script.
pub(crate) fn perform<S: Store, O: Sink>(
    alloc: Global,
    request: &ManyRequest<'_>,
    store: &mut S,
    out: &mut O,
) -> Result<Ended, Refusal>
    ensures { Does (many_script (many_of_request request.now)) (store_seen S.tells S.held S.faults store.old store.new) (sink_seen O.tells O.taken O.faults out.old out.new) result }
{
    let found = load_reviewed_settings(alloc, store, request.name, false)?;
    let made = text_of_found(alloc, store, &found, request.capacities);
    drop(found);
    let text = made?;
    print_text(alloc, Ended::Done, text, out)
}

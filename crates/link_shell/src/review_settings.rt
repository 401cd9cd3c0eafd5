// The command `review SETTINGS VERDICTS DATE REVIEWER`.
ghost use Rattle.std.specs.Prelude.{◌≡◌, IfSome, is_some, map, string_bytes, Some};
ghost use Rattle.command_scripts.specs.Does.{Does};
ghost use Rattle.command_steps.specs.Reviewed.{review_of};
ghost use Rattle.command_scripts.specs.Steps.{sink_seen, store_seen, Takes};
ghost use Rattle.link_core.specs.Rules.{IsDecidedIn};
ghost use Rattle.link_core.specs.Review.{IsJournalOf};
ghost use Rattle.link_shell.specs.ReviewSettings.{added_verdicts, are_review_words, IsReviewRequest, review_in, review_of_request, review_script, reviewed_journal};
ghost use Rattle.link_plan.specs.Ranges.{KeepsRanges, NamesFiles};

use crate::words::{is_settings, is_short, word_at};
use command_scripts::{Ended, load_file};
use command_steps::{Reviewed, load_journal_plan, load_reviewed, put_journal};
use link_base::{FileRole, Text};
use link_core::add_verdicts;
use link_outside::{Refusal, Sink, Store};
use link_plan::Plan;
use std::alloc::Global;
use value_forms::read_iso;

/// A settings file, a file of verdicts, their day, counted from 1970-01-01, and their reviewer.
#[derive(Clone, Copy)]
pub(crate) struct ReviewRequest<'w> {
    pub(crate) name: &'w str,
    pub(crate) verdicts: &'w str,
    pub(crate) date: i32,
    pub(crate) reviewer: &'w str,
}

// Reads the words.
pub(crate) fn read(words: &[String]) -> Option<ReviewRequest<'_>>
    ensures some { is_some result ≡ are_review_words (map string_bytes words.now) }
    ensures review { IfSome result (λ r. review_of_request r ≡ review_in (map string_bytes words.now)) }
    ensures valid { IfSome result IsReviewRequest }
{
    if words.len() != 5 {
        return None;
    }
    let name = word_at(words, 1);
    let verdicts = word_at(words, 2);
    let reviewer = word_at(words, 4);
    if !is_settings(name) || !is_short(verdicts) || !is_short(reviewer) {
        return None;
    }
    match read_iso(word_at(words, 3).as_bytes()) {
        Some(date) => Some(ReviewRequest {
            name,
            verdicts,
            date,
            reviewer,
        }),
        None => None,
    }
}

// Loads new verdicts, adds them to the journal, and makes its text.
fn add_loaded<S: Store>(
    alloc: Global,
    store: &mut S,
    request: &ReviewRequest<'_>,
    double: bool,
    reviewed: &mut Reviewed,
) -> Result<Text, Refusal>
    requires request { IsReviewRequest request.now }
    requires of_files { IsDecidedIn reviewed.old.files reviewed.old.decided }
    requires journal { IsJournalOf reviewed.old.files.files reviewed.old.journal }
    ensures { Takes (added_verdicts (review_of_request request.now) double (review_of reviewed.old)) (store_seen S.tells S.held S.faults store.old store.new) result }
{
    let verdicts = load_file(alloc, store, request.verdicts, FileRole::Verdicts)?;
    let added = add_verdicts(
        alloc,
        &reviewed.files,
        &reviewed.decided,
        &mut reviewed.journal,
        verdicts.bytes(),
        request.date,
        request.reviewer,
        double,
    );
    drop(verdicts);
    let text = added?;
    Ok(text)
}

// Loads the files of a plan and new verdicts, adds these to the journal, and makes its text.
fn load_text<S: Store>(
    alloc: Global,
    store: &mut S,
    request: &ReviewRequest<'_>,
    plan: &Plan,
) -> Result<Text, Refusal>
    requires request { IsReviewRequest request.now }
    requires ranges { KeepsRanges plan.now }
    requires names { NamesFiles plan.now }
    ensures { Takes (reviewed_journal (review_of_request request.now) plan.now) (store_seen S.tells S.held S.faults store.old store.new) result }
{
    let mut reviewed = load_reviewed(alloc, store, plan, false)?;
    let added = add_loaded(alloc, store, request, plan.terms.double, &mut reviewed);
    drop(reviewed);
    added
}

// Follows the script.
pub(crate) fn perform<S: Store, O: Sink>(
    alloc: Global,
    request: &ReviewRequest<'_>,
    store: &mut S,
    out: &mut O,
) -> Result<Ended, Refusal>
    requires { IsReviewRequest request.now }
    ensures { Does (review_script (review_of_request request.now)) (store_seen S.tells S.held S.faults store.old store.new) (sink_seen O.tells O.taken O.faults out.old out.new) result }
{
    let plan = load_journal_plan(alloc, store, request.name)?;
    match load_text(alloc, store, request, &plan) {
        Ok(text) => {
            let ended = put_journal(alloc, &plan, &text, store);
            drop(plan);
            ended
        }
        Err(refusal) => {
            drop(plan);
            Err(refusal)
        }
    }
}

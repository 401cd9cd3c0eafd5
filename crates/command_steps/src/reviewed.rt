// What the decisions and the journal of a plan come to.
ghost use Rattle.std.specs.Prelude.{◌≡◌, ◌∷◌, [], codes, Err, IfOk, IsSome, Some, true};
ghost use Rattle.command_steps.specs.Reviewed.{decided_plan, found_of, IsDecidedPlan, IsReviewed, IsReviewedFor, journal_file, journal_plan, put_of_journal, review_of, reviewed_plan, reviewed_settings, shared_decisions_of};
ghost use Rattle.command_scripts.specs.Steps.{store_seen, seen_by, Takes};
ghost use Rattle.command_scripts.specs.Due.{PutsAll};
ghost use Rattle.link_base.specs.Fault.{Refuses};
ghost use Rattle.link_base.specs.declared.fault.Fault.TheVariants as fault;
ghost use Rattle.link_core.specs.Results.{KeepsRows};
ghost use Rattle.link_core.specs.Review.{IsJournalOf};
ghost use Rattle.link_core.specs.Rules.{IsPreparedFor};
ghost use Rattle.link_plan.specs.Ranges.{KeepsRanges, NamesFiles};
ghost use Rattle.link_plan.specs.declared.plan.Plan.{Plan as AnyPlan};

use crate::front::{file_name, load_plan, load_prepared, load_shares_over};
use command_scripts::{Ended, Output, load_file, put_each};
use link_base::{Fault, FileRole, NoMemory, Text};
use link_core::{Decided, PlanShares, Prepared, decide_all, journal_in_files};
use link_outside::{Refusal, Store};
use link_plan::Plan;
use review_journal::Journal;
use std::alloc::Global;

/// The shares of a plan's fields, and the decisions of its rule on the compared pairs.
#[derive(Drop)]
pub struct DecidedPlan {
    pub shares: PlanShares,
    pub decided: Decided,
}

/// The prepared files of a plan, the shares of its fields, the decisions of its rule on the compared pairs, and its journal.
#[derive(Drop)]
pub struct Reviewed {
    pub files: Prepared,
    pub shares: PlanShares,
    pub decided: Decided,
    pub journal: Journal,
}

/// The plan of a settings file, and what the files that it names come to.
#[derive(Drop)]
pub struct ReviewedSettings {
    pub plan: Plan,
    pub reviewed: Reviewed,
}

// Loads a journal, over prepared files.
fn load_named<S: Store>(
    alloc: Global,
    store: &mut S,
    files: &Prepared,
    name: &str,
) -> Result<Journal, Refusal>
    ensures takes { Takes (journal_file files.now.files (Some name.now)) (store_seen S.tells S.held S.faults store.old store.new) result }
    ensures of_files { IfOk result (IsJournalOf files.now.files) }
{
    let bytes = load_file(alloc, store, name, FileRole::Journal)?;
    let read = journal_in_files(alloc, files, bytes.bytes());
    drop(bytes);
    let journal = read?;
    Ok(journal)
}

/// Loads the journal that a plan names, over its prepared files.
pub fn load_journal<S: Store>(
    alloc: Global,
    store: &mut S,
    plan: &Plan,
    files: &Prepared,
) -> Result<Journal, Refusal>
    requires names { NamesFiles plan.now }
    ensures takes { Takes (journal_file files.now.files plan.now.journal) (store_seen S.tells S.held S.faults store.old store.new) result }
    ensures of_files { IfOk result (IsJournalOf files.now.files) }
{
    match &plan.journal {
        Some(name) => load_named(alloc, store, files, file_name(name)),
        None => Ok(Journal::new(alloc)),
    }
}

/// Decides on the compared pairs of the prepared files of a plan, by the sample that it names, which is loaded, or by its own shares.
/// The rows of the pairs are kept where they are asked for.
pub fn load_decisions<S: Store>(
    alloc: Global,
    store: &mut S,
    plan: &Plan,
    files: &Prepared,
    with_rows: bool,
) -> Result<DecidedPlan, Refusal>
    requires ranges { KeepsRanges plan.now }
    requires names { NamesFiles plan.now }
    requires ready { IsPreparedFor plan.now files.now }
    ensures takes { Takes (decided_plan plan.now files.now.files) (store_seen S.tells S.held S.faults store.old store.new) (seen_by (shared_decisions_of files.now) result) }
    ensures decided { IfOk result (IsDecidedPlan plan.now files.now with_rows) }
{
    let shares = load_shares_over(alloc, store, plan, files)?;
    match decide_all(alloc, plan, files, &shares, with_rows) {
        Ok(decided) => Ok(DecidedPlan { shares, decided }),
        Err(fault) => {
            drop(shares);
            Err(Refusal::Fault(fault))
        }
    }
}

/// Loads the files that a plan names, and decides on their compared pairs.
pub fn load_reviewed<S: Store>(
    alloc: Global,
    store: &mut S,
    plan: &Plan,
    with_rows: bool,
) -> Result<Reviewed, Refusal>
    requires ranges { KeepsRanges plan.now }
    requires names { NamesFiles plan.now }
    ensures takes { Takes (reviewed_plan plan.now) (store_seen S.tells S.held S.faults store.old store.new) (seen_by review_of result) }
    ensures reviewed { IfOk result (IsReviewedFor plan.now with_rows) }
{
    let files = load_prepared(alloc, store, plan)?;
    let found = match load_decisions(alloc, store, plan, &files, with_rows) {
        Ok(found) => found,
        Err(refusal) => {
            drop(files);
            return Err(refusal);
        }
    };
    match load_journal(alloc, store, plan, &files) {
        Ok(journal) => Ok(Reviewed {
            files,
            shares: found.shares,
            decided: found.decided,
            journal,
        }),
        Err(refusal) => {
            drop(found);
            drop(files);
            Err(refusal)
        }
    }
}

/// Loads a settings file and the files that its plan names, and decides on their compared pairs.
pub fn load_reviewed_settings<S: Store>(
    alloc: Global,
    store: &mut S,
    name: &str,
    with_rows: bool,
) -> Result<ReviewedSettings, Refusal>
    ensures takes { Takes (reviewed_settings name.now) (store_seen S.tells S.held S.faults store.old store.new) (seen_by found_of result) }
    ensures found { IfOk result IsReviewed }
    ensures rows { IfOk result (λ s. with_rows ≡ true → KeepsRows s.plan s.reviewed.files s.reviewed.decided) }
{
    let plan = load_plan(alloc, store, name)?;
    match load_reviewed(alloc, store, &plan, with_rows) {
        Ok(reviewed) => Ok(ReviewedSettings { plan, reviewed }),
        Err(refusal) => {
            drop(plan);
            Err(refusal)
        }
    }
}

// The fault of a plan that must name a journal, and names none.
fn missing_journal(alloc: Global) -> Fault
    ensures answer { Refuses {T = AnyPlan} (Err (fault.MissingKey (codes "journal"))) result }
{
    match Text::new(alloc, b"journal") {
        Ok(key) => Fault::MissingKey { key },
        Err(NoMemory) => Fault::NoMemory,
    }
}

/// Loads a settings file and reads its plan, which must name a journal.
pub fn load_journal_plan<S: Store>(
    alloc: Global,
    store: &mut S,
    name: &str,
) -> Result<Plan, Refusal>
    ensures takes { Takes (journal_plan name.now) (store_seen S.tells S.held S.faults store.old store.new) result }
    ensures ranges { IfOk result KeepsRanges }
    ensures files { IfOk result NamesFiles }
    ensures named { IfOk result (λ plan. IsSome plan.journal) }
{
    let plan = load_plan(alloc, store, name)?;
    if plan.journal.is_some() {
        return Ok(plan);
    }
    drop(plan);
    Err(Refusal::Fault(missing_journal(alloc)))
}

// The name of the journal of a plan that has one.
fn journal_name(plan: &Plan) -> &str
    requires named { IsSome plan.now.journal }
    requires names { NamesFiles plan.now }
    ensures { Some result.now ≡ plan.now.journal }
{
    match &plan.journal {
        Some(name) => file_name(name),
        None => unreachable!(),
    }
}

/// Puts the text of a journal under the name that a plan gives it.
pub fn put_journal<S: Store>(
    alloc: Global,
    plan: &Plan,
    text: &Text,
    store: &mut S,
) -> Result<Ended, Refusal>
    requires named { IsSome plan.now.journal }
    requires names { NamesFiles plan.now }
    ensures { PutsAll (put_of_journal plan.now text.now ∷ []) (store_seen S.tells S.held S.faults store.old store.new) result }
{
    let output = Output {
        name: journal_name(plan),
        bytes: text.bytes(),
    };
    put_each(alloc, &[output], store)
}

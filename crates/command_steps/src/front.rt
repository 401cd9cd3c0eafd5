// What several commands load at their front.
ghost use Rattle.std.specs.Prelude.{◌≡◌, IfOk, IsUtf8, Some};
ghost use Rattle.command_steps.specs.Front.{both_files, described_files, described_of, plan_file, prepared_files, shared_plan, shares_of, shares_over};
ghost use Rattle.command_scripts.specs.Steps.{store_seen, seen_by, Takes};
ghost use Rattle.link_base.specs.Fault.{Gives};
ghost use Rattle.link_core.specs.Prepared.{files_of, prepared};
ghost use Rattle.link_core.specs.Rules.{IsPreparedFor, shared_rares};
ghost use Rattle.link_limits.specs.declared.TheConstants.{MOST_DISTINCT_BYTES};
ghost use Rattle.pair_decisions.specs.Comparators.{rares_of};
ghost use Rattle.link_plan.specs.Ranges.{KeepsRanges, NamesFiles};

use command_scripts::load_file;
use link_base::{Fault, FileRole, Text};
use link_core::{PlanShares, Prepared, counted, prepare, prepare_texts};
use link_limits::MOST_DISTINCT_BYTES;
use link_outside::{Refusal, Store};
use link_plan::Plan;
use settings::read_settings;
use std::alloc::Global;

/// The bytes of both files.
#[derive(Drop)]
pub struct Inputs {
    pub a: Text,
    pub b: Text,
}

/// Loads A and then B.
pub fn load_both<S: Store>(
    alloc: Global,
    store: &mut S,
    name_a: &str,
    name_b: &str,
) -> Result<Inputs, Refusal>
    ensures { Takes (both_files name_a.now name_b.now) (store_seen S.tells S.held S.faults store.old store.new) result }
{
    let a = load_file(alloc, store, name_a, FileRole::A)?;
    match load_file(alloc, store, name_b, FileRole::B) {
        Ok(b) => Ok(Inputs { a, b }),
        Err(refusal) => {
            drop(a);
            Err(refusal)
        }
    }
}

/// Loads a settings file and reads its plan.
pub fn load_plan<S: Store>(alloc: Global, store: &mut S, name: &str) -> Result<Plan, Refusal>
    ensures takes { Takes (plan_file name.now) (store_seen S.tells S.held S.faults store.old store.new) result }
    ensures ranges { IfOk result KeepsRanges }
    ensures files { IfOk result NamesFiles }
{
    let bytes = load_file(alloc, store, name, FileRole::Settings)?;
    let read = read_settings(alloc, bytes.bytes());
    drop(bytes);
    let plan = read?;
    Ok(plan)
}

/// The name of a file, which is UTF-8.
pub fn file_name(name: &Text) -> &str
    requires { IsUtf8 name.now }
    ensures { result.now ≡ name.now }
{
    match str::from_utf8(name.bytes()) {
        Ok(name) => name,
        Err(_) => unreachable!(),
    }
}

// Loads the two files of a plan.
fn load_files<S: Store>(alloc: Global, store: &mut S, plan: &Plan) -> Result<Inputs, Refusal>
    requires { NamesFiles plan.now }
    ensures { Takes (both_files plan.now.file_a plan.now.file_b) (store_seen S.tells S.held S.faults store.old store.new) result }
{
    load_both(
        alloc,
        store,
        file_name(&plan.file_a),
        file_name(&plan.file_b),
    )
}

/// Makes two files of a plan ready to be compared.
pub fn prepare_files(alloc: Global, plan: &Plan, a: &[u8], b: &[u8]) -> Result<Prepared, Fault>
    requires { KeepsRanges plan.now }
    ensures answer { Gives files_of (prepared plan.now MOST_DISTINCT_BYTES a.now b.now) result }
    ensures ready { IfOk result (IsPreparedFor plan.now) }
{
    prepare(alloc, plan, a, b, MOST_DISTINCT_BYTES)
}

/// Loads the two files of a plan, and makes them ready to be compared.
pub fn load_prepared<S: Store>(
    alloc: Global,
    store: &mut S,
    plan: &Plan,
) -> Result<Prepared, Refusal>
    requires ranges { KeepsRanges plan.now }
    requires files { NamesFiles plan.now }
    ensures takes { Takes (prepared_files plan.now) (store_seen S.tells S.held S.faults store.old store.new) (seen_by files_of result) }
    ensures ready { IfOk result (IsPreparedFor plan.now) }
{
    let inputs = load_files(alloc, store, plan)?;
    let files = prepare_texts(alloc, plan, inputs.a, inputs.b, MOST_DISTINCT_BYTES)?;
    Ok(files)
}

/// The plan of a settings file, and the two files that it names, ready to be compared.
#[derive(Drop)]
pub struct Described {
    pub plan: Plan,
    pub files: Prepared,
}

/// Loads a settings file, and makes the two files that it names ready to be compared.
pub fn load_described<S: Store>(
    alloc: Global,
    store: &mut S,
    name: &str,
) -> Result<Described, Refusal>
    ensures takes { Takes (described_files name.now) (store_seen S.tells S.held S.faults store.old store.new) (seen_by described_of result) }
    ensures ready { IfOk result (λ d. IsPreparedFor d.plan d.files) }
{
    let plan = load_plan(alloc, store, name)?;
    match load_prepared(alloc, store, &plan) {
        Ok(files) => Ok(Described { plan, files }),
        Err(refusal) => {
            drop(plan);
            Err(refusal)
        }
    }
}

// Counts the sample of a plan, which has this name, over the prepared files of the plan.
fn count_named<S: Store>(
    alloc: Global,
    store: &mut S,
    plan: &Plan,
    files: &Prepared,
    name: &str,
) -> Result<PlanShares, Refusal>
    requires ranges { KeepsRanges plan.now }
    requires ready { IsPreparedFor plan.now files.now }
    ensures takes { Takes (shares_over plan.now files.now.files (Some name.now)) (store_seen S.tells S.held S.faults store.old store.new) result }
    ensures rares { IfOk result (λ shares. shared_rares shares ≡ rares_of plan.now.fields) }
{
    let sample = load_file(alloc, store, name, FileRole::Sample)?;
    let counts = counted(alloc, plan, files, sample.bytes());
    drop(sample);
    let shares = counts?;
    Ok(shares)
}

// Counts the sample of a plan, which has this name, over the two files of the plan.
fn count_loaded<S: Store>(
    alloc: Global,
    store: &mut S,
    plan: &Plan,
    name: &str,
) -> Result<PlanShares, Refusal>
    requires ranges { KeepsRanges plan.now }
    requires files { NamesFiles plan.now }
    ensures takes { Takes (shares_of plan.now (Some name.now)) (store_seen S.tells S.held S.faults store.old store.new) result }
    ensures rares { IfOk result (λ shares. shared_rares shares ≡ rares_of plan.now.fields) }
{
    let files = load_prepared(alloc, store, plan)?;
    let shares = count_named(alloc, store, plan, &files, name);
    drop(files);
    shares
}

// The shares of a plan's fields; only for a sample are its files loaded.
fn load_shares<S: Store>(alloc: Global, store: &mut S, plan: &Plan) -> Result<PlanShares, Refusal>
    requires ranges { KeepsRanges plan.now }
    requires files { NamesFiles plan.now }
    ensures takes { Takes (shares_of plan.now plan.now.sample) (store_seen S.tells S.held S.faults store.old store.new) result }
    ensures rares { IfOk result (λ shares. shared_rares shares ≡ rares_of plan.now.fields) }
{
    match &plan.sample {
        Some(name) => count_loaded(alloc, store, plan, file_name(name)),
        None => {
            let shares = PlanShares::given(alloc, plan)?;
            Ok(shares)
        }
    }
}

// The shares of a plan's fields over its prepared files.
pub(crate) fn load_shares_over<S: Store>(
    alloc: Global,
    store: &mut S,
    plan: &Plan,
    files: &Prepared,
) -> Result<PlanShares, Refusal>
    requires ranges { KeepsRanges plan.now }
    requires names { NamesFiles plan.now }
    requires ready { IsPreparedFor plan.now files.now }
    ensures takes { Takes (shares_over plan.now files.now.files plan.now.sample) (store_seen S.tells S.held S.faults store.old store.new) result }
    ensures rares { IfOk result (λ shares. shared_rares shares ≡ rares_of plan.now.fields) }
{
    match &plan.sample {
        Some(name) => count_named(alloc, store, plan, files, file_name(name)),
        None => {
            let shares = PlanShares::given(alloc, plan)?;
            Ok(shares)
        }
    }
}

/// The plan of a settings file, with the shares of its fields.
#[derive(Drop)]
pub struct Shared {
    pub plan: Plan,
    pub shares: PlanShares,
}

/// Loads a settings file, and finds the shares of its fields.
pub fn load_shared<S: Store>(alloc: Global, store: &mut S, name: &str) -> Result<Shared, Refusal>
    ensures takes { Takes (shared_plan name.now) (store_seen S.tells S.held S.faults store.old store.new) result }
    ensures ranges { IfOk result (λ s. KeepsRanges s.plan) }
    ensures rares { IfOk result (λ s. shared_rares s.shares ≡ rares_of s.plan.fields) }
{
    let plan = load_plan(alloc, store, name)?;
    match load_shares(alloc, store, &plan) {
        Ok(shares) => Ok(Shared { plan, shares }),
        Err(refusal) => {
            drop(plan);
            Err(refusal)
        }
    }
}

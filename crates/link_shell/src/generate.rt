// The command `generate NUMBER`.
ghost use Rattle.std.specs.Prelude.{◌≡◌, IfOk, IfSome, is_some, map, string_bytes, true};
ghost use Rattle.command_scripts.specs.Does.{Does};
ghost use Rattle.command_steps.specs.Reviewed.{found_of, IsDecidedPlan, IsReviewed, shared_decisions_of};
ghost use Rattle.command_scripts.specs.Steps.{sink_seen, store_seen};
ghost use Rattle.csv_rows.specs.Numbers.{number_in};
ghost use Rattle.link_base.specs.Fault.{Gives};
ghost use Rattle.link_core.specs.Results.{KeepsRows};
ghost use Rattle.link_core.specs.Rules.{IsPreparedFor};
ghost use Rattle.link_shell.specs.Generate.{are_generate_words, decided_input, decided_sample, generate_script, IsMadeNumber, is_rows_word, rows_asked};
ghost use Rattle.link_plan.specs.Ranges.{KeepsRanges};
ghost use Rattle.workload.specs.Made.{text_of_a, text_of_b, text_of_sample, text_of_settings};

use crate::run_settings::finish_found;
use crate::words::word_at;
use command_scripts::{Ended, print};
use command_steps::{DecidedPlan, Reviewed, ReviewedSettings, prepare_files};
use csv_rows::read_decimal;
use link_base::Fault;
use link_core::{Prepared, counted, decide_all};
use link_limits::MOST_ROWS;
use link_outside::{Refusal, Sink, Store};
use link_plan::Plan;
use link_report::first_lines;
use review_journal::Journal;
use settings::read_settings;
use std::alloc::Global;
use workload::{MadeInput, make_input};

/// How many lines of a report stand before its dropped candidates.
const HEAD_LINES: u32 = 16;

// How many rows a word asks for.
fn rows_of(word: &str) -> Option<u32>
    ensures some { is_some result ≡ is_rows_word word.now }
    ensures value { IfSome result (λ rows. rows ≡ number_in word.now) }
    ensures range { IfSome result IsMadeNumber }
{
    match read_decimal(word.as_bytes(), MOST_ROWS) {
        Some(rows) if 2 <= rows => Some(rows),
        _ => None,
    }
}

// Reads the words: how many rows a file has.
pub(crate) fn read(words: &[String]) -> Option<u32>
    ensures some { is_some result ≡ are_generate_words (map string_bytes words.now) }
    ensures rows { IfSome result (λ rows. rows ≡ rows_asked (map string_bytes words.now)) }
    ensures range { IfSome result IsMadeNumber }
{
    if words.len() != 2 {
        return None;
    }
    rows_of(word_at(words, 1))
}

// Counts a sample over the prepared files of a plan, and decides on their compared pairs.
fn decide_sample(
    alloc: Global,
    plan: &Plan,
    files: &Prepared,
    sample: &[u8],
) -> Result<DecidedPlan, Fault>
    requires ranges { KeepsRanges plan.now }
    requires ready { IsPreparedFor plan.now files.now }
    ensures answer { Gives (shared_decisions_of files.now) (decided_sample plan.now files.now.files sample.now) result }
    ensures decided { IfOk result (IsDecidedPlan plan.now files.now true) }
{
    let shares = counted(alloc, plan, files, sample)?;
    match decide_all(alloc, plan, files, &shares, true) {
        Ok(decided) => Ok(DecidedPlan { shares, decided }),
        Err(fault) => {
            drop(shares);
            Err(fault)
        }
    }
}

// Reads a made input, and decides on its compared pairs.
fn decide_input(alloc: Global, input: &MadeInput) -> Result<ReviewedSettings, Fault>
    ensures answer { Gives found_of (decided_input input.now.settings input.now.a input.now.b input.now.sample) result }
    ensures found { IfOk result IsReviewed }
    ensures rows { IfOk result (λ s. KeepsRows s.plan s.reviewed.files s.reviewed.decided) }
{
    let plan = read_settings(alloc, input.settings.bytes())?;
    let files = match prepare_files(alloc, &plan, input.a.bytes(), input.b.bytes()) {
        Ok(files) => files,
        Err(fault) => {
            drop(plan);
            return Err(fault);
        }
    };
    match decide_sample(alloc, &plan, &files, input.sample.bytes()) {
        Ok(found) => Ok(ReviewedSettings {
            plan,
            reviewed: Reviewed {
                files,
                shares: found.shares,
                decided: found.decided,
                journal: Journal::new(alloc),
            },
        }),
        Err(fault) => {
            drop(files);
            drop(plan);
            Err(fault)
        }
    }
}

// Decides on the compared pairs of the made input of so many rows.
fn decide_made(alloc: Global, rows: u32) -> Result<ReviewedSettings, Fault>
    requires { IsMadeNumber rows }
    ensures answer { Gives found_of (decided_input (text_of_settings rows) (text_of_a rows) (text_of_b rows) (text_of_sample rows)) result }
    ensures found { IfOk result IsReviewed }
    ensures rows { IfOk result (λ s. KeepsRows s.plan s.reviewed.files s.reviewed.decided) }
{
    let input = make_input(alloc, rows)?;
    let made = decide_input(alloc, &input);
    drop(input);
    made
}

// Follows the script.
pub(crate) fn perform<S: Store, O: Sink>(
    alloc: Global,
    rows: u32,
    store: &mut S,
    out: &mut O,
) -> Result<Ended, Refusal>
    requires { IsMadeNumber rows }
    ensures { Does (generate_script rows) (store_seen S.tells S.held S.faults store.old store.new) (sink_seen O.tells O.taken O.faults out.old out.new) result }
{
    let found = decide_made(alloc, rows)?;
    let results = finish_found(alloc, found)?;
    let head = first_lines(results.report.bytes(), HEAD_LINES);
    let ended = print(alloc, Ended::Done, head, out);
    drop(results);
    ended
}

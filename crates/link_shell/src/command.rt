// The top calls.
ghost use Rattle.std.specs.Prelude.{◌≡◌, map, Result, Some, string_bytes};
ghost use Rattle.command_scripts.specs.Steps.{sink_seen, store_seen};
ghost use Rattle.command_scripts.specs.declared.ends.Ended.{Ended as AnyEnded};
ghost use Rattle.link_outside.specs.declared.refusal.Refusal.{Refusal as AnyRefusal};
ghost use Rattle.link_shell.specs.Meaning.{ProvedByRun, YesWhereProved, RowsSayYes, YesMeans};
ghost use Rattle.link_shell.specs.Linked.{Always, Carried, Follows, Performed, Reported};
ghost use Rattle.link_shell.specs.Commands.{command_of, form_command, forms};
ghost use Rattle.link_shell.specs.Headline.{Headline};
ghost use Rattle.link_shell.specs.KeptVerdicts.{NoVerdictLost};
ghost use Rattle.link_shell.specs.Words.{word};
ghost use Rattle.settings_readers.specs.Values.{named_in};

use crate::filled_rule::commands_go_by_filled_rule;
use crate::limits::limits_are_these;
use crate::meaning::verify_tells;
use crate::words::word_at;
use crate::{
    frontier_settings, generate, keys, many_settings, pairs_columns, review_settings,
    settings_commands,
};
use command_scripts::Ended;
use link_core::run_is_verified;
use link_outside::{Refusal, Sink, SinkError, Store, write_refusal};
use review_journal::no_verdict_is_lost;
use settings_readers::named_in;
use std::alloc::Global;

// What words ask for that are more than a verb and a settings file.
#[derive(Clone, Copy)]
pub(crate) enum Form {
    Columns,
    Keys,
    Frontier,
    Review,
    Many,
    Generate,
    Help,
}

const FORMS: [(&str, Form); 8] = [
    ("pairs", Form::Columns),
    ("keys", Form::Keys),
    ("frontier", Form::Frontier),
    ("review", Form::Review),
    ("many", Form::Many),
    ("generate", Form::Generate),
    ("help", Form::Help),
    ("--help", Form::Help),
];

// The form of which the first word is the verb.
fn form_of(words: &[String]) -> Option<Form>
    ensures { result ≡ named_in forms (word (map string_bytes words.now) 0) }
{
    if words.is_empty() {
        return None;
    }
    named_in(&FORMS, word_at(words, 0))
}

// Follows the script of the command of a form.
fn follow_form<S: Store, O: Sink>(
    alloc: Global,
    form: Form,
    words: &[String],
    store: &mut S,
    out: &mut O,
) -> Result<Ended, Refusal>
    ensures { Follows (form_command (Some form) (map string_bytes words.now)) (store_seen S.tells S.held S.faults store.old store.new) (sink_seen O.tells O.taken O.faults out.old out.new) result }
{
    match form {
        Form::Columns => match pairs_columns::read(words) {
            Some(request) => pairs_columns::perform(alloc, &request, store, out),
            None => Err(Refusal::Usage),
        },
        Form::Keys => match keys::read(words) {
            Some(rest) => keys::perform(alloc, rest, store, out),
            None => Err(Refusal::Usage),
        },
        Form::Frontier => match frontier_settings::read(words) {
            Some(request) => frontier_settings::perform(alloc, &request, store, out),
            None => Err(Refusal::Usage),
        },
        Form::Review => match review_settings::read(words) {
            Some(request) => review_settings::perform(alloc, &request, store, out),
            None => Err(Refusal::Usage),
        },
        Form::Many => match many_settings::read(words) {
            Some(request) => many_settings::perform(alloc, &request, store, out),
            None => Err(Refusal::Usage),
        },
        Form::Generate => match generate::read(words) {
            Some(rows) => generate::perform(alloc, rows, store, out),
            None => Err(Refusal::Usage),
        },
        Form::Help if words.len() == 1 => keys::print_help(alloc, store, out),
        Form::Help => Err(Refusal::Usage),
    }
}

// Follows the script of the command that the words name.
fn follow<S: Store, O: Sink>(
    alloc: Global,
    words: &[String],
    store: &mut S,
    out: &mut O,
) -> Result<Ended, Refusal>
    ensures { Follows (command_of (map string_bytes words.now)) (store_seen S.tells S.held S.faults store.old store.new) (sink_seen O.tells O.taken O.faults out.old out.new) result }
{
    match settings_commands::read(words) {
        Some(asked) => {
            return settings_commands::perform(alloc, asked.verb, asked.name, store, out);
        }
        None => {}
    }
    match form_of(words) {
        Some(form) => follow_form(alloc, form, words, store, out),
        None => Err(Refusal::Usage),
    }
}

/// Does the command that the words name, all but the line of a refusal: it goes through the steps of the
/// command, and hands its text to `out` or makes its puts (clause `performed`). All that `linkage` says of the store, of `out` and of
/// the status holds of its answer (clause `carried`).
pub fn perform<S: Store, O: Sink>(
    alloc: Global,
    words: &[String],
    store: &mut S,
    out: &mut O,
) -> Result<Ended, Refusal>
    ensures performed { Performed (map string_bytes words.now) (store_seen S.tells S.held S.faults store.old store.new) (sink_seen O.tells O.taken O.faults out.old out.new) result }
    ensures carried { Carried (map string_bytes words.now) (store_seen S.tells S.held S.faults store.old store.new) (sink_seen O.tells O.taken O.faults out.old out.new) result }
{
    run_is_verified();
    verify_tells();
    no_verdict_is_lost();
    follow(alloc, words, store, out)
}

// Hands the line of a refusal to `err`, and says the status.
fn report<E: Sink>(alloc: Global, answer: &Result<Ended, Refusal>, err: &mut E) -> u8
    ensures { Reported (sink_seen E.tells E.taken E.faults err.old err.new) answer.now result }
{
    match answer {
        Ok(Ended::Done) => 0,
        Ok(Ended::Refuted) => 9,
        Err(refusal) => match write_refusal(alloc, refusal, err) {
            Ok(()) => refusal.status(),
            Err(SinkError::Failed) => refusal.status(),
            Err(SinkError::NoMemory) => 8,
        },
    }
}

/// Does the command that the words name over the store, hands what it prints to `out` and the line of a
/// fault to `err`, and answers its exit status: 0 done, 9 refuted, and else that of the refusal.
///
/// For every accepted input, `run` writes exactly the pairs that share a key in some pass, each once; a rule that, among all
/// randomised rules whose error levels are at most its own, has the least chance of 'possible link' for matched and for unmatched
/// pairs; and one-to-one links, each by rule or review, of greatest total weight, awards of review included, with prices that
/// certify it (clause `headline`). What it writes is verified: after it `verify` with the same settings file says yes where nothing
/// outside fails and memory is there (clauses `proved_by_run` and `yes_where_proved`).
///
/// `verify` ends with 0 only where the three files, whoever wrote them, have the rows of that least rule, of such links and of such
/// prices, and with 9 only where they have not (clause `yes_means`); where they have them, in any form that CSV allows, it says yes where
/// nothing outside fails and memory is there (clause `rows_say_yes`).
///
/// No verdict is lost: the journal that `review` or `migrate` leaves loads as the entries that it had, followed by one for each new
/// verdict (clause `no_verdict_lost`). Each command that decides goes by the filled table, and each limit is the
/// number that users are told (clause `always`).
///
/// But for `performed` and `always`, all of this is said of a store that tells what its names hold.
pub fn linkage<S: Store, O: Sink, E: Sink>(
    alloc: Global,
    words: &[String],
    store: &mut S,
    out: &mut O,
    err: &mut E,
) -> u8
    ensures performed { (answer : Result AnyEnded AnyRefusal)
        × Performed (map string_bytes words.now) (store_seen S.tells S.held S.faults store.old store.new) (sink_seen O.tells O.taken O.faults out.old out.new) answer
        × Reported (sink_seen E.tells E.taken E.faults err.old err.new) answer result }
    ensures headline { Headline (map string_bytes words.now) (store_seen S.tells S.held S.faults store.old store.new) (sink_seen O.tells O.taken O.faults out.old out.new) (sink_seen E.tells E.taken E.faults err.old err.new) result }
    ensures proved_by_run { ProvedByRun (map string_bytes words.now) (store_seen S.tells S.held S.faults store.old store.new) result }
    ensures yes_where_proved { YesWhereProved (map string_bytes words.now) (store_seen S.tells S.held S.faults store.old store.new) (sink_seen O.tells O.taken O.faults out.old out.new) result }
    ensures yes_means { YesMeans (map string_bytes words.now) (store_seen S.tells S.held S.faults store.old store.new) (sink_seen O.tells O.taken O.faults out.old out.new) result }
    ensures rows_say_yes { RowsSayYes (map string_bytes words.now) (store_seen S.tells S.held S.faults store.old store.new) (sink_seen O.tells O.taken O.faults out.old out.new) result }
    ensures no_verdict_lost { NoVerdictLost (map string_bytes words.now) (store_seen S.tells S.held S.faults store.old store.new) result }
    ensures always { Always }
{
    run_is_verified();
    verify_tells();
    no_verdict_is_lost();
    commands_go_by_filled_rule();
    limits_are_these();
    let answer = perform(alloc, words, store, out);
    let status = report(alloc, &answer, err);
    drop(answer);
    status
}

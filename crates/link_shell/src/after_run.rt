// A run, and then what an auditor is told of it.
ghost use Rattle.std.specs.Prelude.{map, string_bytes};
ghost use Rattle.command_scripts.specs.Steps.{sink_seen, store_seen};
ghost use Rattle.link_shell.specs.Meaning.{YesAfterRun};

use crate::command::linkage;
use link_outside::{Refusal, Sink, Store};
use std::alloc::Global;

/// Makes the call of a run and then that of `verify`, and answers both statuses: after a run that is done, `verify` with the same
/// settings file says yes, unless the store or `out` fails or memory is wanted.
pub fn run_then_verify<S: Store, O: Sink, E: Sink>(
    alloc: Global,
    run: &[String],
    verify: &[String],
    store: &mut S,
    out: &mut O,
    err: &mut E,
) -> (u8, u8)
    ensures { YesAfterRun (map string_bytes run.now) (map string_bytes verify.now) (store_seen S.tells S.held S.faults store.old store.new) (sink_seen O.tells O.taken O.faults out.old out.new) result.0 result.1 }
{
    let ran = linkage(alloc, run, store, out, err);
    let verified = linkage(alloc, verify, store, out, err);
    (ran, verified)
}

// The ends of a command: a text for `out`, or puts one after the other.
ghost use Rattle.std.specs.Prelude.{◌≡◌, IfErr, IfOk};
ghost use Rattle.command_scripts.specs.Due.{put_in, puts_in, HandsOver, IsWanted, PutsAll, PutsOne};
ghost use Rattle.command_scripts.specs.Steps.{sink_seen, store_seen};
ghost use Rattle.command_scripts.specs.declared.ends.Ended.TheVariants.{Done};

use link_base::{Fault, NoMemory, Text};
use link_outside::{Refusal, Sink, SinkError, Store, StoreError};
use std::alloc::Global;

/// How a command ended that was not refused.
#[derive(Clone, Copy, PartialEq, Eq)]
pub enum Ended {
    /// It did what it does.
    Done,
    /// It verified files, and they do not meet their definitions.
    Refuted,
}

/// Bytes that a name is to hold.
#[derive(Clone, Copy)]
pub struct Output<'n, 'b> {
    pub name: &'n str,
    pub bytes: &'b [u8],
}

/// Hands bytes to `out`.
pub fn print<O: Sink>(
    alloc: Global,
    ended: Ended,
    text: &[u8],
    out: &mut O,
) -> Result<Ended, Refusal>
    ensures { HandsOver ended text.now (sink_seen O.tells O.taken O.faults out.old out.new) result }
{
    match out.put_all(alloc, text) {
        Ok(()) => Ok(ended),
        Err(SinkError::Failed) => Err(Refusal::Output),
        Err(SinkError::NoMemory) => Err(Refusal::Fault(Fault::NoMemory)),
    }
}

/// Hands a text to `out`.
pub fn print_text<O: Sink>(
    alloc: Global,
    ended: Ended,
    text: Text,
    out: &mut O,
) -> Result<Ended, Refusal>
    ensures { HandsOver ended text (sink_seen O.tells O.taken O.faults out.old out.new) result }
{
    let printed = print(alloc, ended, text.bytes(), out);
    drop(text);
    printed
}

/// Hands a text to `out`, where there was the memory to make it.
pub fn print_lines<O: Sink>(
    alloc: Global,
    lines: Result<Text, NoMemory>,
    out: &mut O,
) -> Result<Ended, Refusal>
    ensures printed { IfOk lines (λ text. HandsOver Done text (sink_seen O.tells O.taken O.faults out.old out.new) result) }
    ensures wanted { IfErr lines (λ e. IsWanted (sink_seen O.tells O.taken O.faults out.old out.new) result) }
{
    match lines {
        Ok(text) => print_text(alloc, Ended::Done, text, out),
        Err(NoMemory) => Err(Refusal::Fault(Fault::NoMemory)),
    }
}

// Puts bytes under a name. A failure of the store is refused under the name.
fn put_one<S: Store>(alloc: Global, output: &Output<'_, '_>, store: &mut S) -> Result<(), Refusal>
    ensures { PutsOne (put_in output.now) (store_seen S.tells S.held S.faults store.old store.new) result }
{
    let failed = Text::new(alloc, output.name.as_bytes())?;
    match store.put(alloc, output.name, output.bytes) {
        Ok(()) => {
            drop(failed);
            Ok(())
        }
        Err(StoreError::Failed) => Err(Refusal::Store { name: failed }),
        Err(StoreError::NoMemory) => {
            drop(failed);
            Err(Refusal::Fault(Fault::NoMemory))
        }
    }
}

/// Puts outputs one after the other.
pub fn put_each<S: Store>(
    alloc: Global,
    outputs: &[Output<'_, '_>],
    store: &mut S,
) -> Result<Ended, Refusal>
    ensures { PutsAll (puts_in outputs.now) (store_seen S.tells S.held S.faults store.old store.new) result }
{
    for output in outputs {
        match put_one(alloc, output, store) {
            Ok(()) => {}
            Err(fault) => return Err(fault),
        }
    }
    Ok(Ended::Done)
}

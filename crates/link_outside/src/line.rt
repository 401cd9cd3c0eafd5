// The line of a refusal.
ghost use Rattle.std.specs.Prelude.{◌≡◌, IfOk};
ghost use Rattle.link_outside.specs.Outside.{Appends, HasCause};
ghost use Rattle.link_outside.specs.Refusal.{refusal_line};

use crate::outside::{Sink, SinkError};
use crate::refusal::Refusal;
use link_base::{NoMemory, push_fault};
use std::alloc::Global;

fn line_of(alloc: Global, refusal: &Refusal) -> Result<Vec<u8>, NoMemory>
    ensures { IfOk result (λ line. line.items ≡ refusal_line refusal.now) }
{
    let mut line = Vec::new(alloc);
    line.extend_from_slice(b"linkage: ")?;
    match refusal {
        Refusal::Usage => line.extend_from_slice(b"usage")?,
        Refusal::Store { name } => {
            line.extend_from_slice(b"store: ")?;
            line.extend_from_slice(name.bytes())?;
        }
        Refusal::Output => line.extend_from_slice(b"output")?,
        Refusal::Fault(fault) => push_fault(alloc, &mut line, fault)?,
    }
    line.push(b'\n')?;
    Ok(line)
}

/// Hands the line of a refusal to `err`: `linkage: `, what is wrong and where, and a line feed.
pub fn write_refusal<E: Sink>(
    alloc: Global,
    refusal: &Refusal,
    err: &mut E,
) -> Result<(), SinkError>
    ensures content { E.tells → Appends (refusal_line refusal.now) (E.taken err.old) (E.taken err.new) result }
    ensures cause { HasCause (E.faults err.old) (E.faults err.new) result }
{
    match line_of(alloc, refusal) {
        Ok(line) => err.put_all(alloc, &line),
        Err(NoMemory) => Err(SinkError::NoMemory),
    }
}

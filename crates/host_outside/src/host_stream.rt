// A stream of the host.
ghost use Rattle.std.specs.Prelude.{◌≡◌, [], IfErr, OnOk};
ghost use Rattle.std.specs.Io.KnownBytes.{Appends};
ghost use Rattle.link_outside.specs.Outside.{HasCause};
ghost use Rattle.link_outside.specs.declared.outside.SinkError.TheVariants as sink;

use link_outside::{Sink, SinkError};
use std::alloc::Global;
use std::io::Write;

/// A stream of the host, which counts its faults. What it has taken it tells where the host does: bytes that are put
/// without a fault stand behind those before them. A stream that takes nothing of bytes that it is handed has failed.
#[derive(Drop)]
pub struct HostStream<W> {
    pub stream: W,
    faults: u64,
}

impl<W> HostStream<W> {
    /// A stream that has not failed yet.
    pub fn new(stream: W) -> HostStream<W>
        ensures stream { result.stream ≡ stream }
        ensures faults { result.faults ≡ 0 }
    {
        HostStream { stream, faults: 0 }
    }
}

impl<W: Write> Sink for HostStream<W> {
    ghost tells = { ⊥ };

    ghost taken = { λ _. [] };

    ghost faults = { λ s. s.faults };

    fn put_all(&mut self, _alloc: Global, bytes: &[u8]) -> Result<(), SinkError>
        ensures cause { HasCause self.old.faults self.new.faults result }
        ensures failed { IfErr result (λ error. error ≡ sink.Failed) }
        ensures bytes { OnOk result (Appends (W.contents self.old.stream) (W.contents self.new.stream) bytes.now) }
    {
        if self.stream.write_all(bytes).is_ok() && self.stream.flush().is_ok() {
            return Ok(());
        }
        self.faults = self.faults.saturating_add(1);
        Err(SinkError::Failed)
    }
}

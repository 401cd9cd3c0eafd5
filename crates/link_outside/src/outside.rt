// The store and the sink that a run is handed.
ghost use Rattle.std.specs.Prelude.{◌≡◌, ◌+◌, ◌^◌, ◌<◌, List, ℕ, Option, IfOk, OnOk, true, false, vec_capacity, vec_len};
ghost use Rattle.link_outside.specs.Outside.{Appends, HasCause, held_with, IsWithinLimit, Loads, LogsFailure, PutsAs};
ghost use Rattle.link_outside.specs.declared.outside.StoreCall.{StoreCall};

use link_base::{NoMemory, Text};
use std::alloc::Global;
use thiserror::Error;

/// Why a store did not do what it was asked.
#[derive(Clone, Copy, Debug, PartialEq, Eq, Error)]
pub enum StoreError {
    #[error("the store failed")]
    Failed,
    #[error("want of memory")]
    NoMemory,
}

impl From<NoMemory> for StoreError {
    ghost use Rattle.std.specs.Prelude.{◌≡◌};
    ghost use Rattle.link_outside.specs.declared.outside.StoreError.TheVariants as store;

    ghost from_gives = { λ _ e. e ≡ store.NoMemory };

    fn from(_: NoMemory) -> StoreError {
        StoreError::NoMemory
    }
}

/// Why a sink did not take what it was handed.
#[derive(Clone, Copy, Debug, PartialEq, Eq, Error)]
pub enum SinkError {
    #[error("the sink failed")]
    Failed,
    #[error("want of memory")]
    NoMemory,
}

/// A call of a store, a load or a put, with its name.
#[derive(Drop)]
pub struct StoreCall {
    pub put: bool,
    pub name: Text,
}

/// The entry of a call for a store's list of failed calls, with room for it there. A store takes it before it tries
/// the call, so that a failure can always be logged.
pub fn entry_of_call(
    alloc: Global,
    faults: &mut Vec<StoreCall>,
    put: bool,
    name: &str,
) -> Result<StoreCall, NoMemory>
    ensures entry { IfOk result (λ entry. entry ≡ record { put = put; name = name.now }) }
    ensures room { OnOk result (vec_len faults.new < vec_capacity faults.new) }
    ensures same { faults.new.items ≡ faults.old.items }
{
    let name = Text::new(alloc, name.as_bytes())?;
    faults.reserve(1)?;
    Ok(StoreCall { put, name })
}

/// What a load gives.
#[derive(Drop)]
pub enum Load {
    /// All that the name holds.
    Whole(Text),
    /// The first bytes of what the name holds, one more than the limit.
    Over(Text),
}

/// A store of texts under names, which may fail at any call.
pub trait Store {
    /// Whether the store tells what it holds. A store in memory does; one of the host does not.
    ghost tells: { Type 0 };

    /// What a name holds, if anything.
    ghost held: { Self → List ℕ → Option (List ℕ) };

    /// The calls that failed, the last one at the end.
    ghost faults: { Self → List StoreCall };

    /// Loads what the name holds, up to a limit of bytes. A name that is not held fails.
    fn load(&mut self, alloc: Global, name: &str, limit: u64) -> Result<Load, StoreError>
        requires { limit + 1 < 2 ^ 64 }
        ensures within { IfOk result (IsWithinLimit limit) }
        ensures content { tells → Loads (held self.old name.now) limit result }
        ensures unchanged { held self.new ≡ held self.old }
        ensures cause { LogsFailure (faults self.old) (faults self.new) (record { put = false; name = name.now }) result };

    /// Has the name hold these bytes. At an error it holds what it held, or all of these bytes.
    fn put(&mut self, alloc: Global, name: &str, bytes: &[u8]) -> Result<(), StoreError>
        ensures content { tells → PutsAs (held_with name.now bytes.now (held self.old)) (held self.old) (held self.new) result }
        ensures cause { LogsFailure (faults self.old) (faults self.new) (record { put = true; name = name.now }) result };
}

/// What takes the bytes that are written.
pub trait Sink {
    /// Whether the sink tells what it has taken.
    ghost tells: { Type 0 };

    /// The bytes taken so far.
    ghost taken: { Self → List ℕ };

    /// A count of faults, which never falls.
    ghost faults: { Self → ℕ };

    /// Takes all of these bytes, or at an error a part of them from the front.
    fn put_all(&mut self, alloc: Global, bytes: &[u8]) -> Result<(), SinkError>
        ensures content { tells → Appends bytes.now (taken self.old) (taken self.new) result }
        ensures cause { HasCause (faults self.old) (faults self.new) result };
}

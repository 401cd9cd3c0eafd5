// Loads of inputs.
ghost use Rattle.std.specs.Prelude.{◌≡◌, ◌≤◌, ◌<◌, ◌+◌, ◌^◌, IfErr, IfOk, length};
ghost use Rattle.command_scripts.specs.Steps.{HasLoadCause, IsLoadFault, loaded, LoadGives, store_seen, file, file_within, Takes};
ghost use Rattle.link_limits.specs.declared.TheConstants.{MOST_WRITTEN_BYTES};

use link_base::{Fault, FileRole, Text};
use link_limits::{MOST_FILE_BYTES, MOST_WRITTEN_BYTES};
use link_outside::{Load, Refusal, Store, StoreError};
use std::alloc::Global;

/// Loads all that a name holds. A file of more bytes than the limit is refused as too long,
/// and a failure of the store under the name.
pub fn load_whole<S: Store>(
    alloc: Global,
    store: &mut S,
    name: &str,
    role: FileRole,
    limit: u64,
) -> Result<Text, Refusal>
    requires { limit + 1 < 2 ^ 64 }
    ensures within { IfOk result (λ text. length text ≤ limit) }
    ensures kind { IfErr result (IsLoadFault role limit name.now) }
    ensures content { S.tells → LoadGives (loaded role limit name.now (S.held store.old name.now)) result }
    ensures unchanged { S.held store.new ≡ S.held store.old }
    ensures cause { HasLoadCause (S.faults store.old) (S.faults store.new) name.now result }
{
    let failed = Text::new(alloc, name.as_bytes())?;
    match store.load(alloc, name, limit) {
        Ok(Load::Whole(text)) => {
            drop(failed);
            Ok(text)
        }
        Ok(Load::Over(_)) => {
            drop(failed);
            Err(Refusal::Fault(Fault::FileTooLong { role, limit }))
        }
        Err(StoreError::Failed) => Err(Refusal::Store { name: failed }),
        Err(StoreError::NoMemory) => {
            drop(failed);
            Err(Refusal::Fault(Fault::NoMemory))
        }
    }
}

/// Loads a file that was written, of at most 128 MiB.
pub fn load_written<S: Store>(
    alloc: Global,
    store: &mut S,
    name: &str,
    role: FileRole,
) -> Result<Text, Refusal>
    ensures takes { Takes (file_within MOST_WRITTEN_BYTES role name.now) (store_seen S.tells S.held S.faults store.old store.new) result }
    ensures within { IfOk result (λ text. length text ≤ MOST_WRITTEN_BYTES) }
{
    load_whole(alloc, store, name, role, MOST_WRITTEN_BYTES)
}

/// Loads a file of at most 64 MiB.
pub fn load_file<S: Store>(
    alloc: Global,
    store: &mut S,
    name: &str,
    role: FileRole,
) -> Result<Text, Refusal>
    ensures { Takes (file role name.now) (store_seen S.tells S.held S.faults store.old store.new) result }
{
    load_whole(alloc, store, name, role, MOST_FILE_BYTES)
}

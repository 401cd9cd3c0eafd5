// The folders that a store has locked.
ghost use Rattle.std.specs.Prelude.{◌<◌, length, HoldsAt, IfOk, IfSome, IsTrue, OnOk};
ghost use Rattle.host_outside.specs.HostFile.{KeepsAll, IsFolderOf, IsSameFile};

use super::host_error::HostError;
use super::host_file::{FileState, HostFile};

/// A folder that is locked as long as its handle is kept.
#[derive(Drop)]
pub struct LockedFolder<F: HostFile> {
    pub state: FileState,
    pub folder: F,
    ghost is_held: { IsTrue (F.is_locked folder) },
}

// Locks a folder. Only the first of a store waits for its lock: two stores that waited for each other's folders would
// wait without end.
fn lock<F: HostFile>(folder: &F, is_first: bool) -> Result<(), HostError>
    ensures { OnOk result (IsTrue (F.is_locked folder.now)) }
{
    if is_first {
        folder.wait_for_lock()?;
    } else {
        folder.take_free_lock()?;
    }
    Ok(())
}

// The place of the folder that has this state, if it is locked already.
fn place_of<F: HostFile>(folders: &[LockedFolder<F>], state: &FileState) -> Option<usize>
    ensures at { IfSome result (λ at. at < length folders.now) }
    ensures same { IfSome result (HoldsAt (λ kept. IsSameFile kept.state state.now) folders.now) }
{
    for at in 0..folders.len() {
        if folders[at].state.is_same_file(state) {
            return Some(at);
        }
    }
    None
}

/// Locks the folder of a handle, unless it is locked already, for the system would let another handle of it wait for
/// the one that is kept; and the place of the handle that is.
pub fn locked<F: HostFile + Drop>(
    folders: &mut Vec<LockedFolder<F>>,
    folder: F,
) -> Result<usize, HostError>
    ensures at { IfOk result (λ at. at < length folders.new.items) }
    ensures same { IfOk result (HoldsAt (λ kept. IsFolderOf F.told_state folder kept.state) folders.new.items) }
    ensures kept { KeepsAll folders.old.items folders.new.items }
{
    let state = folder.state()?;
    if let Some(at) = place_of(folders, &state) {
        return Ok(at);
    }
    folders.reserve(1)?;
    lock(&folder, folders.is_empty())?;
    let at = folders.len();
    folders.push_reserved(LockedFolder { state, folder });
    Ok(at)
}

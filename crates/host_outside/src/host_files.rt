// Files of the host.
ghost use Rattle.std.specs.Prelude.{◌≡◌, ◌≢◌, ◌+◌, ◌^◌, ◌<◌, [], ℕ, List, None, false, true, string_bytes, take, vec_capacity, vec_len, All, Any, IfOk, IfSome, IsTrue, OnOk};
ghost use Rattle.std.specs.Bool.{OnFalse, OnTrue};
ghost use Rattle.link_outside.specs.Outside.{IsLogged, IsWithinLimit, LogsFailure, Shows};
ghost use Rattle.host_outside.specs.HostFile.{KeepsAll, IsNoted, IsRead, IsReadIn, IsSameFile, IsStateOf, IsUnchanged, IsWritten};

use super::host_error::HostError;
use super::host_file::{FileState, HostFile};
use super::loads::{Loaded, is_loaded, is_noted, is_of, is_other_input};
use super::locked_folders::{LockedFolder, locked};
use super::places::{folder_of, followed};
use super::rights::{made_like, replaced};
use link_base::{NoMemory, Text};
use link_outside::{Load, Store, StoreCall, StoreError, entry_of_call};
use std::alloc::Global;
use std::io::{Read, Write};
use std::rt::Files;
use std::{fs, io};

/// The files of the host, named by their paths. They tell nothing of what they hold: that a load gives what some file
/// had left, and that all bytes of a put stand in some file, is all that contracts see. A put locks the folder of the
/// name for as long as this value lives, refuses a file that is no longer what a load of the name has read, writes the
/// file `NAME.new`, has the host keep it on its disk, and renames it, so a crash leaves the old file or the new one, and
/// a file of that name is lost. Where it ends well the host keeps the new name too.
#[derive(Drop)]
pub struct HostFiles<'r, R: Files>
where
    R::File: HostFile,
{
    rt: &'r R,
    faults: Vec<StoreCall>,
    loads: Vec<Loaded>,
    folders: Vec<LockedFolder<R::File>>,
}

impl<'r, R: Files> HostFiles<'r, R>
where
    R::File: HostFile,
{
    /// The files of the host, none of whose calls has failed yet.
    pub fn new(alloc: Global, rt: &'r R) -> HostFiles<'r, R>
        ensures { result.faults.items ≡ [] }
    {
        HostFiles {
            rt,
            faults: Vec::new(alloc),
            loads: Vec::new(alloc),
            folders: Vec::new(alloc),
        }
    }
}

// What a load gives of a text that was read up to one byte past the limit.
fn load_of(mut text: Vec<u8>, limit: u64) -> Load
    requires { limit + 1 < 2 ^ 64 }
    ensures within { IsWithinLimit limit result }
    ensures content { (bytes : List ℕ) → text.items ≡ take (limit + 1) bytes → Shows bytes limit result }
{
    if text.len() as u64 <= limit {
        return Load::Whole(Text::of(text));
    }
    text.truncate(limit as usize + 1);
    Load::Over(Text::of(text))
}

// Reads until the end, or until one byte more than the limit was taken. Of a reader that tells its bytes it gives all
// that were left, or that many of them.
fn read_up_to<F: Read + Drop>(alloc: Global, file: F, limit: u64) -> Result<Load, HostError>
    requires { limit + 1 < 2 ^ 64 }
    ensures within { IfOk result (IsWithinLimit limit) }
    ensures content { IfSome (F.remaining file) (λ bytes. IfOk result (Shows bytes limit)) }
{
    let mut text = Vec::new(alloc);
    let mut front = file.take(limit + 1);
    io::copy(&mut front, &mut text)?;
    Ok(load_of(text, limit))
}

// Reads a file, and tells its state before it was read.
fn load_file<R: Files>(
    alloc: Global,
    rt: &R,
    name: &str,
    limit: u64,
) -> Result<(Load, FileState), HostError>
where
    R::File: HostFile,
    requires { limit + 1 < 2 ^ 64 }
    ensures within { IfOk result (λ read. IsWithinLimit limit read.0) }
    ensures read { IfOk result (λ read. IsReadIn R.File.remaining R.File.told_state limit read.0 read.1) }
{
    let file = fs::open(rt, name)?;
    let state = file.state()?;
    let load = read_up_to(alloc, file, limit)?;
    Ok((load, state))
}

// The state of a file by its name.
fn state_of<R: Files>(rt: &R, name: &str) -> io::Result<FileState>
where
    R::File: HostFile,
    ensures { IfOk result (IsStateOf R.File.told_state) }
{
    let file = fs::open(rt, name)?;
    Ok(file.state()?)
}

// Fails where the file of a name that was loaded is no longer what was read.
fn unchanged<R: Files>(rt: &R, loads: &[Loaded], name: &str, place: &str) -> io::Result<()>
where
    R::File: HostFile,
    ensures { OnOk result (IsUnchanged R.File.told_state loads.now name.now) }
{
    if is_loaded(loads, name) {
        let state = state_of(rt, place)?;
        if !is_noted(loads, name, &state) {
            return Err(io::Error::from(io::ErrorKind::Other));
        }
        return Ok(());
    }
    Ok(())
}

// Writes all of the bytes, and has the host keep them on its disk.
fn write_kept<F: Write + HostFile + Drop>(mut file: F, bytes: &[u8]) -> io::Result<()>
    ensures { OnOk result (IsWritten F.contents F.is_kept bytes.now) }
{
    file.write_all(bytes)?;
    file.keep()
}

// The names of a put: the one that was asked for, the place that it leads to, and the one beside that place.
#[derive(Drop)]
struct Names<'n> {
    name: &'n str,
    place: String,
    beside: String,
}

impl Names<'_> {
    // Whether the name is a link that leads to a file which was loaded under another name.
    fn lead_to_an_input(&self, loads: &[Loaded], old: &FileState) -> bool
        ensures found { OnTrue result (Any (λ loaded. (loaded.name ≢ self.now.name.now) × IsSameFile loaded.state old.now) loads.now) }
        ensures none { OnFalse result (self.now.name.now ≢ string_bytes self.now.place → All (λ loaded. IsSameFile loaded.state old.now → loaded.name ≡ self.now.name.now) loads.now) }
    {
        self.name != self.place.as_str() && is_other_input(loads, self.name, old)
    }
}

// Writes a file beside the place, and puts it there if nothing was changed meanwhile.
fn put_as<R: Files>(
    rt: &R,
    loads: &[Loaded],
    names: &Names,
    folder: &R::File,
    bytes: &[u8],
) -> io::Result<()>
where
    R::File: HostFile,
    ensures unchanged { OnOk result (IsUnchanged R.File.told_state loads.now names.now.name.now) }
    ensures written { OnOk result (IsWritten R.File.contents R.File.is_kept bytes.now) }
    ensures kept { OnOk result (IsTrue (R.File.is_kept folder.now)) }
{
    let old = replaced(rt, names.name)?;
    if let Some(file) = &old {
        if names.lead_to_an_input(loads, &FileState::of(file)) {
            return Err(io::Error::from(io::ErrorKind::InvalidInput));
        }
    }
    let file = made_like(rt, names.beside.as_str(), old)?;
    write_kept(file, bytes)?;
    unchanged(rt, loads, names.name, names.place.as_str())?;
    fs::rename(rt, names.beside.as_str(), names.place.as_str())?;
    folder.keep_names()
}

// Locks the folder, and puts a file in the place of the name. Of one that could not be put nothing stays. The folder is
// opened first, so that nothing has changed where it cannot be.
fn put_file<R: Files>(
    alloc: Global,
    rt: &R,
    loads: &[Loaded],
    folders: &mut Vec<LockedFolder<R::File>>,
    name: &str,
    bytes: &[u8],
) -> Result<(), HostError>
where
    R::File: HostFile,
    ensures unchanged { OnOk result (IsUnchanged R.File.told_state loads.now name.now) }
    ensures written { OnOk result (IsWritten R.File.contents R.File.is_kept bytes.now) }
    ensures locked { OnOk result (Any (λ kept. IsTrue (R.File.is_locked kept.folder) × IsTrue (R.File.is_kept kept.folder)) folders.new.items) }
    ensures locks { KeepsAll folders.old.items folders.new.items }
{
    let place = followed(alloc, rt, name)?;
    let beside = format!(in alloc; "{place}.new")?;
    let folder = fs::open(rt, folder_of(place.as_str()))?;
    let at = locked(folders, folder)?;
    let names = Names {
        name,
        place,
        beside,
    };
    let put = put_as(rt, loads, &names, &folders[at].folder, bytes);
    if put.is_err() {
        let _removed = fs::remove_file(rt, names.beside.as_str());
    }
    put?;
    Ok(())
}

// The error of a call, whose entry stands in the list of faults where it failed.
fn logged(error: HostError, faults: &mut Vec<StoreCall>, entry: StoreCall) -> StoreError
    requires { vec_len faults.old < vec_capacity faults.old }
    ensures { IsLogged faults.old.items faults.new.items entry result }
{
    match error {
        HostError::NoMemory => StoreError::NoMemory,
        HostError::Failed => {
            faults.push_reserved(entry);
            StoreError::Failed
        }
    }
}

impl<'r, R: Files> Store for HostFiles<'r, R>
where
    R::File: HostFile,
{
    ghost tells = { ⊥ };

    ghost held = { λ _ _. None };

    ghost faults = { λ s. s.faults.items };

    fn load(&mut self, alloc: Global, name: &str, limit: u64) -> Result<Load, StoreError>
        requires { limit + 1 < 2 ^ 64 }
        ensures within { IfOk result (IsWithinLimit limit) }
        ensures cause { LogsFailure self.old.faults.items self.new.faults.items (record { put = false; name = name.now }) result }
        ensures read { IfOk result (IsRead R.File.remaining limit) }
        ensures noted { IfOk result (IsNoted R.File.remaining R.File.told_state limit name.now self.old.loads.items self.new.loads.items) }
        ensures locks { self.new.folders.items ≡ self.old.folders.items }
    {
        let entry = entry_of_call(alloc, &mut self.faults, false, name)?;
        self.loads.reserve(1).map_err(NoMemory::from)?;
        match load_file(alloc, self.rt, name, limit) {
            Ok((load, state)) => {
                self.loads.push_reserved(Loaded {
                    name: entry.name,
                    state,
                });
                Ok(load)
            }
            Err(error) => Err(logged(error, &mut self.faults, entry)),
        }
    }

    fn put(&mut self, alloc: Global, name: &str, bytes: &[u8]) -> Result<(), StoreError>
        ensures cause { LogsFailure self.old.faults.items self.new.faults.items (record { put = true; name = name.now }) result }
        ensures written { OnOk result (IsWritten R.File.contents R.File.is_kept bytes.now) }
        ensures unchanged { OnOk result (IsUnchanged R.File.told_state self.old.loads.items name.now) }
        ensures locked { OnOk result (Any (λ kept. IsTrue (R.File.is_locked kept.folder) × IsTrue (R.File.is_kept kept.folder)) self.new.folders.items) }
        ensures locks { KeepsAll self.old.folders.items self.new.folders.items }
    {
        let entry = entry_of_call(alloc, &mut self.faults, true, name)?;
        match put_file(alloc, self.rt, &self.loads, &mut self.folders, name, bytes) {
            Ok(()) => {
                self.loads.retain(|loaded| !is_of(loaded, name));
                Ok(())
            }
            Err(error) => Err(logged(error, &mut self.faults, entry)),
        }
    }
}

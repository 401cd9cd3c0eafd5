// The rights of a file that is replaced.
ghost use Rattle.std.specs.Prelude.{◌≡◌, ◌<◌, ◌/◌, ◌%◌, IfOk, IfSome};
ghost use Rattle.std.specs.Fs.{file_type, IsFile};

use super::host_file::HostFile;
use std::fs::{Metadata, OpenFile, OpenOptions, Permissions};
use std::io::ErrorKind;
use std::os::unix::fs::{MetadataExt, OpenOptionsExt, PermissionsExt};
use std::rt::Files;
use std::{fs, io};

// What a file that replaces none is made with, of which the host takes away what `umask` says.
const ALL_READ_AND_WRITE: u32 = 0o666;

/// The file that a name leads to, if there is one. What is no plain file fails.
pub fn replaced<R: Files>(rt: &R, name: &str) -> io::Result<Option<Metadata>>
    ensures { IfOk result (λ old. IfSome old (λ file. IsFile (file_type file))) }
{
    match fs::metadata(rt, name) {
        Ok(file) if file.is_file() => Ok(Some(file)),
        Ok(_) => Err(io::Error::from(ErrorKind::InvalidInput)),
        Err(error) if error.kind() == ErrorKind::NotFound => Ok(None),
        Err(error) => Err(error),
    }
}

// Makes a file that is not there yet.
fn made<R: Files>(rt: &R, name: &str, mode: u32) -> io::Result<R::File> {
    let mut options = OpenOptions::new();
    options.write(true).create_new(true).mode(mode);
    options.open(rt, name)
}

// Makes a file in the place of what a call that was killed has left there, if anything; a link is not followed.
fn made_anew<R: Files>(rt: &R, name: &str, mode: u32) -> io::Result<R::File> {
    match made(rt, name, mode) {
        Err(error) if error.kind() == ErrorKind::AlreadyExists => {
            fs::remove_file(rt, name)?;
            made(rt, name, mode)
        }
        file => file,
    }
}

// The rights of everyone in the place of those of the group. Owner, group and everyone have a digit of base eight each.
fn without_group(mode: u32) -> u32
    requires { mode < 0o1000 }
    ensures owner { result / 0o100 ≡ mode / 0o100 }
    ensures group { result / 0o10 % 0o10 ≡ mode % 0o10 }
    ensures everyone { result % 0o10 ≡ mode % 0o10 }
{
    mode / 0o100 * 0o100 + mode % 0o10 * 0o11
}

// Gives a new file the owner, the group and the rights of another, as far as the host allows it. Where it may not have
// the group, whoever is of its own group may do no more than everyone.
fn keep_rights<F: HostFile>(file: &F, old: &Metadata) {
    if file.give_to(Some(old.uid()), Some(old.gid())).is_err() {
        let _given = file.give_to(None, Some(old.gid()));
    }
    let mode = old.mode() & 0o777;
    let has_group = matches!(OpenFile::metadata(file), Ok(new) if new.gid() == old.gid());
    let kept = if has_group { mode } else { without_group(mode) };
    let _set = file.set_permissions(Permissions::from_mode(kept));
}

/// Makes a file that has the rights of the one that it is to replace, and before that none but the owner's.
pub fn made_like<R: Files>(rt: &R, name: &str, old: Option<Metadata>) -> io::Result<R::File>
where
    R::File: HostFile,
{
    let Some(old) = old else {
        return made_anew(rt, name, ALL_READ_AND_WRITE);
    };
    let file = made_anew(rt, name, old.mode() & 0o600)?;
    keep_rights(&file, &old);
    Ok(file)
}

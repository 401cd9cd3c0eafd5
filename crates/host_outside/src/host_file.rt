// An open file or folder of the host: the state that tells whether it was changed, its lock, its owner.
ghost use Rattle.std.specs.Prelude.{◌≡◌, ◌↔◌, Bool, Option, None, true, IfOk, IfSome, IsTrue, OnOk};
ghost use Rattle.std.specs.Fs.{metadata_len};
ghost use Rattle.host_outside.specs.declared.host_file.FileState.{FileState};
ghost use Rattle.host_outside.specs.HostFile.{IsSameFile};

use std::fs::{File, Metadata, OpenFile};
use std::io;
use std::os::unix::fs::{MetadataExt, fchown};

/// What tells a file from every other and from what it was: a file in its place has another inode, and one that was
/// written to another size or time of change.
#[derive(Clone, Copy, PartialEq, Eq)]
pub struct FileState {
    pub device: u64,
    pub inode: u64,
    pub size: u64,
    pub modified: i64,
    pub modified_nanos: i64,
    pub changed: i64,
    pub changed_nanos: i64,
}

impl FileState {
    /// The state that the metadata of a file tells.
    pub fn of(told: &Metadata) -> FileState
        ensures size { result.size ≡ metadata_len told.now }
    {
        FileState {
            device: told.dev(),
            inode: told.ino(),
            size: told.len(),
            modified: told.mtime(),
            modified_nanos: told.mtime_nsec(),
            changed: told.ctime(),
            changed_nanos: told.ctime_nsec(),
        }
    }

    /// Whether this is a state of the same file as another.
    pub fn is_same_file(&self, other: &FileState) -> bool
        ensures { IsTrue result ↔ IsSameFile self.now other.now }
    {
        self.device == other.device && self.inode == other.inode
    }
}

/// What a store asks of an open file or folder beside what `OpenFile` has. Contracts see what a handle was asked for.
pub trait HostFile: OpenFile {
    /// The state of the file, where it tells it.
    ghost told_state: { Self → Option FileState };

    /// Whether this handle has taken the lock of its file.
    ghost is_locked: { Self → Bool };

    /// Whether the host was asked to keep on its disk what stands there by now.
    ghost is_kept: { Self → Bool };

    /// The state of the file.
    fn state(&self) -> io::Result<FileState>
        ensures { IfSome (told_state self.now) (λ told. IfOk result (λ state. state ≡ told)) };

    /// Takes the lock of the file, and waits while another handle holds it.
    fn wait_for_lock(&self) -> io::Result<()>
        ensures { OnOk result (IsTrue (is_locked self.now)) };

    /// Takes the lock of the file, which fails while another handle holds it.
    fn take_free_lock(&self) -> io::Result<()>
        ensures { OnOk result (IsTrue (is_locked self.now)) };

    /// Has the host keep the file on its disk.
    fn keep(&self) -> io::Result<()>
        ensures { OnOk result (IsTrue (is_kept self.now)) };

    /// Has the host keep the names of the folder on its disk. A file system that keeps no folder by itself refuses that
    /// as invalid.
    fn keep_names(&self) -> io::Result<()>
        ensures { OnOk result (IsTrue (is_kept self.now)) };

    /// Gives the file to a user, to a group or to both.
    fn give_to(&self, user: Option<u32>, group: Option<u32>) -> io::Result<()>;
}

impl HostFile for File {
    ghost told_state = { λ _. None };

    ghost is_locked = { λ _. true };

    ghost is_kept = { λ _. true };

    fn state(&self) -> io::Result<FileState> {
        Ok(FileState::of(&self.metadata()?))
    }

    fn wait_for_lock(&self) -> io::Result<()> {
        self.lock()
    }

    fn take_free_lock(&self) -> io::Result<()> {
        self.try_lock()?;
        Ok(())
    }

    fn keep(&self) -> io::Result<()> {
        self.sync_all()
    }

    fn keep_names(&self) -> io::Result<()> {
        match self.sync_all() {
            Err(error) if error.kind() != io::ErrorKind::InvalidInput => Err(error),
            _ => Ok(()),
        }
    }

    fn give_to(&self, user: Option<u32>, group: Option<u32>) -> io::Result<()> {
        fchown(self, user, group)
    }
}

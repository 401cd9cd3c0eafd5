// Why the host did not do what it was asked.
ghost use Rattle.std.specs.Prelude.{◌≡◌};
ghost use Rattle.std.specs.IoError.{error_kind};
ghost use Rattle.std.specs.declared.io.ErrorKind.TheVariants as kind;
ghost use Rattle.host_outside.specs.declared.host_error.HostError.TheVariants as host;

use std::alloc::AllocError;
use std::io;

/// Why a file was not read or written.
pub enum HostError {
    Failed,
    NoMemory,
}

impl From<AllocError> for HostError {
    ghost from_gives = { λ _ e. e ≡ host.NoMemory };

    fn from(_: AllocError) -> HostError {
        HostError::NoMemory
    }
}

impl From<io::Error> for HostError {
    ghost from_gives = { λ error e. (error_kind error ≡ kind.OutOfMemory → e ≡ host.NoMemory) × (e ≡ host.NoMemory → error_kind error ≡ kind.OutOfMemory) };

    fn from(error: io::Error) -> HostError {
        if error.kind() == io::ErrorKind::OutOfMemory {
            HostError::NoMemory
        } else {
            HostError::Failed
        }
    }
}

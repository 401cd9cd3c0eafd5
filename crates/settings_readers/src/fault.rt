// The faults of a key.
use link_base::{Fault, NoMemory, Text};
use std::alloc::{AllocError, AllocFailed};

/// Why a key of a settings file was refused: each fault but want of memory has the path of the key.
#[derive(Drop)]
pub enum KeyFault {
    /// The key is not known, or does not belong.
    UnknownKey { key: Text },
    /// The key has to be there.
    MissingKey { key: Text },
    /// The value has another type.
    WrongType { key: Text },
    /// The value is out of its range.
    OutOfRange { key: Text },
    NoMemory,
}

impl KeyFault {
    ghost use Rattle.std.specs.Prelude.{◌≡◌};
    ghost use Rattle.settings_readers.specs.KeyFaults.{fault_of};

    /// The fault of a run that it is.
    pub fn into_fault(self) -> Fault
        ensures { result ≡ fault_of self }
    {
        match self {
            KeyFault::UnknownKey { key } => Fault::UnknownKey { key },
            KeyFault::MissingKey { key } => Fault::MissingKey { key },
            KeyFault::WrongType { key } => Fault::WrongType { key },
            KeyFault::OutOfRange { key } => Fault::OutOfRange { key },
            KeyFault::NoMemory => Fault::NoMemory,
        }
    }
}

impl From<NoMemory> for KeyFault {
    ghost use Rattle.std.specs.Prelude.{◌≡◌};
    ghost use Rattle.settings_readers.specs.declared.fault.KeyFault.TheVariants as key_fault;

    ghost from_gives = { λ _ e. e ≡ key_fault.NoMemory };

    fn from(_: NoMemory) -> KeyFault {
        KeyFault::NoMemory
    }
}

impl From<AllocError> for KeyFault {
    ghost use Rattle.std.specs.Prelude.{◌≡◌};
    ghost use Rattle.settings_readers.specs.declared.fault.KeyFault.TheVariants as key_fault;

    ghost from_gives = { λ _ e. e ≡ key_fault.NoMemory };

    fn from(_: AllocError) -> KeyFault {
        KeyFault::NoMemory
    }
}

impl<T: Drop> From<AllocFailed<T>> for KeyFault {
    ghost use Rattle.std.specs.Prelude.{◌≡◌};
    ghost use Rattle.settings_readers.specs.declared.fault.KeyFault.TheVariants as key_fault;

    ghost from_gives = { λ _ e. e ≡ key_fault.NoMemory };

    fn from(_: AllocFailed<T>) -> KeyFault {
        KeyFault::NoMemory
    }
}

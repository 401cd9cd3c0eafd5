// Why commands are refused.
ghost use Rattle.std.specs.Prelude.{◌≡◌};
ghost use Rattle.link_outside.specs.Refusal.{refusal_status};

use link_base::{Fault, NoMemory, Text, status_of};

/// Why a command was refused.
#[derive(Drop)]
pub enum Refusal {
    /// The words are no form of a command.
    Usage,
    /// A load or put of this name failed.
    Store { name: Text },
    /// The output did not take what it was handed.
    Output,
    /// An input is at fault, a limit is passed, or memory is wanted.
    Fault(Fault),
}

impl From<Fault> for Refusal {
    ghost use Rattle.std.specs.Prelude.{◌≡◌};
    ghost use Rattle.link_outside.specs.declared.refusal.Refusal.TheVariants as refusal;

    ghost from_gives = { λ f e. e ≡ refusal.Fault f };

    fn from(fault: Fault) -> Refusal {
        Refusal::Fault(fault)
    }
}

impl From<NoMemory> for Refusal {
    ghost use Rattle.std.specs.Prelude.{◌≡◌};
    ghost use Rattle.link_base.specs.declared.fault.Fault.TheVariants as fault;
    ghost use Rattle.link_outside.specs.declared.refusal.Refusal.TheVariants as refusal;

    ghost from_gives = { λ _ e. e ≡ refusal.Fault fault.NoMemory };

    fn from(_: NoMemory) -> Refusal {
        Refusal::Fault(Fault::NoMemory)
    }
}

impl Refusal {
    /// The exit status of a command that is refused so: 2 for the words, 6 for the store, 7 for the output, and else that of the
    /// fault.
    pub fn status(&self) -> u8
        ensures { result ≡ refusal_status self.now }
    {
        match self {
            Refusal::Usage => 2,
            Refusal::Store { .. } => 6,
            Refusal::Output => 7,
            Refusal::Fault(fault) => status_of(fault),
        }
    }
}

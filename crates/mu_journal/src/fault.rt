use mu_outside::Failed;
use mu_tree::NoMemory;
use std::alloc::AllocError;

/// Why a journal was not opened.
#[derive(Clone, Copy, Debug, PartialEq, Eq)]
pub enum StartFault {
    /// The disk has more than nine bytes, and they do not begin as a journal does.
    NotJournal,
    /// An open gate stands before something that is no whole record.
    Torn {
        /// The number that this record would have, from 1.
        number: u64,
    },
    /// A call of the disk failed.
    Disk,
    /// Memory ran out.
    NoMemory,
}

impl From<Failed> for StartFault {
    ghost use Rattle.std.specs.Prelude.{◌≡◌};
    ghost use Rattle.mu_journal.specs.declared.fault.StartFault.TheVariants.{Disk};

    ghost from_gives = { λ _ fault. fault ≡ Disk };

    fn from(_error: Failed) -> StartFault {
        StartFault::Disk
    }
}

impl From<NoMemory> for StartFault {
    ghost use Rattle.std.specs.Prelude.{◌≡◌};
    ghost use Rattle.mu_journal.specs.declared.fault.StartFault.TheVariants as fault;

    ghost from_gives = { λ _ result. result ≡ fault.NoMemory };

    fn from(_error: NoMemory) -> StartFault {
        StartFault::NoMemory
    }
}

impl From<AllocError> for StartFault {
    ghost use Rattle.std.specs.Prelude.{◌≡◌};
    ghost use Rattle.mu_journal.specs.declared.fault.StartFault.TheVariants as fault;

    ghost from_gives = { λ _ result. result ≡ fault.NoMemory };

    fn from(_error: AllocError) -> StartFault {
        StartFault::NoMemory
    }
}

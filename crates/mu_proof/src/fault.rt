ghost use Rattle.std.specs.Prelude.{◌≡◌, ◌≢◌, None, Some, OnOk, IfErr};
ghost use Rattle.mu_proof.specs.Proofs.{unless};

use mu_tree::{Bytes, Name, NoMemory};
use std::alloc::{AllocError, AllocFailed, Global};

/// Why an edit of a proof is refused.
#[derive(Drop)]
pub enum ProofFault {
    /// The proof has no block, item, line or box of this label where it must have one.
    Unknown(Bytes),
    /// An item may not bring this label: it is in use, stands twice in the item or is the name of the whole proof.
    Taken(Bytes),
    /// There would be more boxes around one another than there may be.
    Boxes,
    /// There would be more items than there may be.
    Items,
    /// Memory ran out.
    NoMemory,
}

impl From<NoMemory> for ProofFault {
    ghost use Rattle.std.specs.Prelude.{◌≡◌};
    ghost use Rattle.mu_proof.specs.declared.fault.ProofFault.TheVariants as fault;

    ghost from_gives = { λ _ r. r ≡ fault.NoMemory };

    fn from(_error: NoMemory) -> ProofFault {
        ProofFault::NoMemory
    }
}

impl From<AllocError> for ProofFault {
    ghost use Rattle.std.specs.Prelude.{◌≡◌};
    ghost use Rattle.mu_proof.specs.declared.fault.ProofFault.TheVariants as fault;

    ghost from_gives = { λ _ r. r ≡ fault.NoMemory };

    fn from(_error: AllocError) -> ProofFault {
        ProofFault::NoMemory
    }
}

impl<T: Drop> From<AllocFailed<T>> for ProofFault {
    ghost use Rattle.std.specs.Prelude.{◌≡◌};
    ghost use Rattle.mu_proof.specs.declared.fault.ProofFault.TheVariants as fault;

    ghost from_gives = { λ _ r. r ≡ fault.NoMemory };

    fn from(_error: AllocFailed<T>) -> ProofFault {
        ProofFault::NoMemory
    }
}

/// Tells that what has a name isn't there, unless it is.
pub(crate) fn expect(alloc: Global, is_there: bool, name: &Name) -> Result<(), ProofFault>
    ensures ok { OnOk result (unless is_there (ProofFault.Unknown name.now) ≡ None) }
    ensures fault { IfErr result (λ fault. fault ≢ ProofFault.NoMemory → unless is_there (ProofFault.Unknown name.now) ≡ Some fault) }
{
    if is_there {
        return Ok(());
    }
    Err(ProofFault::Unknown(name.copy(alloc)?.into_bytes()))
}

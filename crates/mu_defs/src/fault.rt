use mu_tree::{Name, NoMemory};

/// Why something that could close a circle was not done.
#[derive(Drop)]
pub enum CircleFault {
    /// This name would be the first in byte order that leads back to itself.
    Circle(Name),
    /// Memory ran out.
    NoMemory,
}

impl From<NoMemory> for CircleFault {
    ghost use Rattle.std.specs.Prelude.{◌≡◌};
    ghost use Rattle.mu_defs.specs.declared.fault.CircleFault.TheVariants as fault;

    ghost from_gives = { λ _ r. r ≡ fault.NoMemory };

    fn from(_error: NoMemory) -> CircleFault {
        CircleFault::NoMemory
    }
}

ghost use Rattle.std.specs.Prelude.{◌≡◌, ℕ, ◌≤◌, length, take, OnOk, OnErr};
ghost use Rattle.std.specs.Io.KnownBytes.{append_known};
ghost use Rattle.mu_outside.specs.Outsides.{KeepsButTold, HasCause};

use mu_outside::{Failed, Outside};

/// Prints all of these bytes.
///
/// # Errors
///
/// `Failed` where a call failed; then some first bytes are printed.
pub(crate) fn tell_all<O: Outside>(out: &mut O, bytes: &[u8]) -> Result<(), Failed>
    ensures ok { OnOk result ((O.observed out.new).told ≡ append_known (O.observed out.old).told bytes.now) }
    ensures err { OnErr result ((n : ℕ) × (n ≤ length bytes.now) × ((O.observed out.new).told ≡ append_known (O.observed out.old).told (take n bytes.now))) }
    ensures rest { KeepsButTold (O.observed out.old) (O.observed out.new) }
    ensures cause { HasCause (O.observed out.old).tell_faults (O.observed out.new).tell_faults result }
{
    let mut at = 0;
    while at < bytes.len() {
        at += out.tell(&bytes[at..])?;
    }
    Ok(())
}

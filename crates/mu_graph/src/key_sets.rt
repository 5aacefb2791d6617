ghost use Rattle.std.specs.Prelude.{◌≡◌, IfOk, OnOk, Bool};
ghost use Rattle.mu_graph.specs.KeySets.{Adds, IsBlank};

use mu_tree::{Duplicate, NoMemory};
use std::alloc::Global;

/// A set of keys that only grows.
pub trait KeySet: Drop {
    /// What is in it.
    type Key: Drop + Duplicate;

    /// Whether a key is marked: it is in the set.
    ghost marked: { Self → Self.Key → Bool };

    /// The empty set.
    fn none(alloc: Global) -> Self
        ensures { IsBlank (marked result) };

    /// Whether a key is in the set.
    fn has(&self, key: &Self::Key) -> bool
        ensures { result ≡ marked self.now key.now };

    /// Adds a key.
    ///
    /// # Errors
    ///
    /// `NoMemory`. What is in the set then is left open.
    fn add(&mut self, key: Self::Key) -> Result<(), NoMemory>
        ensures { OnOk result (Adds (marked self.old) (marked self.new) key) };
}

/// Copies of keys, in order.
pub(crate) fn copies<K: Drop + Duplicate>(alloc: Global, keys: &[K]) -> Result<Vec<K>, NoMemory>
    ensures { IfOk result (λ copies. copies.items ≡ keys.now) }
{
    let mut copies = Vec::new(alloc);
    for key in keys {
        copies.push(key.duplicate(alloc)?)?;
    }
    Ok(copies)
}

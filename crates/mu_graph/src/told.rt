ghost use Rattle.std.specs.Prelude.{◌≡◌, ◌∷◌, ◌++◌, [], ℕ, List, Option, Some, IfOk};
ghost use Rattle.std.specs.Option.{option_copied};
ghost use Rattle.mu_graph.specs.Circles.{IsAcyclic, IsTurned};
ghost use Rattle.mu_graph.specs.Told.{Tells, IsLeastTold, IsFirstClosed, names_tell};

use crate::circles::{are_apart, between};
use crate::key_sets::KeySet;
use crate::walks::Edges;
use mu_tree::{Name, NameSet, NoMemory};
use std::alloc::Global;
use std::cmp::Ordering;

/// A set of keys, some of which tell a name; no two tell the same.
pub trait ToldSet: KeySet {
    /// The name that a key tells, none where it tells none.
    ghost told: { Self.Key → Option (List ℕ) };

    /// The key that tells a name.
    ghost named: { List ℕ → Self.Key };

    /// The name that a key tells, none where it tells none.
    fn told(key: &Self::Key) -> Option<&Name>
        ensures { option_copied result ≡ told key.now };

    /// A key tells a name exactly where it is the key of that name.
    ghost tells: { Tells told named };
}

/// A name tells itself.
impl ToldSet for NameSet {
    ghost told = { Some };

    ghost named = { λ name. name };

    ghost tells = { names_tell };

    fn told(key: &Name) -> Option<&Name> {
        Some(key)
    }
}

/// The lesser one, in byte order, of the least name so far and the name that one more key tells.
fn lesser_told<'a, S: ToldSet>(least: Option<&'a Name>, key: &'a S::Key) -> Option<&'a Name>
    ensures { (front : List S.Key) → IsLeastTold S.named front (option_copied least.entry) → IsLeastTold S.named (front ++ key.now ∷ []) (option_copied result) }
{
    match (S::told(key), least) {
        (None, _) => least,
        (Some(name), None) => Some(name),
        (Some(name), Some(before)) => match before.cmp(name) {
            Ordering::Greater => Some(name),
            _ => Some(before),
        },
    }
}

/// The least name, in byte order, that one of the keys tells; none where none of them tells one.
fn least_told<S: ToldSet>(keys: &[S::Key]) -> Option<&Name>
    ensures { IsLeastTold S.named keys.now (option_copied result) }
{
    let mut least = None;
    for key in keys {
        least = lesser_told::<S>(least, key);
    }
    least
}

/// The first name, in byte order, of a key on a circle where one key of an acyclic graph, `to`, were to lead to the starts
/// too; none where no key that tells a name would be on one. `back` has the edges turned round, and maybe more.
///
/// It looks only at what is reachable from the starts, and at little where little leads to `to`.
///
/// # Errors
///
/// `NoMemory`.
pub fn first_closed<E: Edges, B: Edges<Set = E::Set>>(
    alloc: Global,
    edges: &E,
    back: &B,
    starts: Vec<<E::Set as KeySet>::Key>,
    to: &<E::Set as KeySet>::Key,
) -> Result<Option<Name>, NoMemory>
where
    E::Set: ToldSet,
    requires acyclic { IsAcyclic (E.leads edges.now) }
    requires turned { IsTurned (E.leads edges.now) (B.leads back.now) to.now }
    ensures { IfOk result (λ first. IsFirstClosed E.Set.named (E.leads edges.now) starts.items to.now first) }
{
    if are_apart(alloc, edges, back, starts.as_slice(), to)? {
        return Ok(None);
    }
    let closed = between(alloc, edges, starts, to)?;
    match least_told::<E::Set>(closed.as_slice()) {
        Some(name) => Ok(Some(name.copy(alloc)?)),
        None => Ok(None),
    }
}

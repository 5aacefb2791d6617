ghost use Rattle.std.specs.Prelude.{◌≡◌, ◌↔◌, [], ◌∷◌, ◌++◌, map, IsTrue, IfOk, OnOk, List};
ghost use Rattle.mu_graph.specs.Derivations.{Stands};
ghost use Rattle.mu_graph.specs.KeySets.{Adds};
ghost use Rattle.mu_graph.specs.Walks.{IsLedTo, AreDistinct, AreInOrder, Lists, Advances};
ghost use Rattle.mu_graph.specs.declared.walks.Step.TheVariants.{Enter, Leave};

use crate::key_sets::KeySet;
use mu_tree::{Duplicate, NoMemory};
use std::alloc::Global;

/// A directed graph, known by looking up what a key leads to.
pub trait Edges {
    /// A set of the keys.
    type Set: KeySet;

    /// The keys that a key leads to.
    ghost leads: { Self → Self.Set.Key → List Self.Set.Key };

    /// Finitely many keys, among which are all that any key leads to. No code computes them.
    ghost universe: { Self → List Self.Set.Key };

    /// The keys that a key leads to: none where there is no such key.
    ///
    /// # Errors
    ///
    /// `NoMemory`.
    fn leads(
        &self,
        alloc: Global,
        key: &<Self::Set as KeySet>::Key,
    ) -> Result<Vec<<Self::Set as KeySet>::Key>, NoMemory>
        ensures { IfOk result (λ keys. keys.items ≡ leads self.now key.now) };

    /// What a key leads to is in the universe.
    ghost within: { (s : Self) (n m : Self.Set.Key) → Stands m (leads s n) → Stands m (universe s) };
}

/// What is still to be done in a walk.
#[derive(Drop)]
pub(crate) enum Step<K> {
    /// A key is to be looked at, unless it is marked.
    Enter(K),
    /// All that a key leads to has been looked at.
    Leave(K),
}

/// Puts keys on the worklist.
pub(crate) fn enter_all<K: Drop>(keys: Vec<K>, work: &mut Vec<Step<K>>) -> Result<(), NoMemory>
    ensures { OnOk result (work.new.items ≡ work.old.items ++ map Enter keys.items) }
{
    for key in keys {
        work.push(Step::Enter(key))?;
    }
    Ok(())
}

/// Marks a key, and puts what it leads to on the worklist, after which the key is left.
fn visit<E: Edges>(
    alloc: Global,
    edges: &E,
    key: <E::Set as KeySet>::Key,
    seen: &mut E::Set,
    work: &mut Vec<Step<<E::Set as KeySet>::Key>>,
) -> Result<(), NoMemory>
    ensures marks { OnOk result (Adds (E.Set.marked seen.old) (E.Set.marked seen.new) key) }
    ensures work { OnOk result (work.new.items ≡ work.old.items ++ Leave key ∷ map Enter (E.leads edges.now key)) }
{
    let next = edges.leads(alloc, &key)?;
    seen.add(key.duplicate(alloc)?)?;
    work.push(Step::Leave(key))?;
    enter_all(next, work)
}

/// Takes the last step of a walk, and says whether there was one.
pub(crate) fn advance<E: Edges>(
    alloc: Global,
    edges: &E,
    seen: &mut E::Set,
    left: &mut Vec<<E::Set as KeySet>::Key>,
    work: &mut Vec<Step<<E::Set as KeySet>::Key>>,
) -> Result<bool, NoMemory>
    ensures { IfOk result (λ more. Advances (E.leads edges.now) (E.universe edges.now) more (E.Set.marked seen.old) (E.Set.marked seen.new) left.old.items left.new.items work.old.items work.new.items) }
{
    match work.pop() {
        None => return Ok(false),
        Some(Step::Leave(key)) => left.push(key)?,
        Some(Step::Enter(key)) => {
            if !seen.has(&key) {
                visit(alloc, edges, key, seen, work)?;
            }
        }
    }
    Ok(true)
}

/// Marks what is reachable from some keys, and these themselves, and lists it in the order in which it is left. It looks
/// only at what is reachable, and once at each.
pub(crate) fn explore<E: Edges>(
    alloc: Global,
    edges: &E,
    starts: Vec<<E::Set as KeySet>::Key>,
) -> Result<(E::Set, Vec<<E::Set as KeySet>::Key>), NoMemory>
    ensures marks { IfOk result (λ found. (n : E.Set.Key) → IsTrue (E.Set.marked found.0 n) ↔ IsLedTo (E.leads edges.now) starts.items n) }
    ensures lists { IfOk result (λ found. Lists (E.Set.marked found.0) found.1.items) }
    ensures order { IfOk result (λ found. AreInOrder (E.leads edges.now) [] found.1.items) }
{
    let mut seen = <E::Set as KeySet>::none(alloc);
    let mut left = Vec::new(alloc);
    let mut work = Vec::new(alloc);
    enter_all(starts, &mut work)?;
    while advance(alloc, edges, &mut seen, &mut left, &mut work)? {}
    Ok((seen, left))
}

/// The keys that are reachable from some keys, and these themselves, each once. What a key leads to stands before it,
/// but for what leads back to it.
///
/// It looks only at what is reachable, and once at each.
///
/// # Errors
///
/// `NoMemory`.
pub fn reachable<E: Edges>(
    alloc: Global,
    edges: &E,
    starts: Vec<<E::Set as KeySet>::Key>,
) -> Result<Vec<<E::Set as KeySet>::Key>, NoMemory>
    ensures keys { IfOk result (λ keys. (n : E.Set.Key) → Stands n keys.items ↔ IsLedTo (E.leads edges.now) starts.items n) }
    ensures once { IfOk result (λ keys. AreDistinct keys.items) }
    ensures order { IfOk result (λ keys. AreInOrder (E.leads edges.now) [] keys.items) }
{
    let (_, keys) = explore(alloc, edges, starts)?;
    Ok(keys)
}

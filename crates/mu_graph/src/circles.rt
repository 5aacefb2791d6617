ghost use Rattle.std.specs.Prelude.{◌≡◌, ◌||◌, ◌↔◌, [], true, IfOk};
ghost use Rattle.std.specs.List.{list_any};
ghost use Rattle.mu_graph.specs.Derivations.{Stands};
ghost use Rattle.mu_graph.specs.Circles.{IsAcyclic, IsBetween, IsTurned, CirclesClose};
ghost use Rattle.mu_graph.specs.Walks.{AreInOrder, IsLedTo, Reaches};

use crate::key_sets::{KeySet, copies};
use crate::walks::{Edges, Step, advance, enter_all, explore};
use mu_tree::{Duplicate, NoMemory};
use std::alloc::Global;

/// Whether one of the keys is marked.
fn is_some_marked<M: KeySet>(keys: &[M::Key], marks: &M) -> bool
    ensures { result ≡ list_any (M.marked marks.now) keys.now }
{
    keys.iter().any(|key| marks.has(key))
}

/// Whether a key is marked, or one that it leads to is.
fn leads_on<E: Edges>(
    alloc: Global,
    edges: &E,
    key: &<E::Set as KeySet>::Key,
    marks: &E::Set,
) -> Result<bool, NoMemory>
    ensures { IfOk result (λ yes. yes ≡ (E.Set.marked marks.now key.now || list_any (E.Set.marked marks.now) (E.leads edges.now key.now))) }
{
    let next = edges.leads(alloc, key)?;
    Ok(marks.has(key) || is_some_marked(next.as_slice(), marks))
}

/// The listed keys that lead to a key or are it, where each key stands behind all that it leads to.
fn trace<E: Edges>(
    alloc: Global,
    edges: &E,
    listed: &[<E::Set as KeySet>::Key],
    to: &<E::Set as KeySet>::Key,
) -> Result<Vec<<E::Set as KeySet>::Key>, NoMemory>
    requires acyclic { IsAcyclic (E.leads edges.now) }
    requires order { AreInOrder (E.leads edges.now) [] listed.now }
    ensures { IfOk result (λ found. (n : E.Set.Key) → Stands n found.items ↔ (Stands n listed.now × Reaches (E.leads edges.now) n to.now)) }
{
    let mut found = Vec::new(alloc);
    let mut marks = <E::Set as KeySet>::none(alloc);
    marks.add(to.duplicate(alloc)?)?;
    for key in listed {
        if leads_on(alloc, edges, key, &marks)? {
            marks.add(key.duplicate(alloc)?)?;
            found.push(key.duplicate(alloc)?)?;
        }
    }
    Ok(found)
}

/// The keys on the paths in an acyclic graph from some keys to another one: where this other one were to lead to them, by
/// `law` these are the keys on a circle.
///
/// It looks only at what is reachable from the keys, and at most twice at each.
///
/// # Errors
///
/// `NoMemory`.
#[tactic(auto, using(crate::proofs::CircleLemmas::circles_close))]
pub fn between<E: Edges>(
    alloc: Global,
    edges: &E,
    starts: Vec<<E::Set as KeySet>::Key>,
    to: &<E::Set as KeySet>::Key,
) -> Result<Vec<<E::Set as KeySet>::Key>, NoMemory>
    requires { IsAcyclic (E.leads edges.now) }
    ensures keys { IfOk result (λ keys. (n : E.Set.Key) → Stands n keys.items ↔ IsBetween (E.leads edges.now) starts.items to.now n) }
    ensures law { CirclesClose (E.leads edges.now) }
{
    let (seen, listed) = explore(alloc, edges, starts)?;
    if !seen.has(to) {
        return Ok(Vec::new(alloc));
    }
    let keys = trace(alloc, edges, listed.as_slice(), to)?;
    Ok(keys)
}

/// Whether it is found out that no path goes from some keys to another one. `back` has the edges turned round, and maybe
/// more; where it has more, a path may be taken for possible that isn't there.
///
/// Of two walks, one from the keys and one back from the other key, it ends with the shorter one.
///
/// # Errors
///
/// `NoMemory`.
pub fn are_apart<E: Edges, B: Edges<Set = E::Set>>(
    alloc: Global,
    edges: &E,
    back: &B,
    starts: &[<E::Set as KeySet>::Key],
    to: &<E::Set as KeySet>::Key,
) -> Result<bool, NoMemory>
    requires { IsTurned (E.leads edges.now) (B.leads back.now) to.now }
    ensures { IfOk result (λ apart. apart ≡ true → IsLedTo (E.leads edges.now) starts.now to.now → ⊥) }
{
    let mut seen = <E::Set as KeySet>::none(alloc);
    let mut left = Vec::new(alloc);
    let mut work = Vec::new(alloc);
    enter_all(copies(alloc, starts)?, &mut work)?;
    let mut seen_back = <E::Set as KeySet>::none(alloc);
    let mut left_back = Vec::new(alloc);
    let mut work_back = Vec::new(alloc);
    work_back.push(Step::Enter(to.duplicate(alloc)?))?;
    'walks: loop {
        if !advance(alloc, edges, &mut seen, &mut left, &mut work)? {
            return Ok(!seen.has(to));
        }
        if !advance(alloc, back, &mut seen_back, &mut left_back, &mut work_back)? {
            return Ok(!is_some_marked(starts, &seen_back));
        }
    }
}

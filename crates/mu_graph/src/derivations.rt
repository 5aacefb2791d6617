ghost use Rattle.std.specs.Prelude.{◌≡◌, ◌↔◌, IsTrue, IfOk, List};
ghost use Rattle.mu_graph.specs.Derivations.{Stands, IsReached, Passed, is_ready};

use crate::key_sets::KeySet;
use mu_tree::NoMemory;
use std::alloc::Global;

/// Keys with ways to derive them from other keys.
pub trait Inferences {
    /// A set of the keys.
    type Set: KeySet;

    /// Of each key the lists of premises, any one of which suffices for it.
    ghost ways: { Self → Self.Set.Key → List (List Self.Set.Key) };

    /// Whether one of the ways of a key has all its premises marked.
    fn is_ready(&self, key: &<Self::Set as KeySet>::Key, marks: &Self::Set) -> bool
        ensures { result ≡ is_ready (Self.Set.marked marks.now) (ways self.now key.now) };
}

/// Marks each pending key that is ready, in order, and gives those that are left.
fn pass<C: Inferences>(
    alloc: Global,
    causes: &C,
    marks: &mut C::Set,
    pending: Vec<<C::Set as KeySet>::Key>,
) -> Result<Vec<<C::Set as KeySet>::Key>, NoMemory>
    ensures { IfOk result (λ left. Passed (C.ways causes.now) (C.Set.marked marks.old) (C.Set.marked marks.new) pending.items left.items) }
{
    let mut left = Vec::new(alloc);
    for key in pending {
        if causes.is_ready(&key, marks) {
            marks.add(key)?;
        } else {
            left.push(key)?;
        }
    }
    Ok(left)
}

/// Marks what is derivable from the keys that are marked: the least set that has these, and has each key with a way
/// whose premises it has. Circles among the ways are allowed.
///
/// `order` has each key with a way, in any order. It takes the fewest passes where premises stand first.
///
/// # Errors
///
/// `NoMemory`.
pub fn reached<C: Inferences>(
    alloc: Global,
    causes: &C,
    marks: C::Set,
    order: Vec<<C::Set as KeySet>::Key>,
) -> Result<C::Set, NoMemory>
    requires { (n : C.Set.Key) (way : List C.Set.Key) → Stands way (C.ways causes.now n) → Stands n order.items }
    ensures { IfOk result (λ reached. (n : C.Set.Key) → IsTrue (C.Set.marked reached n) ↔ IsReached (C.Set.marked marks) (C.ways causes.now) n) }
{
    let mut marks = marks;
    let mut pending = order;
    loop {
        let before = pending.len();
        pending = pass(alloc, causes, &mut marks, pending)?;
        if pending.len() == before {
            return Ok(marks);
        }
    }
}

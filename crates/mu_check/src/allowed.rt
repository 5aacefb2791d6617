ghost use Rattle.std.specs.Prelude.{◌≡◌, IfOk};
ghost use Rattle.mu_decl.specs.Formation.{occurrences};
ghost use Rattle.mu_check.specs.Metas.{are_known};

use crate::metas::Metas;
use mu_decl::{Context, occurrences};
use mu_tree::{Kind, Names, NoMemory, Sequence, Tree};
use std::alloc::Global;

/// What the proofs of a rule may speak of.
#[derive(Drop)]
pub struct Allowed {
    /// The units that are seen from the rule's unit.
    pub seen: Names,
    /// The occurrences of metavariables in the rule's claim.
    pub metas: Metas,
}

/// Whether the metavariables of a tree of this kind are those of the rule's claim.
pub fn has_known_metas<C: Context>(
    alloc: Global,
    context: &C,
    allowed: &Allowed,
    kind: Kind,
    tree: &Tree,
) -> Result<bool, NoMemory>
    ensures { IfOk result (λ yes. yes ≡ are_known allowed.now.metas (occurrences (C.world context.now) tree.now kind)) }
{
    let mut found = Sequence::new(alloc);
    occurrences(alloc, context, kind, tree, &mut found)?;
    Ok(allowed.metas.have(&found))
}

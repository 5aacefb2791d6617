ghost use Rattle.mu_edit.specs.Changes.{Applies};

use crate::permits::{permit_no_constant, permit_no_unit};
use crate::refusing::expect;
use mu_command::Command;
use mu_flat::{EditFault, Store};
use mu_tree::Name;
use std::alloc::Global;

/// Drops a theory in which there is nothing.
#[tactic(auto, unfolding(crate::specs::Changes::changed))]
pub(crate) fn drop_unit(alloc: Global, store: &mut Store, unit: &Name) -> Result<(), EditFault>
    ensures { Applies store.old store.new (Command.DropUnit unit.now) result }
{
    permit_no_unit(alloc, store, unit)?;
    store.take_unit(unit);
    Ok(())
}

/// Drops a constant that has no definition.
#[tactic(auto, unfolding(crate::specs::Changes::changed))]
pub(crate) fn drop_constant(alloc: Global, store: &mut Store, name: &Name) -> Result<(), EditFault>
    ensures { Applies store.old store.new (Command.DropConst name.now) result }
{
    permit_no_constant(alloc, store, name)?;
    store.take_constant(name);
    Ok(())
}

/// Drops a rule. Its proofs stay.
#[tactic(auto, unfolding(crate::specs::Changes::refusal, crate::specs::Changes::changed))]
pub(crate) fn drop_rule(alloc: Global, store: &mut Store, rule: &Name) -> Result<(), EditFault>
    ensures { Applies store.old store.new (Command.DropRule rule.now) result }
{
    expect(alloc, store.rules().has(rule), rule)?;
    store.take_rule(rule);
    Ok(())
}

/// Drops a proof with all its items.
#[tactic(auto, unfolding(crate::specs::Changes::refusal, crate::specs::Changes::changed))]
pub(crate) fn drop_proof(
    alloc: Global,
    store: &mut Store,
    rule: &Name,
    proof: &Name,
) -> Result<(), EditFault>
    ensures { Applies store.old store.new (Command.DropProof rule.now proof.now) result }
{
    expect(alloc, store.proofs().find(rule, proof).is_some(), proof)?;
    store.take_proof(rule, proof);
    Ok(())
}

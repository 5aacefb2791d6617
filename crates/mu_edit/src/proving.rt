ghost use Rattle.std.specs.Option.{option_copied};
ghost use Rattle.mu_flat.specs.Edits.{edit_refusal};
ghost use Rattle.mu_flat.specs.ProofEdits.{IsOpen, PutsOpen};
ghost use Rattle.mu_edit.specs.Changes.{Applies, Does, put_refusal, with_edit};
ghost use Rattle.mu_edit.specs.Storable.{IsStorable};

use crate::distinct::reason_differs;
use crate::permits::{permit_head, permit_proof, permit_put};
use mu_command::Command;
use mu_flat::{EditFault, ProofEdit, Store};
use mu_proof::Item;
use mu_tree::{Name, Trees, TypedVars, Why};
use std::alloc::Global;

/// Adds an empty proof of a rule, which needn't be there.
#[tactic(auto, unfolding(crate::specs::Changes::changed))]
pub(crate) fn add_proof(
    alloc: Global,
    store: &mut Store,
    rule: Name,
    proof: Name,
) -> Result<(), EditFault>
    requires { IsStorable (Command.Proof rule proof) }
    ensures { Applies store.old store.new (Command.Proof rule proof) result }
{
    permit_proof(alloc, store, &rule, &proof)?;
    store.add_proof(alloc, rule, proof)?;
    Ok(())
}

/// Makes an edit in a proof that brings no citation into it.
pub(crate) fn edit(
    alloc: Global,
    store: &mut Store,
    rule: &Name,
    proof: &Name,
    change: ProofEdit,
) -> Result<(), EditFault>
    requires { PutsOpen change }
    ensures { Does store.old store.new (edit_refusal store.old.proofs rule.now proof.now change) (with_edit store.old rule.now proof.now change) result }
{
    store.edit_proof(alloc, rule, proof, change)
}

/// Puts a box without items into a block of a proof.
pub(crate) fn put(
    alloc: Global,
    store: &mut Store,
    rule: &Name,
    proof: &Name,
    block: Name,
    before: Option<Name>,
    item: Item,
) -> Result<(), EditFault>
    requires { IsOpen item }
    ensures { Does store.old store.new (put_refusal store.old rule.now proof.now block before item) (with_edit store.old rule.now proof.now (ProofEdit.Insert block before item)) result }
{
    permit_put(alloc, store, rule, proof, &block, before.as_ref(), &item)?;
    let change = ProofEdit::Insert {
        block,
        before,
        item,
    };
    edit(alloc, store, rule, proof, change)
}

/// Gives a box other variables and assumptions.
#[tactic(auto, unfolding(crate::specs::Changes::refusal, crate::specs::Changes::changed))]
pub(crate) fn alter_box(
    alloc: Global,
    store: &mut Store,
    rule: &Name,
    proof: &Name,
    label: Name,
    vars: TypedVars,
    assumptions: Trees,
) -> Result<(), EditFault>
    ensures { Applies store.old store.new (Command.AlterBox rule.now proof.now label vars assumptions) result }
{
    permit_head(alloc, store, rule, proof, &label, &vars)?;
    let change = ProofEdit::SetHead {
        label,
        vars,
        assumptions,
    };
    store.edit_proof(alloc, rule, proof, change)
}

/// Cites a line of a proof to a reason.
#[tactic(auto, unfolding(crate::specs::Changes::refusal, crate::specs::Changes::changed))]
pub(crate) fn cite(
    alloc: Global,
    store: &mut Store,
    rule: &Name,
    proof: &Name,
    label: &Name,
    why: Why,
) -> Result<(), EditFault>
    ensures { Applies store.old store.new (Command.Cite rule.now proof.now label.now why) result }
{
    store.proofs().permit_line(alloc, rule, proof, label)?;
    reason_differs(alloc, &why)?;
    store.cite(alloc, rule, proof, label, why)
}

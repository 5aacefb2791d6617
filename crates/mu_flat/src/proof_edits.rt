ghost use Rattle.std.specs.Prelude.{◌≡◌, ◌≢◌, false, None, Some, OnOk, OnErr, IfErr};
ghost use Rattle.std.specs.Option.{option_copied, option_map_or};
ghost use Rattle.mu_proof.specs.declared.alteration.Alteration.TheVariants as alteration;
ghost use Rattle.mu_proof.specs.Edits.{altered, removed};
ghost use Rattle.mu_proof.specs.Proofs.{remove_fault};
ghost use Rattle.mu_flat.specs.ProofEdits.{fault_of, has_reason, made, item_at, moving, moving_fault, reason_fault};

use mu_proof::{Item, Proof, ProofFault};
use mu_tree::{Name, NoMemory, Tree, Trees, TypedVars};
use std::alloc::Global;

/// An edit of a proof that brings no citation into it.
#[derive(Drop)]
pub enum ProofEdit {
    /// An item that is still open goes into a block, right before an item of the block or at its end.
    Insert {
        block: Name,
        before: Option<Name>,
        item: Item,
    },
    /// A line gets another expression.
    SetTree {
        label: Name,
        tree: Tree,
    },
    /// A box gets other variables and assumptions.
    SetHead {
        label: Name,
        vars: TypedVars,
        assumptions: Trees,
    },
    /// An item goes, with all in it, into a block, right before an item of the block or at its end.
    Move {
        label: Name,
        block: Name,
        before: Option<Name>,
    },
    /// A line is open again.
    ClearReason {
        label: Name,
    },
    /// An item goes, with all in it.
    Remove {
        label: Name,
    },
}

/// Makes an edit in a proof.
///
/// # Errors
///
/// The first fault of the edit that fits. `NoMemory` may come at any call. Each leaves the proof as it was.
pub(crate) fn edit_proof(
    alloc: Global,
    proof: &mut Proof,
    edit: ProofEdit,
) -> Result<(), ProofFault>
    ensures ok { OnOk result (fault_of edit proof.old ≡ None) }
    ensures new { OnOk result (proof.new ≡ made edit proof.old) }
    ensures fault { IfErr result (λ fault. fault ≢ ProofFault.NoMemory → fault_of edit proof.old ≡ Some fault) }
    ensures err { OnErr result (proof.new ≡ proof.old) }
{
    match edit {
        ProofEdit::Insert {
            block,
            before,
            item,
        } => proof.insert(alloc, &block, before.as_ref(), item),
        ProofEdit::SetTree { label, tree } => proof.alter_line(alloc, &label, tree),
        ProofEdit::SetHead {
            label,
            vars,
            assumptions,
        } => proof.alter_block(alloc, &label, vars, assumptions),
        ProofEdit::Move {
            label,
            block,
            before,
        } => move_item(alloc, proof, &label, &block, before.as_ref()),
        ProofEdit::ClearReason { label } => clear_reason(alloc, proof, &label),
        ProofEdit::Remove { label } => remove_item(alloc, proof, &label),
    }
}

/// Tells the first fault of an edit of a proof, and leaves the proof: the edit is made in a copy.
///
/// # Errors
///
/// The first fault of the edit that fits. `NoMemory` may come at any call.
pub(crate) fn try_edit_proof(
    alloc: Global,
    proof: &Proof,
    edit: ProofEdit,
) -> Result<(), ProofFault>
    ensures ok { OnOk result (fault_of edit proof.now ≡ None) }
    ensures fault { IfErr result (λ fault. fault ≢ ProofFault.NoMemory → fault_of edit proof.now ≡ Some fault) }
{
    match proof.copy(alloc) {
        Ok(mut changed) => edit_proof(alloc, &mut changed, edit),
        Err(NoMemory) => {
            drop(edit);
            Err(ProofFault::NoMemory)
        }
    }
}

/// Moves an item with all in it. It is done in a copy, so that a fault leaves the proof.
fn move_item(
    alloc: Global,
    proof: &mut Proof,
    label: &Name,
    block: &Name,
    before: Option<&Name>,
) -> Result<(), ProofFault>
    ensures ok { OnOk result (moving_fault proof.old label.now block.now (option_copied before.entry) (item_at proof.old label.now) ≡ None) }
    ensures new { OnOk result (proof.new ≡ moving proof.old label.now block.now (option_copied before.entry) (item_at proof.old label.now)) }
    ensures fault { IfErr result (λ fault. fault ≢ ProofFault.NoMemory → moving_fault proof.old label.now block.now (option_copied before.entry) (item_at proof.old label.now) ≡ Some fault) }
    ensures err { OnErr result (proof.new ≡ proof.old) }
{
    let mut changed = proof.copy(alloc)?;
    let item = match changed.remove(alloc, label) {
        Ok(item) => item,
        Err(fault) => return Err(fault),
    };
    changed.insert(alloc, block, before, item)?;
    *proof = changed;
    Ok(())
}

/// Takes the reason from a line that has one.
fn clear_reason(alloc: Global, proof: &mut Proof, label: &Name) -> Result<(), ProofFault>
    ensures ok { OnOk result (reason_fault proof.old label.now ≡ None) }
    ensures new { OnOk result (proof.new ≡ altered proof.old label.now (alteration.Why None)) }
    ensures fault { IfErr result (λ fault. fault ≢ ProofFault.NoMemory → reason_fault proof.old label.now ≡ Some fault) }
    ensures err { OnErr result (proof.new ≡ proof.old) }
{
    if !has_reason(proof, label) {
        return Err(ProofFault::Unknown(label.copy(alloc)?.into_bytes()));
    }
    proof.set_why(alloc, label, None)
}

/// Whether a label is that of a line with a reason.
fn has_reason(proof: &Proof, label: &Name) -> bool
    ensures { result ≡ option_map_or has_reason (item_at proof.now label.now) false }
{
    match proof.find(label) {
        Some(Item::Line { why, .. }) => why.is_some(),
        _ => false,
    }
}

/// Takes an item out, with all in it.
fn remove_item(alloc: Global, proof: &mut Proof, label: &Name) -> Result<(), ProofFault>
    ensures ok { OnOk result (remove_fault proof.old label.now ≡ None) }
    ensures new { OnOk result (proof.new ≡ removed proof.old label.now) }
    ensures fault { IfErr result (λ fault. fault ≢ ProofFault.NoMemory → remove_fault proof.old label.now ≡ Some fault) }
    ensures err { OnErr result (proof.new ≡ proof.old) }
{
    proof.remove(alloc, label)?;
    Ok(())
}

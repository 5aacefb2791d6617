ghost use Rattle.std.specs.Prelude.{◌≡◌, None, [], IfOk};
ghost use Rattle.mu_flat.specs.Edits.{edit_refusal};
ghost use Rattle.mu_proof.specs.declared.items.Item.TheVariants as item;
ghost use Rattle.mu_edit.specs.Changes.{Tests, put_refusal, refusal};

use crate::distinct::reason_differs;
use crate::permits::{
    permit_constant, permit_definition, permit_head, permit_no_constant, permit_no_definition,
    permit_no_parent, permit_no_unit, permit_other_constant, permit_other_rule, permit_parent,
    permit_proof, permit_put, permit_rule, permit_unit,
};
use crate::refusing::expect;
use mu_command::Command;
use mu_flat::{EditFault, ProofEdit, Store};
use mu_proof::{Item, ItemList};
use mu_tree::{Duplicate, Name, NoMemory, Refusal, Tree, Trees, TypedVars, Why};
use std::alloc::Global;

/// The reason for which `apply` would refuse a command, none exactly where it would carry it out. The store stays.
///
/// # Errors
///
/// `NoMemory`.
pub fn refusal(alloc: Global, store: &Store, command: &Command) -> Result<Option<Refusal>, NoMemory>
    ensures { IfOk result (λ found. found ≡ refusal store.now command.now) }
{
    match permit(alloc, store, command) {
        Ok(()) => Ok(None),
        Err(EditFault::Refused(refused)) => Ok(Some(refused)),
        Err(EditFault::NoMemory) => Err(NoMemory),
    }
}

/// Tests whether a command can be carried out. A query always can.
#[tactic(auto, unfolding(crate::specs::Changes::refusal))]
fn permit(alloc: Global, store: &Store, command: &Command) -> Result<(), EditFault>
    ensures { Tests (refusal store.now command.now) result }
{
    match command {
        Command::Theory(unit) => permit_unit(alloc, store, unit),
        Command::Parent(unit, parent) => permit_parent(alloc, store, unit, parent),
        Command::Unparent(unit, parent) => permit_no_parent(alloc, store, unit, parent),
        Command::Const(unit, name, _, _) => permit_constant(alloc, store, unit, name),
        Command::AlterConst(name, _, _) => permit_other_constant(alloc, store, name),
        Command::Define(name, definition) => permit_definition(alloc, store, name, definition),
        Command::Undefine(name) => permit_no_definition(alloc, store, name),
        Command::Axiom(unit, rule, claim) | Command::Rule(unit, rule, claim) => {
            permit_rule(alloc, store, unit, rule, claim)
        }
        Command::AlterRule(rule, claim) => permit_other_rule(alloc, store, rule, claim),
        Command::Proof(rule, proof) => permit_proof(alloc, store, rule, proof),
        Command::Line(rule, proof, label, block, before, tree) => {
            let line = open_line(alloc, label, tree)?;
            permit_item(alloc, store, rule, proof, block, before, line)
        }
        Command::Box(rule, proof, label, block, before, vars, assumptions) => {
            let item = open_box(alloc, label, vars, assumptions)?;
            permit_box(alloc, store, rule, proof, block, before, item)
        }
        Command::AlterLine(rule, proof, label, _) => {
            store.proofs().permit_line(alloc, rule, proof, label)
        }
        Command::AlterBox(rule, proof, label, vars, _) => {
            permit_head(alloc, store, rule, proof, label, vars)
        }
        Command::Move(rule, proof, label, block, before) => {
            permit_move(alloc, store, rule, proof, label, block, before)
        }
        Command::Cite(rule, proof, label, why) => {
            permit_cite(alloc, store, rule, proof, label, why)
        }
        Command::Unjustify(rule, proof, label) => {
            permit_no_reason(alloc, store, rule, proof, label)
        }
        Command::DropUnit(unit) => permit_no_unit(alloc, store, unit),
        Command::DropConst(name) => permit_no_constant(alloc, store, name),
        Command::DropRule(rule) => expect(alloc, store.rules().has(rule), rule),
        Command::DropProof(rule, proof) => {
            expect(alloc, store.proofs().find(rule, proof).is_some(), proof)
        }
        Command::DropItem(rule, proof, label) => permit_no_item(alloc, store, rule, proof, label),
        Command::Status(_)
        | Command::ShowUnit(_)
        | Command::ShowRule(_)
        | Command::ShowProof(_, _) => Ok(()),
    }
}

/// An open line, in memory of its own.
fn open_line(alloc: Global, label: &Name, tree: &Tree) -> Result<Item, NoMemory>
    ensures { IfOk result (λ line. line ≡ item.Line label.now tree.now None) }
{
    Ok(Item::Line {
        label: label.copy(alloc)?,
        tree: tree.copy(alloc)?,
        why: None,
    })
}

/// A box without items, in memory of its own.
fn open_box(
    alloc: Global,
    label: &Name,
    vars: &TypedVars,
    assumptions: &Trees,
) -> Result<Item, NoMemory>
    ensures { IfOk result (λ block. block ≡ item.Block label.now vars.now assumptions.now []) }
{
    Ok(Item::Block {
        label: label.copy(alloc)?,
        vars: vars.duplicate(alloc)?,
        assumptions: Tree::copy_all(alloc, assumptions.as_slice())?,
        items: ItemList::new(alloc),
    })
}

/// Tests whether a box can be inserted into a proof, and whether its variables differ.
fn permit_box(
    alloc: Global,
    store: &Store,
    rule: &Name,
    proof: &Name,
    block: &Name,
    before: &Option<Name>,
    item: Item,
) -> Result<(), EditFault>
    ensures { Tests (put_refusal store.now rule.now proof.now block.now before.now item) result }
{
    permit_put(alloc, store, rule, proof, block, before.as_ref(), &item)?;
    permit_item(alloc, store, rule, proof, block, before, item)
}

/// Tests whether an item can be inserted into a proof.
fn permit_item(
    alloc: Global,
    store: &Store,
    rule: &Name,
    proof: &Name,
    block: &Name,
    before: &Option<Name>,
    item: Item,
) -> Result<(), EditFault>
    ensures { Tests (edit_refusal store.now.proofs rule.now proof.now (ProofEdit.Insert block.now before.now item)) result }
{
    let change = ProofEdit::Insert {
        block: block.copy(alloc)?,
        before: before.duplicate(alloc)?,
        item,
    };
    store.proofs().try_edit(alloc, rule, proof, change)
}

/// Tests whether an item of a proof can be moved.
fn permit_move(
    alloc: Global,
    store: &Store,
    rule: &Name,
    proof: &Name,
    label: &Name,
    block: &Name,
    before: &Option<Name>,
) -> Result<(), EditFault>
    ensures { Tests (edit_refusal store.now.proofs rule.now proof.now (ProofEdit.Move label.now block.now before.now)) result }
{
    let change = ProofEdit::Move {
        label: label.copy(alloc)?,
        block: block.copy(alloc)?,
        before: before.duplicate(alloc)?,
    };
    store.proofs().try_edit(alloc, rule, proof, change)
}

/// Tests whether a line of a proof can be cited to a reason.
#[tactic(auto, unfolding(crate::specs::Changes::refusal))]
fn permit_cite(
    alloc: Global,
    store: &Store,
    rule: &Name,
    proof: &Name,
    label: &Name,
    why: &Why,
) -> Result<(), EditFault>
    ensures { Tests (refusal store.now (Command.Cite rule.now proof.now label.now why.now)) result }
{
    store.proofs().permit_line(alloc, rule, proof, label)?;
    reason_differs(alloc, why)?;
    store.proofs().permit_reason(alloc, rule, why)
}

/// Tests whether a reason can be taken from a line of a proof.
fn permit_no_reason(
    alloc: Global,
    store: &Store,
    rule: &Name,
    proof: &Name,
    label: &Name,
) -> Result<(), EditFault>
    ensures { Tests (edit_refusal store.now.proofs rule.now proof.now (ProofEdit.ClearReason label.now)) result }
{
    let change = ProofEdit::ClearReason {
        label: label.copy(alloc)?,
    };
    store.proofs().try_edit(alloc, rule, proof, change)
}

/// Tests whether an item can be taken out of a proof.
fn permit_no_item(
    alloc: Global,
    store: &Store,
    rule: &Name,
    proof: &Name,
    label: &Name,
) -> Result<(), EditFault>
    ensures { Tests (edit_refusal store.now.proofs rule.now proof.now (ProofEdit.Remove label.now)) result }
{
    let change = ProofEdit::Remove {
        label: label.copy(alloc)?,
    };
    store.proofs().try_edit(alloc, rule, proof, change)
}

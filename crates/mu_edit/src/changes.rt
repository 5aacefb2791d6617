ghost use Rattle.mu_edit.specs.Changes.{Applies};
ghost use Rattle.mu_edit.specs.Storable.{IsStorable};

use crate::declaring::{
    add_constant, add_parent, add_unit, alter_constant, alter_rule, define, state, take_parent,
    undefine,
};
use crate::dropping::{drop_constant, drop_proof, drop_rule, drop_unit};
use crate::proving::{add_proof, alter_box, cite, edit, put};
use mu_command::Command;
use mu_decl::{ConstDecl, Statement};
use mu_flat::{EditFault, ProofEdit, Store};
use mu_proof::{Item, ItemList};
use std::alloc::Global;

/// Carries out a command. A query changes nothing.
///
/// # Errors
///
/// `Refused` with the first reason that fits, where one does. `NoMemory` may come at any command. Each leaves the store
/// as it was.
#[tactic(auto, unfolding(crate::specs::Changes::refusal, crate::specs::Changes::changed))]
pub fn apply(alloc: Global, store: &mut Store, command: Command) -> Result<(), EditFault>
    requires { IsStorable command }
    ensures { Applies store.old store.new command result }
{
    match command {
        Command::Theory(unit) => add_unit(alloc, store, unit),
        Command::Parent(unit, parent) => add_parent(alloc, store, &unit, parent),
        Command::Unparent(unit, parent) => take_parent(alloc, store, &unit, &parent),
        Command::Const(unit, name, shape, kind) => {
            let declared = ConstDecl {
                theory: unit,
                shape,
                result: kind,
            };
            add_constant(alloc, store, name, declared)
        }
        Command::AlterConst(name, shape, kind) => alter_constant(alloc, store, name, shape, kind),
        Command::Define(name, definition) => define(alloc, store, name, definition),
        Command::Undefine(name) => undefine(alloc, store, &name),
        Command::Axiom(unit, rule, claim) => {
            let statement = Statement {
                theory: unit,
                is_axiom: true,
                claim,
            };
            state(alloc, store, rule, statement)
        }
        Command::Rule(unit, rule, claim) => {
            let statement = Statement {
                theory: unit,
                is_axiom: false,
                claim,
            };
            state(alloc, store, rule, statement)
        }
        Command::AlterRule(rule, claim) => alter_rule(alloc, store, rule, claim),
        Command::Proof(rule, proof) => add_proof(alloc, store, rule, proof),
        Command::Line(rule, proof, label, block, before, tree) => {
            let line = Item::Line {
                label,
                tree,
                why: None,
            };
            let change = ProofEdit::Insert {
                block,
                before,
                item: line,
            };
            edit(alloc, store, &rule, &proof, change)
        }
        Command::Box(rule, proof, label, block, before, vars, assumptions) => {
            let item = Item::Block {
                label,
                vars,
                assumptions,
                items: ItemList::new(alloc),
            };
            put(alloc, store, &rule, &proof, block, before, item)
        }
        Command::AlterLine(rule, proof, label, tree) => {
            edit(
                alloc,
                store,
                &rule,
                &proof,
                ProofEdit::SetTree { label, tree },
            )
        }
        Command::AlterBox(rule, proof, label, vars, assumptions) => {
            alter_box(alloc, store, &rule, &proof, label, vars, assumptions)
        }
        Command::Move(rule, proof, label, block, before) => {
            let change = ProofEdit::Move {
                label,
                block,
                before,
            };
            edit(alloc, store, &rule, &proof, change)
        }
        Command::Cite(rule, proof, label, why) => cite(alloc, store, &rule, &proof, &label, why),
        Command::Unjustify(rule, proof, label) => {
            edit(
                alloc,
                store,
                &rule,
                &proof,
                ProofEdit::ClearReason { label },
            )
        }
        Command::DropUnit(unit) => drop_unit(alloc, store, &unit),
        Command::DropConst(name) => drop_constant(alloc, store, &name),
        Command::DropRule(rule) => drop_rule(alloc, store, &rule),
        Command::DropProof(rule, proof) => drop_proof(alloc, store, &rule, &proof),
        Command::DropItem(rule, proof, label) => {
            edit(alloc, store, &rule, &proof, ProofEdit::Remove { label })
        }
        Command::Status(_)
        | Command::ShowUnit(_)
        | Command::ShowRule(_)
        | Command::ShowProof(_, _) => Ok(()),
    }
}

ghost use Rattle.std.specs.Prelude.{◌≡◌, true, Some, IfOk};
ghost use Rattle.std.specs.Option.{option_map};
ghost use Rattle.std.specs.FinMap as finite;
ghost use Rattle.mu_flat.specs.Entries.{IsPlain, IsTheory, with_rules};
ghost use Rattle.mu_edit.specs.Changes.{Applies, Does, stated_refusal};
ghost use Rattle.mu_edit.specs.Storable.{IsStorable};

use crate::permits::{
    permit_constant, permit_definition, permit_no_definition, permit_no_parent,
    permit_other_constant, permit_other_rule, permit_parent, permit_rule, permit_unit,
};
use mu_command::Command;
use mu_decl::{ConstDecl, Statement};
use mu_flat::{EditFault, Store};
use mu_tree::{Claim, Definition, Kind, Name, NoMemory, Shape};
use std::alloc::Global;

/// Adds a theory without parents.
#[tactic(auto, unfolding(crate::specs::Changes::changed))]
pub(crate) fn add_unit(alloc: Global, store: &mut Store, unit: Name) -> Result<(), EditFault>
    requires { IsStorable (Command.Theory unit) }
    ensures { Applies store.old store.new (Command.Theory unit) result }
{
    permit_unit(alloc, store, &unit)?;
    store.add_unit(alloc, unit)?;
    Ok(())
}

/// Adds a parent to a theory.
#[tactic(auto, unfolding(crate::specs::Changes::changed))]
pub(crate) fn add_parent(
    alloc: Global,
    store: &mut Store,
    unit: &Name,
    parent: Name,
) -> Result<(), EditFault>
    ensures { Applies store.old store.new (Command.Parent unit.now parent) result }
{
    permit_parent(alloc, store, unit, &parent)?;
    store.add_parent(alloc, unit, parent)?;
    Ok(())
}

/// Takes a parent from a theory.
#[tactic(auto, unfolding(crate::specs::Changes::changed))]
pub(crate) fn take_parent(
    alloc: Global,
    store: &mut Store,
    unit: &Name,
    parent: &Name,
) -> Result<(), EditFault>
    ensures { Applies store.old store.new (Command.Unparent unit.now parent.now) result }
{
    permit_no_parent(alloc, store, unit, parent)?;
    store.take_parent(unit, parent);
    Ok(())
}

/// Adds a constant to a theory.
#[tactic(auto, unfolding(crate::specs::Changes::refusal, crate::specs::Changes::changed))]
pub(crate) fn add_constant(
    alloc: Global,
    store: &mut Store,
    name: Name,
    declared: ConstDecl,
) -> Result<(), EditFault>
    requires { IsPlain name }
    ensures { Applies store.old store.new (Command.Const declared.theory name declared.shape declared.result) result }
{
    permit_constant(alloc, store, &declared.theory, &name)?;
    store.put_constant(alloc, name, declared)?;
    Ok(())
}

/// The theory of a constant that is there.
fn theory_of_constant(alloc: Global, store: &Store, name: &Name) -> Result<Name, NoMemory>
    requires { finite.contains_key store.now.constants name.now ≡ true }
    ensures theory { IfOk result (λ theory. option_map (λ declared. declared.theory) (finite.get store.now.constants name.now) ≡ Some theory) }
    ensures there { IfOk result (λ theory. IsTheory store.now theory) }
{
    match store.constants().get(name) {
        Some(declared) => declared.theory.copy(alloc),
        None => unreachable!(),
    }
}

/// Has a constant used in another way.
#[tactic(auto, unfolding(crate::specs::Changes::refusal, crate::specs::Changes::changed))]
pub(crate) fn alter_constant(
    alloc: Global,
    store: &mut Store,
    name: Name,
    shape: Shape,
    kind: Kind,
) -> Result<(), EditFault>
    requires { IsPlain name }
    ensures { Applies store.old store.new (Command.AlterConst name shape kind) result }
{
    permit_other_constant(alloc, store, &name)?;
    let theory = theory_of_constant(alloc, store, &name)?;
    let declared = ConstDecl {
        theory,
        shape,
        result: kind,
    };
    store.put_constant(alloc, name, declared)?;
    Ok(())
}

/// Defines a constant.
#[tactic(auto, unfolding(crate::specs::Changes::changed))]
pub(crate) fn define(
    alloc: Global,
    store: &mut Store,
    name: Name,
    definition: Definition,
) -> Result<(), EditFault>
    ensures { Applies store.old store.new (Command.Define name definition) result }
{
    permit_definition(alloc, store, &name, &definition)?;
    store.define(alloc, name, definition)?;
    Ok(())
}

/// Takes the definition from a constant.
#[tactic(auto, unfolding(crate::specs::Changes::changed))]
pub(crate) fn undefine(alloc: Global, store: &mut Store, name: &Name) -> Result<(), EditFault>
    ensures { Applies store.old store.new (Command.Undefine name.now) result }
{
    permit_no_definition(alloc, store, name)?;
    store.undefine(name);
    Ok(())
}

/// States an axiom, or a rule that wants a proof, in a theory.
pub(crate) fn state(
    alloc: Global,
    store: &mut Store,
    rule: Name,
    statement: Statement,
) -> Result<(), EditFault>
    requires { IsPlain rule }
    ensures { Does store.old store.new (stated_refusal store.old statement.theory rule statement.claim) (with_rules store.old (finite.insert store.old.rules rule statement)) result }
{
    permit_rule(alloc, store, &statement.theory, &rule, &statement.claim)?;
    store.put_rule(alloc, rule, statement)?;
    Ok(())
}

/// The theory of a rule that is there, and whether it is an axiom.
fn sort_of_rule(alloc: Global, store: &Store, rule: &Name) -> Result<(Name, bool), NoMemory>
    requires { finite.contains_key store.now.rules rule.now ≡ true }
    ensures sort { IfOk result (λ sort. option_map (λ statement. (statement.theory, statement.is_axiom)) (finite.get store.now.rules rule.now) ≡ Some sort) }
    ensures there { IfOk result (λ sort. IsTheory store.now sort.0) }
{
    match store.rules().get(rule) {
        Some(statement) => Ok((statement.theory.copy(alloc)?, statement.is_axiom)),
        None => unreachable!(),
    }
}

/// Gives a rule another claim.
#[tactic(auto, unfolding(crate::specs::Changes::changed))]
pub(crate) fn alter_rule(
    alloc: Global,
    store: &mut Store,
    rule: Name,
    claim: Claim,
) -> Result<(), EditFault>
    requires { IsPlain rule }
    ensures { Applies store.old store.new (Command.AlterRule rule claim) result }
{
    permit_other_rule(alloc, store, &rule, &claim)?;
    let (theory, is_axiom) = sort_of_rule(alloc, store, &rule)?;
    let statement = Statement {
        theory,
        is_axiom,
        claim,
    };
    store.put_rule(alloc, rule, statement)?;
    Ok(())
}

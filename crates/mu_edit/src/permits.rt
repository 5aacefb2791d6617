ghost use Rattle.std.specs.Prelude.{◌≡◌, ◌<◌, ℕ, List, Option, None, Some, false, true, OnOk, IfOk, IfErr};
ghost use Rattle.mu_tree.specs.declared.refusal.Refusal.{Refusal as RefusalOf};
ghost use Rattle.std.specs.Option.{option_copied, option_map, option_or};
ghost use Rattle.mu_edit.specs.Distinct.{repeated_in_item, repeated_variable};
ghost use Rattle.mu_flat.specs.Edits.{box_refusal, place_refusal};
ghost use Rattle.mu_tree.specs.declared.refusal.Refusal.TheVariants.{Circle};
ghost use Rattle.std.specs.FinMap as finite;
ghost use Rattle.mu_defs.specs.Base.{is_base as base_test, is_base_constant as base_constant_test};
ghost use Rattle.mu_defs.specs.DefinitionTables.{first_constant};
ghost use Rattle.mu_defs.specs.Units.{first_unit, with_parent};
ghost use Rattle.mu_flat.specs.Entries.{IsTheory};
ghost use Rattle.mu_flat.specs.ProofTables.{count_proofs, proof_at};
ghost use Rattle.mu_edit.specs.Changes.{TellsCircle, Tests, constant_change_refusal, constant_refusal, has_constant as constant_test, has_unit as unit_test, holds_something as holding_test, refusal, stated_refusal};

use crate::distinct::{names_differ, own_variables_differ, sequents_differ, variables_differ};
use crate::refusing::{expect, expect_empty, expect_new, expect_own, expect_room};
use mu_command::Command;
use mu_defs::{CircleFault, is_base, is_base_constant};
use mu_flat::{EditFault, Store};
use mu_proof::Item;
use mu_tree::{Claim, CountWord, Definition, Name, NoMemory, Refusal, TypedVars};
use std::alloc::Global;

/// Whether there is such a theory, the base theory among them.
fn has_unit(store: &Store, unit: &Name) -> bool
    ensures { result ≡ unit_test store.now unit.now }
{
    store.units().has(unit) || is_base(unit.bytes())
}

/// Whether there is such a constant, those of the base theory among them.
fn has_constant(store: &Store, name: &Name) -> bool
    ensures { result ≡ constant_test store.now name.now }
{
    store.constants().has(name) || is_base_constant(name.bytes())
}

/// Whether a constant or a rule stands in a unit.
fn holds_something(alloc: Global, store: &Store, unit: &Name) -> Result<bool, NoMemory>
    ensures { IfOk result (λ held. held ≡ holding_test store.now unit.now) }
{
    let unused = store.constants().is_unused(alloc, unit)? && store.rules().is_unused(alloc, unit)?;
    Ok(!unused)
}

/// A circle as a refusal.
fn no_circle(found: Result<(), CircleFault>) -> Result<(), EditFault>
    ensures { (first : Option (List ℕ)) → TellsCircle first found → Tests (option_map Circle first) result }
{
    match found {
        Ok(()) => Ok(()),
        Err(CircleFault::Circle(name)) => {
            Err(EditFault::Refused(Refusal::Circle(name.into_bytes())))
        }
        Err(CircleFault::NoMemory) => Err(EditFault::NoMemory),
    }
}

/// Tests whether a theory can be added.
#[tactic(auto, unfolding(crate::specs::Changes::refusal))]
pub(crate) fn permit_unit(alloc: Global, store: &Store, unit: &Name) -> Result<(), EditFault>
    ensures reason { Tests (refusal store.now (Command.Theory unit.now)) result }
    ensures new { OnOk result (finite.contains_key store.now.units unit.now ≡ false) }
    ensures other { OnOk result (base_test unit.now ≡ false) }
    ensures room { OnOk result (finite.len store.now.units < 4096) }
{
    expect_new(alloc, store.units().has(unit), unit)?;
    expect_own(alloc, is_base(unit.bytes()), unit)?;
    expect_room(CountWord::Theories, 4096, store.units().count())
}

/// Tests whether a parent can be added to a theory.
#[tactic(auto, unfolding(crate::specs::Changes::refusal))]
pub(crate) fn permit_parent(
    alloc: Global,
    store: &Store,
    unit: &Name,
    parent: &Name,
) -> Result<(), EditFault>
    ensures reason { Tests (refusal store.now (Command.Parent unit.now parent.now)) result }
    ensures there { OnOk result (IsTheory store.now unit.now) }
    ensures free { OnOk result (first_unit (with_parent store.now.units unit.now parent.now) ≡ None) }
{
    expect(alloc, has_unit(store, unit), unit)?;
    expect_new(alloc, store.units().has_parent(unit, parent), parent)?;
    expect_own(alloc, is_base(unit.bytes()), unit)?;
    no_circle(store.units().permit_parent(alloc, unit, parent))
}

/// Tests whether a parent can be taken from a theory.
#[tactic(auto, unfolding(crate::specs::Changes::refusal))]
pub(crate) fn permit_no_parent(
    alloc: Global,
    store: &Store,
    unit: &Name,
    parent: &Name,
) -> Result<(), EditFault>
    ensures reason { Tests (refusal store.now (Command.Unparent unit.now parent.now)) result }
    ensures there { OnOk result (IsTheory store.now unit.now) }
{
    expect(alloc, has_unit(store, unit), unit)?;
    expect(alloc, store.units().has_parent(unit, parent), parent)?;
    expect_own(alloc, is_base(unit.bytes()), unit)
}

/// Tests whether a constant can be declared in a theory.
pub(crate) fn permit_constant(
    alloc: Global,
    store: &Store,
    unit: &Name,
    name: &Name,
) -> Result<(), EditFault>
    ensures reason { Tests (constant_refusal store.now unit.now name.now) result }
    ensures there { OnOk result (IsTheory store.now unit.now) }
    ensures other { OnOk result (base_constant_test name.now ≡ false) }
    ensures room { OnOk result (finite.len store.now.constants < 65536) }
{
    expect(alloc, has_unit(store, unit), unit)?;
    expect_new(alloc, store.constants().has(name), name)?;
    expect_own(alloc, is_base(unit.bytes()), unit)?;
    expect_own(alloc, is_base_constant(name.bytes()), name)?;
    expect_room(CountWord::Constants, 65_536, store.constants().count())
}

/// Tests whether a constant can be used in another way.
pub(crate) fn permit_other_constant(
    alloc: Global,
    store: &Store,
    name: &Name,
) -> Result<(), EditFault>
    ensures reason { Tests (constant_change_refusal store.now name.now) result }
    ensures there { OnOk result (finite.contains_key store.now.constants name.now ≡ true) }
    ensures other { OnOk result (base_constant_test name.now ≡ false) }
{
    expect(alloc, has_constant(store, name), name)?;
    expect_own(alloc, is_base_constant(name.bytes()), name)
}

/// Tests whether a constant can be defined so.
#[tactic(auto, unfolding(crate::specs::Changes::refusal))]
pub(crate) fn permit_definition(
    alloc: Global,
    store: &Store,
    name: &Name,
    definition: &Definition,
) -> Result<(), EditFault>
    ensures reason { Tests (refusal store.now (Command.Define name.now definition.now)) result }
    ensures there { OnOk result (finite.contains_key store.now.constants name.now ≡ true) }
    ensures free { OnOk result (first_constant (finite.insert store.now.definitions name.now definition.now) ≡ None) }
{
    expect(alloc, has_constant(store, name), name)?;
    names_differ(alloc, definition.params.items())?;
    expect_own(alloc, is_base_constant(name.bytes()), name)?;
    no_circle(store.definitions().permit(alloc, name, definition))
}

/// Tests whether the definition of a constant can be taken from it.
#[tactic(auto, unfolding(crate::specs::Changes::refusal))]
pub(crate) fn permit_no_definition(
    alloc: Global,
    store: &Store,
    name: &Name,
) -> Result<(), EditFault>
    ensures { Tests (refusal store.now (Command.Undefine name.now)) result }
{
    let is_base = is_base_constant(name.bytes());
    expect(alloc, store.definitions().has(name) || is_base, name)?;
    expect_own(alloc, is_base, name)
}

/// Tests whether a rule can be stated in a theory.
pub(crate) fn permit_rule(
    alloc: Global,
    store: &Store,
    unit: &Name,
    rule: &Name,
    claim: &Claim,
) -> Result<(), EditFault>
    ensures reason { Tests (stated_refusal store.now unit.now rule.now claim.now) result }
    ensures there { OnOk result (IsTheory store.now unit.now) }
    ensures room { OnOk result (finite.len store.now.rules < 65536) }
{
    expect(alloc, has_unit(store, unit), unit)?;
    expect_new(alloc, store.rules().has(rule), rule)?;
    sequents_differ(alloc, claim)?;
    expect_own(alloc, is_base(unit.bytes()), unit)?;
    expect_room(CountWord::Rules, 65_536, store.rules().count())
}

/// Tests whether a rule can be given another claim.
#[tactic(auto, unfolding(crate::specs::Changes::refusal))]
pub(crate) fn permit_other_rule(
    alloc: Global,
    store: &Store,
    rule: &Name,
    claim: &Claim,
) -> Result<(), EditFault>
    ensures reason { Tests (refusal store.now (Command.AlterRule rule.now claim.now)) result }
    ensures there { OnOk result (finite.contains_key store.now.rules rule.now ≡ true) }
{
    expect(alloc, store.rules().has(rule), rule)?;
    sequents_differ(alloc, claim)
}

/// Tests whether an empty proof can be added.
#[tactic(auto, unfolding(crate::specs::Changes::refusal))]
pub(crate) fn permit_proof(
    alloc: Global,
    store: &Store,
    rule: &Name,
    proof: &Name,
) -> Result<(), EditFault>
    ensures reason { Tests (refusal store.now (Command.Proof rule.now proof.now)) result }
    ensures new { OnOk result (proof_at store.now.proofs rule.now proof.now ≡ None) }
    ensures room { OnOk result (count_proofs store.now.proofs < 65536) }
{
    expect_new(alloc, store.proofs().find(rule, proof).is_some(), proof)?;
    expect_room(CountWord::Proofs, 65_536, store.proofs().count())
}

/// Tests whether a theory can be dropped.
#[tactic(auto, unfolding(crate::specs::Changes::refusal))]
pub(crate) fn permit_no_unit(alloc: Global, store: &Store, unit: &Name) -> Result<(), EditFault>
    ensures reason { Tests (refusal store.now (Command.DropUnit unit.now)) result }
    ensures empty { OnOk result (holding_test store.now unit.now ≡ false) }
{
    expect(alloc, has_unit(store, unit), unit)?;
    expect_own(alloc, is_base(unit.bytes()), unit)?;
    let held = holds_something(alloc, store, unit)?;
    expect_empty(alloc, held, unit)
}

/// Tests whether a constant can be dropped.
#[tactic(auto, unfolding(crate::specs::Changes::refusal))]
pub(crate) fn permit_no_constant(alloc: Global, store: &Store, name: &Name) -> Result<(), EditFault>
    ensures reason { Tests (refusal store.now (Command.DropConst name.now)) result }
    ensures bare { OnOk result (finite.contains_key store.now.definitions name.now ≡ false) }
{
    expect(alloc, has_constant(store, name), name)?;
    expect_own(alloc, is_base_constant(name.bytes()), name)?;
    expect_empty(alloc, store.definitions().has(name), name)
}

/// Tests whether there is a place for an item in a proof, and whether its variables differ.
pub(crate) fn permit_put(
    alloc: Global,
    store: &Store,
    rule: &Name,
    proof: &Name,
    block: &Name,
    before: Option<&Name>,
    item: &Item,
) -> Result<(), EditFault>
    ensures place { OnOk result (place_refusal store.now.proofs rule.now proof.now block.now (option_copied before.entry) item.now ≡ None) }
    ensures differ { OnOk result (repeated_in_item item.now ≡ None) }
    ensures fault { IfErr result (λ fault. (refused : RefusalOf) → fault ≡ EditFault.Refused refused → (others : Option RefusalOf) → option_or (place_refusal store.now.proofs rule.now proof.now block.now (option_copied before.entry) item.now) (option_or (repeated_in_item item.now) others) ≡ Some refused) }
{
    store
        .proofs()
        .permit_item(alloc, rule, proof, block, before, item)?;
    own_variables_differ(alloc, item)
}

/// Tests whether a box can be given other variables.
pub(crate) fn permit_head(
    alloc: Global,
    store: &Store,
    rule: &Name,
    proof: &Name,
    label: &Name,
    vars: &TypedVars,
) -> Result<(), EditFault>
    ensures reason { Tests (option_or (box_refusal store.now.proofs rule.now proof.now label.now) (repeated_variable vars.now)) result }
    ensures there { OnOk result (box_refusal store.now.proofs rule.now proof.now label.now ≡ None) }
{
    store.proofs().permit_box(alloc, rule, proof, label)?;
    variables_differ(alloc, vars.items())
}

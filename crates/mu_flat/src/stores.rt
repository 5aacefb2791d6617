ghost use Rattle.std.specs.Prelude.{◌≡◌, ◌<◌, false, true, None, Some, [], IfOk, OnOk, OnErr, IfErr};
ghost use Rattle.std.specs.FinMap as finite;
ghost use Rattle.mu_tree.specs.declared.refusal.Refusal.{Refusal as RefusalOf};
ghost use Rattle.mu_defs.specs.Base.{is_base as base_test, is_base_constant as base_constant_test};
ghost use Rattle.mu_defs.specs.DefinitionTables.{first_constant};
ghost use Rattle.mu_defs.specs.Units.{first_unit, with_parent, without_parent};
ghost use Rattle.mu_flat.specs.Circles.{CirclesAreExact};
ghost use Rattle.mu_flat.specs.Edits.{cite_refusal, edit_refusal};
ghost use Rattle.mu_flat.specs.Entries.{initial, IsPlain, IsTheory, IsValid, with_constants, with_definitions, with_proofs, with_rules, with_units};
ghost use Rattle.mu_flat.specs.ProofEdits.{PutsOpen};
ghost use Rattle.mu_flat.specs.ProofTables.{count_proofs, proof_at, with_edit_at, with_proof, with_reason_at, without_proof};
ghost use Rattle.mu_flat.specs.Stores.{IsEmptyUnit};

use crate::edits::EditFault;
use crate::proof_edits::ProofEdit;
use crate::proof_tables::ProofTable;
use mu_decl::{ConstDecl, Context, MorphMap, Own, Statement};
use mu_defs::{DefinitionTable, OwnedTable, UnitTable, base_table, constant_at};
use mu_tree::{Definition, Name, Names, NoMemory, Table, Why};
use std::alloc::Global;
use std::marker::Model;

/// Theories, constants, definitions, rules and proofs, by name. Contracts see the finite maps, which are valid at every
/// moment.
#[derive(Drop)]
pub struct Store {
    /// The constants of the base theory.
    base: Table<ConstDecl>,
    units: UnitTable,
    constants: OwnedTable<ConstDecl>,
    definitions: DefinitionTable,
    rules: OwnedTable<Statement>,
    proofs: ProofTable,
}

impl Model for Store {
    ghost use Rattle.mu_flat.specs.Entries.{Entries};
    ghost use Rattle.mu_flat.specs.Codes.{code};
    ghost use Rattle.mu_flat.specs.Stores.{entries_of, IsKept};

    ghost Value = { Entries };

    ghost coded = { code };

    ghost view = { entries_of };

    ghost invariant = { IsKept };
}

impl Store {
    /// A store that has the base theory alone.
    ///
    /// # Errors
    ///
    /// `NoMemory`.
    pub fn new(alloc: Global) -> Result<Store, NoMemory>
        ensures { IfOk result (λ store. store ≡ initial) }
    {
        Ok(Store {
            base: base_table(alloc)?,
            units: UnitTable::new(alloc),
            constants: OwnedTable::new(alloc),
            definitions: DefinitionTable::new(alloc),
            rules: OwnedTable::new(alloc),
            proofs: ProofTable::new(alloc),
        })
    }

    /// The theories with their parents. The base theory is not among them.
    pub fn units(&self) -> &UnitTable
        ensures { result.now ≡ self.now.units }
    {
        &self.units
    }

    /// The constants that were declared, without those of the base theory.
    pub fn constants(&self) -> &OwnedTable<ConstDecl>
        ensures value { result.now ≡ self.now.constants }
        ensures valid { IsValid self.now }
    {
        &self.constants
    }

    /// The definitions of constants.
    pub fn definitions(&self) -> &DefinitionTable
        ensures { result.now ≡ self.now.definitions }
    {
        &self.definitions
    }

    /// The rules, axioms among them.
    pub fn rules(&self) -> &OwnedTable<Statement>
        ensures value { result.now ≡ self.now.rules }
        ensures valid { IsValid self.now }
    {
        &self.rules
    }

    /// The proofs of all rules.
    pub fn proofs(&self) -> &ProofTable
        ensures { result.now ≡ self.now.proofs }
    {
        &self.proofs
    }

    /// Adds a theory without parents.
    ///
    /// # Errors
    ///
    /// `NoMemory` leaves the store as it was.
    pub fn add_unit(&mut self, alloc: Global, name: Name) -> Result<(), NoMemory>
        requires plain { IsPlain name }
        requires other { base_test name ≡ false }
        requires new { finite.contains_key self.old.units name ≡ false }
        requires room { finite.len self.old.units < 4096 }
        ensures ok { OnOk result (self.new ≡ with_units self.old (finite.insert self.old.units name finite.empty)) }
        ensures err { OnErr result (self.new ≡ self.old) }
    {
        self.units.add(alloc, name)
    }

    /// Takes a theory out in which there is nothing, with its parents.
    pub fn take_unit(&mut self, name: &Name)
        requires { IsEmptyUnit self.old name.now }
        ensures { self.new ≡ with_units self.old (finite.remove self.old.units name.now) }
    {
        self.units.take(name);
    }

    /// Adds a parent to a theory.
    ///
    /// # Errors
    ///
    /// `NoMemory` leaves the store as it was.
    pub fn add_parent(&mut self, alloc: Global, unit: &Name, parent: Name) -> Result<(), NoMemory>
        requires there { IsTheory self.old unit.now }
        requires free { first_unit (with_parent self.old.units unit.now parent) ≡ None }
        ensures ok { OnOk result (self.new ≡ with_units self.old (with_parent self.old.units unit.now parent)) }
        ensures err { OnErr result (self.new ≡ self.old) }
    {
        self.units.add_parent(alloc, unit, parent)
    }

    /// Takes a parent from a theory.
    pub fn take_parent(&mut self, unit: &Name, parent: &Name)
        requires { IsTheory self.old unit.now }
        ensures { self.new ≡ with_units self.old (without_parent self.old.units unit.now parent.now) }
    {
        self.units.take_parent(unit, parent);
    }

    /// Adds a constant to a theory, or replaces the one of this name.
    ///
    /// # Errors
    ///
    /// `NoMemory` leaves the store as it was.
    pub fn put_constant(
        &mut self,
        alloc: Global,
        name: Name,
        declared: ConstDecl,
    ) -> Result<(), NoMemory>
        requires plain { IsPlain name }
        requires other { base_constant_test name ≡ false }
        requires theory { IsTheory self.old declared.theory }
        requires room { finite.contains_key self.old.constants name ≡ false → finite.len self.old.constants < 65536 }
        ensures ok { OnOk result (self.new ≡ with_constants self.old (finite.insert self.old.constants name declared)) }
        ensures err { OnErr result (self.new ≡ self.old) }
    {
        self.constants.put(alloc, name, declared)
    }

    /// Takes a constant out that has no definition.
    pub fn take_constant(&mut self, name: &Name)
        requires { finite.contains_key self.old.definitions name.now ≡ false }
        ensures { self.new ≡ with_constants self.old (finite.remove self.old.constants name.now) }
    {
        self.constants.take(name);
    }

    /// Defines a constant that is declared, in place of the definition that it had.
    ///
    /// # Errors
    ///
    /// `NoMemory` leaves the store as it was.
    pub fn define(
        &mut self,
        alloc: Global,
        name: Name,
        definition: Definition,
    ) -> Result<(), NoMemory>
        requires there { finite.contains_key self.old.constants name ≡ true }
        requires free { first_constant (finite.insert self.old.definitions name definition) ≡ None }
        ensures ok { OnOk result (self.new ≡ with_definitions self.old (finite.insert self.old.definitions name definition)) }
        ensures err { OnErr result (self.new ≡ self.old) }
    {
        self.definitions.put(alloc, name, definition)
    }

    /// Takes the definition from a constant.
    pub fn undefine(&mut self, name: &Name)
        ensures { self.new ≡ with_definitions self.old (finite.remove self.old.definitions name.now) }
    {
        self.definitions.take(name);
    }

    /// Adds a rule to a theory, or replaces the one of this name.
    ///
    /// # Errors
    ///
    /// `NoMemory` leaves the store as it was.
    pub fn put_rule(
        &mut self,
        alloc: Global,
        name: Name,
        statement: Statement,
    ) -> Result<(), NoMemory>
        requires plain { IsPlain name }
        requires theory { IsTheory self.old statement.theory }
        requires room { finite.contains_key self.old.rules name ≡ false → finite.len self.old.rules < 65536 }
        ensures ok { OnOk result (self.new ≡ with_rules self.old (finite.insert self.old.rules name statement)) }
        ensures err { OnErr result (self.new ≡ self.old) }
    {
        self.rules.put(alloc, name, statement)
    }

    /// Takes a rule out. Its proofs stay.
    pub fn take_rule(&mut self, name: &Name)
        ensures { self.new ≡ with_rules self.old (finite.remove self.old.rules name.now) }
    {
        self.rules.take(name);
    }

    /// Adds an empty proof of a rule, which needn't be there.
    ///
    /// # Errors
    ///
    /// `NoMemory` leaves the store as it was.
    pub fn add_proof(&mut self, alloc: Global, rule: Name, proof: Name) -> Result<(), NoMemory>
        requires plain { IsPlain proof }
        requires new { proof_at self.old.proofs rule proof ≡ None }
        requires room { count_proofs self.old.proofs < 65536 }
        ensures ok { OnOk result (self.new ≡ with_proofs self.old (with_proof self.old.proofs rule proof [])) }
        ensures err { OnErr result (self.new ≡ self.old) }
    {
        self.proofs.add(alloc, rule, proof)
    }

    /// Takes a proof of a rule out, with all its items.
    pub fn take_proof(&mut self, rule: &Name, proof: &Name)
        ensures { self.new ≡ with_proofs self.old (without_proof self.old.proofs rule.now proof.now) }
    {
        self.proofs.take(rule, proof);
    }

    /// Makes an edit in a proof that brings no citation into it.
    ///
    /// # Errors
    ///
    /// `Refused` where there is no such proof, and else with the first fault of the edit that fits. `NoMemory` may come at
    /// any call. Each leaves the store as it was.
    pub fn edit_proof(
        &mut self,
        alloc: Global,
        rule: &Name,
        proof: &Name,
        edit: ProofEdit,
    ) -> Result<(), EditFault>
        requires { PutsOpen edit }
        ensures ok { OnOk result (edit_refusal self.old.proofs rule.now proof.now edit ≡ None) }
        ensures new { OnOk result (self.new ≡ with_proofs self.old (with_edit_at self.old.proofs rule.now proof.now edit)) }
        ensures fault { IfErr result (λ fault. (refusal : RefusalOf) → fault ≡ EditFault.Refused refusal → edit_refusal self.old.proofs rule.now proof.now edit ≡ Some refusal) }
        ensures err { OnErr result (self.new ≡ self.old) }
    {
        self.proofs.edit(alloc, rule, proof, edit)
    }

    /// Cites a line of a proof to a reason, in place of the one that it had.
    ///
    /// # Errors
    ///
    /// `Refused` where there is no such proof, where it has no such line, and else where afterwards some rule would
    /// lead back to itself: the first of them that fits. `NoMemory` may come at any call. Each leaves the store as it
    /// was.
    pub fn cite(
        &mut self,
        alloc: Global,
        rule: &Name,
        proof: &Name,
        label: &Name,
        why: Why,
    ) -> Result<(), EditFault>
        ensures ok { OnOk result (cite_refusal self.old.proofs rule.now proof.now label.now why ≡ None) }
        ensures new { OnOk result (self.new ≡ with_proofs self.old (with_reason_at self.old.proofs rule.now proof.now label.now (Some why))) }
        ensures fault { IfErr result (λ fault. (refusal : RefusalOf) → fault ≡ EditFault.Refused refusal → cite_refusal self.old.proofs rule.now proof.now label.now why ≡ Some refusal) }
        ensures err { OnErr result (self.new ≡ self.old) }
        ensures law { CirclesAreExact }
    {
        self.proofs.cite(alloc, rule, proof, label, why)
    }
}

#[tactic(auto, using(mu_decl::specs::Nothing::nothing_equations))]
impl Context for Store {
    ghost use Rattle.mu_flat.specs.Entries.{world_of};
    ghost use Rattle.mu_flat.specs.Contexts.{lawful_so};

    ghost world = { world_of };

    ghost exact = { lawful_so };

    fn constant(&self, name: &Name) -> Option<&ConstDecl> {
        constant_at(&self.base, self.constants.values(), name)
    }

    fn definition(&self, name: &Name) -> Option<&Definition> {
        self.definitions.get(name)
    }

    fn rule(&self, name: &Name) -> Option<&Statement> {
        self.rules.get(name)
    }

    fn morphism(&self, _name: &Name) -> Option<&MorphMap> {
        None
    }

    fn has_theory(&self, unit: &Name) -> bool {
        self.units.has(unit)
    }

    fn parents(&self, alloc: Global, unit: &Name) -> Result<Names, NoMemory> {
        self.units.parents(alloc, unit)
    }

    fn seen(&self, alloc: Global, unit: &Name) -> Result<Names, NoMemory> {
        self.units.seen(alloc, unit)
    }

    fn own(&self, alloc: Global, unit: &Name) -> Result<Own, NoMemory> {
        Ok(Own {
            constants: self.constants.with_base_names(alloc, unit)?,
            axioms: self.rules.axioms(alloc, unit)?,
        })
    }
}

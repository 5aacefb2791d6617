ghost use Rattle.std.specs.Prelude.{◌≡◌, ◌↔◌, ◌&&◌, not, nat_eq, IsTrue, IfOk, OnOk, OnErr};
ghost use Rattle.std.specs.Cmp.Lexicographic.{pointwise};
ghost use Rattle.std.specs.FinMap as finite;
ghost use Rattle.std.specs.Option.{option_copied};
ghost use Rattle.mu_defs.specs.Base.{with_base, IsApart};
ghost use Rattle.mu_defs.specs.Owned.{names_in, is_used, IsUnused};

use crate::indexes::Index;
use crate::owned::{Owned, axioms_within, constants_within, is_unused, names_within};
use mu_decl::{ConstDecl, Statement};
use mu_tree::{Name, Names, NoMemory, Table};
use std::alloc::Global;
use std::marker::Model;

/// What stands in units, by name and by its unit. Contracts see the finite map from names.
#[derive(Drop)]
pub struct OwnedTable<V: Owned> {
    values: Table<V>,
    /// The names under the units that their values stand in, and perhaps under some that other values stood in before.
    by_owner: Index,
}

impl<V: Owned> Model for OwnedTable<V> {
    ghost use Rattle.std.specs.FinMap as map;
    ghost use Rattle.std.specs.Coded.{coded_list, coded_ℕ};
    ghost use Rattle.mu_tree.specs.Maps.{MapOf};
    ghost use Rattle.mu_defs.specs.Indexes.{HasAll};

    ghost Value = { MapOf V };

    ghost coded = { map.code (coded_list coded_ℕ) V.code };

    ghost view = { λ table. table.values };

    ghost invariant = { λ table. HasAll V.owner table.values table.by_owner };
}

impl<V: Owned> OwnedTable<V> {
    /// Nothing stands in a unit, which takes no memory yet.
    pub fn new(alloc: Global) -> OwnedTable<V>
        ensures { result ≡ finite.empty }
    {
        OwnedTable {
            values: Table::new(alloc),
            by_owner: Index::new(alloc),
        }
    }

    /// The values by name.
    pub fn values(&self) -> &Table<V>
        ensures { result.now ≡ self.now }
    {
        &self.values
    }

    /// The value at a name, none exactly where the table has no such name.
    pub fn get(&self, name: &Name) -> Option<&V>
        ensures { option_copied result ≡ finite.get self.now name.now }
    {
        self.values.get(name)
    }

    /// Whether the table has a value at a name.
    pub fn has(&self, name: &Name) -> bool
        ensures { result ≡ finite.contains_key self.now name.now }
    {
        self.values.has(name)
    }

    /// The number of names with a value.
    pub fn count(&self) -> usize
        ensures { result ≡ finite.len self.now }
    {
        self.values.len()
    }

    /// The names of the values that stand in a unit, in byte order. It looks only at what is kept under the unit.
    ///
    /// # Errors
    ///
    /// `NoMemory`.
    pub fn names(&self, alloc: Global, unit: &Name) -> Result<Names, NoMemory>
        ensures { IfOk result (λ names. names ≡ names_in (λ value. pointwise nat_eq (V.owner value) unit.now) (finite.entries self.now)) }
    {
        names_within(alloc, &self.values, &self.by_owner, unit)
    }

    /// Whether no value stands in a unit. It looks only at what is kept under the unit, and stops at the first that does.
    ///
    /// # Errors
    ///
    /// `NoMemory`.
    pub fn is_unused(&self, alloc: Global, unit: &Name) -> Result<bool, NoMemory>
        ensures value { IfOk result (λ unused. unused ≡ not (is_used V.owner self.now unit.now)) }
        ensures exact { IfOk result (λ unused. IsTrue unused ↔ IsUnused V.owner self.now unit.now) }
    {
        is_unused(alloc, &self.values, &self.by_owner, unit)
    }
}

impl<V: Owned + Drop> OwnedTable<V> {
    /// Sets the value at a name.
    ///
    /// # Errors
    ///
    /// `NoMemory` leaves the table as it was.
    pub fn put(&mut self, alloc: Global, name: Name, value: V) -> Result<(), NoMemory>
        ensures ok { OnOk result (self.new ≡ finite.insert self.old name value) }
        ensures err { OnErr result (self.new ≡ self.old) }
    {
        self.by_owner
            .add(alloc, value.owner().copy(alloc)?, name.copy(alloc)?)?;
        self.values.put(name, value)
    }

    /// Takes a name out of the table, and says whether it was there. It takes no memory.
    pub fn take(&mut self, name: &Name) -> bool
        ensures found { result ≡ finite.contains_key self.old name.now }
        ensures taken { self.new ≡ finite.remove self.old name.now }
    {
        match self.values.take(name) {
            Some(value) => {
                self.by_owner.take(value.owner(), name);
                true
            }
            None => false,
        }
    }
}

impl OwnedTable<Statement> {
    /// The names of the axioms that stand in a unit, in byte order. It looks only at what is kept under the unit.
    ///
    /// # Errors
    ///
    /// `NoMemory`.
    pub fn axioms(&self, alloc: Global, unit: &Name) -> Result<Names, NoMemory>
        ensures { IfOk result (λ names. names ≡ names_in (λ rule. pointwise nat_eq rule.theory unit.now && rule.is_axiom) (finite.entries self.now)) }
    {
        axioms_within(alloc, &self.values, &self.by_owner, unit)
    }
}

impl OwnedTable<ConstDecl> {
    /// The names of the constants that stand in a unit, those of the base theory among them, in byte order. It looks only at
    /// what is kept under the unit.
    ///
    /// # Errors
    ///
    /// `NoMemory`.
    pub fn with_base_names(&self, alloc: Global, unit: &Name) -> Result<Names, NoMemory>
        requires { IsApart self.now }
        ensures { IfOk result (λ names. names ≡ names_in (λ declared. pointwise nat_eq declared.theory unit.now) (finite.entries (with_base self.now))) }
    {
        constants_within(alloc, &self.values, &self.by_owner, unit)
    }
}

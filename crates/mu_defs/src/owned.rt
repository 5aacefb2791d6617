ghost use Rattle.std.specs.Prelude.{◌≡◌, ◌↔◌, ◌&&◌, ℕ, List, not, nat_eq, IsTrue, IfOk};
ghost use Rattle.std.specs.Cmp.Lexicographic.{pointwise};
ghost use Rattle.std.specs.FinMap as finite;
ghost use Rattle.std.specs.List.{filter, list_any};
ghost use Rattle.mu_defs.specs.Base.{with_base, IsApart};
ghost use Rattle.mu_defs.specs.Indexes.{HasAll};
ghost use Rattle.mu_defs.specs.Owned.{names_in, passes_at, is_used, IsUnused};

use crate::base::{base_table, is_base};
use crate::indexes::Index;
use mu_decl::{ConstDecl, Statement};
use mu_tree::{Name, Names, NoMemory, Table};
use std::alloc::Global;

/// What stands in a unit.
pub trait Owned {
    /// The name of the unit.
    ghost owner: { Self → List ℕ };

    /// The name of the unit.
    fn owner(&self) -> &Name
        ensures { result.now ≡ owner self.now };
}

impl Owned for ConstDecl {
    ghost owner = { λ declared. declared.theory };

    fn owner(&self) -> &Name {
        &self.theory
    }
}

impl Owned for Statement {
    ghost owner = { λ rule. rule.theory };

    fn owner(&self) -> &Name {
        &self.theory
    }
}

/// Whether there is a value at a name, which stands in a unit.
fn stands_in<V: Owned>(values: &Table<V>, name: &Name, unit: &Name) -> bool
    ensures { result ≡ passes_at (λ value. pointwise nat_eq (V.owner value) unit.now) values.now name.now }
{
    match values.get(name) {
        Some(value) => *value.owner() == *unit,
        None => false,
    }
}

/// Those of the names whose value stands in a unit.
fn those_in<V: Owned>(
    alloc: Global,
    values: &Table<V>,
    names: Names,
    unit: &Name,
) -> Result<Names, NoMemory>
    ensures { IfOk result (λ within. within ≡ filter (passes_at (λ value. pointwise nat_eq (V.owner value) unit.now) values.now) names) }
{
    let mut within = Names::new(alloc);
    for name in names.into_vec() {
        if stands_in(values, &name, unit) {
            within.push(name)?;
        }
    }
    Ok(within)
}

/// The names of the values that stand in a unit, in byte order, where each of them is kept under the unit. It looks only at
/// what is kept there.
///
/// # Errors
///
/// `NoMemory`.
pub fn names_within<V: Owned>(
    alloc: Global,
    values: &Table<V>,
    index: &Index,
    unit: &Name,
) -> Result<Names, NoMemory>
    requires { HasAll V.owner values.now index.now }
    ensures { IfOk result (λ names. names ≡ names_in (λ value. pointwise nat_eq (V.owner value) unit.now) (finite.entries values.now)) }
{
    let names = index.names(alloc, unit)?;
    let within = those_in(alloc, values, names, unit)?;
    Ok(within)
}

/// Whether one of the names has a value that stands in a unit.
fn is_some_in<V: Owned>(values: &Table<V>, names: &[Name], unit: &Name) -> bool
    ensures { result ≡ list_any (passes_at (λ value. pointwise nat_eq (V.owner value) unit.now) values.now) names.now }
{
    names.iter().any(|name| stands_in(values, name, unit))
}

/// Whether no value stands in a unit, where each that does is kept under the unit. It looks only at what is kept there, and
/// stops at the first that does.
///
/// # Errors
///
/// `NoMemory`.
pub fn is_unused<V: Owned>(
    alloc: Global,
    values: &Table<V>,
    index: &Index,
    unit: &Name,
) -> Result<bool, NoMemory>
    requires { HasAll V.owner values.now index.now }
    ensures value { IfOk result (λ unused. unused ≡ not (is_used V.owner values.now unit.now)) }
    ensures exact { IfOk result (λ unused. IsTrue unused ↔ IsUnused V.owner values.now unit.now) }
{
    let names = index.names(alloc, unit)?;
    Ok(!is_some_in(values, names.items(), unit))
}

/// Whether there is an axiom at a name, which stands in a unit.
fn is_axiom_in(rules: &Table<Statement>, name: &Name, unit: &Name) -> bool
    ensures { result ≡ passes_at (λ rule. pointwise nat_eq rule.theory unit.now && rule.is_axiom) rules.now name.now }
{
    match rules.get(name) {
        Some(rule) => rule.theory == *unit && rule.is_axiom,
        None => false,
    }
}

/// Those of the names whose rule is an axiom that stands in a unit.
fn axioms_in(
    alloc: Global,
    rules: &Table<Statement>,
    names: Names,
    unit: &Name,
) -> Result<Names, NoMemory>
    ensures { IfOk result (λ axioms. axioms ≡ filter (passes_at (λ rule. pointwise nat_eq rule.theory unit.now && rule.is_axiom) rules.now) names) }
{
    let mut axioms = Names::new(alloc);
    for name in names.into_vec() {
        if is_axiom_in(rules, &name, unit) {
            axioms.push(name)?;
        }
    }
    Ok(axioms)
}

/// The names of the axioms that stand in a unit, in byte order, where each rule that does is kept under the unit. It looks
/// only at what is kept there.
///
/// # Errors
///
/// `NoMemory`.
pub fn axioms_within(
    alloc: Global,
    rules: &Table<Statement>,
    index: &Index,
    unit: &Name,
) -> Result<Names, NoMemory>
    requires { HasAll (λ rule. rule.theory) rules.now index.now }
    ensures { IfOk result (λ names. names ≡ names_in (λ rule. pointwise nat_eq rule.theory unit.now && rule.is_axiom) (finite.entries rules.now)) }
{
    let names = index.names(alloc, unit)?;
    axioms_in(alloc, rules, names, unit)
}

/// The names of the constants that stand in a unit, those of the base theory among them, in byte order, where each stored one
/// is kept under its unit. It looks only at what is kept there.
///
/// # Errors
///
/// `NoMemory`.
pub fn constants_within(
    alloc: Global,
    stored: &Table<ConstDecl>,
    index: &Index,
    unit: &Name,
) -> Result<Names, NoMemory>
    requires kept { HasAll (λ declared. declared.theory) stored.now index.now }
    requires apart { IsApart stored.now }
    ensures { IfOk result (λ names. names ≡ names_in (λ declared. pointwise nat_eq declared.theory unit.now) (finite.entries (with_base stored.now))) }
{
    if is_base(unit.bytes()) {
        base_table(alloc)?.names(alloc)
    } else {
        let names = names_within(alloc, stored, index, unit)?;
        Ok(names)
    }
}

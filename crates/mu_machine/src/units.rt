ghost use Rattle.std.specs.Prelude.{◌≡◌, ◌≤◌, ◌++◌, codes, map, IfOk, OnOk};
ghost use Rattle.std.specs.FinMap as finite;
ghost use Rattle.std.specs.List.{flat_map};
ghost use Rattle.mu_defs.specs.Base.{base_table as base_map};
ghost use Rattle.mu_graph.specs.Names.{led_by, members};
ghost use Rattle.mu_status.specs.Statuses.{status_at};
ghost use Rattle.mu_machine.specs.Units.{base_page, constant_line, constant_lines, constants_of, definition_line, parent_line, rule_lines, rules_of, stated_line, unit_page};

use crate::pages::rule_word;
use mu_decl::{ConstDecl, Context, Statement};
use mu_defs::base_table;
use mu_flat::Store;
use mu_print::{claim, declaration, formals, tree};
use mu_status::{RuleStatus, statuses_of};
use mu_tables::Work;
use mu_tree::{Bytes, Definition, Name, NoMemory};
use std::alloc::{AllocError, Global};

/// The page of a theory: its parents, its constants with their definitions, and its rules with their statuses, which are
/// worked out in one pass.
///
/// # Errors
///
/// `NoMemory`.
#[tactic(auto, using(std::proofs::Common::append_assoc), unfolding(crate::specs::Units::unit_page))]
pub(crate) fn unit_page(
    alloc: Global,
    store: &Store,
    unit: &Name,
    work: &mut Work,
) -> Result<Bytes, NoMemory>
    ensures value { IfOk result (λ text. text ≡ unit_page store.now unit.now) }
    ensures work { work.old.lines ≤ work.new.lines }
{
    let mut page = Vec::from_slice(alloc, b"theory ")?;
    page.extend_from_slice(unit.bytes())?;
    page.extend_from_slice(b"\n")?;
    add_parents(alloc, &mut page, store, unit)?;
    add_constants(alloc, &mut page, store, unit)?;
    add_rules(alloc, &mut page, store, unit, work)?;
    page.extend_from_slice(b"end\n")?;
    Ok(Bytes::from_vec(page))
}

/// The page of the base theory: its constants.
///
/// # Errors
///
/// `NoMemory`.
#[tactic(auto, using(std::proofs::Common::append_assoc), unfolding(crate::specs::Units::base_page))]
pub(crate) fn base_page(alloc: Global) -> Result<Bytes, NoMemory>
    ensures { IfOk result (λ text. text ≡ base_page) }
{
    let mut page = Vec::from_slice(alloc, b"theory base\n")?;
    add_base_constants(alloc, &mut page)?;
    page.extend_from_slice(b"end\n")?;
    Ok(Bytes::from_vec(page))
}

/// Adds a line for each constant of the base theory.
fn add_base_constants(alloc: Global, page: &mut Vec<u8>) -> Result<(), NoMemory>
    ensures { OnOk result (page.new.items ≡ page.old.items ++ flat_map constant_line (finite.entries base_map)) }
{
    let constants = base_table(alloc)?;
    for entry in constants.entries(alloc)? {
        add_declared(page, entry.0, entry.1)?;
    }
    Ok(())
}

/// Adds the line of a constant.
#[tactic(auto, using(std::proofs::Common::append_assoc))]
fn add_declared(page: &mut Vec<u8>, name: &Name, declared: &ConstDecl) -> Result<(), AllocError>
    ensures { OnOk result (page.new.items ≡ page.old.items ++ constant_line (name.now, declared.now)) }
{
    page.extend_from_slice(b"const ")?;
    declaration(page, name, &declared.shape, declared.result)?;
    page.extend_from_slice(b"\n")
}

/// Adds a line for each parent of a theory.
fn add_parents(
    alloc: Global,
    page: &mut Vec<u8>,
    store: &Store,
    unit: &Name,
) -> Result<(), NoMemory>
    ensures { OnOk result (page.new.items ≡ page.old.items ++ flat_map parent_line (led_by members store.now.units unit.now)) }
{
    let parents = store.units().parents(alloc, unit)?;
    for parent in parents.items() {
        add_parent(page, parent)?;
    }
    Ok(())
}

/// Adds the line of a parent.
#[tactic(auto, using(std::proofs::Common::append_assoc))]
fn add_parent(page: &mut Vec<u8>, parent: &Name) -> Result<(), AllocError>
    ensures { OnOk result (page.new.items ≡ page.old.items ++ parent_line parent.now) }
{
    page.extend_from_slice(b"parent ")?;
    page.extend_from_slice(parent.bytes())?;
    page.extend_from_slice(b"\n")
}

/// Adds the lines of the constants of a theory.
fn add_constants(
    alloc: Global,
    page: &mut Vec<u8>,
    store: &Store,
    unit: &Name,
) -> Result<(), NoMemory>
    ensures { OnOk result (page.new.items ≡ page.old.items ++ flat_map (constant_lines store.now) (constants_of store.now unit.now)) }
{
    let names = store.constants().names(alloc, unit)?;
    for name in names.items() {
        add_constant(page, store, name)?;
    }
    Ok(())
}

/// Adds the lines of the constant of a name: that it is declared, and how it is defined.
#[tactic(auto, using(std::proofs::Common::append_assoc))]
fn add_constant(page: &mut Vec<u8>, store: &Store, name: &Name) -> Result<(), AllocError>
    ensures { OnOk result (page.new.items ≡ page.old.items ++ constant_lines store.now name.now) }
{
    if let Some(declared) = store.constants().get(name) {
        add_declared(page, name, declared)?;
    }
    match store.definitions().get(name) {
        Some(definition) => add_definition(page, name, definition),
        None => Ok(()),
    }
}

/// Adds the line of a definition.
#[tactic(auto, using(std::proofs::Common::append_assoc))]
fn add_definition(
    page: &mut Vec<u8>,
    name: &Name,
    definition: &Definition,
) -> Result<(), AllocError>
    ensures { OnOk result (page.new.items ≡ page.old.items ++ definition_line name.now definition.now) }
{
    page.extend_from_slice(b"define ")?;
    page.extend_from_slice(name.bytes())?;
    formals(page, &definition.params)?;
    page.extend_from_slice(b" = ")?;
    tree(page, &definition.body)?;
    page.extend_from_slice(b"\n")
}

/// Adds the lines of the rules of a theory.
fn add_rules(
    alloc: Global,
    page: &mut Vec<u8>,
    store: &Store,
    unit: &Name,
    work: &mut Work,
) -> Result<(), NoMemory>
    ensures value { OnOk result (page.new.items ≡ page.old.items ++ flat_map (rule_lines store.now) (rules_of store.now unit.now)) }
    ensures work { work.old.lines ≤ work.new.lines }
{
    let names = store.rules().names(alloc, unit)?;
    let statuses = statuses_of(alloc, store, names.items(), work)?;
    add_told(page, store, names.items(), &statuses)?;
    Ok(())
}

/// Adds the lines of rules, whose statuses these are.
fn add_told(
    page: &mut Vec<u8>,
    store: &Store,
    names: &[Name],
    statuses: &[Option<RuleStatus>],
) -> Result<(), AllocError>
    requires { statuses.now ≡ map (status_at store.now) names.now }
    ensures { OnOk result (page.new.items ≡ page.old.items ++ flat_map (rule_lines store.now) names.now) }
{
    for (at, name) in names.iter().enumerate() {
        add_rule(page, store, name, statuses[at])?;
    }
    Ok(())
}

/// Adds the line of the rule of a name, where there is one, whose status this is.
fn add_rule(
    page: &mut Vec<u8>,
    store: &Store,
    name: &Name,
    status: Option<RuleStatus>,
) -> Result<(), AllocError>
    requires { status ≡ status_at store.now name.now }
    ensures { OnOk result (page.new.items ≡ page.old.items ++ rule_lines store.now name.now) }
{
    match (store.rule(name), status) {
        (Some(statement), Some(status)) => add_stated(page, name, statement, status),
        _ => Ok(()),
    }
}

/// Adds the line of a rule with this statement and status.
#[tactic(auto, using(std::proofs::Common::append_assoc))]
fn add_stated(
    page: &mut Vec<u8>,
    name: &Name,
    statement: &Statement,
    status: RuleStatus,
) -> Result<(), AllocError>
    ensures { OnOk result (page.new.items ≡ page.old.items ++ stated_line name.now statement.now status) }
{
    page.extend_from_slice(rule_word(statement))?;
    page.extend_from_slice(b" ")?;
    page.extend_from_slice(name.bytes())?;
    page.extend_from_slice(b" ")?;
    page.extend_from_slice(status.word().as_bytes())?;
    page.extend_from_slice(b" : ")?;
    claim(page, &statement.claim)?;
    page.extend_from_slice(b"\n")
}

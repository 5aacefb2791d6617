ghost use Rattle.std.specs.Prelude.{◌≡◌, ◌≤◌, IfOk};
ghost use Rattle.mu_status.specs.Statuses.{status_of};
ghost use Rattle.mu_machine.specs.Queries.{page, proof_pages, queried, reply_to, rule_pages};
ghost use Rattle.mu_machine.specs.Units.{unit_pages};

use crate::pages::{proof_page, rule_page, status_page};
use crate::replies::Reply;
use crate::units::{base_page, unit_page};
use mu_command::Command;
use mu_decl::{Context, Statement};
use mu_defs::is_base;
use mu_flat::Store;
use mu_status::{RuleStatus, status};
use mu_tables::Work;
use mu_tree::{Bytes, Name, NoMemory, Refusal};
use std::alloc::Global;

/// The reply to a query; none to a change.
///
/// # Errors
///
/// `NoMemory`.
#[tactic(auto, unfolding(crate::specs::Queries::queried))]
pub(crate) fn query(
    alloc: Global,
    store: &Store,
    command: &Command,
    work: &mut Work,
) -> Result<Option<Reply>, NoMemory>
    ensures value { IfOk result (λ reply. reply ≡ queried store.now command.now) }
    ensures work { work.old.lines ≤ work.new.lines }
{
    match command {
        Command::Status(rule) => Ok(Some(ask_rule(alloc, store, rule, false, work)?)),
        Command::ShowUnit(unit) => Ok(Some(ask_unit(alloc, store, unit, work)?)),
        Command::ShowRule(rule) => Ok(Some(ask_rule(alloc, store, rule, true, work)?)),
        Command::ShowProof(rule, proof) => Ok(Some(ask_proof(alloc, store, rule, proof, work)?)),
        _ => Ok(None),
    }
}

/// The reply that nothing stands under a name.
fn unknown(alloc: Global, name: &Name) -> Result<Reply, NoMemory>
    ensures { IfOk result (λ reply. reply ≡ Reply.Refused (Refusal.Unknown name.now)) }
{
    Ok(Reply::Refused(Refusal::Unknown(name.copy(alloc)?.into_bytes())))
}

/// What is known of a rule: its whole page, or its status.
///
/// # Errors
///
/// `NoMemory`.
fn ask_rule(
    alloc: Global,
    store: &Store,
    rule: &Name,
    whole: bool,
    work: &mut Work,
) -> Result<Reply, NoMemory>
    ensures value { IfOk result (λ reply. reply ≡ reply_to (rule.now, rule_pages store.now whole rule.now)) }
    ensures work { work.old.lines ≤ work.new.lines }
{
    match (store.rule(rule), status(alloc, store, rule, work)?) {
        (Some(statement), Some(status)) => {
            let text = page(alloc, store, rule, statement, status, whole, work)?;
            Ok(Reply::Page { text })
        }
        _ => unknown(alloc, rule),
    }
}

/// The page of a rule with this statement and status, whole or the status alone.
fn page(
    alloc: Global,
    store: &Store,
    rule: &Name,
    statement: &Statement,
    status: RuleStatus,
    whole: bool,
    work: &mut Work,
) -> Result<Bytes, NoMemory>
    requires { status ≡ status_of store.now rule.now statement.now }
    ensures value { IfOk result (λ text. text ≡ page store.now whole rule.now statement.now) }
    ensures work { work.old.lines ≤ work.new.lines }
{
    if whole {
        return rule_page(alloc, store, rule, statement, status, work);
    }
    status_page(alloc, rule, statement, status)
}

/// A proof, item by item, with its verdict.
///
/// # Errors
///
/// `NoMemory`.
fn ask_proof(
    alloc: Global,
    store: &Store,
    rule: &Name,
    proof: &Name,
    work: &mut Work,
) -> Result<Reply, NoMemory>
    ensures value { IfOk result (λ reply. reply ≡ reply_to (proof.now, proof_pages store.now rule.now proof.now)) }
    ensures work { work.old.lines ≤ work.new.lines }
{
    match store.proofs().find(rule, proof) {
        Some(found) => {
            let text = proof_page(alloc, store, rule, proof, found, work)?;
            Ok(Reply::Page { text })
        }
        None => unknown(alloc, proof),
    }
}

/// What stands in a unit.
///
/// # Errors
///
/// `NoMemory`.
fn ask_unit(alloc: Global, store: &Store, unit: &Name, work: &mut Work) -> Result<Reply, NoMemory>
    ensures value { IfOk result (λ reply. reply ≡ reply_to (unit.now, unit_pages store.now unit.now)) }
    ensures work { work.old.lines ≤ work.new.lines }
{
    if is_base(unit.bytes()) {
        let text = base_page(alloc)?;
        return Ok(Reply::Page { text });
    }
    if !store.units().has(unit) {
        return unknown(alloc, unit);
    }
    let text = unit_page(alloc, store, unit, work)?;
    Ok(Reply::Page { text })
}

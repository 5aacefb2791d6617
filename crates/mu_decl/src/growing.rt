ghost use Rattle.std.specs.Prelude.{◌≡◌, ◌+◌, IfOk, OnOk};
ghost use Rattle.mu_decl.specs.declared.bare.Bare.TheVariants as bare;
ghost use Rattle.mu_decl.specs.Weights.{weight, weights};

use crate::bare::{Bare, Bares};
use mu_tree::{Name, NoMemory};
use sqlite_items::Boxed;
use std::alloc::Global;

/// How many nodes a call may make at most.
pub(crate) const MOST_NODES: u64 = 1048576;

/// How many levels a call may go down at most.
pub(crate) const MOST_LEVELS: u64 = 4096;

/// Counts a node down.
pub(crate) fn spend(room: &mut u64) -> Result<(), NoMemory>
    ensures { OnOk result (room.old ≡ room.new + 1) }
{
    *room = fewer(*room)?;
    Ok(())
}

pub(crate) fn fewer(count: u64) -> Result<u64, NoMemory>
    ensures { IfOk result (λ left. left + 1 ≡ count) }
{
    count.checked_sub(1).ok_or(NoMemory)
}

#[tactic(auto, using(crate::proofs::Weights::weight_equations))]
pub(crate) fn variable(alloc: Global, name: &Name) -> Result<Bare, NoMemory>
    ensures value { IfOk result (λ node. node ≡ bare.Var name.now) }
    ensures weight { IfOk result (λ node. weight node ≡ 1) }
{
    Ok(Bare::Var(name.copy(alloc)?))
}

#[tactic(auto, using(crate::proofs::Weights::weight_equations))]
pub(crate) fn place(index: u64) -> Bare
    ensures value { result ≡ bare.Index index }
    ensures weight { weight result ≡ 1 }
{
    Bare::Index(index)
}

#[tactic(auto, using(crate::proofs::Weights::weight_equations))]
pub(crate) fn application(alloc: Global, name: &Name, arguments: Bares) -> Result<Bare, NoMemory>
    ensures value { IfOk result (λ node. node ≡ bare.App name.now arguments) }
    ensures weight { IfOk result (λ node. weight node ≡ weights arguments + 1) }
{
    Ok(Bare::App(name.copy(alloc)?, arguments))
}

#[tactic(auto, using(crate::proofs::Weights::weight_equations))]
pub(crate) fn metavariable(alloc: Global, name: &Name, arguments: Bares) -> Result<Bare, NoMemory>
    ensures value { IfOk result (λ node. node ≡ bare.Meta name.now arguments) }
    ensures weight { IfOk result (λ node. weight node ≡ weights arguments + 1) }
{
    Ok(Bare::Meta(name.copy(alloc)?, arguments))
}

#[tactic(auto, using(crate::proofs::Weights::weight_equations))]
pub(crate) fn binding(
    alloc: Global,
    binder: &Name,
    domain: Bare,
    body: Bare,
) -> Result<Bare, NoMemory>
    ensures value { IfOk result (λ node. node ≡ bare.Bind binder.now domain body) }
    ensures weight { IfOk result (λ node. weight node ≡ weight domain + weight body + 1) }
{
    let domain = Boxed::new(alloc, domain)?;
    let body = Boxed::new(alloc, body)?;
    Ok(Bare::Bind(binder.copy(alloc)?, domain, body))
}

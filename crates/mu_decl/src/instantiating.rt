ghost use Rattle.std.specs.Prelude.{◌≡◌, ◌+◌, ◌≤◌, ◌^◌, IfOk, map};
ghost use Rattle.std.specs.Option.{option_copied};
ghost use Rattle.mu_decl.specs.Instantiating.{instantiated, instance, abstraction_of};
ghost use Rattle.mu_decl.specs.Weights.{weight, weights};
ghost use Rattle.mu_decl.specs.Laws.{VariablesStay, InstancesAreClosed, NothingIsCaptured};

use crate::bare::{Bare, Bares};
use crate::growing::{MOST_NODES, application, binding, metavariable, place, spend, variable};
use crate::opening::opened_within;
use mu_tree::{Name, NoMemory};
use sqlite_items::Items;
use std::alloc::Global;

/// What stands for a metavariable: a body under as many binders as the metavariable has parameters.
#[derive(Debug, Drop)]
pub struct Abstraction {
    /// The metavariable.
    pub meta: Name,
    /// How many parameters it has.
    pub count: usize,
    /// What it stands for, in which a parameter is a loose index, 0 for the last one.
    pub body: Bare,
}

/// The tree with all metavariables replaced at once: each by the body of its first abstraction, opened by the
/// metavariable's instantiated arguments. A metavariable that has no abstraction, or has another number of arguments
/// than its abstraction has parameters, stays. So a metavariable with arguments is a second-order variable, and what
/// stands for it is applied to them at once.
///
/// The last three clauses say that nothing is captured: a free variable of the result is one of the tree or of an
/// inserted body (`variables`), an inserted body refers to no binder of the tree (`closed`), and a binder's variable
/// may be replaced before or after with the same result (`capture`). The premise of the last two, that a body has no
/// loose indices but its parameters, holds of what `enter` gives under the parameters' names.
///
/// # Errors
///
/// `NoMemory` may come at any tree, and comes where more than a million nodes would be made, an inserted body would be
/// deeper than four thousand levels, or an index would pass `u64::MAX`.
#[tactic(auto, using(crate::proofs::FreeVariables::variables_stay, crate::proofs::Closing::instances_are_closed, crate::proofs::Capture::nothing_is_captured))]
pub fn instantiate(alloc: Global, tree: &Bare, given: &[Abstraction]) -> Result<Bare, NoMemory>
    ensures value { IfOk result (λ bare. bare ≡ instantiated given.now tree.now) }
    ensures bounded { IfOk result (λ bare. weight bare ≤ 2 ^ 20) }
    ensures variables { VariablesStay }
    ensures closed { InstancesAreClosed }
    ensures capture { NothingIsCaptured }
{
    let mut room = MOST_NODES;
    replaced(alloc, tree, given, &mut room)
}

/// The trees, each with all metavariables replaced as `instantiate` does.
///
/// # Errors
///
/// As `instantiate`, for all trees together.
pub fn instantiate_all(
    alloc: Global,
    trees: &[Bare],
    given: &[Abstraction],
) -> Result<Bares, NoMemory>
    ensures value { IfOk result (λ all. all ≡ map (instantiated given.now) trees.now) }
    ensures bounded { IfOk result (λ all. weights all ≤ 2 ^ 20) }
{
    let mut room = MOST_NODES;
    replaced_all(alloc, trees, given, &mut room)
}

#[cycle(replaced)]
#[tactic(auto, using(crate::proofs::OpeningEquations::instantiated_equations))]
fn replaced(
    alloc: Global,
    tree: &Bare,
    given: &[Abstraction],
    room: &mut u64,
) -> Result<Bare, NoMemory>
    ensures value { IfOk result (λ bare. bare ≡ instantiated given.now tree.now) }
    ensures counted { IfOk result (λ bare. weight bare + room.new ≤ room.old) }
{
    spend(room)?;
    match tree {
        Bare::Var(name) => variable(alloc, name),
        Bare::Index(index) => Ok(place(*index)),
        Bare::App(name, arguments) => {
            let arguments = replaced_all(alloc, arguments.as_slice(), given, room)?;
            application(alloc, name, arguments)
        }
        Bare::Meta(name, arguments) => {
            let arguments = replaced_all(alloc, arguments.as_slice(), given, room)?;
            instance(alloc, name, arguments, given, room)
        }
        Bare::Bind(binder, domain, body) => {
            let domain = replaced(alloc, domain.get(), given, room)?;
            let body = replaced(alloc, body.get(), given, room)?;
            binding(alloc, binder, domain, body)
        }
    }
}

#[cycle(replaced)]
fn replaced_all(
    alloc: Global,
    trees: &[Bare],
    given: &[Abstraction],
    room: &mut u64,
) -> Result<Bares, NoMemory>
    ensures value { IfOk result (λ all. all ≡ map (instantiated given.now) trees.now) }
    ensures counted { IfOk result (λ all. weights all + room.new ≤ room.old) }
{
    let mut all = Items::new(alloc);
    for tree in trees {
        all.push(replaced(alloc, tree, given, room)?)?;
    }
    Ok(all)
}

// The nodes of the arguments were counted already, and one for the metavariable.
fn instance(
    alloc: Global,
    meta: &Name,
    arguments: Bares,
    given: &[Abstraction],
    room: &mut u64,
) -> Result<Bare, NoMemory>
    ensures value { IfOk result (λ bare. bare ≡ instance given.now meta.now arguments) }
    ensures counted { IfOk result (λ bare. weight bare + room.new ≤ room.old + 1 + weights arguments) }
{
    match abstraction_of(given, meta) {
        Some(found) if found.count == arguments.len() => {
            opened_within(alloc, &found.body, &arguments, room)
        }
        _ => metavariable(alloc, meta, arguments),
    }
}

fn abstraction_of<'a>(given: &'a [Abstraction], meta: &Name) -> Option<&'a Abstraction>
    ensures { option_copied result ≡ abstraction_of given.now meta.now }
{
    given.iter().find(|abstraction| abstraction.meta == *meta)
}

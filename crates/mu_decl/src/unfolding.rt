ghost use Rattle.std.specs.Prelude.{◌≡◌, ◌+◌, ◌≤◌, ◌^◌, [], IfOk, map};
ghost use Rattle.mu_decl.specs.Nameless.{nameless};
ghost use Rattle.mu_decl.specs.Laws.{UnfoldingOpens};
ghost use Rattle.mu_decl.specs.Weights.{weight, weights};
ghost use Rattle.mu_decl.specs.Unfolding.{unfolded, unfolded_application, delta_of};

use crate::bare::{Bare, Bares};
use crate::binders::Binders;
use crate::growing::{MOST_NODES, application, binding, metavariable, place, spend, variable};
use crate::nameless::enter;
use crate::opening::opened_within;
use crate::scopes::Variables;
use mu_tree::{Definition, Name, NoMemory};
use sqlite_items::Items;
use std::alloc::Global;

/// A definition as a rule of delta reduction: its body, under as many binders as the constant has parameters.
#[derive(Debug, Drop)]
pub struct DeltaRule {
    /// The constant that is defined.
    pub constant: Name,
    /// How many parameters it has.
    pub count: usize,
    /// What it stands for, in which a parameter is a loose index, 0 for the last one.
    pub body: Bare,
}

/// The definition of a constant.
pub fn delta_of(
    alloc: Global,
    constant: &Name,
    definition: &Definition,
) -> Result<DeltaRule, NoMemory>
    ensures { IfOk result (λ delta. delta ≡ delta_of constant.now definition.now) }
{
    let body = entered_body(alloc, definition)?;
    Ok(DeltaRule {
        constant: constant.copy(alloc)?,
        count: definition.params.len(),
        body,
    })
}

/// The body of a definition under its parameters.
fn entered_body(alloc: Global, definition: &Definition) -> Result<Bare, NoMemory>
    ensures { IfOk result (λ body. body ≡ nameless [] definition.now.params definition.now.body) }
{
    let scope = Variables::new(alloc);
    let bound = Binders::of(alloc, definition.params.items())?;
    enter(alloc, &definition.body, &scope, &bound)
}

/// A tree with a defined constant replaced by its definition wherever it stands with as many arguments as there are
/// parameters, from inside out. In the bodies that come in it is not replaced again.
///
/// The clause `opens` says that it does not matter whether a binder is opened before or after. Its premise, that the
/// definition has no loose indices but its parameters, holds of what `delta_of` gives.
///
/// # Errors
///
/// `NoMemory` may come at any tree, and comes where more than a million nodes would be made, a body that came in would
/// be deeper than four thousand levels, or an index would pass `u64::MAX`.
#[tactic(auto, using(crate::proofs::UnfoldedOpened::unfolding_opens))]
pub fn unfolded(alloc: Global, tree: &Bare, delta: &DeltaRule) -> Result<Bare, NoMemory>
    ensures value { IfOk result (λ bare. bare ≡ unfolded delta.now tree.now) }
    ensures bounded { IfOk result (λ bare. weight bare ≤ 2 ^ 20) }
    ensures opens { UnfoldingOpens }
{
    let mut room = MOST_NODES;
    reduced(alloc, tree, delta, &mut room)
}

#[cycle(reduced)]
#[tactic(auto, using(crate::proofs::UnfoldedEquations::unfolded_equations))]
fn reduced(alloc: Global, tree: &Bare, delta: &DeltaRule, room: &mut u64) -> Result<Bare, NoMemory>
    ensures value { IfOk result (λ bare. bare ≡ unfolded delta.now tree.now) }
    ensures counted { IfOk result (λ bare. weight bare + room.new ≤ room.old) }
{
    spend(room)?;
    match tree {
        Bare::Var(name) => variable(alloc, name),
        Bare::Index(index) => Ok(place(*index)),
        Bare::App(name, arguments) => {
            let arguments = reduced_all(alloc, arguments.as_slice(), delta, room)?;
            reduct(alloc, name, arguments, delta, room)
        }
        Bare::Meta(name, arguments) => {
            let arguments = reduced_all(alloc, arguments.as_slice(), delta, room)?;
            metavariable(alloc, name, arguments)
        }
        Bare::Bind(binder, domain, body) => {
            let domain = reduced(alloc, domain.get(), delta, room)?;
            let body = reduced(alloc, body.get(), delta, room)?;
            binding(alloc, binder, domain, body)
        }
    }
}

#[cycle(reduced)]
fn reduced_all(
    alloc: Global,
    trees: &[Bare],
    delta: &DeltaRule,
    room: &mut u64,
) -> Result<Bares, NoMemory>
    ensures value { IfOk result (λ all. all ≡ map (unfolded delta.now) trees.now) }
    ensures counted { IfOk result (λ all. weights all + room.new ≤ room.old) }
{
    let mut all = Items::new(alloc);
    for tree in trees {
        all.push(reduced(alloc, tree, delta, room)?)?;
    }
    Ok(all)
}

// The nodes of the arguments were counted already, and one for the constant.
fn reduct(
    alloc: Global,
    name: &Name,
    arguments: Bares,
    delta: &DeltaRule,
    room: &mut u64,
) -> Result<Bare, NoMemory>
    ensures value { IfOk result (λ bare. bare ≡ unfolded_application delta.now name.now arguments) }
    ensures counted { IfOk result (λ bare. weight bare + room.new ≤ room.old + 1 + weights arguments) }
{
    if *name == delta.constant && delta.count == arguments.len() {
        opened_within(alloc, &delta.body, &arguments, room)
    } else {
        application(alloc, name, arguments)
    }
}

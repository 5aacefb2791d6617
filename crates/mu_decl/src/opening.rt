ghost use Rattle.std.specs.Prelude.{◌≡◌, ◌+◌, ◌≤◌, ◌^◌, IfOk, map, reverse, slice_get};
ghost use Rattle.std.specs.Option.{option_copied};
ghost use Rattle.mu_decl.specs.Opening.{shift_under, opened, open_under, opened_index};
ghost use Rattle.mu_decl.specs.Weights.{weight, weights};
ghost use Rattle.mu_decl.specs.Laws.{OpeningEnters, ShiftedIsUntouched};

use crate::bare::{Bare, Bares};
use crate::growing::{
    MOST_LEVELS, MOST_NODES, application, binding, fewer, metavariable, place, spend, variable,
};
use mu_tree::NoMemory;
use sqlite_items::Items;
use std::alloc::Global;

pub(crate) fn added(left: u64, right: u64) -> Result<u64, NoMemory>
    ensures { IfOk result (λ sum. sum ≡ left + right) }
{
    left.checked_add(right).ok_or(NoMemory)
}

// The loose indices raised by `by`, of a tree under `depth` binders.
pub(crate) fn shifted(alloc: Global, tree: &Bare, by: u64) -> Result<Bare, NoMemory>
    ensures { IfOk result (λ shifted. shifted ≡ shift_under by 0 tree.now) }
{
    let mut room = MOST_NODES;
    shift_under(alloc, tree, by, 0, MOST_LEVELS, &mut room)
}

// The loose indices raised by `by`, of a tree under `depth` binders.
#[cycle(shift)]
#[tactic(auto, using(crate::proofs::OpeningEquations::shift_equations))]
fn shift_under(
    alloc: Global,
    tree: &Bare,
    by: u64,
    depth: u64,
    levels: u64,
    room: &mut u64,
) -> Result<Bare, NoMemory>
    ensures value { IfOk result (λ shifted. shifted ≡ shift_under by depth tree.now) }
    ensures counted { IfOk result (λ shifted. weight shifted + room.new ≤ room.old) }
{
    let levels = fewer(levels)?;
    spend(room)?;
    match tree {
        Bare::Var(name) => variable(alloc, name),
        Bare::Index(index) => {
            if *index < depth {
                Ok(place(*index))
            } else {
                Ok(place(added(*index, by)?))
            }
        }
        Bare::App(name, arguments) => {
            let arguments = shift_all(alloc, arguments.as_slice(), by, depth, levels, room)?;
            application(alloc, name, arguments)
        }
        Bare::Meta(name, arguments) => {
            let arguments = shift_all(alloc, arguments.as_slice(), by, depth, levels, room)?;
            metavariable(alloc, name, arguments)
        }
        Bare::Bind(binder, domain, body) => {
            let domain = shift_under(alloc, domain.get(), by, depth, levels, room)?;
            let body = shift_under(alloc, body.get(), by, added(depth, 1)?, levels, room)?;
            binding(alloc, binder, domain, body)
        }
    }
}

#[cycle(shift)]
fn shift_all(
    alloc: Global,
    trees: &[Bare],
    by: u64,
    depth: u64,
    levels: u64,
    room: &mut u64,
) -> Result<Bares, NoMemory>
    ensures value { IfOk result (λ all. all ≡ map (shift_under by depth) trees.now) }
    ensures counted { IfOk result (λ all. weights all + room.new ≤ room.old) }
{
    let mut all = Items::new(alloc);
    for tree in trees {
        all.push(shift_under(alloc, tree, by, depth, levels, room)?)?;
    }
    Ok(all)
}

/// The tree with its innermost loose indices replaced by the trees `by`, the last of them for the innermost, and the
/// other loose indices lowered by as many.
///
/// Each replacement is shifted past the binders that it is put under, and the clause `untouched` says what that is
/// for: whatever these binders' variables become later, it stays as it was. The clause `closing` says that opening
/// undoes closing: a tree that was entered under bound names, opened by the variables of these names, is the tree
/// entered with the names in scope.
///
/// # Errors
///
/// `NoMemory` may come at any tree, and comes where the tree would have more than a million nodes or be deeper than
/// four thousand levels, or an index would pass `u64::MAX`.
#[tactic(auto, using(crate::proofs::EnteredOpened::opening_enters, crate::proofs::Untouched::shifted_is_untouched))]
pub fn opened(alloc: Global, tree: &Bare, by: &Bares) -> Result<Bare, NoMemory>
    ensures value { IfOk result (λ bare. bare ≡ opened by.now tree.now) }
    ensures bounded { IfOk result (λ bare. weight bare ≤ 2 ^ 20) }
    ensures closing { OpeningEnters }
    ensures untouched { ShiftedIsUntouched }
{
    let mut room = MOST_NODES;
    opened_within(alloc, tree, by, &mut room)
}

// As `opened`, by as many nodes as there is room for.
pub(crate) fn opened_within(
    alloc: Global,
    tree: &Bare,
    by: &Bares,
    room: &mut u64,
) -> Result<Bare, NoMemory>
    ensures value { IfOk result (λ bare. bare ≡ opened by.now tree.now) }
    ensures counted { IfOk result (λ bare. weight bare + room.new ≤ room.old) }
{
    open_under(alloc, tree, by, 0, MOST_LEVELS, room)
}

#[cycle(open)]
#[tactic(auto, using(crate::proofs::OpeningEquations::open_equations))]
fn open_under(
    alloc: Global,
    tree: &Bare,
    by: &Bares,
    depth: u64,
    levels: u64,
    room: &mut u64,
) -> Result<Bare, NoMemory>
    ensures value { IfOk result (λ bare. bare ≡ open_under by.now depth tree.now) }
    ensures counted { IfOk result (λ bare. weight bare + room.new ≤ room.old) }
{
    let levels = fewer(levels)?;
    spend(room)?;
    match tree {
        Bare::Var(name) => variable(alloc, name),
        Bare::Index(index) => open_index(alloc, *index, by, depth, levels, room),
        Bare::App(name, arguments) => {
            let arguments = open_all(alloc, arguments.as_slice(), by, depth, levels, room)?;
            application(alloc, name, arguments)
        }
        Bare::Meta(name, arguments) => {
            let arguments = open_all(alloc, arguments.as_slice(), by, depth, levels, room)?;
            metavariable(alloc, name, arguments)
        }
        Bare::Bind(binder, domain, body) => {
            let domain = open_under(alloc, domain.get(), by, depth, levels, room)?;
            let body = open_under(alloc, body.get(), by, added(depth, 1)?, levels, room)?;
            binding(alloc, binder, domain, body)
        }
    }
}

#[cycle(open)]
fn open_all(
    alloc: Global,
    trees: &[Bare],
    by: &Bares,
    depth: u64,
    levels: u64,
    room: &mut u64,
) -> Result<Bares, NoMemory>
    ensures value { IfOk result (λ all. all ≡ map (open_under by.now depth) trees.now) }
    ensures counted { IfOk result (λ all. weights all + room.new ≤ room.old) }
{
    let mut all = Items::new(alloc);
    for tree in trees {
        all.push(open_under(alloc, tree, by, depth, levels, room)?)?;
    }
    Ok(all)
}

// The node of an index itself was counted already.
fn open_index(
    alloc: Global,
    index: u64,
    by: &Bares,
    depth: u64,
    levels: u64,
    room: &mut u64,
) -> Result<Bare, NoMemory>
    ensures value { IfOk result (λ bare. bare ≡ opened_index by.now depth index) }
    ensures counted { IfOk result (λ bare. weight bare + room.new ≤ room.old + 1) }
{
    if index < depth {
        return Ok(place(index));
    }
    match replacement(by.as_slice(), (index - depth) as usize) {
        Some(tree) => shift_under(alloc, tree, depth, 0, levels, room),
        None => Ok(place(index - by.len() as u64)),
    }
}

// The tree that stands for the loose index `at`, the last one for 0.
pub(crate) fn replacement(by: &[Bare], at: usize) -> Option<&Bare>
    ensures { option_copied result ≡ slice_get (reverse by.now) at }
{
    by.iter().rev().nth(at)
}

ghost use Rattle.std.specs.Prelude.{◌≡◌, ◌↔◌, ℕ, IsTrue, IfOk, MatchOption, List, length, map};
ghost use Rattle.mu_decl.specs.declared.bare.Bare.{Bare};
ghost use Rattle.mu_decl.specs.declared.bare.Bare.TheVariants as bare;
ghost use Rattle.mu_decl.specs.declared.instantiating.Abstraction.{Abstraction as AbstractionOf};
ghost use Rattle.mu_decl.specs.Opening.{shift_under, opened, opened_index};
ghost use Rattle.mu_decl.specs.Instantiating.{instantiated, instance};
ghost use Rattle.mu_decl.specs.Comparing.{read, Fits};

use crate::abstractions::Abstractions;
use crate::bare::{Bare, Bares, same};
use crate::opening::{added, opened, replacement, shifted};
use mu_tree::{Name, NoMemory};
use sqlite_items::Items;
use std::alloc::Global;

/// How a part of a pattern is read.
#[derive(Clone, Copy)]
pub(crate) enum Reading<'a> {
    /// Its metavariables are replaced.
    Instantiated,
    /// It stands in a body, under this many binders of it, and the body is opened by these arguments, whose
    /// metavariables are replaced.
    Opened(&'a [Bare], u64),
}

/// A part of a pattern, and the tree that it is compared with.
#[derive(Clone, Copy)]
pub(crate) struct Pair<'a> {
    pub(crate) reading: Reading<'a>,
    pub(crate) pattern: &'a Bare,
    pub(crate) tree: &'a Bare,
}

/// What is left to compare after the tops of a pattern and of a tree.
#[derive(Drop)]
pub(crate) enum Rest<'a> {
    /// Nothing, and whether the tree is the pattern.
    Known(bool),
    /// A pair.
    One(Pair<'a>),
    /// An argument, and a tree that was taken out from under binders.
    Lowered(&'a Bare, Bare),
    /// Parts and trees, place by place.
    All(Reading<'a>, &'a [Bare], &'a [Bare]),
    /// The domains and the bodies of two binders.
    Both(Pair<'a>, Pair<'a>),
}

/// What is left to compare of a pattern, as it is read, and a tree.
#[tactic(auto, using(crate::proofs::Reading::read_equations))]
pub(crate) fn parts<'a>(
    alloc: Global,
    given: &'a Abstractions,
    reading: Reading<'a>,
    pattern: &'a Bare,
    tree: &'a Bare,
) -> Result<Rest<'a>, NoMemory>
    ensures { IfOk result (λ rest. Fits given.now rest ↔ (read given.now reading.entry pattern.now ≡ tree.now)) }
{
    match pattern {
        Bare::Var(_) => Ok(Rest::Known(same(pattern, tree))),
        Bare::Index(index) => index_parts(alloc, reading, *index, tree),
        Bare::App(name, patterns) => {
            let rest = constant_parts(reading, name, patterns.as_slice(), tree);
            Ok(rest)
        }
        Bare::Meta(name, arguments) => {
            let rest = metavariable_parts(given, reading, name, arguments.as_slice(), tree);
            Ok(rest)
        }
        Bare::Bind(name, domain, body) => {
            binder_parts(reading, name, domain.get(), body.get(), tree)
        }
    }
}

/// What is left of parts under a constant.
fn constant_parts<'a>(
    reading: Reading<'a>,
    name: &Name,
    patterns: &'a [Bare],
    tree: &'a Bare,
) -> Rest<'a>
    ensures { (given : List AbstractionOf) → Fits given result ↔ (bare.App name.now (map (read given reading.entry) patterns.now) ≡ tree.now) }
{
    match tree {
        Bare::App(other, trees) if *name == *other => {
            Rest::All(reading, patterns, trees.as_slice())
        }
        _ => Rest::Known(false),
    }
}

/// What is left of parts under a metavariable that stays.
fn kept_parts<'a>(
    reading: Reading<'a>,
    name: &Name,
    patterns: &'a [Bare],
    tree: &'a Bare,
) -> Rest<'a>
    ensures { (given : List AbstractionOf) → Fits given result ↔ (bare.Meta name.now (map (read given reading.entry) patterns.now) ≡ tree.now) }
{
    match tree {
        Bare::Meta(other, trees) if *name == *other => {
            Rest::All(reading, patterns, trees.as_slice())
        }
        _ => Rest::Known(false),
    }
}

#[tactic(auto, using(crate::proofs::Reading::read_equations))]
fn metavariable_parts<'a>(
    given: &'a Abstractions,
    reading: Reading<'a>,
    name: &Name,
    arguments: &'a [Bare],
    tree: &'a Bare,
) -> Rest<'a>
    ensures { Fits given.now result ↔ (read given.now reading.entry (bare.Meta name.now arguments.now) ≡ tree.now) }
{
    match reading {
        Reading::Instantiated => instance_parts(given, name, arguments, tree),
        Reading::Opened(_, _) => kept_parts(reading, name, arguments, tree),
    }
}

/// What is left of a metavariable that is replaced.
fn instance_parts<'a>(
    given: &'a Abstractions,
    name: &Name,
    arguments: &'a [Bare],
    tree: &'a Bare,
) -> Rest<'a>
    ensures { Fits given.now result ↔ (instance given.now name.now (map (instantiated given.now) arguments.now) ≡ tree.now) }
{
    let reading = Reading::Instantiated;
    match body_for(given, name, arguments.len()) {
        Some(pattern) => {
            let reading = Reading::Opened(arguments, 0);
            let pair = Pair {
                reading,
                pattern,
                tree,
            };
            Rest::One(pair)
        }
        None => kept_parts(reading, name, arguments, tree),
    }
}

/// What stands for a metavariable with this many arguments, none where it stays.
fn body_for<'a>(given: &'a Abstractions, name: &Name, count: usize) -> Option<&'a Bare>
    ensures { MatchOption result ((trees : List Bare) → length trees ≡ count → instance given.now name.now trees ≡ bare.Meta name.now trees) (λ body. (trees : List Bare) → length trees ≡ count → instance given.now name.now trees ≡ opened trees body.now) }
{
    match given.find(name) {
        Some(found) if found.count == count => Some(&found.body),
        _ => None,
    }
}

/// What is left of a domain and a body under a binder.
fn binder_parts<'a>(
    reading: Reading<'a>,
    name: &Name,
    domain: &'a Bare,
    body: &'a Bare,
    tree: &'a Bare,
) -> Result<Rest<'a>, NoMemory>
    ensures { IfOk result (λ rest. (given : List AbstractionOf) → Fits given rest ↔ (read given reading.entry (bare.Bind name.now domain.now body.now) ≡ tree.now)) }
{
    let under = under_binder(reading)?;
    match bound_by(tree, name) {
        Some((tree_domain, tree_body)) => {
            let outer = Pair {
                reading,
                pattern: domain,
                tree: tree_domain,
            };
            let inner = Pair {
                reading: under,
                pattern: body,
                tree: tree_body,
            };
            Ok(Rest::Both(outer, inner))
        }
        None => Ok(Rest::Known(false)),
    }
}

/// The domain and the body under the binder of this name, where the tree has one at its top.
fn bound_by<'a>(tree: &'a Bare, name: &Name) -> Option<(&'a Bare, &'a Bare)>
    ensures { MatchOption result ((domain body : Bare) → bare.Bind name.now domain body ≡ tree.now → ⊥) (λ parts. bare.Bind name.now parts.0.now parts.1.now ≡ tree.now) }
{
    match tree {
        Bare::Bind(other, domain, body) if *name == *other => Some((domain.get(), body.get())),
        _ => None,
    }
}

/// How the body under a binder is read, where the binder is read so.
#[tactic(auto, using(crate::proofs::Reading::read_equations))]
fn under_binder(reading: Reading) -> Result<Reading, NoMemory>
    ensures { IfOk result (λ under. (given : List AbstractionOf) (name : List ℕ) (domain body : Bare) → read given reading.entry (bare.Bind name domain body) ≡ bare.Bind name (read given reading.entry domain) (read given under body)) }
{
    match reading {
        Reading::Instantiated => Ok(reading),
        Reading::Opened(arguments, depth) => Ok(Reading::Opened(arguments, added(depth, 1)?)),
    }
}

#[tactic(auto, using(crate::proofs::Reading::read_equations))]
fn index_parts<'a>(
    alloc: Global,
    reading: Reading<'a>,
    index: u64,
    tree: &'a Bare,
) -> Result<Rest<'a>, NoMemory>
    ensures { IfOk result (λ rest. (given : List AbstractionOf) → Fits given rest ↔ (read given reading.entry (bare.Index index) ≡ tree.now)) }
{
    match reading {
        Reading::Instantiated => Ok(Rest::Known(is_index(tree, index))),
        Reading::Opened(arguments, depth) => opened_parts(alloc, arguments, index, depth, tree),
    }
}

fn opened_parts<'a>(
    alloc: Global,
    arguments: &'a [Bare],
    index: u64,
    depth: u64,
    tree: &'a Bare,
) -> Result<Rest<'a>, NoMemory>
    ensures { IfOk result (λ rest. (given : List AbstractionOf) → Fits given rest ↔ (opened_index (map (instantiated given) arguments.now) depth index ≡ tree.now)) }
{
    if index < depth {
        return Ok(Rest::Known(is_index(tree, index)));
    }
    match replacement(arguments, (index - depth) as usize) {
        Some(argument) => shifted_parts(alloc, argument, depth, tree),
        None => {
            let lower = index - arguments.len() as u64;
            Ok(Rest::Known(is_index(tree, lower)))
        }
    }
}

/// What is left of an argument that is put under `by` binders. For this the tree is taken out from under them.
fn shifted_parts<'a>(
    alloc: Global,
    argument: &'a Bare,
    by: u64,
    tree: &'a Bare,
) -> Result<Rest<'a>, NoMemory>
    ensures { IfOk result (λ rest. (given : List AbstractionOf) → Fits given rest ↔ (shift_under by 0 (instantiated given argument.now) ≡ tree.now)) }
{
    if by == 0 {
        let reading = Reading::Instantiated;
        let pair = Pair {
            reading,
            pattern: argument,
            tree,
        };
        return Ok(Rest::One(pair));
    }
    match lowered(alloc, tree, by)? {
        Some(outer) => Ok(Rest::Lowered(argument, outer)),
        None => Ok(Rest::Known(false)),
    }
}

fn is_index(tree: &Bare, index: u64) -> bool
    ensures { IsTrue result ↔ (bare.Index index ≡ tree.now) }
{
    match tree {
        Bare::Index(other) => index == *other,
        Bare::Var(_) | Bare::App(_, _) | Bare::Meta(_, _) | Bare::Bind(_, _, _) => false,
    }
}

/// The tree that gives this one when it is put under `by` binders, none where there is none.
fn lowered(alloc: Global, tree: &Bare, by: u64) -> Result<Option<Bare>, NoMemory>
    ensures { IfOk result (λ found. MatchOption found ((outer : Bare) → shift_under by 0 outer ≡ tree.now → ⊥) (λ low. (outer : Bare) → (outer ≡ low) ↔ (shift_under by 0 outer ≡ tree.now))) }
{
    let low = taken_out(alloc, tree, by)?;
    if is_put_back(alloc, &low, by, tree)? {
        Ok(Some(low))
    } else {
        Ok(None)
    }
}

/// The tree, taken out from under `by` binders as far as it goes.
fn taken_out(alloc: Global, tree: &Bare, by: u64) -> Result<Bare, NoMemory>
    ensures { IfOk result (λ low. (trees : List Bare) × (length trees ≡ by) × (low ≡ opened trees tree.now)) }
{
    let binders = placeholders(alloc, by)?;
    let low = opened(alloc, tree, &binders)?;
    Ok(low)
}

/// Whether a tree that is put under `by` binders is this one.
fn is_put_back(alloc: Global, low: &Bare, by: u64, tree: &Bare) -> Result<bool, NoMemory>
    ensures { IfOk result (λ yes. IsTrue yes ↔ (shift_under by 0 low.now ≡ tree.now)) }
{
    let back = shifted(alloc, low, by)?;
    Ok(same(&back, tree))
}

/// Some trees, as many as `count`.
fn placeholders(alloc: Global, count: u64) -> Result<Bares, NoMemory>
    ensures { IfOk result (λ trees. length trees ≡ count) }
{
    let mut trees = Items::new(alloc);
    for made in 0..count {
        trees.push(Bare::Index(0))?;
    }
    Ok(trees)
}

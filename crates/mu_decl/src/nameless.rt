ghost use Rattle.std.specs.Prelude.{◌≡◌, ◌++◌, ◌+◌, [], IfOk, OnOk, map, cond};
ghost use Rattle.std.specs.Option.{option_map};
ghost use Rattle.mu_tree.specs.Names.{is_among};
ghost use Rattle.mu_decl.specs.declared.bare.Bare.TheVariants as bare;
ghost use Rattle.mu_decl.specs.Nameless.{nameless, applied, leaf, place};
ghost use Rattle.mu_decl.specs.Laws.{RenamingIsFree, EnteredIsClosed};

use crate::bare::{Bare, Bares};
use crate::binders::Binders;
use crate::growing::{application, binding, metavariable};
use crate::opening::added;
use crate::scopes::Variables;
use mu_tree::{Name, Names, NoMemory, Sequence, Tree};
use sqlite_items::Items;
use std::alloc::Global;

/// The nameless tree of `tree` where the names of `scope` are variables and the tree stands under binders of the
/// names in `bound`, the last one innermost.
///
/// A name without arguments is the innermost bound variable of that name, and else a variable in scope, and else a
/// constant. A name with arguments is a constant. The clause `renaming` says what this is for: the names of bound
/// variables do not count. The clause `closed` says that the loose indices are those of `bound`.
///
/// # Errors
///
/// `NoMemory` may come at any tree.
#[tactic(auto, using(crate::proofs::Renaming::renaming_is_free, crate::proofs::EnteredClosed::entered_is_closed, crate::proofs::EnteringEquations::scope_equations))]
pub fn enter(
    alloc: Global,
    tree: &Tree,
    scope: &Variables,
    bound: &Binders,
) -> Result<Bare, NoMemory>
    ensures value { IfOk result (λ bare. bare ≡ nameless scope.now bound.now tree.now) }
    ensures renaming { RenamingIsFree }
    ensures closed { EnteredIsClosed }
{
    let mut inner = Sequence::new(alloc);
    under(alloc, tree, scope, bound, &mut inner)
}

/// The nameless tree of a tree that stands under the binders of the names in `inner` as well, within all others.
#[cycle(under)]
#[tactic(auto, using(crate::proofs::EnteringEquations::nameless_equations, crate::proofs::EnteringEquations::scope_equations))]
fn under(
    alloc: Global,
    tree: &Tree,
    scope: &Variables,
    bound: &Binders,
    inner: &mut Names,
) -> Result<Bare, NoMemory>
    ensures value { IfOk result (λ bare. bare ≡ nameless scope.now (bound.now ++ inner.old) tree.now) }
    ensures kept { OnOk result (inner.new ≡ inner.old) }
{
    match tree {
        Tree::App(name, arguments) => {
            let arguments = under_all(alloc, arguments.as_slice(), scope, bound, inner)?;
            applied(alloc, name, arguments, scope, bound, inner)
        }
        Tree::Meta(name, arguments) => {
            let arguments = under_all(alloc, arguments.as_slice(), scope, bound, inner)?;
            metavariable(alloc, name, arguments)
        }
        Tree::Bind {
            binder,
            var,
            dom,
            body,
        } => {
            let domain = under(alloc, dom.get(), scope, bound, inner)?;
            let outer = inner.len();
            inner.push(var.copy(alloc)?)?;
            let body = under(alloc, body.get(), scope, bound, inner)?;
            inner.truncate(outer);
            binding(alloc, binder, domain, body)
        }
    }
}

#[cycle(under)]
fn under_all(
    alloc: Global,
    trees: &[Tree],
    scope: &Variables,
    bound: &Binders,
    inner: &mut Names,
) -> Result<Bares, NoMemory>
    ensures value { IfOk result (λ all. all ≡ map (nameless scope.now (bound.now ++ inner.old)) trees.now) }
    ensures kept { OnOk result (inner.new ≡ inner.old) }
{
    let mut all = Items::new(alloc);
    for tree in trees {
        all.push(under(alloc, tree, scope, bound, inner)?)?;
    }
    Ok(all)
}

/// A name with its arguments.
fn applied(
    alloc: Global,
    name: &Name,
    arguments: Bares,
    scope: &Variables,
    bound: &Binders,
    inner: &Names,
) -> Result<Bare, NoMemory>
    ensures { IfOk result (λ bare. bare ≡ applied scope.now (bound.now ++ inner.now) name.now arguments) }
{
    if arguments.is_empty() {
        leaf(alloc, name, scope, bound, inner)
    } else {
        application(alloc, name, arguments)
    }
}

#[tactic(auto, unfolding(crate::specs::Nameless::place))]
fn inner_place(inner: &Names, name: &Name) -> Option<usize>
    ensures { result ≡ place inner.now name.now }
{
    inner.items().iter().rev().position(|other| other == name)
}

/// The place of a name among binders that have `depth` more within them.
fn outer_place(bound: &Binders, depth: usize, name: &Name) -> Result<Option<u64>, NoMemory>
    ensures { IfOk result (λ index. index ≡ option_map (λ j. depth + j) (place bound.now name.now)) }
{
    match bound.place(name) {
        Some(index) => Ok(Some(added(depth as u64, index as u64)?)),
        None => Ok(None),
    }
}

#[tactic(auto, using(crate::proofs::EnteringEquations::place_equations))]
fn place(bound: &Binders, inner: &Names, name: &Name) -> Result<Option<u64>, NoMemory>
    ensures { IfOk result (λ index. index ≡ place (bound.now ++ inner.now) name.now) }
{
    match inner_place(inner, name) {
        Some(index) => Ok(Some(index as u64)),
        None => outer_place(bound, inner.len(), name),
    }
}

/// A name without arguments that no binder binds.
fn free(alloc: Global, name: &Name, scope: &Variables) -> Result<Bare, NoMemory>
    ensures { IfOk result (λ node. node ≡ cond (is_among scope.now name.now) (bare.Var name.now) (bare.App name.now [])) }
{
    let known = scope.contains(name);
    let name = name.copy(alloc)?;
    if known {
        Ok(Bare::Var(name))
    } else {
        Ok(Bare::App(name, Items::new(alloc)))
    }
}

fn leaf(
    alloc: Global,
    name: &Name,
    scope: &Variables,
    bound: &Binders,
    inner: &Names,
) -> Result<Bare, NoMemory>
    ensures { IfOk result (λ bare. bare ≡ leaf scope.now (bound.now ++ inner.now) name.now) }
{
    match place(bound, inner, name)? {
        Some(index) => Ok(Bare::Index(index)),
        None => free(alloc, name, scope),
    }
}

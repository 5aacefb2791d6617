ghost use Rattle.std.specs.Prelude.{◌≡◌, ◌++◌, map, IfOk, OnOk};
ghost use Rattle.mu_tree.specs.Names.{is_among};
ghost use Rattle.mu_tree.specs.Trees.{joined};
ghost use Rattle.mu_defs.specs.Uses.{constant_of, constants_in, used_by, UsesAreConstants};

use mu_decl::Variables;
use mu_tree::{Definition, Name, Names, NoMemory, Sequence, Tree};
use std::alloc::Global;

/// What a definition leads to: the constants of its body from left to right, a constant before those of its arguments.
///
/// A name without arguments is a variable where a parameter or an enclosing binder has it, and else a constant. A name
/// with arguments is always one. Whether a constant is declared doesn't matter.
///
/// # Errors
///
/// `NoMemory`.
#[tactic(auto, using(crate::proofs::UseLemmas::uses_are_constants, crate::proofs::UseLemmas::scope_equations))]
pub fn used_by(alloc: Global, definition: &Definition) -> Result<Vec<Name>, NoMemory>
    ensures value { IfOk result (λ names. names.items ≡ used_by definition.now) }
    ensures law { UsesAreConstants }
{
    let scope = Variables::of(alloc, definition.params.items())?;
    let mut inner = Sequence::new(alloc);
    let mut found = Vec::new(alloc);
    add_constants(alloc, &definition.body, &scope, &mut inner, &mut found)?;
    Ok(found)
}

/// Adds the constants of a tree in a scope, under binders of the names in `inner` within it.
#[cycle(constants)]
#[tactic(auto, using(crate::proofs::UseLemmas::constants_equations, crate::proofs::UseLemmas::scope_equations))]
fn add_constants(
    alloc: Global,
    tree: &Tree,
    scope: &Variables,
    inner: &mut Names,
    found: &mut Vec<Name>,
) -> Result<(), NoMemory>
    ensures value { OnOk result (found.new.items ≡ found.old.items ++ constants_in (scope.now ++ inner.old) tree.now) }
    ensures kept { OnOk result (inner.new ≡ inner.old) }
{
    match tree {
        Tree::App(name, arguments) => {
            add_constant(alloc, name, arguments.as_slice(), scope, inner, found)?;
            add_all(alloc, arguments.as_slice(), scope, inner, found)
        }
        Tree::Meta(_, arguments) => add_all(alloc, arguments.as_slice(), scope, inner, found),
        Tree::Bind {
            binder,
            var,
            dom,
            body,
        } => {
            found.push(binder.copy(alloc)?)?;
            add_constants(alloc, dom.get(), scope, inner, found)?;
            let outer = inner.len();
            inner.push(var.copy(alloc)?)?;
            add_constants(alloc, body.get(), scope, inner, found)?;
            inner.truncate(outer);
            Ok(())
        }
    }
}

#[cycle(constants)]
fn add_all(
    alloc: Global,
    trees: &[Tree],
    scope: &Variables,
    inner: &mut Names,
    found: &mut Vec<Name>,
) -> Result<(), NoMemory>
    ensures value { OnOk result (found.new.items ≡ found.old.items ++ joined (map (constants_in (scope.now ++ inner.old)) trees.now)) }
    ensures kept { OnOk result (inner.new ≡ inner.old) }
{
    for tree in trees {
        add_constants(alloc, tree, scope, inner, found)?;
    }
    Ok(())
}

/// Adds the constant that a name with its arguments is, where it is one.
fn add_constant(
    alloc: Global,
    name: &Name,
    arguments: &[Tree],
    scope: &Variables,
    inner: &Names,
    found: &mut Vec<Name>,
) -> Result<(), NoMemory>
    ensures { OnOk result (found.new.items ≡ found.old.items ++ constant_of (scope.now ++ inner.now) name.now arguments.now) }
{
    if arguments.is_empty() && is_variable(name, scope, inner) {
        return Ok(());
    }
    found.push(name.copy(alloc)?)?;
    Ok(())
}

fn is_variable(name: &Name, scope: &Variables, inner: &Names) -> bool
    ensures { result ≡ is_among (scope.now ++ inner.now) name.now }
{
    scope.contains(name) || inner.contains(name)
}

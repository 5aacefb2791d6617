ghost use Rattle.std.specs.Prelude.{◌≡◌, ◌++◌, ◌||◌, Some, None, cond, map, IfOk, OnOk};
ghost use Rattle.std.specs.Cmp.Lexicographic.{pointwise};
ghost use Rattle.std.specs.List.{list_all};
ghost use Rattle.std.specs.Option.{option_copied};
ghost use Rattle.mu_tree.specs.declared.claim.Kind.TheVariants.{E};
ghost use Rattle.mu_tree.specs.Names.{is_among};
ghost use Rattle.mu_decl.specs.Formation.{kind_at, shape_for, argument_kinds, body_kind, is_formed, kind_in, expression};
ghost use Rattle.mu_decl.specs.Scopes.{layered};

use crate::contexts::Context;
use crate::declaration::ConstDecl;
use crate::scopes::Variables;
use mu_tree::{Kind, Name, Names, NoMemory, Sequence, Shape, Tree};
use std::alloc::Global;

/// A variable in scope.
#[derive(Debug, Drop)]
pub struct Scoped {
    pub name: Name,
    pub kind: Kind,
}

/// Variables in scope, the innermost last.
pub type Scope = Sequence<Scoped>;

/// The variables of elements around a tree: those in scope, and further ones within these.
#[derive(Clone, Copy)]
pub struct Around<'a> {
    /// Those in scope.
    pub scope: &'a Variables,
    /// Those within them.
    pub own: &'a Variables,
}

#[tactic(auto, unfolding(crate::specs::Formation::kind_in))]
fn inner_kind(inner: &Scope, name: &Name) -> Option<Kind>
    ensures { result ≡ kind_in inner.now name.now }
{
    inner
        .items()
        .iter()
        .rev()
        .find(|s| s.name == *name)
        .map(|s| s.kind)
}

fn outer_kind(around: Around, name: &Name) -> Option<Kind>
    ensures { result ≡ cond (is_among around.entry.own.now name.now || is_among around.entry.scope.now name.now) (Some E) None }
{
    if around.own.contains(name) || around.scope.contains(name) {
        Some(Kind::E)
    } else {
        None
    }
}

/// The kind of a variable, the innermost of its name.
#[tactic(auto, using(crate::proofs::Layers::layer_equations))]
fn kind_in(around: Around, inner: &Scope, name: &Name) -> Option<Kind>
    ensures { result ≡ kind_in (layered around.entry.scope.now around.entry.own.now inner.now) name.now }
{
    match inner_kind(inner, name) {
        Some(kind) => Some(kind),
        None => outer_kind(around, name),
    }
}

// The shape of a constant that is there, is seen, and makes expressions of this kind.
fn shape_for<'a>(seen: &Names, kind: Kind, declared: Option<&'a ConstDecl>) -> Option<&'a Shape>
    ensures { option_copied result ≡ shape_for seen.now kind (option_copied declared.entry) }
{
    match declared {
        Some(found) if seen.contains(&found.theory) && found.result == kind => Some(&found.shape),
        _ => None,
    }
}

pub(crate) fn argument_kinds<'a>(declared: Option<&'a ConstDecl>) -> &'a [Kind]
    ensures { result.now ≡ argument_kinds (option_copied declared.entry) }
{
    match declared {
        Some(
            ConstDecl {
                shape: Shape::Plain(kinds),
                ..
            },
        ) => kinds.items(),
        _ => &[],
    }
}

pub(crate) fn body_kind(declared: Option<&ConstDecl>) -> Kind
    ensures { result ≡ body_kind (option_copied declared.entry) }
{
    match declared {
        Some(
            ConstDecl {
                shape: Shape::Binder(kind),
                ..
            },
        ) => *kind,
        _ => Kind::E,
    }
}

pub(crate) fn kind_at(kinds: &[Kind], i: usize) -> Kind
    ensures { result ≡ kind_at kinds.now i }
{
    match kinds.get(i) {
        Some(kind) => *kind,
        None => Kind::E,
    }
}

/// Whether a tree is a well-formed expression of a kind, where these units are seen and these variables are in scope.
///
/// A name without arguments is the innermost variable of that name where there is one. Else it is a constant, which
/// has to be seen, to make expressions of the kind, and to be applied to arguments that are well formed for the kinds
/// of its shape. A metavariable is an expression of any kind, and its arguments are of the kind of elements. A binder
/// has to be seen and to make expressions of the kind, as any constant; its domain is a type, and its variable an
/// element in its body.
///
/// # Errors
///
/// `NoMemory` may come at any tree.
#[tactic(auto, using(crate::proofs::EnteringEquations::scope_equations))]
pub fn is_formed<C: Context>(
    alloc: Global,
    context: &C,
    seen: &Names,
    around: Around,
    kind: Kind,
    tree: &Tree,
) -> Result<bool, NoMemory>
    ensures { IfOk result (λ yes. yes ≡ is_formed (C.world context.now) seen.now (map expression around.entry.scope.now ++ map expression around.entry.own.now) kind tree.now) }
{
    let mut inner = Sequence::new(alloc);
    is_formed_within(alloc, context, seen, around, &mut inner, kind, tree)
}

/// Whether all of some trees are well-formed expressions of the kind of elements.
///
/// # Errors
///
/// `NoMemory` may come at any trees.
#[tactic(auto, using(crate::proofs::EnteringEquations::scope_equations))]
pub fn all_formed<C: Context>(
    alloc: Global,
    context: &C,
    seen: &Names,
    around: Around,
    trees: &[Tree],
) -> Result<bool, NoMemory>
    ensures { IfOk result (λ yes. yes ≡ list_all (is_formed (C.world context.now) seen.now (map expression around.entry.scope.now ++ map expression around.entry.own.now) E) trees.now) }
{
    let mut inner = Sequence::new(alloc);
    all_formed_within(alloc, context, seen, around, &mut inner, trees)
}

/// Whether a tree is a well-formed expression of a kind, as `is_formed` says, with further variables of any kind within
/// all others.
///
/// # Errors
///
/// `NoMemory` may come at any tree; there may then be inner variables more.
#[cycle(is_formed)]
#[tactic(auto, using(crate::proofs::FormingEquations::formed_equations, crate::proofs::EnteringEquations::scope_equations))]
pub fn is_formed_within<C: Context>(
    alloc: Global,
    context: &C,
    seen: &Names,
    around: Around,
    inner: &mut Scope,
    kind: Kind,
    tree: &Tree,
) -> Result<bool, NoMemory>
    ensures value { IfOk result (λ yes. yes ≡ is_formed (C.world context.now) seen.now (layered around.entry.scope.now around.entry.own.now inner.old) kind tree.now) }
    ensures kept { OnOk result (inner.new ≡ inner.old) }
{
    match tree {
        Tree::App(name, arguments) => {
            if arguments.is_empty() {
                if let Some(found) = kind_in(around, inner, name) {
                    return Ok(found == kind);
                }
            }
            match shape_for(seen, kind, context.constant(name)) {
                Some(Shape::Plain(kinds)) => {
                    are_formed(
                        alloc,
                        context,
                        seen,
                        around,
                        inner,
                        kinds.items(),
                        arguments.as_slice(),
                    )
                }
                _ => Ok(false),
            }
        }
        Tree::Meta(_, arguments) => {
            all_formed_within(alloc, context, seen, around, inner, arguments.as_slice())
        }
        Tree::Bind {
            binder,
            var,
            dom,
            body,
        } => match shape_for(seen, kind, context.constant(binder)) {
            Some(Shape::Binder(body_kind)) => {
                if !is_formed_within(alloc, context, seen, around, inner, Kind::T, dom.get())? {
                    return Ok(false);
                }
                let outer = inner.len();
                inner.push(Scoped {
                    name: var.copy(alloc)?,
                    kind: Kind::E,
                })?;
                let formed = is_formed_within(
                    alloc,
                    context,
                    seen,
                    around,
                    inner,
                    *body_kind,
                    body.get(),
                )?;
                inner.truncate(outer);
                Ok(formed)
            }
            _ => Ok(false),
        },
    }
}

// Whether there are as many trees as kinds, each well formed for its own.
#[cycle(is_formed)]
fn are_formed<C: Context>(
    alloc: Global,
    context: &C,
    seen: &Names,
    around: Around,
    inner: &mut Scope,
    kinds: &[Kind],
    trees: &[Tree],
) -> Result<bool, NoMemory>
    ensures value { IfOk result (λ yes. yes ≡ pointwise (is_formed (C.world context.now) seen.now (layered around.entry.scope.now around.entry.own.now inner.old)) kinds.now trees.now) }
    ensures kept { OnOk result (inner.new ≡ inner.old) }
{
    if kinds.len() != trees.len() {
        return Ok(false);
    }
    for i in 0..kinds.len() {
        if !is_formed_within(
            alloc,
            context,
            seen,
            around,
            inner,
            kind_at(kinds, i),
            &trees[i],
        )? {
            return Ok(false);
        }
    }
    Ok(true)
}

// Whether all of some trees are well-formed expressions of the kind of elements.
#[cycle(is_formed)]
fn all_formed_within<C: Context>(
    alloc: Global,
    context: &C,
    seen: &Names,
    around: Around,
    inner: &mut Scope,
    trees: &[Tree],
) -> Result<bool, NoMemory>
    ensures value { IfOk result (λ yes. yes ≡ list_all (is_formed (C.world context.now) seen.now (layered around.entry.scope.now around.entry.own.now inner.old) E) trees.now) }
    ensures kept { OnOk result (inner.new ≡ inner.old) }
{
    for tree in trees {
        if !is_formed_within(alloc, context, seen, around, inner, Kind::E, tree)? {
            return Ok(false);
        }
    }
    Ok(true)
}

ghost use Rattle.std.specs.Prelude.{◌≡◌, ◌++◌, [], map, IfOk, OnOk};
ghost use Rattle.mu_decl.specs.Formation.{occurrences, spread};

use crate::contexts::Context;
use crate::formation::{argument_kinds, body_kind, kind_at};
use mu_tree::{Kind, Name, NoMemory, Sequence, Tree};
use std::alloc::Global;

/// One occurrence of a metavariable in a tree.
#[derive(Debug, Drop)]
pub struct Occurrence {
    /// The metavariable.
    pub meta: Name,
    /// How many arguments it has there.
    pub count: usize,
    /// The kind that its place wants.
    pub kind: Kind,
}

/// A list of occurrences.
pub type Occurrences = Sequence<Occurrence>;

/// Adds the occurrences of metavariables in a tree of this kind, from left to right, a metavariable before those in
/// its arguments. Where a constant's shape wants fewer arguments than there are, the further ones count as elements.
///
/// # Errors
///
/// `NoMemory` may come at any tree; some occurrences may then be added.
#[cycle(occurrences)]
#[tactic(auto, using(crate::proofs::FormingEquations::occurrence_equations, crate::proofs::Rests::added))]
pub fn occurrences<C: Context>(
    alloc: Global,
    context: &C,
    kind: Kind,
    tree: &Tree,
    found: &mut Occurrences,
) -> Result<(), NoMemory>
    ensures { OnOk result (found.new ≡ found.old ++ occurrences (C.world context.now) tree.now kind) }
{
    match tree {
        Tree::App(name, arguments) => {
            let kinds = argument_kinds(context.constant(name));
            spread(alloc, context, kinds, arguments.as_slice(), found)
        }
        Tree::Meta(meta, arguments) => {
            found.push(Occurrence {
                meta: meta.copy(alloc)?,
                count: arguments.len(),
                kind,
            })?;
            spread(
                alloc,
                context,
                argument_kinds(None),
                arguments.as_slice(),
                found,
            )?;
            Ok(())
        }
        Tree::Bind {
            binder,
            dom,
            body,
            ..
        } => {
            let body_kind = body_kind(context.constant(binder));
            occurrences(alloc, context, Kind::T, dom.get(), found)?;
            occurrences(alloc, context, body_kind, body.get(), found)?;
            Ok(())
        }
    }
}

#[cycle(occurrences)]
fn spread<C: Context>(
    alloc: Global,
    context: &C,
    kinds: &[Kind],
    trees: &[Tree],
    found: &mut Occurrences,
) -> Result<(), NoMemory>
    ensures { OnOk result (found.new ≡ found.old ++ spread kinds.now (map (occurrences (C.world context.now)) trees.now)) }
{
    for i in 0..trees.len() {
        occurrences(alloc, context, kind_at(kinds, i), &trees[i], found)?;
    }
    Ok(())
}

/// Adds the occurrences of metavariables in some trees of the kind of elements.
///
/// # Errors
///
/// `NoMemory` may come at any trees; some occurrences may then be added.
pub fn all_occurrences<C: Context>(
    alloc: Global,
    context: &C,
    trees: &[Tree],
    found: &mut Occurrences,
) -> Result<(), NoMemory>
    ensures { OnOk result (found.new ≡ found.old ++ spread [] (map (occurrences (C.world context.now)) trees.now)) }
{
    spread(alloc, context, argument_kinds(None), trees, found)
}

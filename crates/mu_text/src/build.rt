ghost use Rattle.std.specs.Prelude.{◌≡◌, ◌≤◌, ◌+◌, [], ◌∷◌, ◌++◌, IfOk, IsTrue, ◌↔◌, max};
ghost use Rattle.mu_grammar.specs.Writings.{made as made_of};
ghost use Rattle.mu_tree.specs.declared.trees.Tree.TheVariants as tree;
ghost use Rattle.mu_text.specs.Reads.{capped, Built, Enclosing, Added};

use crate::operand::{Operand, Several};
use mu_grammar::{ATOM_LEVEL, MOST_DEPTH, MOST_NODES, PREFIX_LEVEL, PartFault, Word};
use mu_tree::{Name, Tree, Trees};
use sqlite_items::Boxed;
use std::alloc::{AllocError, Global};

/// Where counts stop.
const MOST_COUNTED: u64 = 5_000;

fn sum(a: u64, b: u64) -> u64
    ensures { result ≡ capped (a + b) }
{
    if a > MOST_COUNTED || b > MOST_COUNTED {
        return MOST_COUNTED;
    }
    (a + b).min(MOST_COUNTED)
}

fn is_within(size: u64, depth: u64) -> bool
    ensures { IsTrue result ↔ ((size ≤ 4096) × (depth ≤ 200)) }
{
    size <= MOST_NODES && depth <= MOST_DEPTH
}

fn made(head: Word, name: Name, trees: Trees) -> Tree
    ensures { result ≡ made_of head name trees }
{
    match head {
        Word::Meta => Tree::Meta(name, trees),
        _ => Tree::App(name, trees),
    }
}

/// A head alone.
pub fn leaf(alloc: Global, head: Word, name: Name) -> Operand
    ensures { Built (made_of head name []) 7 1 1 result }
{
    Operand {
        tree: made(head, name, Trees::new(alloc)),
        level: ATOM_LEVEL,
        size: 1,
        depth: 1,
    }
}

/// A head with arguments.
pub fn applied(alloc: Global, head: Word, name: Name, args: Several) -> Result<Operand, AllocError>
    ensures { IfOk result (λ operand. Built (made_of head name args.trees) 7 (args.size + 1) (args.depth + 1) operand) }
{
    let size = sum(args.size, 1);
    let depth = sum(args.depth, 1);
    let trees = if is_within(size, depth) {
        fitted(alloc, args.trees)?
    } else {
        Trees::new(alloc)
    };
    Ok(Operand {
        tree: made(head, name, trees),
        level: ATOM_LEVEL,
        size,
        depth,
    })
}

/// A tree in parentheses.
pub fn atom(operand: Operand) -> Operand
    ensures { Enclosing operand result }
{
    Operand {
        tree: operand.tree,
        level: ATOM_LEVEL,
        size: operand.size,
        depth: operand.depth,
    }
}

/// `not` and its operand.
pub fn negated(alloc: Global, name: Name, operand: Operand) -> Result<Operand, AllocError>
    ensures { IfOk result (λ o. Built (tree.App name (operand.tree ∷ [])) 5 (operand.size + 1) (operand.depth + 1) o) }
{
    let size = sum(operand.size, 1);
    let depth = sum(operand.depth, 1);
    let tree = if is_within(size, depth) {
        Tree::App(name, one(alloc, operand.tree)?)
    } else {
        operand.tree
    };
    Ok(Operand {
        tree,
        level: PREFIX_LEVEL,
        size,
        depth,
    })
}

/// An operator and its operands.
pub fn joined(
    alloc: Global,
    name: Name,
    level: u8,
    left: Operand,
    right: Operand,
) -> Result<Operand, AllocError>
    ensures { IfOk result (λ o. Built (tree.App name (left.tree ∷ right.tree ∷ [])) level (left.size + right.size + 1) (max left.depth right.depth + 1) o) }
{
    let size = sum(sum(left.size, right.size), 1);
    let depth = sum(left.depth.max(right.depth), 1);
    let tree = if is_within(size, depth) {
        Tree::App(name, two(alloc, left.tree, right.tree)?)
    } else {
        left.tree
    };
    Ok(Operand {
        tree,
        level,
        size,
        depth,
    })
}

/// A binder with its variable, domain and body.
pub fn bound(
    alloc: Global,
    binder: Name,
    var: Name,
    dom: Operand,
    body: Operand,
) -> Result<Operand, AllocError>
    ensures { IfOk result (λ o. Built (tree.Bind binder var dom.tree body.tree) 7 (dom.size + body.size + 1) (max dom.depth body.depth + 1) o) }
{
    let size = sum(sum(dom.size, body.size), 1);
    let depth = sum(dom.depth.max(body.depth), 1);
    let tree = if is_within(size, depth) {
        Tree::Bind {
            binder,
            var,
            dom: Boxed::new(alloc, dom.tree)?,
            body: Boxed::new(alloc, body.tree)?,
        }
    } else {
        dom.tree
    };
    Ok(Operand {
        tree,
        level: ATOM_LEVEL,
        size,
        depth,
    })
}

/// The same trees in a list that has no more room than they need.
pub fn fitted(alloc: Global, trees: Trees) -> Result<Trees, AllocError>
    ensures { IfOk result (λ fit. fit ≡ trees) }
{
    let mut fit = Trees::from_vec(Vec::with_capacity(alloc, trees.len())?);
    fit.append(trees)?;
    Ok(fit)
}

fn one(alloc: Global, only: Tree) -> Result<Trees, AllocError>
    ensures { IfOk result (λ trees. trees ≡ only ∷ []) }
{
    let mut trees = Vec::with_capacity(alloc, 1)?;
    trees.push(only)?;
    Ok(Trees::from_vec(trees))
}

fn two(alloc: Global, left: Tree, right: Tree) -> Result<Trees, AllocError>
    ensures { IfOk result (λ trees. trees ≡ left ∷ right ∷ []) }
{
    let mut trees = Vec::with_capacity(alloc, 2)?;
    trees.push(left)?;
    trees.push(right)?;
    Ok(Trees::from_vec(trees))
}

/// No trees yet.
pub fn none(alloc: Global) -> Several
    ensures trees { result.trees ≡ [] }
    ensures size { result.size ≡ 0 }
    ensures depth { result.depth ≡ 0 }
{
    Several {
        trees: Trees::new(alloc),
        size: 0,
        depth: 0,
    }
}

/// One more tree at the end.
pub fn added(before: Several, operand: Operand) -> Result<Several, AllocError>
    ensures { IfOk result (λ now. Added before operand now) }
{
    let size = sum(before.size, operand.size);
    let depth = before.depth.max(operand.depth).min(MOST_COUNTED);
    let trees = if size <= MOST_NODES {
        with_last(before.trees, operand.tree)?
    } else {
        before.trees
    };
    Ok(Several { trees, size, depth })
}

fn with_last(before: Trees, last: Tree) -> Result<Trees, AllocError>
    ensures { IfOk result (λ trees. trees ≡ before ++ last ∷ []) }
{
    let mut trees = before;
    trees.push(last)?;
    Ok(trees)
}

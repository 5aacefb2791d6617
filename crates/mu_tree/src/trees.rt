ghost use Rattle.std.specs.Prelude.{◌≡◌, ◌^◌, ◌-◌, min, map, max, sum, IfOk, OnOk};
ghost use Rattle.std.specs.List.{fold};
ghost use Rattle.mu_tree.specs.Trees.{size as size_of, depth as depth_of, deepest, names, occurrences, add_name};

use crate::memory::NoMemory;
use crate::names::{Name, Names};
use crate::sequence::Sequence;
use sqlite_items::{Boxed, Items};
use std::alloc::Global;

/// A list of trees, as a tree holds them.
pub type Trees = Items<Tree>;

/// An expression. A variable is an application without arguments.
#[derive(Debug, Drop)]
pub enum Tree {
    /// A constant or a variable, applied to its arguments.
    App(Name, Items<Tree>),
    /// A metavariable, applied to its arguments.
    Meta(Name, Items<Tree>),
    /// A binder over a domain: its variable stands for the elements of the domain in the body.
    Bind {
        /// The binder's constant.
        binder: Name,
        /// The bound variable.
        var: Name,
        /// What the variable ranges over; the variable is not bound in it.
        dom: Boxed<Tree>,
        /// What the variable is bound in.
        body: Boxed<Tree>,
    },
}

impl Tree {
    /// An equal tree in memory of its own.
    ///
    /// # Errors
    ///
    /// `NoMemory` may come at any tree.
    #[cycle(tree_copy)]
    pub fn copy(&self, alloc: Global) -> Result<Tree, NoMemory>
        ensures { IfOk result (λ tree. tree ≡ self.now) }
    {
        match self {
            Tree::App(name, arguments) => {
                let name = name.copy(alloc)?;
                let arguments = Tree::copy_all(alloc, arguments.as_slice())?;
                Ok(Tree::App(name, arguments))
            }
            Tree::Meta(name, arguments) => {
                let name = name.copy(alloc)?;
                let arguments = Tree::copy_all(alloc, arguments.as_slice())?;
                Ok(Tree::Meta(name, arguments))
            }
            Tree::Bind {
                binder,
                var,
                dom,
                body,
            } => Ok(Tree::Bind {
                binder: binder.copy(alloc)?,
                var: var.copy(alloc)?,
                dom: Boxed::new(alloc, dom.get().copy(alloc)?)?,
                body: Boxed::new(alloc, body.get().copy(alloc)?)?,
            }),
        }
    }

    /// Equal trees in memory of their own.
    ///
    /// # Errors
    ///
    /// `NoMemory` may come at any trees.
    #[cycle(tree_copy)]
    pub fn copy_all(alloc: Global, trees: &[Tree]) -> Result<Trees, NoMemory>
        ensures { IfOk result (λ copies. copies ≡ trees.now) }
    {
        let mut copies = Vec::with_capacity(alloc, trees.len())?;
        for tree in trees {
            copies.push(tree.copy(alloc)?)?;
        }
        Ok(Items::from_vec(copies))
    }

    /// How many nodes the tree has: one for each application, metavariable and binder. It stops at `u64::MAX`.
    #[cycle(tree_size)]
    pub fn size(&self) -> u64
        ensures { result ≡ min (size_of self.now) (2 ^ 64 - 1) }
    {
        match self {
            Tree::App(_, arguments) | Tree::Meta(_, arguments) => {
                Tree::size_all(arguments.as_slice()).saturating_add(1)
            }
            Tree::Bind { dom, body, .. } => dom
                .get()
                .size()
                .saturating_add(body.get().size())
                .saturating_add(1),
        }
    }

    #[cycle(tree_size)]
    fn size_all(trees: &[Tree]) -> u64
        ensures { result ≡ min (sum (map size_of trees.now)) (2 ^ 64 - 1) }
    {
        let mut size = 0u64;
        for tree in trees {
            size = size.saturating_add(tree.size());
        }
        size
    }

    /// How many nodes the longest way down from the top has; a tree without children has depth 1. It stops at `u64::MAX`.
    #[cycle(tree_depth)]
    pub fn depth(&self) -> u64
        ensures { result ≡ min (depth_of self.now) (2 ^ 64 - 1) }
    {
        match self {
            Tree::App(_, arguments) | Tree::Meta(_, arguments) => {
                Tree::depth_all(arguments.as_slice()).saturating_add(1)
            }
            Tree::Bind { dom, body, .. } => {
                dom.get().depth().max(body.get().depth()).saturating_add(1)
            }
        }
    }

    #[cycle(tree_depth)]
    fn depth_all(trees: &[Tree]) -> u64
        ensures { result ≡ min (deepest (map depth_of trees.now)) (2 ^ 64 - 1) }
    {
        let mut depth = 0u64;
        for tree in trees {
            depth = depth.max(tree.depth());
        }
        depth
    }

    /// The names of applications, binders and bound variables, in order of first occurrence, without repeats.
    ///
    /// # Errors
    ///
    /// `NoMemory` may come at any tree.
    pub fn names(&self, alloc: Global) -> Result<Names, NoMemory>
        ensures { IfOk result (λ found. found ≡ names self.now) }
    {
        let mut found = Sequence::new(alloc);
        self.add_names(alloc, &mut found)?;
        Ok(found)
    }

    fn add_names(&self, alloc: Global, found: &mut Names) -> Result<(), NoMemory>
        ensures { OnOk result (found.new ≡ fold add_name found.old (occurrences self.now)) }
    {
        match self {
            Tree::App(name, arguments) => {
                add_one(alloc, name, found)?;
                for tree in arguments.as_slice() {
                    tree.add_names(alloc, found)?;
                }
            }
            Tree::Meta(_, arguments) => {
                for tree in arguments.as_slice() {
                    tree.add_names(alloc, found)?;
                }
            }
            Tree::Bind {
                binder,
                var,
                dom,
                body,
            } => {
                add_one(alloc, binder, found)?;
                add_one(alloc, var, found)?;
                dom.get().add_names(alloc, found)?;
                body.get().add_names(alloc, found)?;
            }
        }
        Ok(())
    }
}

fn add_one(alloc: Global, name: &Name, found: &mut Names) -> Result<(), NoMemory>
    ensures { OnOk result (found.new ≡ add_name found.old name.now) }
{
    if !found.contains(name) {
        found.push(name.copy(alloc)?)?;
    }
    Ok(())
}

ghost use Rattle.std.specs.Prelude.{◌≡◌, IfOk};
ghost use Rattle.mu_proof.specs.Items.{label_of, is_line as line_test};
ghost use Rattle.mu_proof.specs.Edits.{altered_step};
ghost use Rattle.mu_proof.specs.declared.items.Item.TheViews.{out-Item};

use crate::alteration::Alteration;
use mu_tree::{Duplicate, Name, NoMemory, Sequence, Tree, Trees, TypedVars, Why};
use std::alloc::Global;

/// A step of a proof.
#[derive(Drop)]
pub enum Item {
    /// An expression that is claimed to hold.
    Line {
        label: Name,
        tree: Tree,
        /// Why it holds; none where that is still open.
        why: Option<Why>,
    },
    /// A proof under variables and assumptions of its own.
    Block {
        label: Name,
        /// The variables that it brings in.
        vars: TypedVars,
        /// What it assumes of them.
        assumptions: Trees,
        /// Its items, in order.
        items: ItemList,
    },
}

/// A list of items, as a proof and a box hold them.
pub type ItemList = Sequence<Item>;

impl Item {
    /// The item's label.
    pub fn label(&self) -> &Name
        ensures { result.now ≡ label_of self.now }
    {
        match self {
            Item::Line { label, .. } | Item::Block { label, .. } => label,
        }
    }

    /// Whether the item is a line.
    pub fn is_line(&self) -> bool
        ensures { result ≡ line_test self.now }
    {
        matches!(self, Item::Line { .. })
    }

    /// An equal item in memory of its own.
    ///
    /// # Errors
    ///
    /// `NoMemory` may come at any item.
    #[cycle(item_copy)]
    pub fn copy(&self, alloc: Global) -> Result<Item, NoMemory>
        ensures { IfOk result (λ item. item ≡ self.now) }
    {
        match self {
            Item::Line { label, tree, why } => Ok(Item::Line {
                label: label.copy(alloc)?,
                tree: tree.copy(alloc)?,
                why: why.duplicate(alloc)?,
            }),
            Item::Block {
                label,
                vars,
                assumptions,
                items,
            } => Ok(Item::Block {
                label: label.copy(alloc)?,
                vars: vars.duplicate(alloc)?,
                assumptions: Tree::copy_all(alloc, assumptions.as_slice())?,
                items: Item::copy_all(alloc, items.items())?,
            }),
        }
    }

    /// Equal items in memory of their own.
    ///
    /// # Errors
    ///
    /// `NoMemory` may come at any items.
    #[cycle(item_copy)]
    pub fn copy_all(alloc: Global, items: &[Item]) -> Result<ItemList, NoMemory>
        ensures { IfOk result (λ copies. copies ≡ items.now) }
    {
        let mut copies = Sequence::with_capacity(alloc, items.len())?;
        for item in items {
            copies.push(item.copy(alloc)?)?;
        }
        Ok(copies)
    }

    /// Alters the item, where the alteration is one of its kind.
    pub(crate) fn alter(&mut self, alteration: Alteration)
        ensures { self.new ≡ altered_step alteration (out-Item self.old) }
    {
        match alteration {
            Alteration::Why(why) => self.set_why(why),
            Alteration::Tree(tree) => self.set_tree(tree),
            Alteration::Head { vars, assumptions } => self.set_head(vars, assumptions),
        }
    }

    fn set_why(&mut self, new: Option<Why>)
        ensures { self.new ≡ altered_step (Alteration.Why new) (out-Item self.old) }
    {
        if let Item::Line { why, .. } = self {
            *why = new;
        }
    }

    fn set_tree(&mut self, new: Tree)
        ensures { self.new ≡ altered_step (Alteration.Tree new) (out-Item self.old) }
    {
        if let Item::Line { tree, .. } = self {
            *tree = new;
        }
    }

    fn set_head(&mut self, new_vars: TypedVars, new_assumptions: Trees)
        ensures { self.new ≡ altered_step (Alteration.Head new_vars new_assumptions) (out-Item self.old) }
    {
        if let Item::Block {
            vars,
            assumptions,
            ..
        } = self
        {
            *vars = new_vars;
            *assumptions = new_assumptions;
        }
    }
}

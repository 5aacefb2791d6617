ghost use Rattle.std.specs.Prelude.{◌≡◌, ◌≢◌, true, false, [], None, Some, IfOk, OnOk, OnErr, IfErr};
ghost use Rattle.std.specs.Option.{option_copied};
ghost use Rattle.std.specs.List.{find};
ghost use Rattle.mu_proof.specs.Items.{has_label, all_items};
ghost use Rattle.mu_proof.specs.Edits.{inserted, removed, altered};
ghost use Rattle.mu_proof.specs.Proofs.{IsProof, is_label, is_line_label, is_box_label, place_fault, insert_fault, remove_fault, line_fault, box_fault};

use crate::alteration::Alteration;
use crate::edits::{alter_in, insert_at, remove_from};
use crate::fault::{ProofFault, expect};
use crate::items::{Item, ItemList};
use crate::places::{has_item, test_place, test_room};
use crate::walks::find_in;
use mu_tree::{Name, NoMemory, Sequence, Tree, Trees, TypedVars, Why};
use std::alloc::Global;
use std::marker::Model;

/// A proof of a rule, which may be unfinished or wrong: its items, in order.
///
/// Contracts see the list of its items. Their labels differ, in whatever box they are, and none is `root`; boxes are at
/// most 32 deep, and there are at most 4,096 items.
#[derive(Drop)]
pub struct Proof {
    items: ItemList,
}

impl Model for Proof {
    ghost use Rattle.std.specs.Prelude.{List};
    ghost use Rattle.std.specs.Coded.{coded_list};
    ghost use Rattle.mu_proof.specs.declared.items.Item.{Item};
    ghost use Rattle.mu_proof.specs.contracts.items.Item as item;
    ghost use Rattle.mu_proof.specs.Proofs.{IsProof};

    ghost Value = { List Item };

    ghost coded = { coded_list item.the_row.coded };

    ghost view = { λ proof. proof.items };

    ghost invariant = { λ proof. IsProof proof.items };
}

impl Proof {
    /// A proof without items, which takes no memory yet.
    pub fn new(alloc: Global) -> Proof
        ensures { result ≡ [] }
    {
        Proof {
            items: Sequence::new(alloc),
        }
    }

    /// The items of the whole proof, in order.
    pub fn items(&self) -> &[Item]
        ensures all { result.now ≡ self.now }
        ensures proof { IsProof self.now }
    {
        self.items.items()
    }

    /// The item of a label, in whatever box, none exactly where no item has it.
    pub fn find(&self, label: &Name) -> Option<&Item>
        ensures { option_copied result ≡ find (has_label label.now) (all_items self.now) }
    {
        find_in(self.items.items(), label)
    }

    /// Whether a line, in whatever box, has a label.
    pub fn has_line(&self, label: &Name) -> bool
        ensures { result ≡ is_line_label self.now label.now }
    {
        match find_in(self.items.items(), label) {
            Some(item) => item.is_line(),
            None => false,
        }
    }

    /// Whether a box, in whatever box, has a label.
    pub fn has_box(&self, label: &Name) -> bool
        ensures { result ≡ is_box_label self.now label.now }
    {
        match find_in(self.items.items(), label) {
            Some(item) => !item.is_line(),
            None => false,
        }
    }

    /// Tests whether an item may go into a block, right before the item of the label `before` or at the end.
    ///
    /// # Errors
    ///
    /// `Unknown` and `Taken` as of `insert`. `NoMemory` may come at any call.
    pub fn test_place(
        &self,
        alloc: Global,
        block: &Name,
        before: Option<&Name>,
        item: &Item,
    ) -> Result<(), ProofFault>
        ensures ok { OnOk result (place_fault self.now block.now (option_copied before.entry) item.now ≡ None) }
        ensures fault { IfErr result (λ fault. fault ≢ ProofFault.NoMemory → place_fault self.now block.now (option_copied before.entry) item.now ≡ Some fault) }
    {
        test_place(alloc, self.items.items(), block, before, item)
    }

    /// Puts an item into a block, right before the item of the label `before`, or at the end where there is none.
    ///
    /// The block is `root`, the whole proof, or the label of a box.
    ///
    /// # Errors
    ///
    /// `Unknown` where there is no such block, and then where no item directly in the block has the label `before`;
    /// `Taken` where a label of the item or of one in it is in use, stands twice in the item or is `root`, with the
    /// first such label; `Boxes` where boxes would be more than 32 deep; `Items` where there would be more than 4,096
    /// items. The first of them that fits is the answer. `NoMemory` may come at any call. Each leaves the proof as it
    /// was.
    pub fn insert(
        &mut self,
        alloc: Global,
        block: &Name,
        before: Option<&Name>,
        item: Item,
    ) -> Result<(), ProofFault>
        ensures ok { OnOk result (insert_fault self.old block.now (option_copied before.entry) item ≡ None) }
        ensures new { OnOk result (self.new ≡ inserted self.old block.now (option_copied before.entry) item) }
        ensures fault { IfErr result (λ fault. fault ≢ ProofFault.NoMemory → insert_fault self.old block.now (option_copied before.entry) item ≡ Some fault) }
        ensures err { OnErr result (self.new ≡ self.old) }
    {
        self.test_insert(alloc, block, before, &item)?;
        insert_at(&mut self.items, block, before, item)?;
        Ok(())
    }

    /// Tests whether there is a place and room for an item.
    fn test_insert(
        &self,
        alloc: Global,
        block: &Name,
        before: Option<&Name>,
        item: &Item,
    ) -> Result<(), ProofFault>
        ensures ok { OnOk result (insert_fault self.now block.now (option_copied before.entry) item.now ≡ None) }
        ensures fault { IfErr result (λ fault. fault ≢ ProofFault.NoMemory → insert_fault self.now block.now (option_copied before.entry) item.now ≡ Some fault) }
    {
        test_place(alloc, self.items.items(), block, before, item)?;
        test_room(self.items.items(), block, item)
    }

    /// Replaces the expression of the line of a label, which keeps its justification.
    ///
    /// # Errors
    ///
    /// `Unknown` where no line has the label. `NoMemory` may come at any call. Each leaves the proof as it was.
    pub fn alter_line(&mut self, alloc: Global, label: &Name, tree: Tree) -> Result<(), ProofFault>
        ensures ok { OnOk result (line_fault self.old label.now ≡ None) }
        ensures new { OnOk result (self.new ≡ altered self.old label.now (Alteration.Tree tree)) }
        ensures fault { IfErr result (λ fault. fault ≢ ProofFault.NoMemory → line_fault self.old label.now ≡ Some fault) }
        ensures err { OnErr result (self.new ≡ self.old) }
    {
        expect(alloc, self.has_line(label), label)?;
        self.alter(label, Alteration::Tree(tree));
        Ok(())
    }

    /// Replaces the variables and assumptions of the box of a label, which keeps its items.
    ///
    /// # Errors
    ///
    /// `Unknown` where no box has the label. `NoMemory` may come at any call. Each leaves the proof as it was.
    pub fn alter_block(
        &mut self,
        alloc: Global,
        label: &Name,
        vars: TypedVars,
        assumptions: Trees,
    ) -> Result<(), ProofFault>
        ensures ok { OnOk result (box_fault self.old label.now ≡ None) }
        ensures new { OnOk result (self.new ≡ altered self.old label.now (Alteration.Head vars assumptions)) }
        ensures fault { IfErr result (λ fault. fault ≢ ProofFault.NoMemory → box_fault self.old label.now ≡ Some fault) }
        ensures err { OnErr result (self.new ≡ self.old) }
    {
        expect(alloc, self.has_box(label), label)?;
        self.alter(label, Alteration::Head { vars, assumptions });
        Ok(())
    }

    /// Replaces the justification of the line of a label; with none it is open again.
    ///
    /// # Errors
    ///
    /// `Unknown` where no line has the label. `NoMemory` may come at any call. Each leaves the proof as it was.
    pub fn set_why(
        &mut self,
        alloc: Global,
        label: &Name,
        why: Option<Why>,
    ) -> Result<(), ProofFault>
        ensures ok { OnOk result (line_fault self.old label.now ≡ None) }
        ensures new { OnOk result (self.new ≡ altered self.old label.now (Alteration.Why why)) }
        ensures fault { IfErr result (λ fault. fault ≢ ProofFault.NoMemory → line_fault self.old label.now ≡ Some fault) }
        ensures err { OnErr result (self.new ≡ self.old) }
    {
        expect(alloc, self.has_line(label), label)?;
        self.alter(label, Alteration::Why(why));
        Ok(())
    }

    /// Replaces the justification of the line of a label where there is such a line, and says whether there is. It takes
    /// no memory.
    pub fn replace_why(&mut self, label: &Name, why: Option<Why>) -> bool
        ensures found { result ≡ is_line_label self.old label.now }
        ensures there { result ≡ true → self.new ≡ altered self.old label.now (Alteration.Why why) }
        ensures none { result ≡ false → self.new ≡ self.old }
    {
        if !self.has_line(label) {
            return false;
        }
        self.alter(label, Alteration::Why(why));
        true
    }

    /// Takes the item of a label out, with all in it.
    ///
    /// # Errors
    ///
    /// `Unknown` where no item has the label. `NoMemory` may come at any call. Each leaves the proof as it was.
    pub fn remove(&mut self, alloc: Global, label: &Name) -> Result<Item, ProofFault>
        ensures ok { OnOk result (remove_fault self.old label.now ≡ None) }
        ensures item { IfOk result (λ item. find (has_label label.now) (all_items self.old) ≡ Some item) }
        ensures new { OnOk result (self.new ≡ removed self.old label.now) }
        ensures fault { IfErr result (λ fault. fault ≢ ProofFault.NoMemory → remove_fault self.old label.now ≡ Some fault) }
        ensures err { OnErr result (self.new ≡ self.old) }
    {
        expect(alloc, has_item(self.items.items(), label), label)?;
        Ok(remove_from(&mut self.items, label))
    }

    /// An equal proof in memory of its own.
    ///
    /// # Errors
    ///
    /// `NoMemory` may come at any proof.
    pub fn copy(&self, alloc: Global) -> Result<Proof, NoMemory>
        ensures { IfOk result (λ proof. proof ≡ self.now) }
    {
        Ok(Proof {
            items: Item::copy_all(alloc, self.items.items())?,
        })
    }

    /// Alters the item of a label.
    fn alter(&mut self, label: &Name, alteration: Alteration)
        requires { is_label self.old label.now ≡ true }
        ensures { self.new ≡ altered self.old label.now alteration }
    {
        alter_in(&mut self.items, label, alteration);
    }
}

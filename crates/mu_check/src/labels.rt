ghost use Rattle.std.specs.Prelude.{◌≡◌, ◌++◌, ◌∷◌, [], length, take, IfOk, OnOk, OnErr};
ghost use Rattle.std.specs.Option.{option_copied};
ghost use Rattle.std.specs.FinMap as finite;
ghost use Rattle.mu_decl.specs.Finding.{if_called, placed, with_place};
ghost use Rattle.mu_check.specs.Labels.{label_of, item_of};

use crate::environments::KnownItem;
use crate::fact::Fact;
use mu_tree::{Name, NoMemory, Sequence, Table};
use std::alloc::Global;
use std::marker::Model;

/// Items that may be cited, in order, with a table to find them by their labels.
///
/// Contracts see the list of the items. Where an item was taken off the end, its place stays in the table; whether
/// the item at a place has the label is looked at when it is found.
#[derive(Drop)]
pub struct KnownItems {
    items: Sequence<KnownItem>,
    places: Table<usize>,
}

impl Model for KnownItems {
    ghost use Rattle.std.specs.Prelude.{List};
    ghost use Rattle.std.specs.Coded.{coded_list};
    ghost use Rattle.mu_check.specs.contracts.environments.KnownItem as item;
    ghost use Rattle.mu_check.specs.declared.environments.KnownItem.{KnownItem};
    ghost use Rattle.mu_decl.specs.Finding.{Finds};
    ghost use Rattle.mu_check.specs.Labels.{label_of};

    ghost Value = { List KnownItem };

    ghost coded = { coded_list item.the_row.coded };

    ghost view = { λ known. known.items };

    ghost invariant = { λ known. Finds label_of known.places known.items };
}

impl KnownItems {
    /// No items, which take no memory yet.
    pub fn new(alloc: Global) -> KnownItems
        ensures { result ≡ [] }
    {
        KnownItems {
            items: Sequence::new(alloc),
            places: Table::new(alloc),
        }
    }

    /// How many items there are.
    pub fn len(&self) -> usize
        ensures { result ≡ length self.now }
    {
        self.items.len()
    }

    /// What the first item of a label gives.
    #[tactic(auto, using(crate::proofs::KnownLabels::found_item))]
    pub fn find(&self, label: &Name) -> Option<&Fact>
        ensures { option_copied result ≡ item_of self.now label.now }
    {
        match placed(self.items.items(), label, self.places.get(label)) {
            Some(item) => Some(&item.gives),
            None => None,
        }
    }

    /// Adds an item at the end.
    ///
    /// # Errors
    ///
    /// `NoMemory` leaves the items as they were.
    pub fn push(&mut self, alloc: Global, item: KnownItem) -> Result<(), NoMemory>
        ensures { OnOk result (self.new ≡ self.old ++ item ∷ []) }
    {
        place_next(alloc, self.items.items(), &item.label, &mut self.places)?;
        self.items.push(item)?;
        Ok(())
    }

    /// Keeps the first `count` items.
    #[tactic(auto, using(mu_decl::proofs::Finding::finds_fewer))]
    pub fn truncate(&mut self, count: usize)
        ensures { self.new ≡ take count self.old }
    {
        self.items.truncate(count);
    }
}

fn if_labelled<'a>(label: &Name, item: Option<&'a KnownItem>) -> Option<&'a KnownItem>
    ensures { option_copied result ≡ if_called label_of label.now (option_copied item.entry) }
{
    match item {
        Some(item) if item.label == *label => Some(item),
        _ => None,
    }
}

fn placed<'a>(items: &'a [KnownItem], label: &Name, place: Option<&usize>) -> Option<&'a KnownItem>
    ensures { option_copied result ≡ placed label_of items.now label.now (option_copied place.entry) }
{
    match place {
        Some(place) => if_labelled(label, items.get(*place)),
        None => None,
    }
}

/// Notes the place of the next item, unless an item of its label has one.
fn place_next(
    alloc: Global,
    items: &[KnownItem],
    label: &Name,
    places: &mut Table<usize>,
) -> Result<(), NoMemory>
    ensures ok { OnOk result (places.new ≡ with_place label_of items.now label.now places.old) }
    ensures err { OnErr result (places.new ≡ places.old) }
{
    if placed(items, label, places.get(label)).is_some() {
        return Ok(());
    }
    places.put(label.copy(alloc)?, items.len())
}

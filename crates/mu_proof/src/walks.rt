ghost use Rattle.std.specs.Prelude.{◌≡◌, ◌-◌, ◌^◌, List, ℕ, Option, length, map, min, count_by};
ghost use Rattle.std.specs.List.{find, list_any};
ghost use Rattle.std.specs.Option.{option_copied};
ghost use Rattle.mu_tree.specs.Trees.{deepest};
ghost use Rattle.mu_proof.specs.Items.{has_label, all_in, all_items, labels_in, boxes_in, boxes_deep};
ghost use Rattle.mu_proof.specs.Edits.{edited_item, putting};
ghost use Rattle.mu_proof.specs.declared.items.Item.{Item as ItemOf};

use crate::items::Item;
use mu_tree::Name;

/// The first item of a label among some items and all in them.
#[cycle(find_item)]
#[tactic(auto, using(crate::proofs::ItemEquations::item_equations))]
pub(crate) fn find_in<'a>(items: &'a [Item], label: &Name) -> Option<&'a Item>
    ensures { option_copied result ≡ find (has_label label.now) (all_items items.now) }
{
    for item in items {
        let found = find_item(item, label);
        if found.is_some() {
            return found;
        }
    }
    None
}

#[cycle(find_item)]
#[tactic(auto, using(crate::proofs::ItemEquations::item_equations))]
pub(crate) fn find_item<'a>(item: &'a Item, label: &Name) -> Option<&'a Item>
    ensures { option_copied result ≡ find (has_label label.now) (all_in item.now) }
{
    if item.label() == label {
        return Some(item);
    }
    match item {
        Item::Line { .. } => None,
        Item::Block { items, .. } => find_in(items.items(), label),
    }
}

/// How many items there are among some items and all in them. It stops at `u64::MAX`.
#[cycle(count_item)]
#[tactic(auto, using(crate::proofs::ItemEquations::item_equations))]
pub(crate) fn count_in(items: &[Item]) -> u64
    ensures { result ≡ min (length (all_items items.now)) (2 ^ 64 - 1) }
{
    let mut count = 0u64;
    for item in items {
        count = count.saturating_add(count_item(item));
    }
    count
}

#[cycle(count_item)]
#[tactic(auto, using(crate::proofs::ItemEquations::item_equations))]
pub(crate) fn count_item(item: &Item) -> u64
    ensures { result ≡ min (length (all_in item.now)) (2 ^ 64 - 1) }
{
    match item {
        Item::Line { .. } => 1,
        Item::Block { items, .. } => count_in(items.items()).saturating_add(1),
    }
}

/// How often a label stands among some items and all in them. It stops at `u64::MAX`.
#[cycle(count_label)]
#[tactic(auto, using(crate::proofs::ItemEquations::item_equations))]
fn count_label_in(items: &[Item], label: &Name) -> u64
    ensures { result ≡ min (count_by (has_label label.now) (all_items items.now)) (2 ^ 64 - 1) }
{
    let mut count = 0u64;
    for item in items {
        count = count.saturating_add(count_label(item, label));
    }
    count
}

#[cycle(count_label)]
#[tactic(auto, using(crate::proofs::ItemEquations::item_equations))]
pub(crate) fn count_label(item: &Item, label: &Name) -> u64
    ensures { result ≡ min (count_by (has_label label.now) (all_in item.now)) (2 ^ 64 - 1) }
{
    let own = u64::from(item.label() == label);
    match item {
        Item::Line { .. } => own,
        Item::Block { items, .. } => count_label_in(items.items(), label).saturating_add(own),
    }
}

/// How deep boxes are in boxes among some items. It stops at `u64::MAX`.
#[cycle(depth_item)]
#[tactic(auto, using(crate::proofs::ItemEquations::item_equations))]
fn depth_in(items: &[Item]) -> u64
    ensures { result ≡ min (boxes_deep items.now) (2 ^ 64 - 1) }
{
    let mut depth = 0u64;
    for item in items {
        depth = depth.max(depth_item(item));
    }
    depth
}

#[cycle(depth_item)]
#[tactic(auto, using(crate::proofs::ItemEquations::item_equations))]
pub(crate) fn depth_item(item: &Item) -> u64
    ensures { result ≡ min (boxes_in item.now) (2 ^ 64 - 1) }
{
    match item {
        Item::Line { .. } => 0,
        Item::Block { items, .. } => depth_in(items.items()).saturating_add(1),
    }
}

/// How deep boxes would be in boxes among some items, were one of this depth put into a box in them. It stops at `u64::MAX`.
#[cycle(depth_with)]
#[tactic(auto, using(crate::proofs::ItemEquations::item_equations))]
pub(crate) fn depth_with_in(items: &[Item], block: &Name, new: u64) -> u64
    ensures { (before : Option (List ℕ)) (item : ItemOf) → new ≡ min (boxes_in item) (2 ^ 64 - 1) → result ≡ min (boxes_deep (map (edited_item (putting block.now before item)) items.now)) (2 ^ 64 - 1) }
{
    let mut depth = 0u64;
    for item in items {
        depth = depth.max(depth_with(item, block, new));
    }
    depth
}

#[cycle(depth_with)]
#[tactic(auto, using(crate::proofs::ItemEquations::item_equations))]
fn depth_with(item: &Item, block: &Name, new: u64) -> u64
    ensures { (before : Option (List ℕ)) (other : ItemOf) → new ≡ min (boxes_in other) (2 ^ 64 - 1) → result ≡ min (boxes_in (edited_item (putting block.now before other) item.now)) (2 ^ 64 - 1) }
{
    match item {
        Item::Line { .. } => 0,
        Item::Block { label, items, .. } => {
            let depth = depth_with_in(items.items(), block, new);
            let own = if label == block { new } else { 0 };
            depth.max(own).saturating_add(1)
        }
    }
}

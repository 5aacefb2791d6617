ghost use Rattle.std.specs.Prelude.{◌≡◌, ◌≤◌, length, is_some, true, false, not, Some, None, map, count_by, OnOk, OnErr, IfOk};
ghost use Rattle.std.specs.List.{find, filter, list_any, position};
ghost use Rattle.std.specs.Option.{option_copied};
ghost use Rattle.mu_proof.specs.Items.{has_label, is_box_at, all_in, all_items};
ghost use Rattle.mu_proof.specs.Proofs.{IsProof, block_items};
ghost use Rattle.mu_proof.specs.Edits.{edited_item, place_of, with_item, putting, inserted, dropping, removed, altered_item, altering, altered};

use crate::alteration::Alteration;
use crate::items::{Item, ItemList};
use crate::places::is_root;
use crate::walks::find_item;
use mu_tree::{Name, NoMemory};

/// Whether an item or one in it has a label.
fn has_in(item: &Item, label: &Name) -> bool
    ensures { result ≡ list_any (has_label label.now) (all_in item.now) }
{
    find_item(item, label).is_some()
}

/// Where among some items the first one stands that has a label or has it in it.
fn way_to(items: &ItemList, label: &Name) -> Option<usize>
    ensures { result ≡ position (λ each. list_any (has_label label.now) (all_in each)) items.now }
{
    items.items().iter().position(|item| has_in(item, label))
}

fn position_of(items: &ItemList, label: &Name) -> Option<usize>
    ensures { result ≡ position (has_label label.now) items.now }
{
    items.items().iter().position(|item| item.label() == label)
}

/// Puts an item among some, right before the one of a label, or at the end.
fn put(items: &mut ItemList, before: Option<&Name>, new: Item) -> Result<(), NoMemory>
    ensures ok { OnOk result (items.new ≡ with_item items.old (option_copied before.entry) new) }
    ensures err { OnErr result (items.new ≡ items.old) }
{
    let at = place(items, before);
    items.insert(at, new)
}

fn place(items: &ItemList, before: Option<&Name>) -> usize
    ensures place { result ≡ place_of items.now (option_copied before.entry) }
    ensures within { result ≤ length items.now }
{
    let Some(label) = before else {
        return items.len();
    };
    position_of(items, label).unwrap_or(items.len())
}

/// Puts an item into the box of a label.
#[cycle(insert)]
fn insert_in(
    items: &mut ItemList,
    block: &Name,
    before: Option<&Name>,
    new: Item,
) -> Result<(), NoMemory>
    requires one { count_by (has_label block.now) (all_items items.old) ≡ 1 }
    requires block { list_any (is_box_at block.now) (all_items items.old) ≡ true }
    ensures ok { OnOk result (items.new ≡ map (edited_item (putting block.now (option_copied before.entry) new)) items.old) }
    ensures err { OnErr result (items.new ≡ items.old) }
{
    match way_to(items, block) {
        Some(at) => insert_item(items.at_mut(at), block, before, new),
        None => unreachable!(),
    }
}

#[cycle(insert)]
fn insert_item(
    item: &mut Item,
    block: &Name,
    before: Option<&Name>,
    new: Item,
) -> Result<(), NoMemory>
    requires one { count_by (has_label block.now) (all_in item.old) ≡ 1 }
    requires block { list_any (is_box_at block.now) (all_in item.old) ≡ true }
    ensures ok { OnOk result (item.new ≡ edited_item (putting block.now (option_copied before.entry) new) item.old) }
    ensures err { OnErr result (item.new ≡ item.old) }
{
    match item {
        Item::Block { label, items, .. } => {
            if &*label == block {
                put(items, before, new)
            } else {
                insert_in(items, block, before, new)
            }
        }
        Item::Line { .. } => unreachable!(),
    }
}

/// Puts an item into a block that is there: the whole proof or a box.
pub(crate) fn insert_at(
    items: &mut ItemList,
    block: &Name,
    before: Option<&Name>,
    new: Item,
) -> Result<(), NoMemory>
    requires proof { IsProof items.old }
    requires block { is_some (block_items items.old block.now) ≡ true }
    ensures ok { OnOk result (items.new ≡ inserted items.old block.now (option_copied before.entry) new) }
    ensures err { OnErr result (items.new ≡ items.old) }
{
    if is_root(block) {
        return put(items, before, new);
    }
    insert_in(items, block, before, new)
}

/// Takes the item of a label out from among some items or those in them.
#[cycle(remove)]
pub(crate) fn remove_from(items: &mut ItemList, label: &Name) -> Item
    requires { count_by (has_label label.now) (all_items items.old) ≡ 1 }
    ensures item { find (has_label label.now) (all_items items.old) ≡ Some result }
    ensures rest { items.new ≡ removed items.old label.now }
{
    match position_of(items, label) {
        Some(at) => items.remove(at),
        None => remove_below(items, label),
    }
}

#[cycle(remove)]
fn remove_below(items: &mut ItemList, label: &Name) -> Item
    requires one { count_by (has_label label.now) (all_items items.old) ≡ 1 }
    requires below { list_any (has_label label.now) items.old ≡ false }
    ensures item { find (has_label label.now) (all_items items.old) ≡ Some result }
    ensures rest { items.new ≡ removed items.old label.now }
{
    match way_to(items, label) {
        Some(at) => remove_in(items.at_mut(at), label),
        None => unreachable!(),
    }
}

#[cycle(remove)]
fn remove_in(item: &mut Item, label: &Name) -> Item
    requires one { count_by (has_label label.now) (all_in item.old) ≡ 1 }
    requires below { has_label label.now item.old ≡ false }
    ensures item { find (has_label label.now) (all_in item.old) ≡ Some result }
    ensures rest { item.new ≡ edited_item (dropping label.now) item.old }
{
    match item {
        Item::Block { items, .. } => remove_from(items, label),
        Item::Line { .. } => unreachable!(),
    }
}

/// Alters the item of a label among some items or those in them.
#[cycle(alter)]
pub(crate) fn alter_in(items: &mut ItemList, label: &Name, alteration: Alteration)
    requires { count_by (has_label label.now) (all_items items.old) ≡ 1 }
    ensures { items.new ≡ altered items.old label.now alteration }
{
    match way_to(items, label) {
        Some(at) => alter_item(items.at_mut(at), label, alteration),
        None => unreachable!(),
    }
}

#[cycle(alter)]
fn alter_item(item: &mut Item, label: &Name, alteration: Alteration)
    requires { count_by (has_label label.now) (all_in item.old) ≡ 1 }
    ensures { item.new ≡ altered_item label.now alteration (edited_item (altering label.now alteration) item.old) }
{
    if item.label() == label {
        return item.alter(alteration);
    }
    match item {
        Item::Block { items, .. } => alter_in(items, label, alteration),
        Item::Line { .. } => unreachable!(),
    }
}

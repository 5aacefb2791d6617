ghost use Rattle.std.specs.Prelude.{◌≡◌, ◌≢◌, ℕ, ◌+◌, ◌-◌, ◌^◌, min, length, List, Option, true, [], map, None, Some, is_some, IfOk, OnOk, IfErr};
ghost use Rattle.std.specs.List.{find, flat_map, list_any};
ghost use Rattle.std.specs.Option.{option_copied, option_map};
ghost use Rattle.mu_proof.specs.declared.items.Item.{Item as ItemOf};
ghost use Rattle.mu_proof.specs.Items.{label_of, has_label, inner_of, boxes_deep, all_in, all_items, labels_in};
ghost use Rattle.mu_proof.specs.Edits.{inserted};
ghost use Rattle.mu_proof.specs.Proofs.{IsProof, is_root as root_test, is_label, block_items, is_taken as taken_test, unless, block_fault, before_fault, taken_fault, boxes_fault, items_fault, room_fault, place_fault};

use crate::fault::{ProofFault, expect};
use crate::items::Item;
use crate::walks::{count_in, count_item, count_label, depth_item, depth_with_in, find_in};
use mu_tree::Name;
use std::alloc::Global;

/// The most boxes that may be around one another in a proof.
const MOST_BOXES: u64 = 32;

/// The most items that a proof may have.
const MOST_ITEMS: u64 = 4096;

/// The name of the whole proof, as of a block.
const ROOT: &[u8] = b"root";

/// Whether a name is that of the whole proof.
pub(crate) fn is_root(name: &Name) -> bool
    ensures { result ≡ root_test name.now }
{
    name.bytes() == ROOT
}

/// Whether an item has the label.
pub(crate) fn has_item(items: &[Item], label: &Name) -> bool
    ensures { result ≡ is_label items.now label.now }
{
    find_in(items, label).is_some()
}

/// The items directly in a block.
fn items_of<'a>(items: &'a [Item], block: &Name) -> Option<&'a [Item]>
    ensures { option_copied result ≡ block_items items.now block.now }
{
    if is_root(block) {
        return Some(items);
    }
    match find_in(items, block) {
        Some(Item::Block { items, .. }) => Some(items.items()),
        _ => None,
    }
}

/// Whether a new item may not bring a label into a proof.
fn is_taken(label: &Name, known: &[Item], new: &Item) -> bool
    ensures { result ≡ taken_test known.now new.now label.now }
{
    has_item(known, label) || is_root(label) || count_label(new, label) > 1
}

/// The first label of an item and of all in it that a new item may not bring into a proof.
#[cycle(first_taken)]
fn first_taken<'a>(item: &'a Item, known: &[Item], new: &Item) -> Option<&'a Name>
    ensures { option_copied result ≡ find (taken_test known.now new.now) (labels_in item.now) }
{
    let label = item.label();
    if is_taken(label, known, new) {
        return Some(label);
    }
    match item {
        Item::Line { .. } => None,
        Item::Block { items, .. } => first_taken_in(items.items(), known, new),
    }
}

#[cycle(first_taken)]
fn first_taken_in<'a>(items: &'a [Item], known: &[Item], new: &Item) -> Option<&'a Name>
    ensures { option_copied result ≡ find (taken_test known.now new.now) (flat_map labels_in items.now) }
{
    for item in items {
        let found = first_taken(item, known, new);
        if found.is_some() {
            return found;
        }
    }
    None
}

/// The items directly in a block, which must be there.
fn test_block<'a>(alloc: Global, items: &'a [Item], block: &Name) -> Result<&'a [Item], ProofFault>
    ensures ok { IfOk result (λ inner. block_items items.now block.now ≡ Some inner.now) }
    ensures fault { IfErr result (λ fault. fault ≢ ProofFault.NoMemory → block_fault items.now block.now ≡ Some fault) }
{
    let found = items_of(items, block);
    expect(alloc, found.is_some(), block)?;
    Ok(found.unwrap_or(items))
}

/// Whether an item of a label stands directly among some.
fn has_direct(items: &[Item], label: &Name) -> bool
    ensures { result ≡ list_any (has_label label.now) items.now }
{
    items.iter().any(|item| item.label() == label)
}

/// Tests that there is an item to stand before.
fn test_before(alloc: Global, inner: &[Item], before: Option<&Name>) -> Result<(), ProofFault>
    ensures ok { OnOk result ((items : List ItemOf) (block : List ℕ) → block_items items block ≡ Some inner.now → before_fault items block (option_copied before.entry) ≡ None) }
    ensures fault { IfErr result (λ fault. fault ≢ ProofFault.NoMemory → (items : List ItemOf) (block : List ℕ) → block_items items block ≡ Some inner.now → before_fault items block (option_copied before.entry) ≡ Some fault) }
{
    match before {
        Some(label) => expect(alloc, has_direct(inner, label), label),
        None => Ok(()),
    }
}

/// Tests that a new item brings only labels that it may have.
fn test_labels(alloc: Global, items: &[Item], new: &Item) -> Result<(), ProofFault>
    ensures ok { OnOk result (taken_fault items.now new.now ≡ None) }
    ensures fault { IfErr result (λ fault. fault ≢ ProofFault.NoMemory → taken_fault items.now new.now ≡ Some fault) }
{
    match first_taken(new, items, new) {
        Some(label) => Err(ProofFault::Taken(label.copy(alloc)?.into_bytes())),
        None => Ok(()),
    }
}

/// Tests the place and the labels of an item that is to go into a block.
pub(crate) fn test_place(
    alloc: Global,
    items: &[Item],
    block: &Name,
    before: Option<&Name>,
    new: &Item,
) -> Result<(), ProofFault>
    ensures ok { OnOk result (place_fault items.now block.now (option_copied before.entry) new.now ≡ None) }
    ensures fault { IfErr result (λ fault. fault ≢ ProofFault.NoMemory → place_fault items.now block.now (option_copied before.entry) new.now ≡ Some fault) }
{
    let inner = test_block(alloc, items, block)?;
    test_before(alloc, inner, before)?;
    test_labels(alloc, items, new)
}

/// How deep boxes would be in boxes with an item put into a block.
fn depth_after(items: &[Item], block: &Name, new: &Item) -> u64
    ensures { (before : Option (List ℕ)) → result ≡ min (boxes_deep (inserted items.now block.now before new.now)) (2 ^ 64 - 1) }
{
    let own = depth_item(new);
    let depth = depth_with_in(items, block, own);
    if is_root(block) {
        depth.max(own)
    } else {
        depth
    }
}

/// How many items there would be with an item put into a block that is there.
fn count_after(items: &[Item], new: &Item) -> u64
    ensures { result ≡ min (length (all_items items.now) + length (all_in new.now)) (2 ^ 64 - 1) }
{
    count_in(items).saturating_add(count_item(new))
}

/// Tests that there is room for an item in a block that is there.
pub(crate) fn test_room(items: &[Item], block: &Name, new: &Item) -> Result<(), ProofFault>
    requires proof { IsProof items.now }
    requires block { is_some (block_items items.now block.now) ≡ true }
    ensures ok { OnOk result ((before : Option (List ℕ)) → room_fault (inserted items.now block.now before new.now) ≡ None) }
    ensures fault { IfErr result (λ fault. (before : Option (List ℕ)) → room_fault (inserted items.now block.now before new.now) ≡ Some fault) }
{
    if depth_after(items, block, new) > MOST_BOXES {
        return Err(ProofFault::Boxes);
    }
    if count_after(items, new) > MOST_ITEMS {
        return Err(ProofFault::Items);
    }
    Ok(())
}

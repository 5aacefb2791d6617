ghost use Rattle.std.specs.Prelude.{◌≡◌, ◌-◌, ◌^◌, min};
ghost use Rattle.mu_check.specs.Lines.{lines as lines_in, lines_of};

use crate::allowed::Allowed;
use crate::environments::Environment;
use mu_proof::Item;
use mu_tree::Tree;

/// A line where it stands.
#[derive(Clone, Copy)]
pub struct PlacedLine<'a> {
    /// What it may speak of.
    pub allowed: &'a Allowed,
    /// What it may cite.
    pub environment: &'a Environment,
    /// What it says.
    pub tree: &'a Tree,
}

/// How many lines an item is or has. It stops at `u64::MAX`.
#[cycle(lines)]
fn lines(item: &Item) -> u64
    ensures { result ≡ min (lines_in item.now) (2 ^ 64 - 1) }
{
    match item {
        Item::Line { .. } => 1,
        Item::Block { items, .. } => lines_of(items.items()),
    }
}

/// How many lines some items are or have. It stops at `u64::MAX`.
#[cycle(lines)]
pub fn lines_of(items: &[Item]) -> u64
    ensures { result ≡ min (lines_of items.now) (2 ^ 64 - 1) }
{
    let mut count = 0u64;
    for item in items {
        count = count.saturating_add(lines(item));
    }
    count
}

ghost use Rattle.std.specs.Prelude.{◌≤◌, map, sum};
ghost use Rattle.mu_tree.specs.Trees.{size as size_of, depth as depth_of, deepest};

use mu_tree::{Tree, Trees};

/// A tree that was read, its level and its counts. Past a limit its tree is not built: a smaller one stands for it.
///
/// The counts stop at 5000, past both limits.
#[derive(Drop)]
pub struct Operand {
    /// The tree, if it is within the limits.
    pub tree: Tree,
    /// The level of the tree as it is written.
    pub level: u8,
    /// How many nodes the tree has that was read.
    pub size: u64,
    /// How many nodes the longest way down in it has.
    pub depth: u64,
    ghost small: { size_of tree ≤ 4096 },
    ghost shallow: { depth_of tree ≤ 200 },
    ghost counted: { size_of tree ≤ size },
    ghost measured: { depth_of tree ≤ depth },
}

/// Trees that were read one after another, and their counts together.
#[derive(Drop)]
pub struct Several {
    pub trees: Trees,
    pub size: u64,
    pub depth: u64,
    ghost counted: { sum (map size_of trees) ≤ size },
    ghost measured: { deepest (map depth_of trees) ≤ depth },
    ghost bounded: { size ≤ 5000 },
    ghost bounded_depth: { depth ≤ 5000 },
}

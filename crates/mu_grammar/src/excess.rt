ghost use Rattle.std.specs.Prelude.{◌≡◌, ◌||◌, nat_lt};
ghost use Rattle.mu_grammar.specs.Excesses.{no_excess};

/// The most nodes that a tree may have.
pub const MOST_NODES: u64 = 4_096;

/// The most nodes that a way down in a tree may have.
pub const MOST_DEPTH: u64 = 200;

/// Which limits the trees of a line pass. Where a tree passes one, another tree stands for it.
#[derive(Clone, Copy, Debug, PartialEq, Eq)]
pub struct Excess {
    /// Some tree has more than 4,096 nodes.
    pub nodes: bool,
    /// Some tree has a way down of more than 200 nodes.
    pub depth: bool,
}

impl Excess {
    /// No limit is passed.
    pub fn none() -> Excess
        ensures { result ≡ no_excess }
    {
        Excess {
            nodes: false,
            depth: false,
        }
    }

    /// Raises the limits that a tree with these counts passes.
    pub fn raise(&mut self, size: u64, depth: u64)
        ensures nodes { self.new.nodes ≡ self.old.nodes || nat_lt 4096 size }
        ensures depth { self.new.depth ≡ self.old.depth || nat_lt 200 depth }
    {
        self.nodes = self.nodes || size > MOST_NODES;
        self.depth = self.depth || depth > MOST_DEPTH;
    }
}

use mu_tree::{Tree, Trees, TypedVars, Why};

/// What an item may get in place of what it has, while its label and the items in it stay.
#[derive(Drop)]
pub enum Alteration {
    /// A line gets another justification; with none it is open again.
    Why(Option<Why>),
    /// A line gets another expression.
    Tree(Tree),
    /// A box gets other variables and assumptions.
    Head { vars: TypedVars, assumptions: Trees },
}

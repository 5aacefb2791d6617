use mu_tree::{Kind, Name, Shape};

/// A constant as a command declares it.
#[derive(Debug, Drop)]
pub struct DeclaredConstant {
    pub name: Name,
    /// How it is used.
    pub shape: Shape,
    /// The kind of what it makes.
    pub result: Kind,
}

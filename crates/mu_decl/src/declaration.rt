use mu_tree::{Claim, Kind, Name, Shape, Table};

/// A declared constant.
#[derive(Debug, Drop)]
pub struct ConstDecl {
    /// The unit that declares it.
    pub theory: Name,
    /// How it is used in an expression.
    pub shape: Shape,
    /// The kind of the expressions that it makes.
    pub result: Kind,
}

/// A rule that is stated: an axiom, or a rule that wants a proof.
#[derive(Debug, Drop)]
pub struct Statement {
    /// The unit that states it.
    pub theory: Name,
    /// Whether it holds without a proof.
    pub is_axiom: bool,
    /// What it claims.
    pub claim: Claim,
}

/// A map from names to names: what stands for what, each name once and in byte order.
pub type NameMap = Table<Name>;

/// A morphism of theories: it takes what is said in the source to what is said in the target.
#[derive(Drop)]
pub struct MorphMap {
    /// The unit that is translated.
    pub source: Name,
    /// The unit that it is translated into.
    pub target: Name,
    /// The constants of the source that have another name in the target, each with that name.
    pub map: NameMap,
    /// The axioms of the source, each with the rule of the target that carries it.
    pub carries: NameMap,
}

use crate::names::{Name, Names};
use crate::sequence::Sequence;
use crate::trees::{Tree, Trees};

/// What an expression stands for: an element, or a type.
#[derive(Clone, Copy, Debug, PartialEq, Eq)]
pub enum Kind {
    /// An element: truth values, numbers and so on.
    E,
    /// A type.
    T,
}

/// A list of kinds.
pub type Kinds = Sequence<Kind>;

/// How a constant is used in an expression.
#[derive(Debug, Drop)]
pub enum Shape {
    /// It is applied to arguments of these kinds.
    Plain(Kinds),
    /// It binds a variable in a body of this kind.
    Binder(Kind),
}

/// A variable with the type that it ranges over.
#[derive(Debug, Drop)]
pub struct TypedVar {
    pub name: Name,
    pub ty: Tree,
}

/// A list of typed variables. Each type is in the scope of the variables before it.
pub type TypedVars = Sequence<TypedVar>;

/// A hypothesis of a rule.
#[derive(Debug, Drop)]
pub enum Hyp {
    /// An expression.
    Plain(Tree),
    /// A sequent: the upshot follows from the premises, for all values of the variables.
    Sequent {
        vars: TypedVars,
        premises: Trees,
        upshot: Tree,
    },
}

/// A list of hypotheses.
pub type Hyps = Sequence<Hyp>;

/// What a rule claims: the conclusion follows from the hypotheses, whatever stands for its metavariables.
#[derive(Debug, Drop)]
pub struct Claim {
    pub hyps: Hyps,
    pub conclusion: Tree,
}

/// What a constant is defined as: its body, with the arguments for the parameters.
#[derive(Debug, Drop)]
pub struct Definition {
    pub params: Names,
    pub body: Tree,
}

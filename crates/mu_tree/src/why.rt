use crate::names::{Name, Names};
use crate::sequence::Sequence;
use crate::trees::{Tree, Trees};

/// What a line of a proof refers to.
#[derive(Debug, Drop)]
pub enum Ref {
    /// An item of the proof, by its label.
    Item(Name),
    /// An assumption of an enclosing box, by the box's label and the assumption's number from 1.
    Assumption(Name, u32),
    /// A hypothesis of the proof's rule, by its number from 1.
    Hypothesis(u32),
}

/// A list of references.
pub type Refs = Sequence<Ref>;

/// What stands for a metavariable: a body, with the metavariable's arguments for the parameters.
#[derive(Debug, Drop)]
pub struct Given {
    pub meta: Name,
    pub params: Names,
    pub body: Tree,
}

/// An instantiation: what stands for each metavariable.
pub type Inst = Sequence<Given>;

/// Why a line of a proof holds.
#[derive(Debug, Drop)]
pub enum Why {
    /// It is the conclusion of a rule, instantiated, whose hypotheses the references give.
    Rule {
        rule: Name,
        /// The morphism that translates the rule.
        via: Option<Name>,
        refs: Refs,
        inst: Inst,
    },
    /// It is a hypothesis of the proof's rule, or the upshot of one at these terms.
    Hypothesis {
        n: u32,
        terms: Trees,
        refs: Refs,
    },
    /// It differs from what the reference gives by a definition alone.
    Definition {
        constant: Name,
        on: Ref,
    },
    /// It is what the reference gives.
    Same {
        on: Ref,
    },
}

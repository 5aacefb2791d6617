use mu_tree::Name;

/// Why an item of a proof, or the whole proof, doesn't hold: the first test that it fails.
#[derive(Clone, Copy, Debug, PartialEq, Eq)]
pub enum Cause {
    /// The rule that is proved isn't there.
    NoRule,
    /// A variable of a block has the name of one of an enclosing block.
    ShadowedVariable,
    /// A type or an assumption of a block isn't well formed.
    IllFormedBox,
    /// A metavariable doesn't occur in the rule's claim with as many arguments and with the kind of its place.
    ForeignMeta,
    /// A block or the whole proof has no item, or its last item is a block.
    Unfinished,
    /// A line has no justification.
    NoJustification,
    /// A line isn't well formed.
    IllFormedLine,
    /// A reference isn't to something that may be cited where the line stands.
    NotAccessible,
    /// The rule, morphism, definition or hypothesis that is cited isn't there.
    Absent,
    /// The unit of what is cited isn't seen from the rule's.
    NotVisible,
    /// The definition that is cited isn't well formed.
    IllFormedDefinition,
    /// There are too few or too many references or terms.
    WrongCount,
    /// The instantiation or a term doesn't fit, or isn't well formed.
    IllFormedInstance,
    /// A reference gives something else than the hypothesis that it is for.
    HypothesisDiffers,
    /// The line is something else than its justification gives, or the last line something else than the rule's
    /// conclusion.
    ConclusionDiffers,
}

/// An item that doesn't hold, and why. The label `root` stands for the whole proof.
#[derive(Debug, Drop, PartialEq, Eq)]
pub struct Fault {
    pub label: Name,
    pub cause: Cause,
}

/// What the check of a proof finds: its first fault, none where the proof is right.
pub type Verdict = Option<Fault>;

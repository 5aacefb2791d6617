use crate::names::Name;
use crate::sequence::Bytes;

/// What a store or a proof may have too many of.
#[derive(Clone, Copy, Debug, PartialEq, Eq)]
pub enum CountWord {
    Theories,
    /// Specifications.
    Specs,
    Reifications,
    Morphisms,
    Constants,
    Rules,
    Proofs,
    /// Boxes around one another in a proof.
    Boxes,
    /// Items of a proof.
    Items,
    /// The canonical text of a justification, or a tree in it.
    Text,
}

/// A limit of what is read.
#[derive(Clone, Copy, Debug, PartialEq, Eq)]
pub enum LimitWord {
    /// The bytes of a segment of a name.
    Name,
    /// The nodes of a tree.
    Nodes,
    /// The nodes on the longest way down a tree.
    Depth,
    /// The bytes of the canonical text.
    Text,
}

/// Why a command is refused. A detail is the text of a name, a reference or a metavariable.
#[derive(Debug, Drop)]
pub enum Refusal {
    /// The line has more bytes than a line may have.
    LineTooLong,
    /// No command reads from the line; the column counts from 1.
    Syntax(u32),
    /// What the line says passes a limit.
    Limit(LimitWord),
    /// What must be there is not.
    Unknown(Bytes),
    /// A new name is there already, or stands twice where it may stand once.
    Taken(Bytes),
    /// The base theory would be changed in this name.
    Builtin(Bytes),
    /// What is dropped still holds something.
    NotEmpty(Bytes),
    /// Afterwards this name would lead back to itself.
    Circle(Bytes),
    /// No instantiation makes the rule fit.
    NoMatch,
    /// What stands for this metavariable can't be read off and is not given.
    Undetermined(Name),
    /// There would be more than there may be.
    TooMany(CountWord),
    /// The journal has no room for the record.
    JournalFull,
}

use mu_grammar::{DeclaredConstant, Mark};
use mu_tree::{Claim, Kind, Name, Names, Sequence, Shape, Tree, Trees, TypedVars, Why};

/// A word that stands between the parts of a form.
#[derive(Clone, Copy, Debug, PartialEq, Eq)]
pub enum Keyword {
    In,
    To,
}

/// A part of a form, behind the words that it begins with.
#[derive(Clone, Copy, Debug, PartialEq, Eq)]
pub enum Part {
    /// A name.
    Name,
    /// A name of one segment.
    Plain,
    Word(Keyword),
    Sign(Mark),
    /// The declaration of a constant.
    Declaration,
    /// The formal parameters of a definition; there may be none.
    Formals,
    /// The item before which another is put; it may be left out.
    Before,
    Tree,
    Claim,
    /// What a line of a proof holds by.
    Reason,
    /// The variables and the assumptions of a box.
    Block,
}

/// What a part of a command says. Words and marks say nothing.
#[derive(Debug, Drop)]
pub enum Field {
    Name(Name),
    Declaration(DeclaredConstant),
    Formals(Names),
    Before(Option<Name>),
    Tree(Tree),
    Claim(Claim),
    Reason(Why),
    Block(TypedVars, Trees),
}

/// What the parts of a command say, in order.
pub type Fields = Sequence<Field>;

/// The same of a command that is only lent.
#[derive(Clone, Copy)]
pub enum Shown<'a> {
    Name(&'a Name),
    Declaration(&'a Name, &'a Shape, Kind),
    Formals(&'a Names),
    Before(&'a Option<Name>),
    Tree(&'a Tree),
    Claim(&'a Claim),
    Reason(&'a Why),
    Block(&'a TypedVars, &'a Trees),
}

ghost use Rattle.std.specs.Prelude.{◌≡◌};
ghost use Rattle.mu_grammar.specs.Machine.{beginning_of, opening_of, ending_of};

use crate::symbol::{Mark, Sort, Word};

/// What a tree begins with.
#[derive(Clone, Copy, Debug, PartialEq, Eq)]
pub enum Beginning {
    /// The name or the metavariable at its head.
    Head(Word),
    /// A parenthesis.
    Paren,
    /// `not`.
    Negation,
    /// No tree begins with this token.
    Nothing,
}

/// What follows the head of a tree.
#[derive(Clone, Copy, Debug, PartialEq, Eq)]
pub enum Opening {
    /// The bracket that opens its arguments.
    Arguments,
    /// The brace that opens a binder.
    Binder,
    /// The tree does not go on with this token.
    Nothing,
}

/// What follows an argument.
#[derive(Clone, Copy, Debug, PartialEq, Eq)]
pub enum Ending {
    /// The bracket that closes the arguments.
    Closes,
    /// The comma before another argument.
    GoesOn,
    /// No argument list goes on with this token.
    Nothing,
}

impl Beginning {
    /// What a tree begins with that begins with this token.
    pub fn of(sort: Option<Sort>) -> Beginning
        ensures { result ≡ beginning_of sort }
    {
        match sort {
            Some(Sort::Word(Word::Place)) => Beginning::Nothing,
            Some(Sort::Word(head)) => Beginning::Head(head),
            Some(Sort::Mark(Mark::Open)) => Beginning::Paren,
            Some(Sort::Mark(Mark::Not)) => Beginning::Negation,
            _ => Beginning::Nothing,
        }
    }
}

impl Opening {
    /// What this token is behind the head.
    pub fn of(head: Word, sort: Option<Sort>) -> Opening
        ensures { result ≡ opening_of head sort }
    {
        match (head, sort) {
            (Word::Place, _) => Opening::Nothing,
            (Word::Meta, Some(Sort::Mark(Mark::OpenBracket))) => Opening::Arguments,
            (Word::Meta, _) => Opening::Nothing,
            (_, Some(Sort::Mark(Mark::Open))) => Opening::Arguments,
            (_, Some(Sort::Mark(Mark::OpenBrace))) => Opening::Binder,
            _ => Opening::Nothing,
        }
    }
}

impl Ending {
    /// What this token is behind an argument of the head.
    pub fn of(head: Word, sort: Option<Sort>) -> Ending
        ensures { result ≡ ending_of head sort }
    {
        match (head, sort) {
            (_, Some(Sort::Mark(Mark::Comma))) => Ending::GoesOn,
            (Word::Meta, Some(Sort::Mark(Mark::CloseBracket))) => Ending::Closes,
            (Word::Meta, _) => Ending::Nothing,
            (_, Some(Sort::Mark(Mark::Close))) => Ending::Closes,
            _ => Ending::Nothing,
        }
    }
}

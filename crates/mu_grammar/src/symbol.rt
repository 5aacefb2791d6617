/// What a token made of a word is to the grammar.
#[derive(Clone, Copy, Debug, PartialEq, Eq)]
pub enum Word {
    /// A name of one segment that is none of the others.
    Plain,
    /// A name of two or three segments.
    Dotted,
    /// The name `true`, which is never a variable.
    True,
    /// A metavariable.
    Meta,
    /// A place.
    Place,
}

/// What any other token is to the grammar. The operators' words are marks too.
#[derive(Clone, Copy, Debug, PartialEq, Eq)]
pub enum Mark {
    And,
    Or,
    Not,
    Iff,
    Imp,
    Eq,
    Colon,
    Open,
    Close,
    OpenBracket,
    CloseBracket,
    OpenBrace,
    CloseBrace,
    Comma,
    Semicolon,
    Dot,
    Becomes,
    Bar,
    Turnstile,
    Arrow,
    /// A token that fits nothing.
    Wrong,
}

/// What a token is to the grammar.
#[derive(Clone, Copy, Debug, PartialEq, Eq)]
pub enum Sort {
    Word(Word),
    Mark(Mark),
}

ghost use Rattle.std.specs.Prelude.{◌≡◌};
ghost use Rattle.mu_grammar.specs.Reading.{text_of};

/// What a token is spelled as.
#[derive(Clone, Copy, Debug, PartialEq, Eq)]
pub enum TokenSort {
    /// A name: one to three segments joined by dots.
    Name,
    /// A metavariable: `?` and a segment.
    Meta,
    /// A place: `#` and one to nine digits, the first not 0.
    Place,
    /// A bracket, a mark, an arrow or another symbol.
    Symbol,
    /// What fits nothing: more than three segments joined by dots, or a byte that begins no token.
    Wrong,
}

/// A token of a line.
#[derive(Clone, Copy, Debug, PartialEq, Eq)]
pub struct Token {
    /// What the token is spelled as.
    pub sort: TokenSort,
    /// The place of its first byte in the line.
    pub from: usize,
    /// The place after its last byte.
    pub to: usize,
}

/// The bytes of a token of the line; of any other token, those of its bytes that the line has.
pub fn text<'a>(line: &'a [u8], token: Token) -> &'a [u8]
    ensures { result.now ≡ text_of line.now token }
{
    let from = token.from.min(line.len());
    let to = token.to.min(line.len()).max(from);
    &line[from..to]
}

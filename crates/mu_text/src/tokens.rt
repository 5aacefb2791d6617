ghost use Rattle.std.specs.Prelude.{◌≡◌, ◌∷◌, [], MatchOption, IfOk};
ghost use Rattle.mu_grammar.specs.Reading.{AreOnlyTokens, AreTokens};
ghost use Rattle.mu_grammar.specs.Tokens.{tokens};

mod lexer;

pub use lexer::is_blank;
pub(crate) use lexer::{MOST_DIGITS, split, starts_positive};
use lexer::{after, first_token};
use mu_grammar::Token;
use mu_tree::NoMemory;
use std::alloc::{AllocError, Global};
use std::marker::Model;

/// The tokens of a line, in order. Contracts see the list of tokens.
#[derive(Debug, Drop)]
pub struct Tokens {
    items: Vec<Token>,
}

impl Model for Tokens {
    ghost use Rattle.std.specs.Prelude.{List};
    ghost use Rattle.mu_grammar.specs.declared.token.Token.{Token};

    ghost Value = { List Token };

    ghost view = { λ tokens. tokens.items.items };
}

impl Tokens {
    /// Reads a line as tokens, the longest first, with blanks between them where wanted.
    ///
    /// Every line reads: what fits nothing is a token of the sort `Wrong`.
    ///
    /// # Errors
    ///
    /// `NoMemory`, at any line.
    pub fn read(alloc: Global, line: &[u8]) -> Result<Tokens, NoMemory>
        ensures value { IfOk result (λ read. read ≡ tokens line.now) }
        ensures law { IfOk result (λ read. AreTokens line.now read) }
        ensures only { IfOk result (λ read. AreOnlyTokens line.now read) }
    {
        let items = read_items(alloc, line)?;
        Ok(Tokens { items })
    }

    /// The tokens, in the order of the line.
    pub fn items(&self) -> &[Token]
        ensures { result.now ≡ self.now }
    {
        self.items.as_slice()
    }
}

fn read_items(alloc: Global, line: &[u8]) -> Result<Vec<Token>, AllocError>
    ensures { IfOk result (λ found. found.items ≡ tokens line.now) }
{
    let mut found = Vec::new(alloc);
    let mut rest = line;
    let mut at = 0;
    while let Some((first, tail)) = split(rest) {
        if is_blank(first) {
            at += 1;
            rest = tail;
        } else {
            let (sort, more) = first_token(first, tail);
            let to = at + 1 + more;
            found.push(Token { sort, from: at, to })?;
            at = to;
            rest = after(tail, more);
        }
    }
    Ok(found)
}

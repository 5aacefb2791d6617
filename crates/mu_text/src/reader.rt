ghost use Rattle.std.specs.Prelude.{◌≡◌, length, drop, slice_index};
ghost use Rattle.mu_grammar.specs.Lexemes.{item, items, sort_of, bytes_of, first_sort, first_bytes, after_first, name_sort, symbol_mark, sort_in, word_in};

use mu_grammar::{Mark, Sort, Token, TokenSort, Word, text};
use std::marker::Model;

/// The tokens of a line that are not read yet. Contracts see them as the grammar takes them.
#[derive(Drop)]
pub struct Reader<'a> {
    line: &'a [u8],
    rest: &'a [Token],
}

impl<'a> Model for Reader<'a> {
    ghost use Rattle.std.specs.Prelude.{List};
    ghost use Rattle.mu_grammar.specs.Lexemes.{Lexeme, items};

    ghost Value = { List Lexeme };

    ghost view = { λ reader. items reader.line.now reader.rest.now };
}

impl<'a> Reader<'a> {
    /// A reader of these tokens of the line.
    pub fn new(line: &'a [u8], tokens: &'a [Token]) -> Reader<'a>
        ensures { result ≡ items line.now tokens.now }
    {
        Reader { line, rest: tokens }
    }

    /// What the first token is: none exactly where all are read.
    pub fn peek(&self) -> Option<Sort>
        ensures { result ≡ first_sort self.now }
    {
        match self.rest {
            [] => None,
            [token, ..] => Some(sort(self.line, *token)),
        }
    }

    /// The bytes of the first token where it is a word, without the first byte of a metavariable or a place.
    pub fn bytes(&self) -> &[u8]
        ensures { result.now ≡ first_bytes self.now }
    {
        match self.rest {
            [] => &[],
            [token, ..] => word_bytes(self.line, *token),
        }
    }

    /// How many tokens are not read yet.
    pub fn len(&self) -> usize
        ensures { result ≡ length self.now }
    {
        self.rest.len()
    }

    /// Passes over the first token, if there is one.
    pub fn skip(&mut self)
        ensures { self.new ≡ after_first self.old }
    {
        if let [_, rest @ ..] = self.rest {
            self.rest = rest;
        }
    }
}

#[tactic(auto, unfolding(mu_grammar::specs::Lexemes::item))]
fn sort(line: &[u8], token: Token) -> Sort
    ensures { result ≡ sort_of (item line.now token) }
{
    sort_in(text(line, token), token.sort)
}

#[tactic(auto, unfolding(mu_grammar::specs::Lexemes::item))]
fn word_bytes(line: &[u8], token: Token) -> &[u8]
    ensures { result.now ≡ bytes_of (item line.now token) }
{
    match sort_in(text(line, token), token.sort) {
        Sort::Word(_) => word_in(text(line, token), token.sort),
        Sort::Mark(_) => &[],
    }
}

fn sort_in(text: &[u8], sort: TokenSort) -> Sort
    ensures { result ≡ sort_in text.now sort }
{
    match sort {
        TokenSort::Name => name_sort(text),
        TokenSort::Meta => Sort::Word(Word::Meta),
        TokenSort::Place => Sort::Word(Word::Place),
        TokenSort::Symbol => Sort::Mark(symbol_mark(
            first_byte(text),
            text.len().saturating_sub(1),
        )),
        TokenSort::Wrong => Sort::Mark(Mark::Wrong),
    }
}

fn word_in(text: &[u8], sort: TokenSort) -> &[u8]
    ensures { result.now ≡ word_in text.now sort }
{
    match sort {
        TokenSort::Name => text,
        TokenSort::Meta => after_one(text),
        TokenSort::Place => after_one(text),
        TokenSort::Symbol => after_one(text),
        TokenSort::Wrong => after_one(text),
    }
}

fn name_sort(text: &[u8]) -> Sort
    ensures { result ≡ name_sort text.now }
{
    if text == b"and".as_slice() {
        return Sort::Mark(Mark::And);
    }
    if text == b"or".as_slice() {
        return Sort::Mark(Mark::Or);
    }
    if text == b"not".as_slice() {
        return Sort::Mark(Mark::Not);
    }
    if text == b"true".as_slice() {
        return Sort::Word(Word::True);
    }
    if text.iter().filter(|byte| **byte == b'.').count() == 0 {
        return Sort::Word(Word::Plain);
    }
    Sort::Word(Word::Dotted)
}

fn symbol_mark(first: u8, more: usize) -> Mark
    ensures { result ≡ symbol_mark first more }
{
    match first {
        b'(' => Mark::Open,
        b')' => Mark::Close,
        b'[' => Mark::OpenBracket,
        b']' => Mark::CloseBracket,
        b'{' => Mark::OpenBrace,
        b'}' => Mark::CloseBrace,
        b',' => Mark::Comma,
        b';' => Mark::Semicolon,
        b'.' => Mark::Dot,
        b'-' => Mark::Arrow,
        b'<' => Mark::Iff,
        b':' => if more == 0 {
            Mark::Colon
        } else {
            Mark::Becomes
        },
        b'=' => if more == 0 { Mark::Eq } else { Mark::Imp },
        b'|' => if more == 0 {
            Mark::Bar
        } else {
            Mark::Turnstile
        },
        _ => Mark::Wrong,
    }
}

fn first_byte(text: &[u8]) -> u8
    ensures { result ≡ slice_index text.now 0 }
{
    match text {
        [] => 0,
        [first, ..] => *first,
    }
}

fn after_one(text: &[u8]) -> &[u8]
    ensures { result.now ≡ drop 1 text.now }
{
    match text {
        [] => &[],
        [_, rest @ ..] => rest,
    }
}

//! The parts of a line: those of one token, trees, and what is made of them. Each is read where it is spelled, and stops
//! at the first token with which no spelling goes on.

ghost use Rattle.std.specs.Prelude.{◌≡◌, ◌↔◌, IsTrue, true, Some, None, IfOk, IfErr, MatchOption};
ghost use Rattle.mu_tree.specs.Names.{is_digit as digit_test};
ghost use Rattle.std.specs.List.{list_all};
ghost use Rattle.mu_grammar.specs.declared.fault.PartFault.TheVariants as fault;
ghost use Rattle.mu_grammar.specs.Groups.{read_argument_kinds, read_formals, read_parameters};
ghost use Rattle.mu_grammar.specs.Marks.{is_mark};
ghost use Rattle.mu_grammar.specs.Parts.{Gives, Same, StandsEach, at_end, first_as, starts};
ghost use Rattle.mu_grammar.specs.SimpleParts.{StandsName, is_number as number_test, is_word as word_test, name_of, kind_of, number_from, number_of, place_of, plain_name_of, read_kind, read_kinds, read_mark, read_meta, read_name, read_place, read_plain_name, read_var, read_vars, read_word};

mod blocks;
mod claims;
mod declarations;
mod expressions;
mod heads;
mod reasons;
mod refs;

use crate::reader::Reader;
use crate::tokens::{MOST_DIGITS, split, starts_positive};
pub use blocks::{any_typed, block, typed, typed_vars};
pub use claims::claim;
pub use declarations::declaration;
pub use expressions::{tree, trees};
pub use heads::head;
use mu_grammar::{Mark, PartFault, Sort, Word};
use mu_tree::{Kind, Kinds, Name, NameFault, Names};
pub use reasons::{abstraction, abstractions, reason};
pub use refs::{reference, references};
use std::alloc::Global;

/// A name with these bytes; where they are past the limit of a name, some other name stands in its place.
///
/// # Errors
///
/// `NoMemory`.
pub fn kept_name(alloc: Global, text: &[u8]) -> Result<Name, PartFault>
    ensures kept { IfOk result (λ name. StandsName text.now name) }
    ensures fault { IfErr result (λ error. error ≡ fault.NoMemory) }
{
    match Name::read(alloc, text) {
        Ok(name) => Ok(name),
        Err(NameFault::NoMemory) => Err(PartFault::NoMemory),
        Err(_) => Ok(Name::placeholder(alloc)?),
    }
}

/// Whether the first token is the given mark.
pub fn sees(reader: &Reader, mark: Mark) -> bool
    ensures { result ≡ starts (is_mark mark) reader.now }
{
    is_sort(reader.peek(), mark)
}

fn is_sort(sort: Option<Sort>, mark: Mark) -> bool
    ensures { IsTrue result ↔ (sort ≡ Some (Sort.Mark mark)) }
{
    sort == Some(Sort::Mark(mark))
}

/// Whether the first token is the name with these bytes.
pub fn sees_word(reader: &Reader, text: &[u8]) -> bool
    ensures { result ≡ starts (word_test text.now) reader.now }
{
    match name_bytes(reader) {
        Some(name) => name == text,
        None => false,
    }
}

fn plain_name_bytes<'a>(reader: &'a Reader) -> Option<&'a [u8]>
    ensures { MatchOption result (first_as plain_name_of reader.now ≡ None) (λ name. first_as plain_name_of reader.now ≡ Some name.now) }
{
    match reader.peek() {
        Some(Sort::Word(Word::Plain)) => Some(reader.bytes()),
        Some(Sort::Word(Word::True)) => Some(reader.bytes()),
        Some(Sort::Mark(Mark::And)) => Some(b"and"),
        Some(Sort::Mark(Mark::Or)) => Some(b"or"),
        Some(Sort::Mark(Mark::Not)) => Some(b"not"),
        _ => None,
    }
}

/// The bytes of the first token where it is a name.
pub fn name_bytes<'a>(reader: &'a Reader) -> Option<&'a [u8]>
    ensures { MatchOption result (first_as name_of reader.now ≡ None) (λ name. first_as name_of reader.now ≡ Some name.now) }
{
    match reader.peek() {
        Some(Sort::Word(Word::Dotted)) => Some(reader.bytes()),
        _ => plain_name_bytes(reader),
    }
}

/// Reads a name of one segment, as a label is.
///
/// # Errors
///
/// `Mismatch` where the first token is no such name; then no token is passed over. `NoMemory`.
#[tactic(auto, unfolding(mu_grammar::specs::SimpleParts::read_plain_name))]
pub fn plain_name(alloc: Global, reader: &mut Reader) -> Result<Name, PartFault>
    ensures { Gives StandsName (read_plain_name reader.old) result reader.new }
{
    match plain_name_bytes(reader) {
        Some(text) => {
            let name = kept_name(alloc, text)?;
            reader.skip();
            Ok(name)
        }
        None => Err(PartFault::Mismatch),
    }
}

/// Reads a name.
///
/// # Errors
///
/// `Mismatch` where the first token is no name; then no token is passed over. `NoMemory`.
#[tactic(auto, unfolding(mu_grammar::specs::SimpleParts::read_name))]
pub fn name(alloc: Global, reader: &mut Reader) -> Result<Name, PartFault>
    ensures { Gives StandsName (read_name reader.old) result reader.new }
{
    match name_bytes(reader) {
        Some(text) => {
            let name = kept_name(alloc, text)?;
            reader.skip();
            Ok(name)
        }
        None => Err(PartFault::Mismatch),
    }
}

/// Reads a variable: a name of one segment that is no operator's word and not `true`.
///
/// # Errors
///
/// `Mismatch` where the first token is no variable; then no token is passed over. `NoMemory`.
#[tactic(auto, unfolding(mu_grammar::specs::SimpleParts::read_var))]
pub fn var(alloc: Global, reader: &mut Reader) -> Result<Name, PartFault>
    ensures { Gives StandsName (read_var reader.old) result reader.new }
{
    match reader.peek() {
        Some(Sort::Word(Word::Plain)) => {
            let name = kept_name(alloc, reader.bytes())?;
            reader.skip();
            Ok(name)
        }
        _ => Err(PartFault::Mismatch),
    }
}

/// Reads a metavariable, as the name that follows its first byte.
///
/// # Errors
///
/// `Mismatch` where the first token is no metavariable; then no token is passed over. `NoMemory`.
#[tactic(auto, unfolding(mu_grammar::specs::SimpleParts::read_meta))]
pub fn meta(alloc: Global, reader: &mut Reader) -> Result<Name, PartFault>
    ensures { Gives StandsName (read_meta reader.old) result reader.new }
{
    match reader.peek() {
        Some(Sort::Word(Word::Meta)) => {
            let name = kept_name(alloc, reader.bytes())?;
            reader.skip();
            Ok(name)
        }
        _ => Err(PartFault::Mismatch),
    }
}

/// Reads a place, as its number.
///
/// # Errors
///
/// `Mismatch` where the first token is no place; then no token is passed over.
#[tactic(auto, unfolding(mu_grammar::specs::SimpleParts::read_place))]
pub fn place(reader: &mut Reader) -> Result<u32, PartFault>
    ensures { Gives Same (read_place reader.old) result reader.new }
{
    match place_number(reader) {
        Some(number) => {
            reader.skip();
            Ok(number)
        }
        None => Err(PartFault::Mismatch),
    }
}

fn place_number(reader: &Reader) -> Option<u32>
    ensures { result ≡ first_as place_of reader.now }
{
    match reader.peek() {
        Some(Sort::Word(Word::Place)) => number(reader.bytes()),
        _ => None,
    }
}

/// The number that one to nine digits spell.
fn number(text: &[u8]) -> Option<u32>
    ensures { result ≡ number_of text.now }
{
    if !is_number(text) {
        return None;
    }
    Some(digits_value(text))
}

fn is_number(text: &[u8]) -> bool
    ensures { result ≡ number_test text.now }
{
    starts_positive(text) && are_digits(text) && text.len() <= MOST_DIGITS
}

fn are_digits(text: &[u8]) -> bool
    ensures { result ≡ list_all digit_test text.now }
{
    text.iter().all(|byte| byte.is_ascii_digit())
}

fn digits_value(text: &[u8]) -> u32
    requires { number_test text.now ≡ true }
    ensures { result ≡ number_from 0 text.now }
{
    let mut value = 0;
    let mut rest = text;
    while let Some((digit, tail)) = split(rest) {
        value = value * 10 + u32::from(digit - b'0');
        rest = tail;
    }
    value
}

/// Passes over the given word: a name with these bytes.
///
/// # Errors
///
/// `Mismatch` where the first token is another; then no token is passed over.
#[tactic(auto, unfolding(mu_grammar::specs::SimpleParts::read_word))]
pub fn word(reader: &mut Reader, text: &[u8]) -> Result<(), PartFault>
    ensures { Gives Same (read_word text.now reader.old) result reader.new }
{
    if !sees_word(reader, text) {
        return Err(PartFault::Mismatch);
    }
    reader.skip();
    Ok(())
}

/// Passes over the given mark.
///
/// # Errors
///
/// `Mismatch` where the first token is another; then no token is passed over.
#[tactic(auto, unfolding(mu_grammar::specs::SimpleParts::read_mark))]
pub fn mark(reader: &mut Reader, mark: Mark) -> Result<(), PartFault>
    ensures { Gives Same (read_mark mark reader.old) result reader.new }
{
    if !sees(reader, mark) {
        return Err(PartFault::Mismatch);
    }
    reader.skip();
    Ok(())
}

fn kind_seen(reader: &Reader) -> Option<Kind>
    ensures { result ≡ first_as kind_of reader.now }
{
    if sees_word(reader, b"e") {
        return Some(Kind::E);
    }
    if sees_word(reader, b"t") {
        return Some(Kind::T);
    }
    None
}

/// Reads a kind: `e` or `t`.
///
/// # Errors
///
/// `Mismatch` where the first token is no kind; then no token is passed over.
#[tactic(auto, unfolding(mu_grammar::specs::SimpleParts::read_kind))]
pub fn kind(reader: &mut Reader) -> Result<Kind, PartFault>
    ensures { Gives Same (read_kind reader.old) result reader.new }
{
    match kind_seen(reader) {
        Some(kind) => {
            reader.skip();
            Ok(kind)
        }
        None => Err(PartFault::Mismatch),
    }
}

/// Passes over the end of the line.
///
/// # Errors
///
/// `Mismatch` where a token is left.
pub fn end(reader: &mut Reader) -> Result<(), PartFault>
    ensures { Gives Same (at_end reader.old) result reader.new }
{
    match reader.peek() {
        None => Ok(()),
        Some(_) => Err(PartFault::Mismatch),
    }
}

/// Reads kinds between commas, at least one.
///
/// # Errors
///
/// `Mismatch` at the first token with which no such list goes on. `NoMemory`.
#[tactic(auto, unfolding(mu_grammar::specs::SimpleParts::read_kinds))]
pub fn kinds(alloc: Global, reader: &mut Reader) -> Result<Kinds, PartFault>
    ensures { Gives Same (read_kinds reader.old) result reader.new }
{
    let mut kinds = Kinds::new(alloc);
    let first = kind(reader)?;
    kinds.push(first)?;
    while sees(reader, Mark::Comma) {
        reader.skip();
        let next = kind(reader)?;
        kinds.push(next)?;
    }
    Ok(kinds.fit(alloc)?)
}

/// Reads variables between commas, at least one.
///
/// # Errors
///
/// `Mismatch` at the first token with which no such list goes on. `NoMemory`.
#[tactic(auto, unfolding(mu_grammar::specs::SimpleParts::read_vars))]
pub fn vars(alloc: Global, reader: &mut Reader) -> Result<Names, PartFault>
    ensures { Gives (StandsEach StandsName) (read_vars reader.old) result reader.new }
{
    let mut names = Names::new(alloc);
    let first = var(alloc, reader)?;
    names.push(first)?;
    while sees(reader, Mark::Comma) {
        reader.skip();
        let next = var(alloc, reader)?;
        names.push(next)?;
    }
    Ok(names.fit(alloc)?)
}

/// Reads the parameters of an abstraction: variables between commas, in brackets. Where there are none, no token is read.
///
/// # Errors
///
/// `Mismatch` at the first token with which no such part goes on. `NoMemory`.
#[tactic(auto, unfolding(mu_grammar::specs::Groups::read_parameters))]
pub fn parameters(alloc: Global, reader: &mut Reader) -> Result<Names, PartFault>
    ensures { Gives (StandsEach StandsName) (read_parameters reader.old) result reader.new }
{
    if !sees(reader, Mark::OpenBracket) {
        return Ok(Names::new(alloc));
    }
    mark(reader, Mark::OpenBracket)?;
    let read = vars(alloc, reader)?;
    mark(reader, Mark::CloseBracket)?;
    Ok(read)
}

/// Reads the formal parameters of a definition: variables between commas, in parentheses. Where there are none, no token is
/// read.
///
/// # Errors
///
/// `Mismatch` at the first token with which no such part goes on. `NoMemory`.
#[tactic(auto, unfolding(mu_grammar::specs::Groups::read_formals))]
pub fn formals(alloc: Global, reader: &mut Reader) -> Result<Names, PartFault>
    ensures { Gives (StandsEach StandsName) (read_formals reader.old) result reader.new }
{
    if !sees(reader, Mark::Open) {
        return Ok(Names::new(alloc));
    }
    mark(reader, Mark::Open)?;
    let read = vars(alloc, reader)?;
    mark(reader, Mark::Close)?;
    Ok(read)
}

/// Reads the kinds of a constant's arguments: between commas, in parentheses. Where there are none, no token is read.
///
/// # Errors
///
/// `Mismatch` at the first token with which no such part goes on. `NoMemory`.
#[tactic(auto, unfolding(mu_grammar::specs::Groups::read_argument_kinds))]
pub fn argument_kinds(alloc: Global, reader: &mut Reader) -> Result<Kinds, PartFault>
    ensures { Gives Same (read_argument_kinds reader.old) result reader.new }
{
    if !sees(reader, Mark::Open) {
        return Ok(Kinds::new(alloc));
    }
    mark(reader, Mark::Open)?;
    let read = kinds(alloc, reader)?;
    mark(reader, Mark::Close)?;
    Ok(read)
}

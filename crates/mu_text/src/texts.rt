ghost use Rattle.std.specs.Prelude.{◌≡◌, ◌≤◌, ◌<◌, ◌-◌, ◌+◌, ◌^◌, length};
ghost use Rattle.std.specs.List.{list_all};
ghost use Rattle.mu_grammar.specs.Reading.{text_of};
ghost use Rattle.mu_grammar.specs.Tokens.{tokens as tokens_of};
ghost use Rattle.mu_grammar.specs.Excesses.{one_tree};
ghost use Rattle.mu_grammar.specs.Writings.{tree_of};
ghost use Rattle.mu_grammar.specs.Trees.{OneTree};
ghost use Rattle.mu_grammar.specs.Blocks.{IsBlock, block_of, trees_in_block};
ghost use Rattle.mu_grammar.specs.Claims.{IsClaim, claim_of, trees_in_claim};
ghost use Rattle.mu_grammar.specs.Heads.{IsHead, head_of, trees_in_head};
ghost use Rattle.mu_grammar.specs.Reasons.{IsReason, trees_in_reason, why_of};
ghost use Rattle.mu_grammar.specs.Texts.{AreWithin, ReadsText, answer as answer_of, column as column_of, column_behind, is_short_token, segments_of, within_limits};

use crate::parts;
use crate::reader::Reader;
use crate::tokens::Tokens;
use mu_grammar::{Excess, PartFault, TextFault, Token, TokenSort, text};
use mu_tree::{Claim, LimitWord, Name, NoMemory, OpHead, Tree, Trees, TypedVars, Why, is_short};
use std::alloc::Global;

/// Whether no segment of the tokens has more bytes than a name may have.
pub fn are_short(line: &[u8], tokens: &[Token]) -> bool
    ensures { result ≡ list_all (is_short_token line.now) tokens.now }
{
    tokens.iter().all(|token| is_short(segments(line, *token)))
}

// the part of a token's bytes that is made of segments
fn segments<'a>(line: &'a [u8], token: Token) -> &'a [u8]
    ensures { result.now ≡ segments_of token.sort (text_of line.now token) }
{
    let text = text(line, token);
    match token.sort {
        TokenSort::Meta => match text {
            [] => text,
            [_, segment @ ..] => segment,
        },
        _ => text,
    }
}

/// The column of the token at a place, counted from 1, or the one behind the last token.
pub fn column(line: &[u8], tokens: &[Token], at: usize) -> u32
    requires within { AreWithin line.now tokens.now }
    requires short { length line.now < 2 ^ 31 }
    ensures { result ≡ column_of tokens.now at }
{
    match tokens.get(at) {
        Some(token) => (token.from + 1) as u32,
        None => behind(line, tokens),
    }
}

fn behind(line: &[u8], tokens: &[Token]) -> u32
    requires within { AreWithin line.now tokens.now }
    requires short { length line.now < 2 ^ 31 }
    ensures { result ≡ column_behind tokens.now }
{
    match tokens.last() {
        Some(token) => (token.to + 1) as u32,
        None => 1,
    }
}

// what is answered of a value that was read to the end
fn limited<T: Drop>(short: bool, value: T, excess: Excess) -> Result<T, TextFault>
    ensures { result ≡ within_limits short value excess }
{
    if !short {
        return Err(TextFault::Limit(LimitWord::Name));
    }
    if excess.nodes {
        return Err(TextFault::Limit(LimitWord::Nodes));
    }
    if excess.depth {
        return Err(TextFault::Limit(LimitWord::Depth));
    }
    Ok(value)
}

// what is answered where that many tokens are left
fn answer<T: Drop>(
    line: &[u8],
    tokens: &[Token],
    read: Result<T, PartFault>,
    left: usize,
    excess: Excess,
) -> Result<T, TextFault>
    requires whole { tokens.now ≡ tokens_of line.now }
    requires within { AreWithin line.now tokens.now }
    requires short { length line.now < 2 ^ 31 }
    ensures { result ≡ answer_of line.now read left excess }
{
    match read {
        Ok(value) => {
            if left == 0 {
                return limited(are_short(line, tokens), value, excess);
            }
            Err(TextFault::Syntax(column(line, tokens, tokens.len().saturating_sub(left))))
        }
        Err(PartFault::Mismatch) => Err(TextFault::Syntax(column(
            line,
            tokens,
            tokens.len().saturating_sub(left),
        ))),
        Err(PartFault::NoMemory) => Err(TextFault::NoMemory),
    }
}

/// Reads a text as a tree.
///
/// # Errors
///
/// `Syntax` where no tree is spelled so, else `Limit` where one passes a limit. `NoMemory`.
#[tactic(auto, using(crate::proofs::Lines::all_within))]
pub fn read_tree(alloc: Global, text: &[u8]) -> Result<Tree, TextFault>
    requires { length text.now < 2 ^ 31 }
    ensures { ReadsText OneTree one_tree tree_of text.now result }
{
    let tokens = Tokens::read(alloc, text)?;
    let mut reader = Reader::new(text, tokens.items());
    let mut excess = Excess::none();
    let read = parts::tree(alloc, &mut reader, &mut excess);
    answer(text, tokens.items(), read, reader.len(), excess)
}

/// Reads a text as a claim.
///
/// # Errors
///
/// `Syntax` where no claim is spelled so, else `Limit` where one passes a limit. `NoMemory`.
#[tactic(auto, using(crate::proofs::Lines::all_within))]
pub fn read_claim(alloc: Global, text: &[u8]) -> Result<Claim, TextFault>
    requires { length text.now < 2 ^ 31 }
    ensures { ReadsText IsClaim trees_in_claim claim_of text.now result }
{
    let tokens = Tokens::read(alloc, text)?;
    let mut reader = Reader::new(text, tokens.items());
    let mut excess = Excess::none();
    let read = parts::claim(alloc, &mut reader, &mut excess);
    answer(text, tokens.items(), read, reader.len(), excess)
}

/// Reads a text as what a line of a proof holds by.
///
/// # Errors
///
/// `Syntax` where no reason is spelled so, else `Limit` where one passes a limit. `NoMemory`.
#[tactic(auto, using(crate::proofs::Lines::all_within))]
pub fn read_why(alloc: Global, text: &[u8]) -> Result<Why, TextFault>
    requires { length text.now < 2 ^ 31 }
    ensures { ReadsText IsReason trees_in_reason why_of text.now result }
{
    let tokens = Tokens::read(alloc, text)?;
    let mut reader = Reader::new(text, tokens.items());
    let mut excess = Excess::none();
    let read = parts::reason(alloc, &mut reader, &mut excess);
    answer(text, tokens.items(), read, reader.len(), excess)
}

/// Reads a text as what a box begins with: typed variables where there are any, a bar, and assumptions where there are any.
///
/// # Errors
///
/// `Syntax` where nothing such is spelled so, else `Limit` where one passes a limit. `NoMemory`.
#[tactic(auto, using(crate::proofs::Lines::all_within))]
pub fn read_box(alloc: Global, text: &[u8]) -> Result<(TypedVars, Trees), TextFault>
    requires { length text.now < 2 ^ 31 }
    ensures { ReadsText IsBlock trees_in_block block_of text.now result }
{
    let tokens = Tokens::read(alloc, text)?;
    let mut reader = Reader::new(text, tokens.items());
    let mut excess = Excess::none();
    let read = parts::block(alloc, &mut reader, &mut excess);
    answer(text, tokens.items(), read, reader.len(), excess)
}

/// Reads a text as the head of an operation, or of a function, with its name.
///
/// # Errors
///
/// `Syntax` where no such head is spelled so, else `Limit` where one passes a limit. `NoMemory`.
#[tactic(auto, using(crate::proofs::Lines::all_within))]
pub fn read_head(alloc: Global, text: &[u8], op: bool) -> Result<(Name, OpHead), TextFault>
    requires { length text.now < 2 ^ 31 }
    ensures { ReadsText (IsHead op) trees_in_head head_of text.now result }
{
    let tokens = Tokens::read(alloc, text)?;
    let mut reader = Reader::new(text, tokens.items());
    let mut excess = Excess::none();
    let read = parts::head(alloc, &mut reader, &mut excess, op);
    answer(text, tokens.items(), read, reader.len(), excess)
}

ghost use Rattle.std.specs.Prelude.{◌≡◌, ◌-◌, ◌<◌, ◌^◌, length, IfOk};
ghost use Rattle.std.specs.List.{list_all};
ghost use Rattle.mu_grammar.specs.Texts.{AreWithin, column, is_short_token};
ghost use Rattle.mu_command.specs.Canonical.{is_long};
ghost use Rattle.mu_command.specs.Forms.{FormsHaveWords};
ghost use Rattle.mu_command.specs.Language.{OfLanguage};
ghost use Rattle.mu_command.specs.Lines.{AnswersAs, ReadingIsExact, first_limit, is_quiet as quiet_test, line_read, or_text, reading_of, within_limits};

use crate::canonical::print;
use crate::command::Command;
use crate::grammar::read_command;
use mu_grammar::{Excess, PartFault, Token};
use mu_text::{Reader, Tokens, are_short, column, is_blank};
use mu_tree::{LimitWord, NoMemory, Refusal};
use std::alloc::Global;

/// The most bytes that a line may have, as it is read and as canonical text.
pub const LONGEST_LINE: usize = 65_536;

/// Why a line gives no answer.
#[derive(Debug, Drop)]
pub enum LineFault {
    /// The line reads as no command: it is too long, no command is spelled so, or one that passes a limit is.
    Refused(Refusal),
    /// Memory ran out.
    NoMemory,
}

impl From<NoMemory> for LineFault {
    ghost use Rattle.std.specs.Prelude.{◌≡◌};
    ghost use Rattle.mu_command.specs.declared.lines.LineFault.TheVariants as fault;

    ghost from_gives = { λ _ given. given ≡ fault.NoMemory };

    fn from(_error: NoMemory) -> LineFault {
        LineFault::NoMemory
    }
}

/// Reads a line: a command of the language; nothing where the line is blank, or its first other byte is `#`.
///
/// # Errors
///
/// `Refused` with `LineTooLong` for more than 65,536 bytes, whatever they are; with `Syntax` and the column, from 1, of the
/// first token with which no command goes on, which is the one behind the last token where the tokens end before some
/// command does; and with `Limit` and the first of name, nodes, depth and text that the command passes. `NoMemory` may come
/// at any line.
#[tactic(auto, using(crate::proofs::Reading::reading_is_exact, crate::proofs::FormTable::forms_have_words), unfolding(crate::specs::Lines::line_read))]
pub fn read_line(alloc: Global, line: &[u8]) -> Result<Option<Command>, LineFault>
    ensures value { AnswersAs (line_read line.now) result }
    ensures language { OfLanguage result }
    ensures law { ReadingIsExact }
    ensures words { FormsHaveWords }
{
    if line.len() > LONGEST_LINE {
        return Err(LineFault::Refused(Refusal::LineTooLong));
    }
    if is_quiet(line) {
        return Ok(None);
    }
    Ok(Some(read(alloc, line)?))
}

/// Whether the line is blanks, or its first other byte is `#`.
fn is_quiet(line: &[u8]) -> bool
    ensures { result ≡ quiet_test line.now }
{
    for byte in line {
        if !is_blank(*byte) {
            return *byte == b'#';
        }
    }
    true
}

/// Reads a line as a command.
#[tactic(auto, using(mu_text::proofs::Lines::all_within), unfolding(crate::specs::Lines::reading_of))]
fn read(alloc: Global, line: &[u8]) -> Result<Command, LineFault>
    requires { length line.now < 2 ^ 31 }
    ensures { AnswersAs (reading_of line.now) result }
{
    let tokens = Tokens::read(alloc, line)?;
    let mut reader = Reader::new(line, tokens.items());
    let mut excess = Excess::none();
    match read_command(alloc, &mut reader, &mut excess) {
        Ok(command) => {
            if reader.len() == 0 {
                return within(alloc, line, tokens.items(), excess, command);
            }
            discard(command);
            Err(no_command(line, tokens.items(), reader.len()))
        }
        Err(PartFault::Mismatch) => Err(no_command(line, tokens.items(), reader.len())),
        Err(PartFault::NoMemory) => Err(LineFault::NoMemory),
    }
}

/// The command that all tokens of a line are of, where it passes no limit.
fn within(
    alloc: Global,
    line: &[u8],
    tokens: &[Token],
    excess: Excess,
    command: Command,
) -> Result<Command, LineFault>
    ensures { AnswersAs (within_limits (or_text (first_limit (list_all (is_short_token line.now) tokens.now) excess) (is_long command)) command) result }
{
    let first = first_limit(are_short(line, tokens), excess);
    let passed = match or_text(alloc, first, &command) {
        Ok(None) => return Ok(command),
        Ok(Some(word)) => LineFault::Refused(Refusal::Limit(word)),
        Err(NoMemory) => LineFault::NoMemory,
    };
    discard(command);
    Err(passed)
}

/// Lets a command go. What a command holds has many shapes: letting it go here alone keeps the proofs of the others short.
fn discard(_command: Command) {}

/// The limit that is passed; where none is, the one on the canonical text of the command, if it passes that.
fn or_text(
    alloc: Global,
    passed: Option<LimitWord>,
    command: &Command,
) -> Result<Option<LimitWord>, NoMemory>
    ensures { IfOk result (λ word. word ≡ or_text passed (is_long command.now)) }
{
    if passed.is_none() && print(alloc, command)?.len() > LONGEST_LINE {
        return Ok(Some(LimitWord::Text));
    }
    Ok(passed)
}

/// The first limit of names and trees that is passed, if one is.
fn first_limit(short: bool, excess: Excess) -> Option<LimitWord>
    ensures { result ≡ first_limit short excess }
{
    if !short {
        return Some(LimitWord::Name);
    }
    if excess.nodes {
        return Some(LimitWord::Nodes);
    }
    if excess.depth {
        return Some(LimitWord::Depth);
    }
    None
}

/// Why a line reads as no command where that many of its tokens are left.
fn no_command(line: &[u8], tokens: &[Token], left: usize) -> LineFault
    requires within { AreWithin line.now tokens.now }
    requires short { length line.now < 2 ^ 31 }
    ensures { result ≡ LineFault.Refused (Refusal.Syntax (column tokens.now (length tokens.now - left))) }
{
    LineFault::Refused(Refusal::Syntax(column(line, tokens, tokens.len().saturating_sub(left))))
}

ghost use Rattle.std.specs.Prelude.{◌≡◌, IfOk};
ghost use Rattle.mu_grammar.specs.Groups.{StandsOptional};
ghost use Rattle.mu_grammar.specs.Parts.{Gives};
ghost use Rattle.mu_grammar.specs.SimpleParts.{StandsName};
ghost use Rattle.mu_command.specs.Grammar.{GivesPart, GivesRow};
ghost use Rattle.mu_command.specs.Parts.{read_before};
ghost use Rattle.mu_command.specs.Rows.{with_first};

use crate::parts::{Field, Fields, Part};
use crate::rows::keyword_bytes;
use mu_grammar::{Excess, PartFault};
use mu_text::{Reader, parts};
use mu_tree::{Name, NoMemory};
use std::alloc::Global;

/// Reads `before` and a name, where the word stands.
#[tactic(auto, unfolding(crate::specs::Parts::read_before))]
fn read_before(alloc: Global, reader: &mut Reader) -> Result<Option<Name>, PartFault>
    ensures { Gives (StandsOptional StandsName) (read_before reader.old) result reader.new }
{
    if !parts::sees_word(reader, b"before") {
        return Ok(None);
    }
    parts::word(reader, b"before")?;
    let name = parts::name(alloc, reader)?;
    Ok(Some(name))
}

/// Reads a part: what it says, if it says something. The limits that its trees pass are raised.
///
/// # Errors
///
/// `Mismatch` at the first token with which the part doesn't go on. `NoMemory`.
fn read_part(
    alloc: Global,
    reader: &mut Reader,
    excess: &mut Excess,
    part: Part,
) -> Result<Option<Field>, PartFault>
    ensures { GivesPart part excess.old excess.new reader.old result reader.new }
{
    match part {
        Part::Name => Ok(Some(Field::Name(parts::name(alloc, reader)?))),
        Part::Plain => Ok(Some(Field::Name(parts::plain_name(alloc, reader)?))),
        Part::Word(keyword) => {
            parts::word(reader, keyword_bytes(keyword))?;
            Ok(None)
        }
        Part::Sign(mark) => {
            parts::mark(reader, mark)?;
            Ok(None)
        }
        Part::Declaration => Ok(Some(Field::Declaration(parts::declaration(alloc, reader)?))),
        Part::Formals => Ok(Some(Field::Formals(parts::formals(alloc, reader)?))),
        Part::Before => Ok(Some(Field::Before(read_before(alloc, reader)?))),
        Part::Tree => Ok(Some(Field::Tree(parts::tree(alloc, reader, excess)?))),
        Part::Claim => Ok(Some(Field::Claim(parts::claim(alloc, reader, excess)?))),
        Part::Reason => Ok(Some(Field::Reason(parts::reason(alloc, reader, excess)?))),
        Part::Block => {
            let (vars, assumptions) = parts::block(alloc, reader, excess)?;
            Ok(Some(Field::Block(vars, assumptions)))
        }
    }
}

/// Reads the parts of a row: what each says, in order. The limits that their trees pass are raised.
///
/// # Errors
///
/// `Mismatch` at the first token with which no such row goes on. `NoMemory`.
pub(crate) fn read_row(
    alloc: Global,
    reader: &mut Reader,
    excess: &mut Excess,
    row: &[Part],
) -> Result<Fields, PartFault>
    ensures { GivesRow row.now excess.old excess.new reader.old result reader.new }
{
    match row {
        [] => Ok(Fields::new(alloc)),
        [part, rest @ ..] => {
            let first = read_part(alloc, reader, excess, *part)?;
            let others = read_row(alloc, reader, excess, rest)?;
            Ok(with_first(first, others)?)
        }
    }
}

/// The fields with one in front, where there is one.
fn with_first(first: Option<Field>, others: Fields) -> Result<Fields, NoMemory>
    ensures { IfOk result (λ fields. fields ≡ with_first first others) }
{
    let mut fields = others;
    if let Some(field) = first {
        fields.insert(0, field)?;
    }
    Ok(fields)
}

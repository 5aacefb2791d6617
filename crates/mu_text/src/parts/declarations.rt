ghost use Rattle.std.specs.Prelude.{◌≡◌};
ghost use Rattle.mu_grammar.specs.Parts.{Gives, Same};
ghost use Rattle.mu_grammar.specs.Declarations.{StandsDeclaration, read_declaration, read_shape};

use crate::parts::{argument_kinds, kind, mark, plain_name, sees};
use crate::reader::Reader;
use mu_grammar::{DeclaredConstant, Mark, PartFault};
use mu_tree::Shape;
use std::alloc::Global;

/// Reads how a constant is used: the kinds of its arguments in parentheses, or the kind of a binder's body in braces. Where
/// there are neither, no token is read.
#[tactic(auto, unfolding(mu_grammar::specs::Declarations::read_shape))]
fn shape(alloc: Global, reader: &mut Reader) -> Result<Shape, PartFault>
    ensures { Gives Same (read_shape reader.old) result reader.new }
{
    if sees(reader, Mark::OpenBrace) {
        mark(reader, Mark::OpenBrace)?;
        let body = kind(reader)?;
        mark(reader, Mark::CloseBrace)?;
        return Ok(Shape::Binder(body));
    }
    let arguments = argument_kinds(alloc, reader)?;
    Ok(Shape::Plain(arguments))
}

/// Reads a declaration: a name of one segment, how the constant is used, `->` and the kind of what it makes.
///
/// # Errors
///
/// `Mismatch` at the first token with which no declaration goes on. `NoMemory`.
#[tactic(auto, unfolding(mu_grammar::specs::Declarations::read_declaration))]
pub fn declaration(alloc: Global, reader: &mut Reader) -> Result<DeclaredConstant, PartFault>
    ensures { Gives StandsDeclaration (read_declaration reader.old) result reader.new }
{
    let name = plain_name(alloc, reader)?;
    let shape = shape(alloc, reader)?;
    mark(reader, Mark::Arrow)?;
    let result = kind(reader)?;
    Ok(DeclaredConstant {
        name,
        shape,
        result,
    })
}

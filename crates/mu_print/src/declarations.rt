ghost use Rattle.std.specs.Prelude.{◌≡◌, ◌++◌, OnOk};
ghost use Rattle.mu_print.specs.Texts.{declaration_text, formals_text, kind_text, shape_text};

use crate::pieces::{Printed, add, surround};
use mu_tree::{Kind, Name, Names, Shape};
use std::alloc::AllocError;

impl Printed for Kind {
    ghost text = { kind_text };

    fn print(&self, out: &mut Vec<u8>) -> Result<(), AllocError> {
        kind(out, *self)
    }
}

/// Adds the canonical text of a declaration at the end: a constant, how it is used, and the kind of what it makes.
///
/// # Errors
///
/// `AllocError`, with some of the text added.
#[tactic(auto, using(std::proofs::Common::append_assoc), unfolding(crate::specs::Texts::declaration_text))]
pub fn declaration(
    out: &mut Vec<u8>,
    name: &Name,
    shape: &Shape,
    result_kind: Kind,
) -> Result<(), AllocError>
    ensures { OnOk result (out.new.items ≡ out.old.items ++ declaration_text name.now shape.now result_kind) }
{
    add(out, name.bytes())?;
    usage(out, shape)?;
    add(out, b" -> ")?;
    kind(out, result_kind)
}

/// Adds the formal parameters of a definition at the end, in parentheses; nothing where there are none.
///
/// # Errors
///
/// `AllocError`, with some of the text added.
pub fn formals(out: &mut Vec<u8>, names: &Names) -> Result<(), AllocError>
    ensures { OnOk result (out.new.items ≡ out.old.items ++ formals_text names.now) }
{
    surround(out, b"(", b", ", b")", names.items())
}

/// Adds how a constant is used.
#[tactic(auto, using(std::proofs::Common::append_assoc))]
fn usage(out: &mut Vec<u8>, shape: &Shape) -> Result<(), AllocError>
    ensures { OnOk result (out.new.items ≡ out.old.items ++ shape_text shape.now) }
{
    match shape {
        Shape::Plain(kinds) => surround(out, b"(", b", ", b")", kinds.items()),
        Shape::Binder(body) => {
            add(out, b"{")?;
            kind(out, *body)?;
            add(out, b"}")
        }
    }
}

/// Adds a kind.
fn kind(out: &mut Vec<u8>, kind: Kind) -> Result<(), AllocError>
    ensures { OnOk result (out.new.items ≡ out.old.items ++ kind_text kind) }
{
    match kind {
        Kind::E => add(out, b"e"),
        Kind::T => add(out, b"t"),
    }
}

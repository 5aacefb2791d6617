ghost use Rattle.mu_command.specs.Grammar.{GivesCommand};

use crate::command::Command;
use crate::fields::read_row;
use crate::forms::read_form;
use crate::making::make;
use crate::rows::row;
use mu_grammar::{Excess, PartFault};
use mu_text::Reader;
use std::alloc::Global;

/// Reads a command, and raises the limits that its trees pass.
///
/// # Errors
///
/// `Mismatch` at the first token with which no command goes on. `NoMemory`, at any tokens.
#[tactic(auto, using(crate::proofs::FormLemmas::form_stops, crate::proofs::FormLemmas::command_stops, crate::proofs::FormLemmas::row_is_sorted, crate::proofs::FormLemmas::command_made))]
pub(crate) fn read_command(
    alloc: Global,
    reader: &mut Reader,
    excess: &mut Excess,
) -> Result<Command, PartFault>
    ensures { GivesCommand excess.old excess.new reader.old result reader.new }
{
    let form = read_form(reader)?;
    let fields = read_row(alloc, reader, excess, row(form))?;
    Ok(make(form, fields))
}

ghost use Rattle.std.specs.Prelude.{◌≡◌, ◌++◌, OnOk};
ghost use Rattle.mu_print.specs.Texts.{head_text, inputs_text, result_text, states_text, variable_text};

use crate::pieces::{Printed, add, separate};
use mu_tree::{Name, OpHead, TypedVar};
use std::alloc::AllocError;

/// Adds the canonical text of a head of an operation or a function at the end: its name, its inputs, its states and its result.
///
/// # Errors
///
/// `AllocError`, with some of the text added.
#[tactic(auto, using(std::proofs::Common::append_assoc), unfolding(crate::specs::Texts::head_text))]
pub fn head(out: &mut Vec<u8>, name: &Name, head: &OpHead) -> Result<(), AllocError>
    ensures { OnOk result (out.new.items ≡ out.old.items ++ head_text name.now head.now) }
{
    add(out, name.bytes())?;
    inputs(out, head.inputs.items())?;
    states(out, &head.states)?;
    outcome(out, &head.result)
}

/// Adds the inputs in their parentheses, which stand there also where there are none.
#[tactic(auto, using(std::proofs::Common::append_assoc))]
fn inputs(out: &mut Vec<u8>, vars: &[TypedVar]) -> Result<(), AllocError>
    ensures { OnOk result (out.new.items ≡ out.old.items ++ inputs_text vars.now) }
{
    add(out, b"(")?;
    separate(out, b", ", vars)?;
    add(out, b")")
}

/// Adds the old and the new state, where there are any.
#[tactic(auto, using(std::proofs::Common::append_assoc))]
fn states(out: &mut Vec<u8>, states: &Option<(Name, Name)>) -> Result<(), AllocError>
    ensures { OnOk result (out.new.items ≡ out.old.items ++ states_text states.now) }
{
    match states {
        Some((old, new)) => {
            add(out, b" old ")?;
            add(out, old.bytes())?;
            add(out, b" new ")?;
            add(out, new.bytes())
        }
        None => Ok(()),
    }
}

/// Adds the result, where there is one.
fn outcome(out: &mut Vec<u8>, outcome: &Option<TypedVar>) -> Result<(), AllocError>
    ensures { OnOk result (out.new.items ≡ out.old.items ++ result_text outcome.now) }
{
    match outcome {
        Some(variable) => {
            add(out, b" result ")?;
            variable.print(out)
        }
        None => Ok(()),
    }
}

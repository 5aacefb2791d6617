ghost use Rattle.std.specs.Prelude.{◌≡◌};
ghost use Rattle.mu_grammar.specs.Parts.{Gives, StandsEach};
ghost use Rattle.mu_grammar.specs.Groups.{StandsOptional};
ghost use Rattle.mu_grammar.specs.Excesses.{Raising, in_each};
ghost use Rattle.mu_grammar.specs.Blocks.{StandsTyped, trees_in_typed};
ghost use Rattle.mu_grammar.specs.Heads.{StandsHead, StandsRest, StandsStates, read_any_result, read_head, read_inputs, read_rest, read_result, read_states, trees_in_head, trees_in_rest, trees_in_result};

use crate::parts::{any_typed, mark, plain_name, sees_word, typed, var, word};
use crate::reader::Reader;
use mu_grammar::{Excess, Mark, PartFault};
use mu_tree::{Name, OpHead, TypedVar, TypedVars};
use std::alloc::Global;

/// The old and the new state of an operation.
type States = (Name, Name);

/// Reads the head of an operation, or of a function, with its name. The limits that its types pass are raised.
///
/// # Errors
///
/// `Mismatch` at the first token with which no such head goes on. `NoMemory`.
#[tactic(auto, using(crate::proofs::Excesses::raised_both), unfolding(mu_grammar::specs::Heads::read_head))]
pub fn head(
    alloc: Global,
    reader: &mut Reader,
    excess: &mut Excess,
    op: bool,
) -> Result<(Name, OpHead), PartFault>
    ensures { Gives (Raising StandsHead trees_in_head excess.old excess.new) (read_head op reader.old) result reader.new }
{
    let name = plain_name(alloc, reader)?;
    let inputs = inputs(alloc, reader, excess)?;
    let (states, result) = rest(alloc, reader, excess, op)?;
    let head = OpHead {
        inputs,
        states,
        result,
    };
    Ok((name, head))
}

/// Reads typed variables in parentheses, which stand there also where there are none.
#[tactic(auto, unfolding(mu_grammar::specs::Heads::read_inputs))]
fn inputs(alloc: Global, reader: &mut Reader, excess: &mut Excess) -> Result<TypedVars, PartFault>
    ensures { Gives (Raising (StandsEach StandsTyped) (in_each trees_in_typed) excess.old excess.new) (read_inputs reader.old) result reader.new }
{
    mark(reader, Mark::Open)?;
    let inputs = any_typed(alloc, reader, excess)?;
    mark(reader, Mark::Close)?;
    Ok(inputs)
}

/// Reads what follows the inputs: of an operation the states, and the result where it has one; of a function the result.
#[tactic(auto, unfolding(mu_grammar::specs::Heads::read_rest))]
fn rest(
    alloc: Global,
    reader: &mut Reader,
    excess: &mut Excess,
    op: bool,
) -> Result<(Option<States>, Option<TypedVar>), PartFault>
    ensures { Gives (Raising StandsRest trees_in_rest excess.old excess.new) (read_rest op reader.old) result reader.new }
{
    if op {
        let states = states(alloc, reader)?;
        let result = any_result(alloc, reader, excess)?;
        return Ok((Some(states), result));
    }
    let result = result(alloc, reader, excess)?;
    Ok((None, Some(result)))
}

/// Reads `old` and a variable, and `new` and a variable.
#[tactic(auto, unfolding(mu_grammar::specs::Heads::read_states))]
fn states(alloc: Global, reader: &mut Reader) -> Result<States, PartFault>
    ensures { Gives StandsStates (read_states reader.old) result reader.new }
{
    word(reader, b"old")?;
    let old = var(alloc, reader)?;
    word(reader, b"new")?;
    let new = var(alloc, reader)?;
    Ok((old, new))
}

/// Reads `result` and a typed variable.
#[tactic(auto, unfolding(mu_grammar::specs::Heads::read_result))]
fn result(alloc: Global, reader: &mut Reader, excess: &mut Excess) -> Result<TypedVar, PartFault>
    ensures { Gives (Raising StandsTyped trees_in_typed excess.old excess.new) (read_result reader.old) result reader.new }
{
    word(reader, b"result")?;
    typed(alloc, reader, excess)
}

/// Reads `result` and a typed variable, where the word stands.
#[tactic(auto, unfolding(mu_grammar::specs::Heads::read_any_result, mu_grammar::specs::Heads::read_result))]
fn any_result(
    alloc: Global,
    reader: &mut Reader,
    excess: &mut Excess,
) -> Result<Option<TypedVar>, PartFault>
    ensures { Gives (Raising (StandsOptional StandsTyped) trees_in_result excess.old excess.new) (read_any_result reader.old) result reader.new }
{
    if !sees_word(reader, b"result") {
        return Ok(None);
    }
    let read = result(alloc, reader, excess)?;
    Ok(Some(read))
}

ghost use Rattle.std.specs.Prelude.{◌≡◌};
ghost use Rattle.mu_grammar.specs.Parts.{Gives, StandsEach, starts};
ghost use Rattle.mu_grammar.specs.Excesses.{Raising, StandsTree, in_each, one_tree};
ghost use Rattle.mu_grammar.specs.Blocks.{StandsBlock, StandsTyped, begins_tree, is_variable, read_any_trees, read_any_typed, read_block, read_typed, read_typed_vars, trees_in_block, trees_in_typed};

use crate::parts::{mark, sees, tree, trees, var};
use crate::reader::Reader;
use mu_grammar::{Beginning, Excess, Mark, PartFault, Sort, Word};
use mu_tree::{Trees, TypedVar, TypedVars};
use std::alloc::Global;

/// Reads a variable, a colon and its type. The limits that the type passes are raised.
///
/// # Errors
///
/// `Mismatch` at the first token with which no typed variable goes on. `NoMemory`.
#[tactic(auto, unfolding(mu_grammar::specs::Blocks::read_typed))]
pub fn typed(alloc: Global, reader: &mut Reader, excess: &mut Excess) -> Result<TypedVar, PartFault>
    ensures { Gives (Raising StandsTyped trees_in_typed excess.old excess.new) (read_typed reader.old) result reader.new }
{
    let name = var(alloc, reader)?;
    mark(reader, Mark::Colon)?;
    let ty = tree(alloc, reader, excess)?;
    Ok(TypedVar { name, ty })
}

/// Reads typed variables between commas, at least one. The limits that their types pass are raised.
///
/// # Errors
///
/// `Mismatch` at the first token with which no such list goes on. `NoMemory`.
#[tactic(auto, unfolding(mu_grammar::specs::Blocks::read_typed_vars))]
pub fn typed_vars(
    alloc: Global,
    reader: &mut Reader,
    excess: &mut Excess,
) -> Result<TypedVars, PartFault>
    ensures { Gives (Raising (StandsEach StandsTyped) (in_each trees_in_typed) excess.old excess.new) (read_typed_vars reader.old) result reader.new }
{
    let mut vars = TypedVars::new(alloc);
    let first = typed(alloc, reader, excess)?;
    vars.push(first)?;
    while sees(reader, Mark::Comma) {
        reader.skip();
        let next = typed(alloc, reader, excess)?;
        vars.push(next)?;
    }
    Ok(vars.fit(alloc)?)
}

fn sees_variable(reader: &Reader) -> bool
    ensures { result ≡ starts is_variable reader.now }
{
    reader.peek() == Some(Sort::Word(Word::Plain))
}

fn sees_tree(reader: &Reader) -> bool
    ensures { result ≡ starts begins_tree reader.now }
{
    Beginning::of(reader.peek()) != Beginning::Nothing
}

/// Reads typed variables between commas; where there are none, no token is read. The limits that their types pass are raised.
///
/// # Errors
///
/// `Mismatch` at the first token with which no such list goes on. `NoMemory`.
#[tactic(auto, unfolding(mu_grammar::specs::Blocks::read_any_typed))]
pub fn any_typed(
    alloc: Global,
    reader: &mut Reader,
    excess: &mut Excess,
) -> Result<TypedVars, PartFault>
    ensures { Gives (Raising (StandsEach StandsTyped) (in_each trees_in_typed) excess.old excess.new) (read_any_typed reader.old) result reader.new }
{
    if !sees_variable(reader) {
        return Ok(TypedVars::new(alloc));
    }
    typed_vars(alloc, reader, excess)
}

#[tactic(auto, unfolding(mu_grammar::specs::Blocks::read_any_trees))]
fn any_trees(alloc: Global, reader: &mut Reader, excess: &mut Excess) -> Result<Trees, PartFault>
    ensures { Gives (Raising (StandsEach StandsTree) (in_each one_tree) excess.old excess.new) (read_any_trees reader.old) result reader.new }
{
    if !sees_tree(reader) {
        return Ok(Trees::new(alloc));
    }
    trees(alloc, reader, excess)
}

/// Reads what a sequent or a block begins with: typed variables where there are any, a bar, and trees where there are any.
/// The limits that the types and the trees pass are raised.
///
/// # Errors
///
/// `Mismatch` at the first token with which nothing such goes on. `NoMemory`.
#[tactic(auto, using(crate::proofs::Excesses::raised_both), unfolding(mu_grammar::specs::Blocks::read_block))]
pub fn block(
    alloc: Global,
    reader: &mut Reader,
    excess: &mut Excess,
) -> Result<(TypedVars, Trees), PartFault>
    ensures { Gives (Raising StandsBlock trees_in_block excess.old excess.new) (read_block reader.old) result reader.new }
{
    let vars = any_typed(alloc, reader, excess)?;
    mark(reader, Mark::Bar)?;
    let assumptions = any_trees(alloc, reader, excess)?;
    Ok((vars, assumptions))
}

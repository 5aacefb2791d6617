ghost use Rattle.std.specs.Prelude.{◌≡◌};
ghost use Rattle.mu_grammar.specs.Parts.{Gives, StandsEach};
ghost use Rattle.mu_grammar.specs.Trees.{read_tree};
ghost use Rattle.mu_grammar.specs.Blocks.{read_trees};
ghost use Rattle.mu_grammar.specs.Excesses.{Raising, StandsTree, in_each, one_tree};

use crate::build::fitted;
use crate::descent::MOST_NESTING;
use crate::parts::sees;
use crate::reader::Reader;
use mu_grammar::{Excess, Mark, PartFault};
use mu_tree::{Tree, Trees};
use std::alloc::Global;

/// Reads a tree, and raises the limits that it passes.
///
/// # Errors
///
/// `Mismatch` at the first token with which no tree goes on. `NoMemory`.
pub fn tree(alloc: Global, reader: &mut Reader, excess: &mut Excess) -> Result<Tree, PartFault>
    ensures { Gives (Raising StandsTree one_tree excess.old excess.new) (read_tree reader.old) result reader.new }
{
    let operand = reader.tree(alloc, MOST_NESTING, 0)?;
    excess.raise(operand.size, operand.depth);
    Ok(operand.tree)
}

/// Reads trees between commas, at least one. The limits that they pass are raised.
///
/// # Errors
///
/// `Mismatch` at the first token with which no such list goes on. `NoMemory`.
#[tactic(auto, unfolding(mu_grammar::specs::Blocks::read_trees))]
pub fn trees(alloc: Global, reader: &mut Reader, excess: &mut Excess) -> Result<Trees, PartFault>
    ensures { Gives (Raising (StandsEach StandsTree) (in_each one_tree) excess.old excess.new) (read_trees reader.old) result reader.new }
{
    let mut read = Trees::new(alloc);
    let first = tree(alloc, reader, excess)?;
    read.push(first)?;
    while sees(reader, Mark::Comma) {
        reader.skip();
        let next = tree(alloc, reader, excess)?;
        read.push(next)?;
    }
    Ok(fitted(alloc, read)?)
}

ghost use Rattle.std.specs.Prelude.{◌≡◌, IfOk};
ghost use Rattle.mu_print.specs.Canonical.{tree_text};
ghost use Rattle.mu_print.specs.Laws.{BlocksReadBack, ClaimsReadBack, HeadsReadBack, ParenthesesAreNeeded, ReasonsReadBack, TreesReadBack};
ghost use Rattle.mu_print.specs.Texts.{block_text, claim_text, head_text, reason_text};

use crate::canonical::tree;
use crate::claims::{block, claim};
use crate::heads::head;
use crate::reasons::reason;
use mu_tree::{Bytes, Claim, Name, NoMemory, OpHead, Tree, Trees, TypedVars, Why};
use std::alloc::Global;

/// The canonical text of a tree. A tree that some text reads as is read back from it, and no pair of parentheses in it can be left out.
///
/// # Errors
///
/// `NoMemory`.
#[tactic(auto, using(crate::proofs::TreesBack::trees_read_back, crate::proofs::Parentheses::parentheses_are_needed))]
pub fn print_tree(alloc: Global, printed: &Tree) -> Result<Bytes, NoMemory>
    ensures value { IfOk result (λ text. text ≡ tree_text printed.now) }
    ensures reads_back { TreesReadBack }
    ensures parentheses { ParenthesesAreNeeded }
{
    let mut text = Vec::new(alloc);
    tree(&mut text, printed)?;
    Ok(Bytes::from_vec(text))
}

/// The canonical text of a claim. A claim that some text reads as is read back from it.
///
/// # Errors
///
/// `NoMemory`.
#[tactic(auto, using(crate::proofs::ClaimsBack::claims_read_back))]
pub fn print_claim(alloc: Global, printed: &Claim) -> Result<Bytes, NoMemory>
    ensures value { IfOk result (λ text. text ≡ claim_text printed.now) }
    ensures reads_back { ClaimsReadBack }
{
    let mut text = Vec::new(alloc);
    claim(&mut text, printed)?;
    Ok(Bytes::from_vec(text))
}

/// The canonical text of what a line holds by. What some text reads as is read back from it.
///
/// # Errors
///
/// `NoMemory`.
#[tactic(auto, using(crate::proofs::ReasonsBack::reasons_read_back))]
pub fn print_why(alloc: Global, why: &Why) -> Result<Bytes, NoMemory>
    ensures value { IfOk result (λ text. text ≡ reason_text why.now) }
    ensures reads_back { ReasonsReadBack }
{
    let mut text = Vec::new(alloc);
    reason(&mut text, why)?;
    Ok(Bytes::from_vec(text))
}

/// The canonical text of what a box begins with: its variables, the bar and its assumptions. What some text reads as is read back
/// from it.
///
/// # Errors
///
/// `NoMemory`.
#[tactic(auto, using(crate::proofs::BlocksBack::blocks_read_back))]
pub fn print_box(alloc: Global, vars: &TypedVars, assumptions: &Trees) -> Result<Bytes, NoMemory>
    ensures value { IfOk result (λ text. text ≡ block_text vars.now assumptions.now) }
    ensures reads_back { BlocksReadBack }
{
    let mut text = Vec::new(alloc);
    block(&mut text, vars.items(), assumptions.as_slice())?;
    Ok(Bytes::from_vec(text))
}

/// The canonical text of a head of an operation or a function. A head that some text reads as is read back from it.
///
/// # Errors
///
/// `NoMemory`.
#[tactic(auto, using(crate::proofs::HeadsBack::heads_read_back))]
pub fn print_head(alloc: Global, name: &Name, printed: &OpHead) -> Result<Bytes, NoMemory>
    ensures value { IfOk result (λ text. text ≡ head_text name.now printed.now) }
    ensures reads_back { HeadsReadBack }
{
    let mut text = Vec::new(alloc);
    head(&mut text, name, printed)?;
    Ok(Bytes::from_vec(text))
}

ghost use Rattle.std.specs.Prelude.{◌≡◌, IfOk, OnOk, map, nat_eq, find};
ghost use Rattle.std.specs.Option.{option_copied, option_map};
ghost use Rattle.std.specs.List.{list_all};
ghost use Rattle.std.specs.Cmp.Lexicographic.{pointwise};
ghost use Rattle.mu_check.specs.Facts.{hypothesis_fact};
ghost use Rattle.mu_check.specs.Environments.{nth, block_of, gives, is_accessible, starting, start, with_item, within, extent_of, left};

use crate::blocks::BlockHead;
use crate::fact::Fact;
use crate::facts::{assumptions_of, hypothesis_fact};
use crate::labels::KnownItems;
use mu_decl::Variables;
use mu_tree::{Claim, Name, NoMemory, Ref, Sequence};
use std::alloc::Global;

/// An item that may be cited, with what it gives.
#[derive(Drop)]
pub struct KnownItem {
    pub label: Name,
    pub gives: Fact,
}

/// An enclosing block, with its assumptions.
#[derive(Drop)]
pub struct KnownBlock {
    pub label: Name,
    pub assumptions: Sequence<Fact>,
}

/// What may be cited where an item stands, and the variables in scope there.
#[derive(Drop)]
pub struct Environment {
    /// The variables of the enclosing blocks, the outermost block's first.
    pub scope: Variables,
    /// The hypotheses of the rule that is proved.
    pub hyps: Sequence<Fact>,
    /// The enclosing blocks, the outermost first.
    pub blocks: Sequence<KnownBlock>,
    /// The items before this one that may be cited, in order.
    pub items: KnownItems,
}

/// How much there is in an environment: so many variables, blocks and items.
#[derive(Clone, Copy)]
pub struct Extent {
    pub scope: usize,
    pub blocks: usize,
    pub items: usize,
}

fn block_of<'a>(blocks: &'a [KnownBlock], label: &Name) -> Option<&'a KnownBlock>
    ensures { option_copied result ≡ block_of blocks.now label.now }
{
    blocks.iter().find(|block| block.label == *label)
}

/// The fact of a number, counted from 1.
pub fn nth<'a>(facts: &'a [Fact], number: u32) -> Option<&'a Fact>
    ensures { option_copied result ≡ nth facts.now number }
{
    if number == 0 {
        return None;
    }
    facts.get((number - 1) as usize)
}

/// What a reference gives, none exactly where it may not be cited.
pub fn gives<'a>(environment: &'a Environment, reference: &Ref) -> Option<&'a Fact>
    ensures { option_copied result ≡ gives environment.now reference.now }
{
    match reference {
        Ref::Item(label) => environment.items.find(label),
        Ref::Assumption(label, number) => match block_of(environment.blocks.items(), label) {
            Some(found) => nth(found.assumptions.items(), *number),
            None => None,
        },
        Ref::Hypothesis(number) => nth(environment.hyps.items(), *number),
    }
}

/// Whether a reference may be cited.
pub fn is_accessible(environment: &Environment, reference: &Ref) -> bool
    ensures { result ≡ is_accessible environment.now reference.now }
{
    gives(environment, reference).is_some()
}

/// Whether all of some references may be cited.
pub fn are_accessible(environment: &Environment, refs: &[Ref]) -> bool
    ensures { result ≡ list_all (is_accessible environment.now) refs.now }
{
    refs.iter()
        .all(|reference| is_accessible(environment, reference))
}

/// What may be cited before the first item of a proof.
pub fn start(alloc: Global, claim: &Claim) -> Result<Environment, NoMemory>
    ensures { IfOk result (λ environment. environment ≡ start claim.now) }
{
    let mut hyps = Sequence::new(alloc);
    for hypothesis in claim.hyps.items() {
        hyps.push(hypothesis_fact(alloc, hypothesis)?)?;
    }
    Ok(starting(alloc, hyps))
}

fn starting(alloc: Global, hyps: Sequence<Fact>) -> Environment
    ensures { result ≡ starting hyps }
{
    Environment {
        scope: Variables::new(alloc),
        hyps,
        blocks: Sequence::new(alloc),
        items: KnownItems::new(alloc),
    }
}

/// Adds an item, which may be cited from now on.
pub fn add_item(
    alloc: Global,
    environment: &mut Environment,
    label: &Name,
    gives: Fact,
) -> Result<(), NoMemory>
    ensures { OnOk result (environment.new ≡ with_item label.now gives environment.old) }
{
    let label = label.copy(alloc)?;
    environment.items.push(alloc, KnownItem { label, gives })?;
    Ok(())
}

/// Enters a block: its variables come into scope, and its assumptions may be cited.
pub fn within(alloc: Global, environment: &mut Environment, head: BlockHead) -> Result<(), NoMemory>
    ensures { OnOk result (environment.new ≡ within head.entry.label.now head.entry.vars.now head.entry.assumptions.now environment.old) }
{
    let assumptions = assumptions_of(alloc, &mut environment.scope, head.vars, head.assumptions)?;
    let label = head.label.copy(alloc)?;
    environment.blocks.push(KnownBlock { label, assumptions })?;
    Ok(())
}

/// How much there is in an environment.
pub fn extent_of(environment: &Environment) -> Extent
    ensures { result ≡ extent_of environment.now }
{
    Extent {
        scope: environment.scope.len(),
        blocks: environment.blocks.len(),
        items: environment.items.len(),
    }
}

/// Goes back to where there was this much.
pub fn leave(environment: &mut Environment, extent: Extent)
    ensures { environment.new ≡ left extent environment.old }
{
    environment.scope.truncate(extent.scope);
    environment.blocks.truncate(extent.blocks);
    environment.items.truncate(extent.items);
}

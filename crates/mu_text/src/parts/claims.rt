ghost use Rattle.std.specs.Prelude.{◌≡◌};
ghost use Rattle.mu_grammar.specs.declared.excess.Excess.{Excess};
ghost use Rattle.mu_grammar.specs.Parts.{Gives, StandsEach, starts};
ghost use Rattle.mu_grammar.specs.Excesses.{Raising, StandsTree, in_each, one_tree};
ghost use Rattle.mu_grammar.specs.Claims.{Hypothesis, StandsHypothesis, StandsClaim, trees_in_hypothesis, trees_in_claim, goes_on, read_upshot, read_sequent, read_hypothesis, read_hypotheses, read_concluded, read_after, read_claim};

use crate::parts::{block, mark, sees, tree};
use crate::reader::Reader;
use mu_grammar::{Excess, Mark, PartFault};
use mu_tree::{Claim, Hyp, Hyps, Tree};
use std::alloc::Global;

/// Reads a claim: a tree; or hypotheses with semicolons between them, a turnstile, and a tree. The limits that its trees pass
/// are raised.
///
/// # Errors
///
/// `Mismatch` at the first token with which no claim goes on. `NoMemory`.
#[tactic(auto, unfolding(mu_grammar::specs::Claims::read_claim))]
pub fn claim(alloc: Global, reader: &mut Reader, excess: &mut Excess) -> Result<Claim, PartFault>
    ensures { Gives (Raising StandsClaim trees_in_claim excess.old excess.new) (read_claim reader.old) result reader.new }
{
    let first = hypothesis(alloc, reader, excess)?;
    after_first(alloc, reader, excess, first)
}

/// Reads what follows the first hypothesis, which is the conclusion where nothing does.
fn after_first(
    alloc: Global,
    reader: &mut Reader,
    excess: &mut Excess,
    first: Hyp,
) -> Result<Claim, PartFault>
    ensures { (h : Hypothesis) (start : Excess) → Raising StandsHypothesis trees_in_hypothesis start excess.old h first → Gives (Raising StandsClaim trees_in_claim start excess.new) (read_after h reader.old) result reader.new }
{
    let is_alone = !goes_on(reader);
    match first {
        Hyp::Plain(conclusion) if is_alone => Ok(Claim {
            hyps: Hyps::new(alloc),
            conclusion,
        }),
        first => concluded(alloc, reader, excess, first),
    }
}

fn goes_on(reader: &Reader) -> bool
    ensures { result ≡ starts goes_on reader.now }
{
    sees(reader, Mark::Semicolon) || sees(reader, Mark::Turnstile)
}

/// Reads the hypotheses behind the first one, the turnstile and the conclusion.
#[tactic(auto, using(crate::proofs::Excesses::raised_both))]
fn concluded(
    alloc: Global,
    reader: &mut Reader,
    excess: &mut Excess,
    first: Hyp,
) -> Result<Claim, PartFault>
    ensures { (h : Hypothesis) (start : Excess) → Raising StandsHypothesis trees_in_hypothesis start excess.old h first → Gives (Raising StandsClaim trees_in_claim start excess.new) (read_concluded h reader.old) result reader.new }
{
    let hyps = hypotheses(alloc, reader, excess, first)?;
    mark(reader, Mark::Turnstile)?;
    let conclusion = tree(alloc, reader, excess)?;
    Ok(Claim { hyps, conclusion })
}

/// Reads the hypotheses behind the first one.
fn hypotheses(
    alloc: Global,
    reader: &mut Reader,
    excess: &mut Excess,
    first: Hyp,
) -> Result<Hyps, PartFault>
    ensures { (h : Hypothesis) (start : Excess) → Raising StandsHypothesis trees_in_hypothesis start excess.old h first → Gives (Raising (StandsEach StandsHypothesis) (in_each trees_in_hypothesis) start excess.new) (read_hypotheses h reader.old) result reader.new }
{
    let mut hyps = Hyps::new(alloc);
    hyps.push(first)?;
    while sees(reader, Mark::Semicolon) {
        reader.skip();
        let next = hypothesis(alloc, reader, excess)?;
        hyps.push(next)?;
    }
    Ok(hyps.fit(alloc)?)
}

/// Reads a hypothesis: a tree or a sequent.
#[tactic(auto, unfolding(mu_grammar::specs::Claims::read_hypothesis))]
fn hypothesis(alloc: Global, reader: &mut Reader, excess: &mut Excess) -> Result<Hyp, PartFault>
    ensures { Gives (Raising StandsHypothesis trees_in_hypothesis excess.old excess.new) (read_hypothesis reader.old) result reader.new }
{
    if sees(reader, Mark::OpenBrace) {
        return sequent(alloc, reader, excess);
    }
    let tree = tree(alloc, reader, excess)?;
    Ok(Hyp::Plain(tree))
}

/// Reads a sequent: in braces what a block begins with, a turnstile, and the upshot.
#[tactic(auto, using(crate::proofs::Excesses::raised_both), unfolding(mu_grammar::specs::Claims::read_sequent))]
fn sequent(alloc: Global, reader: &mut Reader, excess: &mut Excess) -> Result<Hyp, PartFault>
    ensures { Gives (Raising StandsHypothesis trees_in_hypothesis excess.old excess.new) (read_sequent reader.old) result reader.new }
{
    mark(reader, Mark::OpenBrace)?;
    let (vars, premises) = block(alloc, reader, excess)?;
    let upshot = upshot(alloc, reader, excess)?;
    Ok(Hyp::Sequent {
        vars,
        premises,
        upshot,
    })
}

/// Reads the turnstile, the upshot of a sequent and the brace that closes it.
#[tactic(auto, unfolding(mu_grammar::specs::Claims::read_upshot))]
fn upshot(alloc: Global, reader: &mut Reader, excess: &mut Excess) -> Result<Tree, PartFault>
    ensures { Gives (Raising StandsTree one_tree excess.old excess.new) (read_upshot reader.old) result reader.new }
{
    mark(reader, Mark::Turnstile)?;
    let upshot = tree(alloc, reader, excess)?;
    mark(reader, Mark::CloseBrace)?;
    Ok(upshot)
}

ghost use Rattle.std.specs.Prelude.{◌≡◌, ◌++◌, OnOk};
ghost use Rattle.mu_print.specs.Canonical.{tree_text};
ghost use Rattle.mu_print.specs.Texts.{block_text, claim_text, hypothesis_text, variable_text};

use crate::canonical::tree;
use crate::pieces::{Printed, add, surround};
use mu_tree::{Claim, Hyp, Tree, TypedVar};
use std::alloc::AllocError;

impl Printed for Tree {
    ghost text = { tree_text };

    fn print(&self, out: &mut Vec<u8>) -> Result<(), AllocError> {
        tree(out, self)
    }
}

impl Printed for TypedVar {
    ghost text = { variable_text };

    fn print(&self, out: &mut Vec<u8>) -> Result<(), AllocError> {
        variable(out, self)
    }
}

impl Printed for Hyp {
    ghost text = { hypothesis_text };

    fn print(&self, out: &mut Vec<u8>) -> Result<(), AllocError> {
        hypothesis(out, self)
    }
}

/// Adds the canonical text of a claim at the end: its hypotheses, if it has any, and its conclusion.
///
/// # Errors
///
/// `AllocError`, with some of the text added.
#[tactic(auto, using(std::proofs::Common::append_assoc), unfolding(crate::specs::Texts::claim_text))]
pub fn claim(out: &mut Vec<u8>, claim: &Claim) -> Result<(), AllocError>
    ensures { OnOk result (out.new.items ≡ out.old.items ++ claim_text claim.now) }
{
    surround(out, b"", b"; ", b" |- ", claim.hyps.items())?;
    tree(out, &claim.conclusion)
}

/// Adds a hypothesis.
#[tactic(auto, using(std::proofs::Common::append_assoc), unfolding(crate::specs::Texts::hypothesis_text))]
fn hypothesis(out: &mut Vec<u8>, hypothesis: &Hyp) -> Result<(), AllocError>
    ensures { OnOk result (out.new.items ≡ out.old.items ++ hypothesis_text hypothesis.now) }
{
    match hypothesis {
        Hyp::Plain(plain) => tree(out, plain),
        Hyp::Sequent {
            vars,
            premises,
            upshot,
        } => {
            add(out, b"{")?;
            block(out, vars.items(), premises.as_slice())?;
            add(out, b" |- ")?;
            tree(out, upshot)?;
            add(out, b"}")
        }
    }
}

/// Adds typed variables, the bar and trees at the end: the canonical text of what a sequent or a box begins with.
///
/// # Errors
///
/// `AllocError`, with some of the text added.
#[tactic(auto, using(std::proofs::Common::append_assoc), unfolding(crate::specs::Texts::block_text))]
pub fn block(out: &mut Vec<u8>, vars: &[TypedVar], trees: &[Tree]) -> Result<(), AllocError>
    ensures { OnOk result (out.new.items ≡ out.old.items ++ block_text vars.now trees.now) }
{
    surround(out, b"", b", ", b" ", vars)?;
    add(out, b"|")?;
    surround(out, b" ", b", ", b"", trees)
}

/// Adds a variable with its type.
#[tactic(auto, using(std::proofs::Common::append_assoc), unfolding(crate::specs::Texts::variable_text))]
fn variable(out: &mut Vec<u8>, variable: &TypedVar) -> Result<(), AllocError>
    ensures { OnOk result (out.new.items ≡ out.old.items ++ variable_text variable.now) }
{
    add(out, variable.name.bytes())?;
    add(out, b":")?;
    tree(out, &variable.ty)
}

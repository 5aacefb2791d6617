ghost use Rattle.std.specs.Prelude.{◌≡◌, ◌++◌, OnOk, codes};
ghost use Rattle.std.specs.Fmt.{decimal};
ghost use Rattle.mu_print.specs.Texts.{abstraction_text, reason_text, reference_text, via_text};

use crate::canonical::tree;
use crate::pieces::{Printed, add, surround};
use mu_tree::{Given, Name, Ref, Why};
use std::alloc::AllocError;

impl Printed for Ref {
    ghost text = { reference_text };

    fn print(&self, out: &mut Vec<u8>) -> Result<(), AllocError> {
        reference(out, self)
    }
}

impl Printed for Given {
    ghost text = { abstraction_text };

    fn print(&self, out: &mut Vec<u8>) -> Result<(), AllocError> {
        abstraction(out, self)
    }
}

impl Printed for Name {
    ghost text = { λ name. name };

    fn print(&self, out: &mut Vec<u8>) -> Result<(), AllocError> {
        add(out, self.bytes())
    }
}

/// Adds the canonical text of what a line holds by at the end.
///
/// # Errors
///
/// `AllocError`, with some of the text added.
#[tactic(auto, using(std::proofs::Common::append_assoc), unfolding(crate::specs::Texts::reason_text))]
pub fn reason(out: &mut Vec<u8>, why: &Why) -> Result<(), AllocError>
    ensures { OnOk result (out.new.items ≡ out.old.items ++ reason_text why.now) }
{
    match why {
        Why::Rule {
            rule,
            via,
            refs,
            inst,
        } => {
            add(out, b"rule ")?;
            add(out, rule.bytes())?;
            morphism(out, via)?;
            surround(out, b" from ", b", ", b"", refs.items())?;
            surround(out, b" with ", b"; ", b"", inst.items())
        }
        Why::Hypothesis { n, terms, refs } => {
            add(out, b"hyp #")?;
            number(out, *n)?;
            surround(out, b" with ", b", ", b"", terms.as_slice())?;
            surround(out, b" from ", b", ", b"", refs.items())
        }
        Why::Definition { constant, on } => {
            add(out, b"def ")?;
            add(out, constant.bytes())?;
            add(out, b" on ")?;
            reference(out, on)
        }
        Why::Same { on } => {
            add(out, b"same ")?;
            reference(out, on)
        }
    }
}

/// Adds the morphism that a rule is translated by, where there is one.
fn morphism(out: &mut Vec<u8>, via: &Option<Name>) -> Result<(), AllocError>
    ensures { OnOk result (out.new.items ≡ out.old.items ++ via_text via.now) }
{
    match via {
        Some(name) => {
            add(out, b" via ")?;
            add(out, name.bytes())
        }
        None => Ok(()),
    }
}

/// Adds a reference.
#[tactic(auto, using(std::proofs::Common::append_assoc), unfolding(crate::specs::Texts::reference_text))]
fn reference(out: &mut Vec<u8>, reference: &Ref) -> Result<(), AllocError>
    ensures { OnOk result (out.new.items ≡ out.old.items ++ reference_text reference.now) }
{
    match reference {
        Ref::Item(label) => add(out, label.bytes()),
        Ref::Assumption(label, n) => {
            add(out, label.bytes())?;
            add(out, b"#")?;
            number(out, *n)
        }
        Ref::Hypothesis(n) => {
            add(out, b"#")?;
            number(out, *n)
        }
    }
}

/// Adds what stands for a metavariable.
#[tactic(auto, using(std::proofs::Common::append_assoc), unfolding(crate::specs::Texts::abstraction_text))]
fn abstraction(out: &mut Vec<u8>, given: &Given) -> Result<(), AllocError>
    ensures { OnOk result (out.new.items ≡ out.old.items ++ abstraction_text given.now) }
{
    add(out, b"?")?;
    add(out, given.meta.bytes())?;
    surround(out, b"[", b", ", b"]", given.params.items())?;
    add(out, b" := ")?;
    tree(out, &given.body)
}

/// Adds a number.
fn number(out: &mut Vec<u8>, n: u32) -> Result<(), AllocError>
    ensures { OnOk result (out.new.items ≡ out.old.items ++ decimal n) }
{
    let digits = n.to_string(*out.allocator())?;
    add(out, digits.as_bytes())
}

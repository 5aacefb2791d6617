ghost use Rattle.std.specs.Prelude.{◌≡◌, ◌++◌, IfOk, OnOk};
ghost use Rattle.mu_command.specs.Canonical.{command_text};
ghost use Rattle.mu_command.specs.Language.{CommandsReadBack};
ghost use Rattle.mu_command.specs.OneText.{TextsTellApart};

use crate::command::Command;
use crate::forms::Form;
use crate::parts::Shown::{Before, Block, Claim, Declaration, Formals, Name, Reason, Tree};
use crate::printing::add_form;
use mu_tree::{Bytes, NoMemory};
use std::alloc::{AllocError, Global};

/// The canonical text of a command, without the end of a line. The canonical text of a command of the language reads as
/// that command; no two of them have one text.
///
/// # Errors
///
/// `NoMemory`.
#[tactic(auto, using(crate::proofs::OneText::texts_tell_apart, crate::proofs::Back::commands_read_back))]
pub fn print(alloc: Global, command: &Command) -> Result<Bytes, NoMemory>
    ensures value { IfOk result (λ text. text ≡ command_text command.now) }
    ensures back { CommandsReadBack }
    ensures apart { TextsTellApart }
{
    let mut out = Vec::new(alloc);
    add_command(&mut out, command)?;
    Ok(Bytes::from_vec(out))
}

/// Adds the canonical text of a command.
#[tactic(auto, unfolding(crate::specs::Canonical::command_text))]
fn add_command(out: &mut Vec<u8>, command: &Command) -> Result<(), AllocError>
    ensures { OnOk result (out.new.items ≡ out.old.items ++ command_text command.now) }
{
    match command {
        Command::Theory(u) => add_form(out, Form::Theory, &[Name(u)]),
        Command::Parent(u, p) => add_form(out, Form::Parent, &[Name(u), Name(p)]),
        Command::Unparent(u, p) => add_form(out, Form::Unparent, &[Name(u), Name(p)]),
        Command::Const(u, c, shape, result) => {
            add_form(out, Form::Const, &[Name(u), Declaration(c, shape, *result)])
        }
        Command::AlterConst(c, shape, result) => {
            add_form(out, Form::AlterConst, &[Declaration(c, shape, *result)])
        }
        Command::Define(c, d) => add_form(
            out,
            Form::Define,
            &[Name(c), Formals(&d.params), Tree(&d.body)],
        ),
        Command::Undefine(c) => add_form(out, Form::Undefine, &[Name(c)]),
        Command::Axiom(u, r, claim) => {
            add_form(out, Form::Axiom, &[Name(u), Name(r), Claim(claim)])
        }
        Command::Rule(u, r, claim) => add_form(out, Form::Rule, &[Name(u), Name(r), Claim(claim)]),
        Command::AlterRule(r, claim) => add_form(out, Form::AlterRule, &[Name(r), Claim(claim)]),
        Command::Proof(r, p) => add_form(out, Form::Proof, &[Name(r), Name(p)]),
        Command::Line(r, p, l, b, x, tree) => add_form(
            out,
            Form::Line,
            &[Name(r), Name(p), Name(l), Name(b), Before(x), Tree(tree)],
        ),
        Command::Box(r, p, l, b, x, v, a) => add_form(
            out,
            Form::Box,
            &[Name(r), Name(p), Name(l), Name(b), Before(x), Block(v, a)],
        ),
        Command::AlterLine(r, p, l, tree) => add_form(
            out,
            Form::AlterLine,
            &[Name(r), Name(p), Name(l), Tree(tree)],
        ),
        Command::AlterBox(r, p, l, v, a) => add_form(
            out,
            Form::AlterBox,
            &[Name(r), Name(p), Name(l), Block(v, a)],
        ),
        Command::Move(r, p, l, b, x) => add_form(
            out,
            Form::Move,
            &[Name(r), Name(p), Name(l), Name(b), Before(x)],
        ),
        Command::Cite(r, p, l, why) => {
            add_form(out, Form::Cite, &[Name(r), Name(p), Name(l), Reason(why)])
        }
        Command::Unjustify(r, p, l) => add_form(out, Form::Unjustify, &[Name(r), Name(p), Name(l)]),
        Command::DropUnit(u) => add_form(out, Form::DropUnit, &[Name(u)]),
        Command::DropConst(c) => add_form(out, Form::DropConst, &[Name(c)]),
        Command::DropRule(r) => add_form(out, Form::DropRule, &[Name(r)]),
        Command::DropProof(r, p) => add_form(out, Form::DropProof, &[Name(r), Name(p)]),
        Command::DropItem(r, p, l) => add_form(out, Form::DropItem, &[Name(r), Name(p), Name(l)]),
        Command::Status(r) => add_form(out, Form::Status, &[Name(r)]),
        Command::ShowUnit(u) => add_form(out, Form::ShowUnit, &[Name(u)]),
        Command::ShowRule(r) => add_form(out, Form::ShowRule, &[Name(r)]),
        Command::ShowProof(r, p) => add_form(out, Form::ShowProof, &[Name(r), Name(p)]),
    }
}

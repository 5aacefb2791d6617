ghost use Rattle.std.specs.Prelude.{◌≡◌, ◌++◌, OnOk, codes, map};
ghost use Rattle.mu_tree.specs.declared.trees.Tree.TheVariants as tree_of;
ghost use Rattle.mu_grammar.specs.Spellings.{mark_text as mark_spelling};
ghost use Rattle.mu_print.specs.Canonical.{tree_text};
ghost use Rattle.mu_print.specs.Operands.{level_of, operand_text};
ghost use Rattle.mu_print.specs.Texts.{surrounded};

use crate::pieces::add;
use mu_grammar::{ATOM_LEVEL, Mark, Op, PREFIX_LEVEL, is_negation};
use mu_tree::Tree;
use std::alloc::AllocError;

/// Adds the canonical text of a tree at the end.
///
/// # Errors
///
/// `AllocError`, with some of the text added.
#[cycle(tree)]
#[tactic(auto, using(crate::proofs::PrintingTrees::texts_by_top))]
pub fn tree(out: &mut Vec<u8>, tree: &Tree) -> Result<(), AllocError>
    ensures { OnOk result (out.new.items ≡ out.old.items ++ tree_text tree.now) }
{
    match tree {
        Tree::App(name, arguments) => application(out, name.bytes(), arguments.as_slice()),
        Tree::Meta(name, arguments) => {
            add(out, b"?")?;
            add(out, name.bytes())?;
            list(out, b"[", arguments.as_slice(), b"]")
        }
        Tree::Bind {
            binder,
            var,
            dom,
            body,
        } => {
            binder_head(out, binder.bytes(), var.bytes())?;
            self::tree(out, dom.get())?;
            add(out, b". ")?;
            self::tree(out, body.get())?;
            add(out, b"}")
        }
    }
}

/// Adds what stands before the domain of a binder.
fn binder_head(out: &mut Vec<u8>, binder: &[u8], var: &[u8]) -> Result<(), AllocError>
    ensures { OnOk result (out.new.items ≡ out.old.items
        ++ (binder.now ++ (codes "{" ++ (var.now ++ codes ":")))) }
{
    add(out, binder)?;
    add(out, b"{")?;
    add(out, var)?;
    add(out, b":")
}

/// Adds an application: `not` or an operator with its operands, or a name with its arguments in brackets.
#[cycle(tree)]
#[tactic(auto, using(crate::proofs::PrintingTrees::application_texts))]
fn application(out: &mut Vec<u8>, name: &[u8], arguments: &[Tree]) -> Result<(), AllocError>
    ensures { OnOk result (out.new.items ≡ out.old.items ++ tree_text (tree_of.App name.now arguments.now)) }
{
    match arguments {
        [only] => {
            if !is_negation(name) {
                return call(out, name, arguments);
            }
            add(out, b"not ")?;
            operand(out, only, PREFIX_LEVEL)
        }
        [left, right] => match Op::named(name) {
            Some(op) => {
                operand(out, left, op.left)?;
                add(out, b" ")?;
                add(out, mark_text(op.mark))?;
                add(out, b" ")?;
                operand(out, right, op.right)
            }
            None => call(out, name, arguments),
        },
        _ => call(out, name, arguments),
    }
}

/// Adds a name with its arguments in brackets, where it has any.
#[cycle(tree)]
#[tactic(auto, using(std::proofs::Common::append_assoc))]
fn call(out: &mut Vec<u8>, name: &[u8], arguments: &[Tree]) -> Result<(), AllocError>
    ensures { OnOk result (out.new.items ≡ out.old.items
        ++ (name.now ++ surrounded (codes "(") (codes ", ") (codes ")") (map tree_text arguments.now))) }
{
    add(out, name)?;
    list(out, b"(", arguments, b")")
}

/// Adds a tree where one of at least this level is wanted: in parentheses where its own is less.
#[cycle(tree)]
#[tactic(auto, using(crate::proofs::PrintingTrees::operands))]
fn operand(out: &mut Vec<u8>, inner: &Tree, least: u8) -> Result<(), AllocError>
    ensures { OnOk result (out.new.items ≡ out.old.items ++ operand_text least inner.now) }
{
    if least <= level(inner) {
        return tree(out, inner);
    }
    add(out, b"(")?;
    tree(out, inner)?;
    add(out, b")")
}

/// Adds trees with commas between them, behind the one text and before the other; nothing where there are none.
#[cycle(tree)]
#[tactic(auto, unfolding(crate::specs::Texts::between))]
fn list(out: &mut Vec<u8>, before: &[u8], trees: &[Tree], after: &[u8]) -> Result<(), AllocError>
    ensures { OnOk result (out.new.items ≡ out.old.items
        ++ surrounded before.now (codes ", ") after.now (map tree_text trees.now)) }
{
    match trees {
        [] => Ok(()),
        [first, rest @ ..] => {
            add(out, before)?;
            tree(out, first)?;
            for one in rest {
                add(out, b", ")?;
                tree(out, one)?;
            }
            add(out, after)
        }
    }
}

/// The level of a tree's canonical text.
#[tactic(auto, using(crate::proofs::PrintingTrees::levels_by_top))]
fn level(tree: &Tree) -> u8
    ensures { result ≡ level_of tree.now }
{
    match tree {
        Tree::App(name, arguments) => application_level(name.bytes(), arguments.as_slice()),
        Tree::Meta(..) | Tree::Bind { .. } => ATOM_LEVEL,
    }
}

#[tactic(auto, using(crate::proofs::PrintingTrees::levels_by_top))]
fn application_level(name: &[u8], arguments: &[Tree]) -> u8
    ensures { result ≡ level_of (tree_of.App name.now arguments.now) }
{
    match arguments {
        [_] => {
            if is_negation(name) {
                PREFIX_LEVEL
            } else {
                ATOM_LEVEL
            }
        }
        [_, _] => match Op::named(name) {
            Some(op) => op.level,
            None => ATOM_LEVEL,
        },
        _ => ATOM_LEVEL,
    }
}

/// The bytes of a mark. A token that fits nothing has no bytes of its own.
pub fn mark_text(mark: Mark) -> &'static [u8]
    ensures { result.now ≡ mark_spelling mark }
{
    match mark {
        Mark::And => b"and",
        Mark::Or => b"or",
        Mark::Not => b"not",
        Mark::Iff => b"<=>",
        Mark::Imp => b"=>",
        Mark::Eq => b"=",
        Mark::Colon => b":",
        Mark::Open => b"(",
        Mark::Close => b")",
        Mark::OpenBracket => b"[",
        Mark::CloseBracket => b"]",
        Mark::OpenBrace => b"{",
        Mark::CloseBrace => b"}",
        Mark::Comma => b",",
        Mark::Semicolon => b";",
        Mark::Dot => b".",
        Mark::Becomes => b":=",
        Mark::Bar => b"|",
        Mark::Turnstile => b"|-",
        Mark::Arrow => b"->",
        Mark::Wrong => b"",
    }
}

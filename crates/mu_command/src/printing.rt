ghost use Rattle.std.specs.Prelude.{◌≡◌, ◌++◌, map, OnOk};
ghost use Rattle.mu_command.specs.Canonical.{before_text, field_text, form_text, row_text, spaced};
ghost use Rattle.mu_command.specs.Shown.{shown_as};

use crate::forms::{Form, words};
use crate::parts::{Part, Shown};
use crate::rows::{keyword_bytes, row};
use mu_tree::Name;
use std::alloc::AllocError;

/// Adds the words of a form, and its parts.
#[tactic(auto, using(std::proofs::Common::append_assoc))]
pub(crate) fn add_form(out: &mut Vec<u8>, form: Form, fields: &[Shown]) -> Result<(), AllocError>
    ensures { OnOk result (out.new.items ≡ out.old.items ++ form_text form (map shown_as fields.now)) }
{
    out.extend_from_slice(words(form))?;
    add_row(out, row(form), fields)
}

/// Adds some parts, each behind a blank.
#[tactic(auto, using(std::proofs::Common::append_assoc), unfolding(crate::specs::Canonical::row_text))]
fn add_row(out: &mut Vec<u8>, row: &[Part], fields: &[Shown]) -> Result<(), AllocError>
    ensures { OnOk result (out.new.items ≡ out.old.items ++ row_text row.now (map shown_as fields.now)) }
{
    match (row, fields) {
        ([], _) => Ok(()),
        ([Part::Word(keyword), rest @ ..], _) => {
            add_spaced(out, keyword_bytes(*keyword))?;
            add_row(out, rest, fields)
        }
        ([Part::Sign(mark), rest @ ..], _) => {
            add_spaced(out, mu_print::mark_text(*mark))?;
            add_row(out, rest, fields)
        }
        (_, []) => Ok(()),
        ([_, rest @ ..], [first, others @ ..]) => {
            add_field(out, *first)?;
            add_row(out, rest, others)
        }
    }
}

/// Adds a blank, and a text.
#[tactic(auto, using(std::proofs::Common::append_assoc))]
fn add_spaced(out: &mut Vec<u8>, text: &[u8]) -> Result<(), AllocError>
    ensures { OnOk result (out.new.items ≡ out.old.items ++ spaced text.now) }
{
    out.extend_from_slice(b" ")?;
    out.extend_from_slice(text)
}

/// Adds what a part says, behind a blank.
#[tactic(auto, using(std::proofs::Common::append_assoc), unfolding(crate::specs::Canonical::field_text))]
fn add_field(out: &mut Vec<u8>, field: Shown) -> Result<(), AllocError>
    ensures { OnOk result (out.new.items ≡ out.old.items ++ field_text (shown_as field.entry)) }
{
    match field {
        Shown::Formals(names) => return mu_print::formals(out, names),
        Shown::Before(item) => return add_before(out, item),
        _ => out.push(b' ')?,
    }
    match field {
        Shown::Name(name) => out.extend_from_slice(name.bytes()),
        Shown::Declaration(name, shape, result) => {
            mu_print::declaration(out, name, shape, result)
        }
        Shown::Formals(_) | Shown::Before(_) => Ok(()),
        Shown::Tree(tree) => mu_print::tree(out, tree),
        Shown::Claim(claim) => mu_print::claim(out, claim),
        Shown::Reason(why) => mu_print::reason(out, why),
        Shown::Block(vars, assumptions) => {
            mu_print::block(out, vars.items(), assumptions.as_slice())
        }
    }
}

/// Adds the item before which another is put, where there is one.
#[tactic(auto, using(std::proofs::Common::append_assoc))]
fn add_before(out: &mut Vec<u8>, before: &Option<Name>) -> Result<(), AllocError>
    ensures { OnOk result (out.new.items ≡ out.old.items ++ before_text before.now) }
{
    match before {
        Some(item) => {
            out.extend_from_slice(b" before ")?;
            out.extend_from_slice(item.bytes())
        }
        None => Ok(()),
    }
}

ghost use Rattle.std.specs.Prelude.{◌≡◌, IfOk, OnOk};
ghost use Rattle.std.specs.Option.{option_copied};
ghost use Rattle.std.specs.List.{list_all};
ghost use Rattle.mu_decl.specs.Claims.{same_occurrence, agrees};
ghost use Rattle.mu_decl.specs.Arities.{arity_of, has_arity, with_arity};

use crate::occurring::{Occurrence, Occurrences};
use mu_tree::{Kind, NoMemory, Table};
use std::alloc::Global;

/// Whether two occurrences are of one metavariable, with as many arguments and of the same kind.
pub fn same_occurrence(left: &Occurrence, right: &Occurrence) -> bool
    ensures { result ≡ same_occurrence left.now right.now }
{
    right.meta == left.meta && right.count == left.count && right.kind == left.kind
}

// How a metavariable occurs: with this many arguments, and of this kind.
#[derive(Debug, Drop)]
struct Arity {
    count: usize,
    kind: Kind,
}

fn arity_of(one: &Occurrence) -> Arity
    ensures { result ≡ arity_of one.now }
{
    Arity {
        count: one.count,
        kind: one.kind,
    }
}

fn has_arity(known: Option<&Arity>, one: &Occurrence) -> bool
    ensures { result ≡ has_arity (option_copied known.entry) one.now }
{
    match known {
        Some(arity) => one.count == arity.count && one.kind == arity.kind,
        None => true,
    }
}

// Notes the arity of an occurrence, where its metavariable has none yet.
fn add_arity(alloc: Global, known: &mut Table<Arity>, one: &Occurrence) -> Result<(), NoMemory>
    ensures { OnOk result (known.new ≡ with_arity known.old one.now) }
{
    if !known.has(&one.meta) {
        known.put(one.meta.copy(alloc)?, arity_of(one))?;
    }
    Ok(())
}

/// Whether no metavariable occurs with two numbers of arguments or with two kinds.
///
/// Each occurrence is compared with the first one of its metavariable alone, so that the work grows hardly faster
/// than the number of occurrences.
///
/// # Errors
///
/// `NoMemory` may come at any occurrences.
pub fn occurrences_agree(alloc: Global, all: &Occurrences) -> Result<bool, NoMemory>
    ensures { IfOk result (λ yes. yes ≡ list_all (agrees all.now) all.now) }
{
    let mut known = Table::new(alloc);
    for one in all.items() {
        if !has_arity(known.get(&one.meta), one) {
            return Ok(false);
        }
        add_arity(alloc, &mut known, one)?;
    }
    Ok(true)
}

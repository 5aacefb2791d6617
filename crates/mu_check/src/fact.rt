ghost use Rattle.std.specs.Prelude.{◌≡◌, ◌↔◌, IsTrue, IfOk};
ghost use Rattle.mu_check.specs.declared.cause.Cause.TheVariants.{ConclusionDiffers};
ghost use Rattle.mu_check.specs.Causes.{test};
ghost use Rattle.mu_check.specs.Facts.{instantiated_fact};
ghost use Rattle.mu_check.specs.Same.{equal_facts};

use crate::cause::Cause;
use mu_decl::{Abstractions, Bare, Bares, are_instances_of, is_instance_of, same, same_all};
use mu_tree::NoMemory;
use std::alloc::Global;

/// What a reference gives.
#[derive(Drop)]
pub enum Fact {
    /// A nameless tree.
    Plain(Bare),
    /// A sequent, closed over its variables: in each type the variables before it are loose indices, and in the
    /// premises and the upshot all of them are.
    Sequent {
        types: Bares,
        premises: Bares,
        upshot: Bare,
    },
}

fn same_fact(left: &Fact, right: &Fact) -> bool
    ensures { IsTrue result ↔ (left.now ≡ right.now) }
{
    match (left, right) {
        (Fact::Plain(tree), Fact::Plain(other)) => same(tree, other),
        (
            Fact::Sequent {
                types,
                premises,
                upshot,
            },
            Fact::Sequent {
                types: other_types,
                premises: other_premises,
                upshot: other_upshot,
            },
        ) => {
            same_all(types.as_slice(), other_types.as_slice())
                && same_all(premises.as_slice(), other_premises.as_slice())
                && same(upshot, other_upshot)
        }
        _ => false,
    }
}

/// Whether two facts are equal.
pub fn is_equal(left: &Fact, right: &Fact) -> bool
    ensures { result ≡ equal_facts left.now right.now }
{
    same_fact(left, right)
}

/// The cause where a line gives something else than it should.
pub fn difference(given: &Fact, wanted: &Fact) -> Option<Cause>
    ensures { result ≡ test (equal_facts given.now wanted.now) ConclusionDiffers None }
{
    if is_equal(given, wanted) {
        None
    } else {
        Some(Cause::ConclusionDiffers)
    }
}

fn is_instance(
    alloc: Global,
    given: &Abstractions,
    stated: &Fact,
    fact: &Fact,
) -> Result<bool, NoMemory>
    ensures { IfOk result (λ yes. IsTrue yes ↔ (instantiated_fact given.now stated.now ≡ fact.now)) }
{
    match (stated, fact) {
        (Fact::Plain(pattern), Fact::Plain(tree)) => {
            let yes = is_instance_of(alloc, given, pattern, tree)?;
            Ok(yes)
        }
        (
            Fact::Sequent {
                types,
                premises,
                upshot,
            },
            Fact::Sequent {
                types: other_types,
                premises: other_premises,
                upshot: other_upshot,
            },
        ) => {
            if !are_instances_of(alloc, given, types.as_slice(), other_types.as_slice())? {
                return Ok(false);
            }
            if !are_instances_of(alloc, given, premises.as_slice(), other_premises.as_slice())? {
                return Ok(false);
            }
            let yes = is_instance_of(alloc, given, upshot, other_upshot)?;
            Ok(yes)
        }
        _ => Ok(false),
    }
}

/// Whether a fact is a stated one with its metavariables replaced.
///
/// # Errors
///
/// `NoMemory` may come at any facts.
pub fn is_instantiated(
    alloc: Global,
    given: &Abstractions,
    stated: &Fact,
    fact: &Fact,
) -> Result<bool, NoMemory>
    ensures { IfOk result (λ yes. yes ≡ equal_facts fact.now (instantiated_fact given.now stated.now)) }
{
    let yes = is_instance(alloc, given, stated, fact)?;
    Ok(yes)
}

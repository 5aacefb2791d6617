ghost use Rattle.std.specs.Prelude.{◌≡◌, ◌≤◌, map, IfOk};
ghost use Rattle.std.specs.FinMap as finite;
ghost use Rattle.mu_flat.specs.CitedSets.{is_marked};
ghost use Rattle.mu_proof.specs.declared.citations.Cited.TheVariants.{Rule};
ghost use Rattle.mu_status.specs.Books.{starts_of, told_status};
ghost use Rattle.mu_status.specs.Statuses.{status_at, word_of, StatusesAreExact};

use crate::books::{Book, book_of};
use mu_decl::Context;
use mu_flat::{CitedSet, Store};
use mu_graph::{KeySet, reachable, reached};
use mu_proof::Cited;
use mu_tables::Work;
use mu_tree::{Name, NoMemory};
use std::alloc::Global;
use std::slice;

/// How far a rule is proved.
#[derive(Clone, Copy, Debug, PartialEq, Eq)]
pub enum RuleStatus {
    /// Its claim is not well formed.
    IllFormed,
    /// Some derivation has it: it rests on axioms alone.
    Established,
    /// Some proof of it checks.
    Complete,
    /// A proof of it is stored, and none checks.
    Incomplete,
    /// No proof of it is stored.
    Unproved,
}

impl RuleStatus {
    ghost use Rattle.mu_status.specs.Statuses.{word_of};

    /// The word that tells the status.
    pub fn word(self) -> &'static str
        ensures { result.now ≡ word_of self }
    {
        match self {
            RuleStatus::IllFormed => "ill-formed",
            RuleStatus::Established => "established",
            RuleStatus::Complete => "complete",
            RuleStatus::Incomplete => "incomplete",
            RuleStatus::Unproved => "unproved",
        }
    }
}

/// The status of the rule of a name, none exactly where there is no such rule. The lines of the proofs that are checked
/// for it count as work, which never falls.
///
/// # Errors
///
/// `NoMemory`.
pub fn status(
    alloc: Global,
    store: &Store,
    rule: &Name,
    work: &mut Work,
) -> Result<Option<RuleStatus>, NoMemory>
    ensures value { IfOk result (λ status. status ≡ status_at store.now rule.now) }
    ensures work { work.old.lines ≤ work.new.lines }
    ensures laws { StatusesAreExact }
{
    let statuses = statuses_of(alloc, store, slice::from_ref(rule), work)?;
    Ok(statuses[0])
}

/// The statuses of the rules of some names, in the order of the names, none exactly where there is no such rule. It looks
/// only at what these rules reach by citations, and checks each proof of that once for all of them. The lines of the
/// proofs that are checked count as work, which never falls.
///
/// # Errors
///
/// `NoMemory`.
pub fn statuses_of(
    alloc: Global,
    store: &Store,
    names: &[Name],
    work: &mut Work,
) -> Result<Vec<Option<RuleStatus>>, NoMemory>
    ensures value { IfOk result (λ found. found.items ≡ map (λ name. status_at store.now name) names.now) }
    ensures work { work.old.lines ≤ work.new.lines }
    ensures laws { StatusesAreExact }
{
    let starts = starts_of(alloc, store, names)?;
    let order = reachable(alloc, store.proofs(), starts)?;
    let book = book_of(alloc, store, order.as_slice(), work)?;
    let marks = reached(alloc, &book, <CitedSet as KeySet>::none(alloc), order)?;
    told_statuses(alloc, &book, &marks, names)
}

/// Those of the names that are rules.
fn starts_of(alloc: Global, store: &Store, names: &[Name]) -> Result<Vec<Cited>, NoMemory>
    ensures { IfOk result (λ starts. starts.items ≡ starts_of store.now names.now) }
{
    let mut starts = Vec::new(alloc);
    for name in names {
        if store.rule(name).is_some() {
            starts.push(Cited::Rule(name.copy(alloc)?))?;
        }
    }
    Ok(starts)
}

/// The statuses that are told of some names, in their order.
fn told_statuses(
    alloc: Global,
    book: &Book,
    marks: &CitedSet,
    names: &[Name],
) -> Result<Vec<Option<RuleStatus>>, NoMemory>
    ensures { IfOk result (λ found. found.items ≡ map (λ name. told_status (is_marked marks.now.rules marks.now.morphisms (Rule name)) (finite.get book.now.rules name)) names.now) }
{
    let mut statuses = Vec::new(alloc);
    for name in names {
        statuses.push(book.told_status(marks, name))?;
    }
    Ok(statuses)
}

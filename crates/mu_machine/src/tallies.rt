ghost use Rattle.std.specs.Prelude.{◌≡◌, ◌≤◌, IfOk};
ghost use Rattle.mu_machine.specs.Tallies.{count_of, is_status, tallied, tally_of};

use mu_flat::Store;
use mu_status::{RuleStatus, statuses_of};
use mu_tables::Work;
use mu_tree::NoMemory;
use std::alloc::Global;

/// How many rules, axioms among them, have each status.
#[derive(Clone, Copy, Debug, PartialEq, Eq)]
pub struct Tally {
    pub established: u64,
    pub complete: u64,
    pub incomplete: u64,
    pub unproved: u64,
    pub ill_formed: u64,
}

/// How many of the stored rules have each status. All statuses are worked out in one pass.
///
/// # Errors
///
/// `NoMemory`.
pub(crate) fn count_rules(alloc: Global, store: &Store, work: &mut Work) -> Result<Tally, NoMemory>
    ensures value { IfOk result (λ tally. tally ≡ tallied store.now) }
    ensures work { work.old.lines ≤ work.new.lines }
{
    let names = store.rules().values().names(alloc)?;
    let statuses = statuses_of(alloc, store, names.items(), work)?;
    Ok(tally_of(&statuses))
}

fn tally_of(statuses: &[Option<RuleStatus>]) -> Tally
    ensures { result ≡ tally_of statuses.now }
{
    Tally {
        established: count_of(statuses, RuleStatus::Established),
        complete: count_of(statuses, RuleStatus::Complete),
        incomplete: count_of(statuses, RuleStatus::Incomplete),
        unproved: count_of(statuses, RuleStatus::Unproved),
        ill_formed: count_of(statuses, RuleStatus::IllFormed),
    }
}

/// How many of some statuses are this one.
fn count_of(statuses: &[Option<RuleStatus>], status: RuleStatus) -> u64
    ensures { result ≡ count_of status statuses.now }
{
    statuses
        .iter()
        .filter(|found| is_status(**found, status))
        .count() as u64
}

/// Whether a status, if there is one, is the one that is looked for.
fn is_status(found: Option<RuleStatus>, status: RuleStatus) -> bool
    ensures { result ≡ is_status status found }
{
    matches!(
        (status, found),
        (RuleStatus::Established, Some(RuleStatus::Established))
            | (RuleStatus::Complete, Some(RuleStatus::Complete))
            | (RuleStatus::Incomplete, Some(RuleStatus::Incomplete))
            | (RuleStatus::Unproved, Some(RuleStatus::Unproved))
            | (RuleStatus::IllFormed, Some(RuleStatus::IllFormed))
    )
}

ghost use Rattle.std.specs.Prelude.{◌≡◌, ◌≤◌, nat_le, None, IfOk, OnErr};
ghost use Rattle.mu_command.specs.Language.{IsCommand};
ghost use Rattle.mu_edit.specs.Changes.{refusal};
ghost use Rattle.mu_machine.specs.Queries.{queried};
ghost use Rattle.mu_machine.specs.Steps.{IsPlan, made_or_refused, record_length};

use crate::queries::query;
use crate::replies::Reply;
use mu_command::{Command, print};
use mu_edit::{apply, refusal};
use mu_flat::{EditFault, Store};
use mu_tables::Work;
use mu_tree::{Bytes, NoMemory, Refusal};
use std::alloc::Global;

/// What is to be done for a command.
#[derive(Drop)]
pub(crate) enum Plan {
    /// The reply is told, and the store stays.
    Tell(Reply),
    /// It is a change, for whose canonical text there is room.
    Change(Bytes),
}

/// Whether a journal with this room has place for the record of a change.
fn has_room(line: &Bytes, room: u64) -> bool
    ensures { result ≡ nat_le (record_length line.now) room }
{
    line.items().len() as u64 + 6 <= room
}

/// What is to be done for a command.
///
/// # Errors
///
/// `NoMemory`.
pub(crate) fn plan_of(
    alloc: Global,
    store: &Store,
    command: &Command,
    room: u64,
    work: &mut Work,
) -> Result<Plan, NoMemory>
    ensures value { IfOk result (λ plan. IsPlan store.now room command.now plan) }
    ensures work { work.old.lines ≤ work.new.lines }
{
    match query(alloc, store, command, work)? {
        Some(reply) => Ok(Plan::Tell(reply)),
        None => {
            let plan = plan_of_change(alloc, store, command, room)?;
            Ok(plan)
        }
    }
}

/// What is to be done for a change.
///
/// # Errors
///
/// `NoMemory`.
fn plan_of_change(
    alloc: Global,
    store: &Store,
    command: &Command,
    room: u64,
) -> Result<Plan, NoMemory>
    requires { queried store.now command.now ≡ None }
    ensures { IfOk result (λ plan. IsPlan store.now room command.now plan) }
{
    let line = print(alloc, command)?;
    if has_room(&line, room) {
        return Ok(Plan::Change(line));
    }
    let refused = refusal(alloc, store, command)?.unwrap_or(Refusal::JournalFull);
    Ok(Plan::Tell(Reply::Refused(refused)))
}

/// Carries out a change for whose canonical text there is room.
///
/// # Errors
///
/// `NoMemory` leaves the store as it was.
pub(crate) fn carry_out(
    alloc: Global,
    store: &mut Store,
    command: Command,
    line: Bytes,
) -> Result<Reply, NoMemory>
    requires { IsCommand command }
    ensures ok { IfOk result (λ reply. made_or_refused store.old command line (refusal store.old command) ≡ record { entries = store.new; reply = reply }) }
    ensures err { OnErr result (store.new ≡ store.old) }
{
    match apply(alloc, store, command) {
        Ok(()) => Ok(Reply::Changed { line }),
        Err(EditFault::Refused(refused)) => Ok(Reply::Refused(refused)),
        Err(EditFault::NoMemory) => Err(NoMemory),
    }
}

ghost use Rattle.std.specs.Prelude.{◌≡◌, Some, IfOk, OnErr};
ghost use Rattle.mural.specs.Answers.{answer};

use mu_command::{LineFault, read_line};
use mu_machine::{Machine, Reply};
use mu_tables::Work;
use mu_tree::NoMemory;
use std::alloc::Global;

/// The bytes that a journal may have, all of them left.
const MOST_ROOM: u64 = 1 << 26;

/// Answers a line: with no reply where it is blank or a comment, and else by carrying out its command.
///
/// # Errors
///
/// `NoMemory` leaves the machine as it was.
#[tactic(auto, unfolding(crate::specs::Answers::answer))]
pub(crate) fn answer_line(
    alloc: Global,
    machine: &mut Machine,
    line: &[u8],
) -> Result<Option<Reply>, NoMemory>
    ensures ok { IfOk result (λ reply. answer machine.old line.now ≡ record { entries = machine.new; reply = reply }) }
    ensures err { OnErr result (machine.new ≡ machine.old) }
{
    let mut work = Work::new();
    match read_line(alloc, line) {
        Ok(None) => Ok(None),
        Ok(Some(command)) => Ok(Some(machine.step(alloc, command, MOST_ROOM, &mut work)?)),
        Err(LineFault::Refused(refused)) => Ok(Some(Reply::Refused(refused))),
        Err(LineFault::NoMemory) => Err(NoMemory),
    }
}

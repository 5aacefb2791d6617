// Calls of the machine that no command makes, and the room that a change wants.

use mu_command::read_line;
use mu_machine::{Machine, Reply, Tally};
use mu_status::RuleStatus;
use mu_tables::Work;
use mu_tree::{Name, Refusal};
use std::alloc::Global;
use std::test::Fail;

/// The reply to a line that is a command, where a journal has this room.
fn reply_to(
    alloc: Global,
    machine: &mut Machine,
    line: &[u8],
    room: u64,
) -> Result<Option<Reply>, Fail> {
    match read_line(alloc, line)? {
        Some(command) => {
            let mut work = Work::new();
            Ok(Some(machine.step(alloc, command, room, &mut work)?))
        }
        None => Ok(None),
    }
}

/// Whether a line is a change that is carried out where a journal has this room.
fn is_made(alloc: Global, machine: &mut Machine, line: &[u8], room: u64) -> Result<bool, Fail> {
    let reply = reply_to(alloc, machine, line, room)?;
    Ok(matches!(reply, Some(Reply::Changed { .. })))
}

/// Whether a line is a change that is refused for want of this room.
fn is_too_long(alloc: Global, machine: &mut Machine, line: &[u8], room: u64) -> Result<bool, Fail> {
    let reply = reply_to(alloc, machine, line, room)?;
    Ok(matches!(reply, Some(Reply::Refused(Refusal::JournalFull))))
}

#[test]
fn wants_room_for_the_record_of_a_change(rt: HostRuntime) -> Result<(), Fail> {
    let alloc = rt.alloc();
    let mut machine = Machine::new(alloc)?;
    assert!(rt; is_too_long(alloc, &mut machine, b"theory z", 13)?);
    assert_eq!(rt; machine.store().units().count(), 0);
    assert!(rt; is_made(alloc, &mut machine, b"theory  z", 14)?);
    assert_eq!(rt; machine.store().units().count(), 1);
    assert!(rt; !is_too_long(alloc, &mut machine, b"theory z", 13)?);
    Ok(())
}

/// A machine with an axiom, a rule that is proved by it, and a rule without proofs.
fn three_rules(alloc: Global) -> Result<Machine, Fail> {
    let mut machine = Machine::new(alloc)?;
    for line in [
        b"theory t".as_slice(),
        b"const t p -> e",
        b"axiom t a : p",
        b"rule t b : p",
        b"rule t c : p",
        b"proof b m",
        b"line b m l in root : p",
        b"cite b m l : rule a",
    ] {
        is_made(alloc, &mut machine, line, 1_000)?;
    }
    Ok(machine)
}

#[test]
fn tells_statuses_and_counts_them(rt: HostRuntime) -> Result<(), Fail> {
    let alloc = rt.alloc();
    let machine = three_rules(alloc)?;
    let mut work = Work::new();
    let status = machine.status(alloc, &Name::read(alloc, b"b")?, &mut work)?;
    assert!(rt; status == Some(RuleStatus::Established));
    let none = machine.status(alloc, &Name::read(alloc, b"d")?, &mut work)?;
    assert!(rt; none.is_none());
    let told = Tally {
        established: 2,
        complete: 0,
        incomplete: 0,
        unproved: 1,
        ill_formed: 0,
    };
    assert!(rt; machine.tally(alloc, &mut work)? == told);
    Ok(())
}

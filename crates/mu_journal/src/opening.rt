ghost use Rattle.std.specs.Prelude.{◌≡◌, ◌≤◌, ◌<◌, ◌+◌, ◌^◌, [], true, List, ℕ, Some, length, take, drop, IfOk, OnErr, IsErrOf};
ghost use Rattle.mu_outside.specs.Outsides.{content, Rose};
ghost use Rattle.mu_journal.specs.Formats.{Torn, opened};
ghost use Rattle.mu_journal.specs.Opening.{Looks};
ghost use Rattle.mu_journal.specs.Gates.{IsParsed, IsEnd, IsGate, IsKnown};

use crate::fault::StartFault;
use crate::gate::{Gate, gate_of};
use crate::reading::{Piece, read_full};
use crate::records::Records;
use mu_outside::{Failed, Outside};
use mu_tree::Bytes;
use std::alloc::Global;

/// The records of a journal, and its ending gate with its place.
#[derive(Drop)]
pub(crate) struct Found {
    pub(crate) gate: u8,
    pub(crate) at: u64,
    pub(crate) records: Records,
}

/// Reads the records of a content of this length, which has its head.
pub(crate) fn read_records<O: Outside>(
    alloc: Global,
    out: &mut O,
    len: u64,
) -> Result<Found, StartFault>
    requires small { len < 2 ^ 62 }
    requires long { 9 < len }
    requires attached { (O.observed out.old).attached ≡ true }
    requires start { (bytes : List ℕ) → content (O.observed out.old) ≡ Some bytes → length bytes ≡ len → IsParsed bytes [] 8 }
    ensures parsed { IfOk result (λ found. (bytes : List ℕ) → content (O.observed out.old) ≡ Some bytes → length bytes ≡ len → IsParsed bytes found.records found.at) }
    ensures end { IfOk result (λ found. (bytes : List ℕ) → content (O.observed out.old) ≡ Some bytes → length bytes ≡ len → IsEnd bytes found.at found.gate) }
    ensures within { IfOk result (λ found. found.at < len) }
    ensures torn { (number : ℕ) → IsErrOf result (StartFault.Torn number) → (bytes : List ℕ) → content (O.observed out.old) ≡ Some bytes → length bytes ≡ len → opened bytes ≡ Torn number }
    ensures other { IsErrOf result StartFault.NotJournal → ⊥ }
    ensures looks { Looks O.observed O.moment out.old out.new }
    ensures cause { IsErrOf result StartFault.Disk → Rose (O.observed out.old).disk_faults (O.observed out.new).disk_faults }
{
    let mut piece = Piece::new(alloc)?;
    let mut records = Records::new(alloc);
    let mut at = 8u64;
    let mut number = 1u64;
    loop {
        let gate = look(&mut piece, out, at, len)?;
        let size = match gate {
            Gate::End(gate) => return Ok(Found { gate, at, records }),
            Gate::Broken => return Err(StartFault::Torn { number }),
            Gate::Record(size) => size,
        };
        let row = read_record(alloc, &piece, out, at + 5, size, number)?;
        records.add(row)?;
        at += 5 + size as u64;
        number += 1;
    }
}

/// Reads what stands at a gate's place, in a content of this length.
fn look<O: Outside>(piece: &mut Piece, out: &mut O, at: u64, len: u64) -> Result<Gate, Failed>
    requires small { at + 5 < 2 ^ 63 }
    requires attached { (O.observed out.old).attached ≡ true }
    requires known { (bytes : List ℕ) → content (O.observed out.old) ≡ Some bytes → IsKnown bytes piece.old.from (take piece.old.count piece.old.bytes.items) }
    ensures known { IfOk result (λ _. (bytes : List ℕ) → content (O.observed out.old) ≡ Some bytes → IsKnown bytes piece.new.from (take piece.new.count piece.new.bytes.items)) }
    ensures gate { IfOk result (λ gate. (bytes : List ℕ) → content (O.observed out.old) ≡ Some bytes → at < length bytes → length bytes ≡ len → IsGate bytes at gate) }
    ensures within { IfOk result (λ gate. (size : ℕ) → gate ≡ Gate.Record size → (1 ≤ size) × (size ≤ 2 ^ 24) × (at + 6 + size ≤ len)) }
    ensures looks { Looks O.observed O.moment out.old out.new }
    ensures cause { OnErr result (Rose (O.observed out.old).disk_faults (O.observed out.new).disk_faults) }
{
    let known = piece.known(at);
    if known.len() >= 5 || at + known.len() as u64 == len {
        return Ok(gate_of(known, at, len));
    }
    piece.load(out, at)?;
    Ok(gate_of(piece.known(at), at, len))
}

/// Copies a record's bytes from the piece, or reads them where it has not all of them.
fn read_record<O: Outside>(
    alloc: Global,
    piece: &Piece,
    out: &mut O,
    at: u64,
    size: u32,
    number: u64,
) -> Result<Bytes, StartFault>
    requires small { at + size < 2 ^ 64 }
    requires attached { (O.observed out.old).attached ≡ true }
    requires known { (bytes : List ℕ) → content (O.observed out.old) ≡ Some bytes → IsKnown bytes piece.now.from (take piece.now.count piece.now.bytes.items) }
    ensures size { IfOk result (λ row. length row ≡ size) }
    ensures read { IfOk result (λ row. (bytes : List ℕ) → content (O.observed out.old) ≡ Some bytes → at + size ≤ length bytes → row ≡ take size (drop at bytes)) }
    ensures torn { (n : ℕ) → IsErrOf result (StartFault.Torn n) → (bytes : List ℕ) → content (O.observed out.old) ≡ Some bytes → at + size ≤ length bytes → ⊥ }
    ensures other { IsErrOf result StartFault.NotJournal → ⊥ }
    ensures looks { Looks O.observed O.moment out.old out.new }
    ensures cause { IsErrOf result StartFault.Disk → Rose (O.observed out.old).disk_faults (O.observed out.new).disk_faults }
{
    let known = piece.known(at);
    if known.len() < size as usize {
        return read_long_record(alloc, out, at, size, number);
    }
    let row = known[..size as usize].to_vec(alloc)?;
    Ok(Bytes::from_vec(row))
}

/// Reads a record's bytes.
fn read_long_record<O: Outside>(
    alloc: Global,
    out: &mut O,
    at: u64,
    size: u32,
    number: u64,
) -> Result<Bytes, StartFault>
    requires small { at + size < 2 ^ 64 }
    requires attached { (O.observed out.old).attached ≡ true }
    ensures size { IfOk result (λ row. length row ≡ size) }
    ensures read { IfOk result (λ row. (bytes : List ℕ) → content (O.observed out.old) ≡ Some bytes → at + size ≤ length bytes → row ≡ take size (drop at bytes)) }
    ensures torn { (n : ℕ) → IsErrOf result (StartFault.Torn n) → (bytes : List ℕ) → content (O.observed out.old) ≡ Some bytes → at + size ≤ length bytes → ⊥ }
    ensures other { IsErrOf result StartFault.NotJournal → ⊥ }
    ensures looks { Looks O.observed O.moment out.old out.new }
    ensures cause { IsErrOf result StartFault.Disk → Rose (O.observed out.old).disk_faults (O.observed out.new).disk_faults }
{
    let mut row = vec![in alloc; 0u8; size as usize]?;
    let count = read_full(out, at, &mut row)?;
    if count < row.len() {
        return Err(StartFault::Torn { number });
    }
    Ok(Bytes::from_vec(row))
}

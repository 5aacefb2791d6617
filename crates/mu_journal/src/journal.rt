ghost use Rattle.std.specs.Prelude.{◌≡◌, ◌≤◌, ◌<◌, ◌+◌, ◌^◌, ◌++◌, ◌∷◌, [], true, ◌↔◌, IsTrue, ℕ, List, Some, length, take, IfOk, OnErr, IsErrOf};
ghost use Rattle.mu_outside.specs.Outsides.{content, Rose, KeepsButDisk, HasCause};
ghost use Rattle.mu_outside.specs.Disks.{at_rest};
ghost use Rattle.mu_outside.specs.Leaves.{Leaves};
ghost use Rattle.mu_journal.specs.Formats.{opened, Foreign, Torn};
ghost use Rattle.mu_journal.specs.Opening.{IsAtRest, OpensAs, OpensTo, Looks, With};
ghost use Rattle.mu_journal.specs.Settled.{IsSettled, SettledAt, BeforeOrAfter};

use crate::cleaning::{EMPTY, open_new, open_old, write_through};
use crate::fault::StartFault;
use crate::frame::Frame;
use crate::gate::OPEN;
use crate::reading::read_full;
use crate::records::Records;
use mu_outside::{Failed, Outside};
use std::alloc::Global;
use std::marker::Model;

/// A journal that stands on the disk of an outside. Contracts see its length in bytes.
///
/// It is a head of eight bytes and a gate, and then records, each with its length before it and a gate behind it. A record
/// counts where the gate before it is open. The gate behind the last record is closed.
#[derive(Drop)]
pub struct Journal {
    gate: u64,
}

impl Model for Journal {
    ghost Value = { ℕ };

    ghost view = { λ journal. journal.gate + 1 };

    ghost invariant = { λ journal. journal.gate < 2 ^ 63 };
}

impl Journal {
    /// Opens the journal that stands on the disk, and brings it to a clean end: what stands past its last gate is cut, and
    /// that gate is closed. At most nine bytes are a journal whose making was cut short, and it has no records.
    ///
    /// # Errors
    ///
    /// `NotJournal` and `Torn` where the bytes are no journal or a torn one; the disk is then as it was. `Disk` only where
    /// a call of the disk failed. `NoMemory` may come at any bytes.
    pub fn start<O: Outside>(alloc: Global, out: &mut O) -> Result<(Journal, Records), StartFault>
        requires rests { IsAtRest (O.observed out.old).disk }
        requires attached { (O.observed out.old).attached ≡ true }

        // It answers by what the bytes open to. After `Ok` a crash leaves the records and a clean end, and nothing else.
        ensures ok { IfOk result (λ pair. (bytes : List ℕ) → (O.observed out.old).disk ≡ Some (at_rest bytes)
            → OpensTo bytes pair.1 × ((disk : _) × ((O.observed out.new).disk ≡ Some disk) × SettledAt disk pair.1 pair.0)) }
        ensures not_journal { IsErrOf result StartFault.NotJournal → (bytes : List ℕ) → (O.observed out.old).disk ≡ Some (at_rest bytes) → opened bytes ≡ Foreign }
        ensures torn { (number : ℕ) → IsErrOf result (StartFault.Torn number) → (bytes : List ℕ) → (O.observed out.old).disk ≡ Some (at_rest bytes) → opened bytes ≡ Torn number }
        ensures untouched { IsErrOf result StartFault.NotJournal → (O.observed out.new).disk ≡ (O.observed out.old).disk }
        ensures untouched_torn { (number : ℕ) → IsErrOf result (StartFault.Torn number) → (O.observed out.new).disk ≡ (O.observed out.old).disk }

        // Whatever it answers, at each moment a crash leaves what opens as the bytes did at its start.
        ensures any_moment { (bytes : List ℕ) → (O.observed out.old).disk ≡ Some (at_rest bytes) → Leaves O.observed O.moment out.old out.new (OpensAs bytes (O.observed out.old).told) }

        // A record may be added, also where the disk is not known.
        ensures again { IfOk result (λ pair. IsSettled (O.observed out.new).disk pair.0) }

        ensures rest { KeepsButDisk (O.observed out.old) (O.observed out.new) }
        ensures later { (O.observed out.old).disk_faults ≤ (O.observed out.new).disk_faults }
        ensures cause { IsErrOf result StartFault.Disk → Rose (O.observed out.old).disk_faults (O.observed out.new).disk_faults }
    {
        let len = out.length()?;
        if len >= 1 << 62 {
            return Err(StartFault::NoMemory);
        }
        let front = read_front(out)?;
        if len <= 9 {
            open_new(out, len == 9 && front == EMPTY)?;
            return Ok((Journal { gate: 8 }, Records::new(alloc)));
        }
        if front[..8] != EMPTY[..8] {
            return Err(StartFault::NotJournal);
        }
        let found = open_old(alloc, out, len)?;
        Ok((Journal { gate: found.at }, found.records))
    }

    /// How many bytes it has.
    pub fn length(&self) -> u64
        ensures { result ≡ self.now }
    {
        self.gate + 1
    }

    /// Whether a record of so many bytes has room: with it the journal has at most 2^26 bytes.
    pub fn fits(&self, count: u64) -> bool
        ensures { IsTrue result ↔ (self.now + 4 + count + 1 ≤ 2 ^ 26) }
    {
        count <= 1 << 26 && self.gate + 6 + count <= 1 << 26
    }

    /// Adds a record, which takes no memory. After `Ok` each crash leaves it.
    ///
    /// # Errors
    ///
    /// `Failed` only where a call of the disk failed. A crash then leaves the records with or without the new one.
    pub fn append<O: Outside>(self, out: &mut O, frame: &Frame) -> Result<Journal, Failed>
        requires settled { IsSettled (O.observed out.old).disk self }
        requires attached { (O.observed out.old).attached ≡ true }
        requires fits { self + 4 + length frame.now + 1 ≤ 2 ^ 26 }

        ensures longer { IfOk result (λ journal. journal ≡ self + 5 + length frame.now) }
        ensures acknowledged { IfOk result (λ journal. (disk : _) (records : List (List ℕ)) → (O.observed out.old).disk ≡ Some disk → SettledAt disk records self
            → ((now : _) × ((O.observed out.new).disk ≡ Some now) × SettledAt now (records ++ frame.now ∷ []) journal)) }

        // Another record may be added, also where the disk is not known.
        ensures again { IfOk result (λ journal. IsSettled (O.observed out.new).disk journal) }

        // Whatever it answers, at each moment a crash leaves what opens to the records before, or to these and the new one.
        ensures any_moment { (disk : _) (records : List (List ℕ)) → (O.observed out.old).disk ≡ Some disk → SettledAt disk records self
            → Leaves O.observed O.moment out.old out.new (λ image told. BeforeOrAfter records frame.now image × ((O.observed out.old).told ≡ Some told)) }

        ensures rest { KeepsButDisk (O.observed out.old) (O.observed out.new) }
        ensures cause { HasCause (O.observed out.old).disk_faults (O.observed out.new).disk_faults result }
    {
        let piece = frame.piece();
        write_through(out, self.gate + 1, piece)?;
        write_through(out, self.gate, &[OPEN])?;
        Ok(Journal {
            gate: self.gate + piece.len() as u64,
        })
    }
}

/// Reads the first nine bytes, as far as there are so many.
fn read_front<O: Outside>(out: &mut O) -> Result<[u8; 9], Failed>
    requires attached { (O.observed out.old).attached ≡ true }
    ensures front { IfOk result (λ front. (bytes : List ℕ) → content (O.observed out.old) ≡ Some bytes → 9 ≤ length bytes → front ≡ take 9 bytes) }
    ensures looks { Looks O.observed O.moment out.old out.new }
    ensures cause { OnErr result (Rose (O.observed out.old).disk_faults (O.observed out.new).disk_faults) }
{
    let mut front = [0u8; 9];
    read_full(out, 0, &mut front)?;
    Ok(front)
}

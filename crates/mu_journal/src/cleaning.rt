ghost use Rattle.std.specs.Prelude.{◌≡◌, ◌≤◌, ◌<◌, ◌+◌, ◌^◌, ◌++◌, ◌∷◌, [], true, None, Some, List, ℕ, length, option_map, IfOk, OnOk, OnErr, IfSome, IsErrOf};
ghost use Rattle.mu_outside.specs.Disks.{at_rest, wrote, shortened, settled};
ghost use Rattle.mu_outside.specs.Outsides.{content, Rose, KeepsButDisk};
ghost use Rattle.mu_outside.specs.Leaves.{Leaves};
ghost use Rattle.mu_journal.specs.Formats.{Torn, head, blocks, closed, opened};
ghost use Rattle.mu_journal.specs.Settled.{SettledAt};
ghost use Rattle.mu_journal.specs.Opening.{OpensAs, OpensTo, Within};
ghost use Rattle.mu_journal.specs.Gates.{IsParsed, IsEnd};

use crate::fault::StartFault;
use crate::opening::{Found, read_records};
use mu_outside::{Failed, Outside};
use std::alloc::Global;

/// The bytes of a journal without records.
pub(crate) const EMPTY: [u8; 9] = *b"MURALJ1\n\0";

/// Writes these bytes from this place on, and makes sure of them.
pub(crate) fn write_through<O: Outside>(out: &mut O, at: u64, bytes: &[u8]) -> Result<(), Failed>
    requires place { IfSome (content (O.observed out.old)) (λ old. at ≤ length old) }
    requires attached { (O.observed out.old).attached ≡ true }
    ensures disk { OnOk result ((O.observed out.new).disk ≡ option_map settled (option_map (wrote at bytes.now) (O.observed out.old).disk)) }
    ensures within { Within O.observed O.moment out.old out.new (option_map (wrote at bytes.now) (O.observed out.old).disk) }
    ensures cause { OnErr result (Rose (O.observed out.old).disk_faults (O.observed out.new).disk_faults) }
{
    out.write_at(at, bytes)?;
    out.sync()
}

/// Cuts the journal to its first bytes, and makes sure of that.
fn cut_through<O: Outside>(out: &mut O, at: u64) -> Result<(), Failed>
    requires place { IfSome (content (O.observed out.old)) (λ old. at ≤ length old) }
    requires attached { (O.observed out.old).attached ≡ true }
    ensures disk { OnOk result ((O.observed out.new).disk ≡ option_map settled (option_map (shortened at) (O.observed out.old).disk)) }
    ensures within { Within O.observed O.moment out.old out.new (option_map (shortened at) (O.observed out.old).disk) }
    ensures cause { OnErr result (Rose (O.observed out.old).disk_faults (O.observed out.new).disk_faults) }
{
    out.cut(at)?;
    out.sync()
}

/// Cuts what stands past the ending gate.
fn cut_end<O: Outside>(out: &mut O, at: u64, len: u64) -> Result<(), Failed>
    requires small { at + 1 < 2 ^ 64 }
    requires attached { (O.observed out.old).attached ≡ true }
    requires place { IfSome (content (O.observed out.old)) (λ bytes. at + 1 ≤ length bytes) }
    ensures done { OnOk result ((bytes : List ℕ) (records : List (List ℕ)) (gate : ℕ) → (O.observed out.old).disk ≡ Some (at_rest bytes) → length bytes ≡ len → IsParsed bytes records at → IsEnd bytes at gate
        → (O.observed out.new).disk ≡ Some (at_rest ((head ++ blocks records) ++ gate ∷ []))) }
    ensures any_moment { (bytes : List ℕ) (records : List (List ℕ)) (gate : ℕ) → (O.observed out.old).disk ≡ Some (at_rest bytes) → length bytes ≡ len → IsParsed bytes records at → IsEnd bytes at gate
        → Leaves O.observed O.moment out.old out.new (OpensAs bytes (O.observed out.old).told) }
    ensures place { OnOk result (IfSome (content (O.observed out.new)) (λ bytes. at ≤ length bytes)) }
    ensures unknown { OnOk result ((O.observed out.old).disk ≡ None → (O.observed out.new).disk ≡ None) }
    ensures rest { KeepsButDisk (O.observed out.old) (O.observed out.new) }
    ensures later { (O.observed out.old).disk_faults ≤ (O.observed out.new).disk_faults }
    ensures cause { OnErr result (Rose (O.observed out.old).disk_faults (O.observed out.new).disk_faults) }
{
    if len <= at + 1 {
        return Ok(());
    }
    cut_through(out, at + 1)
}

/// Closes the ending gate, behind which nothing stands.
fn close_gate<O: Outside>(out: &mut O, at: u64, gate: u8) -> Result<(), Failed>
    requires attached { (O.observed out.old).attached ≡ true }
    requires place { IfSome (content (O.observed out.old)) (λ bytes. at ≤ length bytes) }
    ensures done { OnOk result ((bytes : List ℕ) (records : List (List ℕ)) → (O.observed out.old).disk ≡ Some (at_rest ((head ++ blocks records) ++ gate ∷ [])) → IsParsed bytes records at → IsEnd bytes at gate
        → (O.observed out.new).disk ≡ Some (at_rest (closed records))) }
    ensures any_moment { (bytes : List ℕ) (records : List (List ℕ)) → (O.observed out.old).disk ≡ Some (at_rest ((head ++ blocks records) ++ gate ∷ [])) → IsParsed bytes records at → IsEnd bytes at gate
        → Leaves O.observed O.moment out.old out.new (OpensAs bytes (O.observed out.old).told) }
    ensures unknown { OnOk result ((O.observed out.old).disk ≡ None → (O.observed out.new).disk ≡ None) }
    ensures rest { KeepsButDisk (O.observed out.old) (O.observed out.new) }
    ensures later { (O.observed out.old).disk_faults ≤ (O.observed out.new).disk_faults }
    ensures cause { OnErr result (Rose (O.observed out.old).disk_faults (O.observed out.new).disk_faults) }
{
    if gate == 0 {
        return Ok(());
    }
    write_through(out, at, &[0])
}

/// Opens a journal without records: its head is there whole, or written.
pub(crate) fn open_new<O: Outside>(out: &mut O, is_whole: bool) -> Result<(), Failed>
    requires attached { (O.observed out.old).attached ≡ true }
    requires whole { is_whole ≡ true → (bytes : List ℕ) → (O.observed out.old).disk ≡ Some (at_rest bytes) → bytes ≡ closed [] }
    ensures done { OnOk result ((bytes : List ℕ) → (O.observed out.old).disk ≡ Some (at_rest bytes) → length bytes ≤ 9 → (O.observed out.new).disk ≡ Some (at_rest (closed []))) }
    ensures any_moment { (bytes : List ℕ) → (O.observed out.old).disk ≡ Some (at_rest bytes) → length bytes ≤ 9 → Leaves O.observed O.moment out.old out.new (OpensAs bytes (O.observed out.old).told) }
    ensures unknown { OnOk result ((O.observed out.old).disk ≡ None → (O.observed out.new).disk ≡ None) }
    ensures rest { KeepsButDisk (O.observed out.old) (O.observed out.new) }
    ensures later { (O.observed out.old).disk_faults ≤ (O.observed out.new).disk_faults }
    ensures cause { OnErr result (Rose (O.observed out.old).disk_faults (O.observed out.new).disk_faults) }
{
    if is_whole {
        return Ok(());
    }
    write_through(out, 0, &EMPTY)
}

/// Opens a content of this length, which has its head: reads the records, and brings the disk to a clean end.
pub(crate) fn open_old<O: Outside>(
    alloc: Global,
    out: &mut O,
    len: u64,
) -> Result<Found, StartFault>
    requires small { len < 2 ^ 62 }
    requires long { 9 < len }
    requires attached { (O.observed out.old).attached ≡ true }
    requires length { (bytes : List ℕ) → content (O.observed out.old) ≡ Some bytes → length bytes ≡ len }
    requires start { (bytes : List ℕ) → content (O.observed out.old) ≡ Some bytes → length bytes ≡ len → IsParsed bytes [] 8 }
    ensures ok { IfOk result (λ found. (bytes : List ℕ) → (O.observed out.old).disk ≡ Some (at_rest bytes)
        → OpensTo bytes found.records × ((O.observed out.new).disk ≡ Some (at_rest (closed found.records))) × SettledAt (at_rest (closed found.records)) found.records (found.at + 1)) }
    ensures unknown { OnOk result ((O.observed out.old).disk ≡ None → (O.observed out.new).disk ≡ None) }
    ensures within { IfOk result (λ found. found.at < len) }
    ensures torn { (number : ℕ) → IsErrOf result (StartFault.Torn number) → (bytes : List ℕ) → (O.observed out.old).disk ≡ Some (at_rest bytes) → opened bytes ≡ Torn number }
    ensures untouched { (number : ℕ) → IsErrOf result (StartFault.Torn number) → (O.observed out.new).disk ≡ (O.observed out.old).disk }
    ensures other { IsErrOf result StartFault.NotJournal → ⊥ }
    ensures any_moment { (bytes : List ℕ) → (O.observed out.old).disk ≡ Some (at_rest bytes) → Leaves O.observed O.moment out.old out.new (OpensAs bytes (O.observed out.old).told) }
    ensures rest { KeepsButDisk (O.observed out.old) (O.observed out.new) }
    ensures later { (O.observed out.old).disk_faults ≤ (O.observed out.new).disk_faults }
    ensures cause { IsErrOf result StartFault.Disk → Rose (O.observed out.old).disk_faults (O.observed out.new).disk_faults }
{
    let found = read_records(alloc, out, len)?;
    cut_end(out, found.at, len)?;
    close_gate(out, found.at, found.gate)?;
    Ok(found)
}

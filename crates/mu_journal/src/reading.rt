ghost use Rattle.std.specs.Prelude.{◌≡◌, ◌≤◌, ◌<◌, ◌+◌, ◌^◌, true, List, ℕ, Some, length, take, IfOk, IfSome, OnOk, OnErr};
ghost use Rattle.mu_outside.specs.Outsides.{content, Rose};
ghost use Rattle.mu_journal.specs.Opening.{Looks};
ghost use Rattle.mu_journal.specs.Gates.{IsRead, IsKnown};

use mu_outside::{Failed, Outside};
use std::alloc::{AllocError, Global};

/// How many bytes are read in one go.
const PIECE_LEN: usize = 65_536;

/// Bytes of the disk that were read in one go, from a place on.
#[derive(Drop)]
pub(crate) struct Piece {
    from: u64,
    count: usize,
    bytes: Vec<u8>,
    ghost within: { count ≤ length bytes.items },
    ghost long: { length bytes.items ≡ 65536 },
}

impl Piece {
    /// Nothing read yet.
    pub(crate) fn new(alloc: Global) -> Result<Piece, AllocError>
        ensures { IfOk result (λ piece. piece.count ≡ 0) }
    {
        let bytes = vec![in alloc; 0u8; PIECE_LEN]?;
        Ok(Piece {
            from: 0,
            count: 0,
            bytes,
        })
    }

    /// The bytes that were read from this place on, and none where it lies outside.
    pub(crate) fn known(&self, at: u64) -> &[u8]
        ensures known { (content : List ℕ) → IsKnown content self.now.from (take self.now.count self.now.bytes.items) → IsKnown content at result.now }
        ensures all { at ≡ self.now.from → result.now ≡ take self.now.count self.now.bytes.items }
    {
        match at.checked_sub(self.from) {
            Some(skipped) if skipped < self.count as u64 =>
                &self.bytes[skipped as usize..self.count],
            _ => &[],
        }
    }

    /// Reads from this place on.
    pub(crate) fn load<O: Outside>(&mut self, out: &mut O, at: u64) -> Result<(), Failed>
        requires room { at + 65536 < 2 ^ 64 }
        requires attached { (O.observed out.old).attached ≡ true }
        ensures from { OnOk result (self.new.from ≡ at) }
        ensures read { OnOk result ((bytes : List ℕ) → content (O.observed out.old) ≡ Some bytes → IsRead bytes at self.new.count self.new.bytes.items) }
        ensures looks { Looks O.observed O.moment out.old out.new }
        ensures cause { OnErr result (Rose (O.observed out.old).disk_faults (O.observed out.new).disk_faults) }
    {
        let count = read_full(out, at, &mut self.bytes)?;
        self.from = at;
        self.count = count;
        Ok(())
    }
}

/// Fills the buffer from this place on, as far as there are bytes, and answers how many it took.
pub(crate) fn read_full<O: Outside>(out: &mut O, at: u64, buf: &mut [u8]) -> Result<usize, Failed>
    requires room { at + length buf.old < 2 ^ 64 }
    requires attached { (O.observed out.old).attached ≡ true }
    ensures length { length buf.new ≡ length buf.old }
    ensures bound { IfOk result (λ count. count ≤ length buf.old) }
    ensures read { IfOk result (λ count. IfSome (content (O.observed out.old)) (λ bytes. IsRead bytes at count buf.new)) }
    ensures looks { Looks O.observed O.moment out.old out.new }
    ensures cause { OnErr result (Rose (O.observed out.old).disk_faults (O.observed out.new).disk_faults) }
{
    let mut count = 0;
    while count < buf.len() {
        let more = out.read_at(at + count as u64, &mut buf[count..])?;
        if more == 0 {
            break;
        }
        count += more;
    }
    Ok(count)
}

ghost use Rattle.std.specs.Prelude.{◌≡◌, ◌⊎◌, ◌↔◌, ◌≤◌, ◌<◌, ◌+◌, ◌-◌, true, false, length, drop, take, min, Some, None, IfOk, IfSome, OnOk, OnErr, IsErr, IsTrue, MatchResult, option_map};
ghost use Rattle.std.specs.List.{Contains};
ghost use Rattle.mu_outside.specs.Counts.{counted};
ghost use Rattle.mu_outside.specs.Disks.{wrote, shortened, settled};
ghost use Rattle.mu_outside.specs.Scenes.{printed_by};
ghost use Rattle.mu_outside.specs.Images.{IsFilled, IsInside, disk_inside};
ghost use Rattle.mu_outside.specs.Outsides.{content, Rose, HasCause, KeepsButInput, KeepsButTold, KeepsButName, KeepsButDisk, Passes, Quietly, Telling, Takes, Tells, Measures, Reads, Changes, Syncs, count_of};
ghost use Rattle.mu_outside.specs.Desks.{known_by, moment_of, scene_of, content_of, fresh, filled_by, with_taken, with_told, with_disk_call, with_attached, with_read, with_written, with_cut, with_synced, with_starved_disk, FailsTake, FailsTell, FailsDisk};

use crate::calls::Call;
use crate::counts::count;
use crate::faults::Faults;
use crate::logs::Log;
use crate::outsides::{Failed, Outside};
use mu_tree::{Bytes, NoMemory};
use std::alloc::Global;
use std::marker::Model;

/// An outside in memory, for tests. It notes each call, and fails where it is told to or has no memory for the note.
///
/// A `take` that does not fail moves all that the buffer has room for, a `tell` prints its whole piece, and a `read_at`
/// copies all that there is and the buffer has room for. A call that fails changes only the notes and the counts. Contracts
/// see the input that is left, the disk's first bytes, the noted calls, of which the printed bytes and the disk follow, and
/// the counts.
#[derive(Debug, Drop)]
pub struct Desk {
    log: Log,
    input: Bytes,
    taken: usize,
    attached: bool,
    faults: Faults,
    takes: u64,
    tells: u64,
    disks: u64,
    read_faults: u64,
    tell_faults: u64,
    disk_faults: u64,
}

impl Model for Desk {
    ghost use Rattle.std.specs.Prelude.{◌≤◌, length, drop};
    ghost use Rattle.mu_outside.specs.Desks.{DeskState};

    ghost Value = { DeskState };

    ghost view = { λ desk. record {
      left = drop desk.taken desk.input;
      first = desk.log.first;
      calls = desk.log.calls;
      attached = desk.attached;
      failing_takes = desk.faults.takes;
      failing_tells = desk.faults.tells;
      failing_disks = desk.faults.disks;
      takes = desk.takes;
      tells = desk.tells;
      disks = desk.disks;
      read_faults = desk.read_faults;
      tell_faults = desk.tell_faults;
      disk_faults = desk.disk_faults;
      starved = desk.log.starved;
    } };

    ghost invariant = { λ desk. desk.taken ≤ length desk.input };
}

impl Desk {
    /// A desk with this input and this disk, before its first call. The calls whose numbers `faults` lists fail.
    ///
    /// # Errors
    ///
    /// `NoMemory` may come at any arguments.
    pub fn new(alloc: Global, input: Bytes, disk: Bytes, faults: Faults) -> Result<Desk, NoMemory>
        ensures { IfOk result (λ desk. desk ≡ fresh input disk faults) }
    {
        Ok(Desk {
            log: Log::new(alloc, disk)?,
            input,
            taken: 0,
            attached: false,
            faults,
            takes: 0,
            tells: 0,
            disks: 0,
            read_faults: 0,
            tell_faults: 0,
            disk_faults: 0,
        })
    }

    /// The bytes printed so far.
    pub fn told(&self) -> &[u8]
        ensures bytes { result.now ≡ (scene_of self.now).told }
        ensures calls { result.now ≡ printed_by self.now.calls }
    {
        self.log.told()
    }

    /// The bytes of the disk.
    pub fn disk(&self) -> &[u8]
        ensures { result.now ≡ content_of self.now }
    {
        self.log.content()
    }

    /// An image of the disk as a crash inside the call of this number, from 1, may leave it, and the bytes that were printed
    /// when the call ended. Each byte that may have any value is `fill`, and the end is the highest one where `long` is
    /// true, else the lowest.
    ///
    /// # Errors
    ///
    /// `NoMemory`.
    pub fn image(
        &self,
        alloc: Global,
        number: u64,
        fill: u8,
        long: bool,
    ) -> Result<Option<(Bytes, Bytes)>, NoMemory>
        ensures none { IfOk result (λ answer. (answer ≡ None) ↔ ((number ≡ 0) ⊎ (length self.now.calls < number))) }
        ensures inside { IfOk result (λ answer. IfSome answer (λ pair. IsInside self.now.first self.now.calls number pair.0 pair.1)) }
        ensures filled { IfOk result (λ answer. IfSome answer (λ pair. IfSome (disk_inside self.now.first self.now.calls number) (λ disk. IsFilled fill long disk pair.0))) }
        ensures told { IfOk result (λ answer. IfSome answer (λ pair. pair.1 ≡ printed_by (take number self.now.calls))) }
        ensures moment { IfOk result (λ answer. IfSome answer (λ pair. moment_of self.now (number - 1) pair.0 pair.1)) }
    {
        self.log.image(alloc, number, fill, long)
    }

    /// How many calls failed since there was no memory to note them.
    pub fn starved(&self) -> u64
        ensures { result ≡ self.now.starved }
    {
        self.log.starved()
    }

    // Notes a `take`, and fails it where it is listed.
    fn take_call(&mut self) -> Result<(), Failed>
        ensures ok { OnOk result (self.new ≡ with_taken 0 self.old) }
        ensures listed { Contains self.old.failing_takes self.new.takes → IsErr result }
        ensures err { OnErr result (FailsTake self.old self.new) }
        ensures cause { HasCause self.old.read_faults self.new.read_faults result }
    {
        count(&mut self.takes);
        if self.log.note(Call::Silent).is_err()
            || is_listed(self.faults.takes.items(), self.takes)
        {
            count(&mut self.read_faults);
            return Err(Failed);
        }
        Ok(())
    }

    // Prints a piece, and notes that, or fails where it is listed.
    fn tell_call(&mut self, piece: &[u8]) -> Result<(), Failed>
        ensures ok { OnOk result (self.new ≡ with_told piece.now self.old) }
        ensures listed { Contains self.old.failing_tells self.new.tells → IsErr result }
        ensures err { OnErr result (FailsTell self.old self.new) }
        ensures cause { HasCause self.old.tell_faults self.new.tell_faults result }
    {
        count(&mut self.tells);
        let listed = is_listed(self.faults.tells.items(), self.tells);
        let noted = if listed {
            self.log.note(Call::Silent)
        } else {
            self.log.note_told(piece)
        };
        if listed || noted.is_err() {
            count(&mut self.tell_faults);
            return Err(Failed);
        }
        Ok(())
    }

    // Notes a call of the disk as the first of these, or where it is listed as the second, and fails it.
    fn disk_call(&mut self, done: Call, failed: Call) -> Result<(), Failed>
        ensures ok { OnOk result (self.new ≡ with_disk_call done self.old) }
        ensures listed { Contains self.old.failing_disks self.new.disks → IsErr result }
        ensures err { OnErr result (FailsDisk failed self.old self.new) }
        ensures cause { HasCause self.old.disk_faults self.new.disk_faults result }
    {
        count(&mut self.disks);
        let listed = is_listed(self.faults.disks.items(), self.disks);
        let noted = self.log.note(if listed { failed } else { done });
        if listed || noted.is_err() {
            return Err(self.fail_disk());
        }
        Ok(())
    }

    // Counts a call of the disk as failed.
    fn fail_disk(&mut self) -> Failed
        ensures state { self.new ≡ record self.old { disk_faults = counted self.old.disk_faults } }
        ensures cause { self.old.disk_faults ≤ self.new.disk_faults }
    {
        count(&mut self.disk_faults);
        Failed
    }

    // Fails a call of the disk that there is no memory to note.
    fn starve_disk(&mut self) -> Failed
        ensures state { self.new ≡ with_starved_disk self.old }
        ensures cause { self.old.disk_faults ≤ self.new.disk_faults }
    {
        count(&mut self.disks);
        self.log.starve();
        self.fail_disk()
    }
}

impl Outside for Desk {
    ghost use Rattle.mu_outside.specs.DeskLaws.{desk_honest, desk_only_now, desk_counts_now, desk_earlier};

    ghost observed = { known_by };

    ghost moment = { moment_of };

    ghost honest = { desk_honest };

    ghost only_now = { desk_only_now };

    ghost counts_now = { desk_counts_now };

    ghost earlier = { desk_earlier };

    fn take(&mut self, buf: &mut [u8]) -> Result<usize, Failed>
        requires { 0 < length buf.old }
        ensures input { Takes (known_by self.old).left (known_by self.new).left result buf.new }
        ensures rest { KeepsButInput (known_by self.old) (known_by self.new) }
        ensures cause { HasCause self.old.read_faults self.new.read_faults result }
        ensures time { Passes (known_by self.old).clock (known_by self.new).clock (moment_of self.old) (moment_of self.new) }
        ensures inside { Quietly (known_by self.old).disk (known_by self.old).told (moment_of self.new (known_by self.old).clock) }

        // A call that does not fail moves all that there is room for.
        ensures count { IfOk result (λ count. count ≡ min (length self.old.left) (length buf.old)) }
        ensures buffer { IfOk result (λ count. buf.new ≡ filled_by count self.old.left buf.old) }
        ensures ok { IfOk result (λ count. self.new ≡ with_taken count self.old) }

        // A call fails exactly where it is listed or memory is wanting, and then counts.
        ensures listed { Contains self.old.failing_takes self.new.takes → IsErr result }
        ensures why { OnErr result (Contains self.old.failing_takes self.new.takes ⊎ Rose self.old.starved self.new.starved) }
        ensures err { OnErr result (FailsTake self.old self.new) }
        ensures untouched { OnErr result (buf.new ≡ buf.old) }
    {
        self.take_call()?;
        let moved = fill_front(buf, &self.input.items()[self.taken..]);
        self.taken += moved;
        Ok(moved)
    }

    fn tell(&mut self, piece: &[u8]) -> Result<usize, Failed>
        requires { 0 < length piece.now }
        ensures output { Tells (known_by self.old).told (known_by self.new).told result piece.now }
        ensures rest { KeepsButTold (known_by self.old) (known_by self.new) }
        ensures cause { HasCause self.old.tell_faults self.new.tell_faults result }
        ensures time { Passes (known_by self.old).clock (known_by self.new).clock (moment_of self.old) (moment_of self.new) }
        ensures inside { Telling (known_by self.old).disk (known_by self.old).told (take (count_of result) piece.now) (moment_of self.new (known_by self.old).clock) }

        // A call that does not fail prints the whole piece.
        ensures count { IfOk result (λ count. count ≡ length piece.now) }
        ensures ok { OnOk result (self.new ≡ with_told piece.now self.old) }

        // A call fails exactly where it is listed or memory is wanting, and then counts.
        ensures listed { Contains self.old.failing_tells self.new.tells → IsErr result }
        ensures why { OnErr result (Contains self.old.failing_tells self.new.tells ⊎ Rose self.old.starved self.new.starved) }
        ensures err { OnErr result (FailsTell self.old self.new) }
    {
        self.tell_call(piece)?;
        Ok(piece.len())
    }

    fn attach(&mut self, _path: &str) -> Result<(), Failed>
        requires { self.old.attached ≡ false }
        ensures done { MatchResult result (λ _. self.new.attached ≡ true) (λ _. self.new.attached ≡ false) }
        ensures rest { KeepsButName (known_by self.old) (known_by self.new) }
        ensures cause { HasCause self.old.disk_faults self.new.disk_faults result }
        ensures time { Passes (known_by self.old).clock (known_by self.new).clock (moment_of self.old) (moment_of self.new) }
        ensures inside { Quietly (known_by self.old).disk (known_by self.old).told (moment_of self.new (known_by self.old).clock) }
        ensures ok { OnOk result (self.new ≡ with_attached self.old) }

        // A call fails exactly where it is listed or memory is wanting, and then counts.
        ensures listed { Contains self.old.failing_disks self.new.disks → IsErr result }
        ensures why { OnErr result (Contains self.old.failing_disks self.new.disks ⊎ Rose self.old.starved self.new.starved) }
        ensures err { OnErr result (FailsDisk Call.Silent self.old self.new) }
    {
        self.disk_call(Call::Silent, Call::Silent)?;
        self.attached = true;
        Ok(())
    }

    fn length(&mut self) -> Result<u64, Failed>
        requires { self.old.attached ≡ true }
        ensures value { Measures (content (known_by self.old)) result }
        ensures disk { (known_by self.new).disk ≡ (known_by self.old).disk }
        ensures rest { KeepsButDisk (known_by self.old) (known_by self.new) }
        ensures cause { HasCause self.old.disk_faults self.new.disk_faults result }
        ensures time { Passes (known_by self.old).clock (known_by self.new).clock (moment_of self.old) (moment_of self.new) }
        ensures inside { Quietly (known_by self.old).disk (known_by self.old).told (moment_of self.new (known_by self.old).clock) }
        ensures ok { OnOk result (self.new ≡ with_read self.old) }

        // A call fails exactly where it is listed or memory is wanting, and then counts.
        ensures listed { Contains self.old.failing_disks self.new.disks → IsErr result }
        ensures why { OnErr result (Contains self.old.failing_disks self.new.disks ⊎ Rose self.old.starved self.new.starved) }
        ensures err { OnErr result (FailsDisk Call.Silent self.old self.new) }
    {
        self.disk_call(Call::Silent, Call::Silent)?;
        Ok(self.log.content().len() as u64)
    }

    fn read_at(&mut self, at: u64, buf: &mut [u8]) -> Result<usize, Failed>
        requires room { 0 < length buf.old }
        requires attached { self.old.attached ≡ true }
        ensures bound { IfOk result (λ n. n ≤ length buf.new) }
        ensures value { Reads (content (known_by self.old)) at result buf.new }
        ensures disk { (known_by self.new).disk ≡ (known_by self.old).disk }
        ensures rest { KeepsButDisk (known_by self.old) (known_by self.new) }
        ensures cause { HasCause self.old.disk_faults self.new.disk_faults result }
        ensures time { Passes (known_by self.old).clock (known_by self.new).clock (moment_of self.old) (moment_of self.new) }
        ensures inside { Quietly (known_by self.old).disk (known_by self.old).told (moment_of self.new (known_by self.old).clock) }

        // A call that does not fail copies all that there is and that there is room for.
        ensures count { IfOk result (λ count. count ≡ min (length (content_of self.old) - at) (length buf.old)) }
        ensures buffer { IfOk result (λ count. buf.new ≡ filled_by count (drop at (content_of self.old)) buf.old) }
        ensures ok { OnOk result (self.new ≡ with_read self.old) }

        // A call fails exactly where it is listed or memory is wanting, and then counts.
        ensures listed { Contains self.old.failing_disks self.new.disks → IsErr result }
        ensures why { OnErr result (Contains self.old.failing_disks self.new.disks ⊎ Rose self.old.starved self.new.starved) }
        ensures err { OnErr result (FailsDisk Call.Silent self.old self.new) }
        ensures untouched { OnErr result (buf.new ≡ buf.old) }
    {
        self.disk_call(Call::Silent, Call::Silent)?;
        Ok(fill_front(buf, rest_from(self.log.content(), at)))
    }

    fn write_at(&mut self, at: u64, bytes: &[u8]) -> Result<(), Failed>
        requires place { IfSome (content (known_by self.old)) (λ old. at ≤ length old) }
        requires attached { self.old.attached ≡ true }
        ensures disk { Changes (wrote at bytes.now) (known_by self.old).disk (known_by self.new).disk result }
        ensures rest { KeepsButDisk (known_by self.old) (known_by self.new) }
        ensures cause { HasCause self.old.disk_faults self.new.disk_faults result }
        ensures time { Passes (known_by self.old).clock (known_by self.new).clock (moment_of self.old) (moment_of self.new) }
        ensures inside { Quietly (option_map (wrote at bytes.now) (known_by self.old).disk) (known_by self.old).told (moment_of self.new (known_by self.old).clock) }
        ensures ok { OnOk result (self.new ≡ with_written at bytes.now self.old) }

        // A call fails exactly where it is listed or memory is wanting, and then counts.
        ensures listed { Contains self.old.failing_disks self.new.disks → IsErr result }
        ensures why { OnErr result (Contains self.old.failing_disks self.new.disks ⊎ Rose self.old.starved self.new.starved) }
        ensures err { OnErr result (FailsDisk (Call.WriteFailed at (at + length bytes.now)) self.old self.new) }
    {
        match self.log.written(at, bytes) {
            Ok(done) => {
                let from = self.log.content().len().min(at as usize);
                let past = (from + bytes.len()) as u64;
                self.disk_call(done, Call::WriteFailed(at, past))
            }
            Err(NoMemory) => Err(self.starve_disk()),
        }
    }

    fn cut(&mut self, at: u64) -> Result<(), Failed>
        requires place { IfSome (content (known_by self.old)) (λ old. at ≤ length old) }
        requires attached { self.old.attached ≡ true }
        ensures disk { Changes (shortened at) (known_by self.old).disk (known_by self.new).disk result }
        ensures rest { KeepsButDisk (known_by self.old) (known_by self.new) }
        ensures cause { HasCause self.old.disk_faults self.new.disk_faults result }
        ensures time { Passes (known_by self.old).clock (known_by self.new).clock (moment_of self.old) (moment_of self.new) }
        ensures inside { Quietly (option_map (shortened at) (known_by self.old).disk) (known_by self.old).told (moment_of self.new (known_by self.old).clock) }
        ensures ok { OnOk result (self.new ≡ with_cut at self.old) }

        // A call fails exactly where it is listed or memory is wanting, and then counts.
        ensures listed { Contains self.old.failing_disks self.new.disks → IsErr result }
        ensures why { OnErr result (Contains self.old.failing_disks self.new.disks ⊎ Rose self.old.starved self.new.starved) }
        ensures err { OnErr result (FailsDisk (Call.CutFailed at) self.old self.new) }
    {
        self.disk_call(Call::Cut(at), Call::CutFailed(at))
    }

    fn sync(&mut self) -> Result<(), Failed>
        requires attached { self.old.attached ≡ true }
        ensures disk { Syncs settled (known_by self.old).disk (known_by self.new).disk result }
        ensures content { content (known_by self.new) ≡ content (known_by self.old) }
        ensures rest { KeepsButDisk (known_by self.old) (known_by self.new) }
        ensures cause { HasCause self.old.disk_faults self.new.disk_faults result }
        ensures time { Passes (known_by self.old).clock (known_by self.new).clock (moment_of self.old) (moment_of self.new) }
        ensures inside { Quietly (known_by self.old).disk (known_by self.old).told (moment_of self.new (known_by self.old).clock) }
        ensures ok { OnOk result (self.new ≡ with_synced self.old) }

        // A call fails exactly where it is listed or memory is wanting, and then counts.
        ensures listed { Contains self.old.failing_disks self.new.disks → IsErr result }
        ensures why { OnErr result (Contains self.old.failing_disks self.new.disks ⊎ Rose self.old.starved self.new.starved) }
        ensures err { OnErr result (FailsDisk Call.Silent self.old self.new) }
    {
        self.disk_call(Call::Synced, Call::Silent)
    }
}

// Whether a call of this number is to fail.
fn is_listed(numbers: &[u64], number: u64) -> bool
    ensures { IsTrue result ↔ Contains numbers.now number }
{
    numbers.contains(&number)
}

// Copies as many bytes as there is room for to the front of the buffer, and answers their number.
fn fill_front(buf: &mut [u8], bytes: &[u8]) -> usize
    ensures count { result ≡ min (length bytes.now) (length buf.old) }
    ensures buffer { buf.new ≡ filled_by result bytes.now buf.old }
{
    let count = bytes.len().min(buf.len());
    buf[..count].copy_from_slice(&bytes[..count]);
    count
}

// The bytes from a place on, which may lie past the end.
fn rest_from(bytes: &[u8], at: u64) -> &[u8]
    ensures { result.now ≡ drop at bytes.now }
{
    &bytes[bytes.len().min(at as usize)..]
}

#[cfg(test)]
mod tests;

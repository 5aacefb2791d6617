ghost use Rattle.std.specs.Prelude.{◌≡◌, ◌<◌, ◌≤◌, true, false, length, IfOk, IfSome, OnOk, OnErr, MatchOption, MatchResult, IsErr, Ok, option_map, take};
ghost use Rattle.mu_outside.specs.Counts.{counted};
ghost use Rattle.mu_outside.specs.Outsides.{HasCause, KeepsButInput, KeepsButTold, KeepsButName, KeepsButDisk, Passes, Quietly, Telling, Takes, Tells, Measures, Reads, Changes, Syncs, content, count_of};
ghost use Rattle.mu_outside.specs.Disks.{wrote, shortened, settled};
ghost use Rattle.mu_host.specs.Hosts.{known_by, unknown};

use crate::MOST_TRIES;
use crate::files::{open_journal, read_piece, write_whole};
use mu_outside::{Failed, Outside};
use std::fs::File;
use std::io::{ErrorKind, Read};
use std::marker::Model;
use std::rt::Files;

/// The real standard input and standard output, and a real file for the journal. Nothing is known of their bytes.
///
/// A call that moves bytes is made up to 100 times where a signal interrupts it, before it fails, and a write of no bytes
/// fails. Contracts see whether the journal is open, and how many calls of each kind failed.
#[derive(Drop)]
pub struct Host<'a, R: Files<File = File> + Input + Print> {
    rt: &'a R,
    reader: R::Reader,
    journal: Option<File>,
    read_faults: u64,
    tell_faults: u64,
    disk_faults: u64,
}

impl<'a, R: Files<File = File> + Input + Print> Model for Host<'a, R> {
    ghost use Rattle.std.specs.Prelude.{is_some};
    ghost use Rattle.mu_host.specs.Hosts.{HostState};

    ghost Value = { HostState };

    ghost view = { λ host. record {
      attached = is_some host.journal;
      read_faults = host.read_faults;
      tell_faults = host.tell_faults;
      disk_faults = host.disk_faults;
    } };
}

impl<'a, R: Files<File = File> + Input + Print> Host<'a, R> {
    /// The standard input and output of the runtime `rt`, before any call failed and with no journal.
    pub fn new(rt: &'a R) -> Host<'a, R>
        ensures attached { result.attached ≡ false }
        ensures read { result.read_faults ≡ 0 }
        ensures tell { result.tell_faults ≡ 0 }
        ensures disk { result.disk_faults ≡ 0 }
    {
        Host {
            rt,
            reader: rt.reader(),
            journal: None,
            read_faults: 0,
            tell_faults: 0,
            disk_faults: 0,
        }
    }

    // The open file.
    fn journal(&self) -> &File
        requires { self.now.attached ≡ true }
    {
        self.journal.as_ref().unwrap()
    }

    // Counts a fault of the disk where a call has no answer.
    fn answered<T: Drop>(&mut self, answer: Option<T>) -> Result<T, Failed>
        ensures value { MatchOption answer (IsErr result) (λ value. result ≡ Ok value) }
        ensures cause { HasCause self.old.disk_faults self.new.disk_faults result }
        ensures ok { OnOk result (self.new ≡ self.old) }
        ensures err { OnErr result (self.new ≡ record self.old { disk_faults = counted self.old.disk_faults }) }
    {
        match answer {
            Some(value) => Ok(value),
            None => {
                self.disk_faults = self.disk_faults.saturating_add(1);
                Err(Failed)
            }
        }
    }
}

impl<'a, R: Files<File = File> + Input + Print> Outside for Host<'a, R> {
    ghost observed = { known_by };

    ghost moment = { unknown };

    ghost honest = { λ host disk is. Prim.cc };

    ghost only_now = { λ host image told at. absurd at };

    ghost counts_now = { λ host image told is_image is_told. absurd is_image };

    ghost earlier = { λ host time later image told le within at. at };

    fn take(&mut self, buf: &mut [u8]) -> Result<usize, Failed>
        requires { 0 < length buf.old }
        ensures input { Takes (known_by self.old).left (known_by self.new).left result buf.new }
        ensures rest { KeepsButInput (known_by self.old) (known_by self.new) }
        ensures cause { HasCause self.old.read_faults self.new.read_faults result }
        ensures time { Passes (known_by self.old).clock (known_by self.new).clock (unknown self.old) (unknown self.new) }
        ensures inside { Quietly (known_by self.old).disk (known_by self.old).told (unknown self.new (known_by self.old).clock) }

        // A call that fails counts once, and no other counts.
        ensures ok { OnOk result (self.new ≡ self.old) }
        ensures err { OnErr result (self.new ≡ record self.old { read_faults = counted self.old.read_faults }) }
    {
        match read_some(&mut self.reader, buf) {
            Some(count) => Ok(count),
            None => {
                self.read_faults = self.read_faults.saturating_add(1);
                Err(Failed)
            }
        }
    }

    fn tell(&mut self, piece: &[u8]) -> Result<usize, Failed>
        requires { 0 < length piece.now }
        ensures output { Tells (known_by self.old).told (known_by self.new).told result piece.now }
        ensures rest { KeepsButTold (known_by self.old) (known_by self.new) }
        ensures cause { HasCause self.old.tell_faults self.new.tell_faults result }
        ensures time { Passes (known_by self.old).clock (known_by self.new).clock (unknown self.old) (unknown self.new) }
        ensures inside { Telling (known_by self.old).disk (known_by self.old).told (take (count_of result) piece.now) (unknown self.new (known_by self.old).clock) }

        // A call that fails counts once, and no other counts.
        ensures ok { OnOk result (self.new ≡ self.old) }
        ensures err { OnErr result (self.new ≡ record self.old { tell_faults = counted self.old.tell_faults }) }
    {
        match write_some(self.rt, piece) {
            Some(count) if count > 0 => Ok(count),
            _ => {
                self.tell_faults = self.tell_faults.saturating_add(1);
                Err(Failed)
            }
        }
    }

    fn attach(&mut self, path: &str) -> Result<(), Failed>
        requires { self.old.attached ≡ false }
        ensures done { MatchResult result (λ _. self.new.attached ≡ true) (λ _. self.new.attached ≡ false) }
        ensures rest { KeepsButName (known_by self.old) (known_by self.new) }
        ensures cause { HasCause self.old.disk_faults self.new.disk_faults result }
        ensures time { Passes (known_by self.old).clock (known_by self.new).clock (unknown self.old) (unknown self.new) }
        ensures inside { Quietly (known_by self.old).disk (known_by self.old).told (unknown self.new (known_by self.old).clock) }

        // A call that fails counts once, and no other counts.
        ensures ok { OnOk result (self.new ≡ record self.old { attached = true }) }
        ensures err { OnErr result (self.new ≡ record self.old { disk_faults = counted self.old.disk_faults }) }
    {
        match open_journal(self.rt, path) {
            Ok(file) => {
                self.journal = Some(file);
                Ok(())
            }
            Err(_) => self.answered(None),
        }
    }

    fn length(&mut self) -> Result<u64, Failed>
        requires { self.old.attached ≡ true }
        ensures value { Measures (content (known_by self.old)) result }
        ensures disk { (known_by self.new).disk ≡ (known_by self.old).disk }
        ensures rest { KeepsButDisk (known_by self.old) (known_by self.new) }
        ensures cause { HasCause self.old.disk_faults self.new.disk_faults result }
        ensures time { Passes (known_by self.old).clock (known_by self.new).clock (unknown self.old) (unknown self.new) }
        ensures inside { Quietly (known_by self.old).disk (known_by self.old).told (unknown self.new (known_by self.old).clock) }

        // A call that fails counts once, and no other counts.
        ensures ok { OnOk result (self.new ≡ self.old) }
        ensures err { OnErr result (self.new ≡ record self.old { disk_faults = counted self.old.disk_faults }) }
    {
        let found = self.journal().metadata();
        self.answered(found.ok().map(|metadata| metadata.len()))
    }

    fn read_at(&mut self, at: u64, buf: &mut [u8]) -> Result<usize, Failed>
        requires room { 0 < length buf.old }
        requires attached { self.old.attached ≡ true }
        ensures bound { IfOk result (λ n. n ≤ length buf.new) }
        ensures value { Reads (content (known_by self.old)) at result buf.new }
        ensures disk { (known_by self.new).disk ≡ (known_by self.old).disk }
        ensures rest { KeepsButDisk (known_by self.old) (known_by self.new) }
        ensures cause { HasCause self.old.disk_faults self.new.disk_faults result }
        ensures time { Passes (known_by self.old).clock (known_by self.new).clock (unknown self.old) (unknown self.new) }
        ensures inside { Quietly (known_by self.old).disk (known_by self.old).told (unknown self.new (known_by self.old).clock) }

        // A call that fails counts once, and no other counts.
        ensures ok { OnOk result (self.new ≡ self.old) }
        ensures err { OnErr result (self.new ≡ record self.old { disk_faults = counted self.old.disk_faults }) }
    {
        let read = read_piece(self.journal(), at, buf);
        self.answered(read)
    }

    fn write_at(&mut self, at: u64, bytes: &[u8]) -> Result<(), Failed>
        requires attached { self.old.attached ≡ true }
        ensures disk { Changes (wrote at bytes.now) (known_by self.old).disk (known_by self.new).disk result }
        ensures rest { KeepsButDisk (known_by self.old) (known_by self.new) }
        ensures cause { HasCause self.old.disk_faults self.new.disk_faults result }
        ensures time { Passes (known_by self.old).clock (known_by self.new).clock (unknown self.old) (unknown self.new) }
        ensures inside { Quietly (option_map (wrote at bytes.now) (known_by self.old).disk) (known_by self.old).told (unknown self.new (known_by self.old).clock) }

        // A call that fails counts once, and no other counts.
        ensures ok { OnOk result (self.new ≡ self.old) }
        ensures err { OnErr result (self.new ≡ record self.old { disk_faults = counted self.old.disk_faults }) }
    {
        let written = write_whole(self.journal(), at, bytes);
        self.answered(written)
    }

    fn cut(&mut self, at: u64) -> Result<(), Failed>
        requires attached { self.old.attached ≡ true }
        ensures disk { Changes (shortened at) (known_by self.old).disk (known_by self.new).disk result }
        ensures rest { KeepsButDisk (known_by self.old) (known_by self.new) }
        ensures cause { HasCause self.old.disk_faults self.new.disk_faults result }
        ensures time { Passes (known_by self.old).clock (known_by self.new).clock (unknown self.old) (unknown self.new) }
        ensures inside { Quietly (option_map (shortened at) (known_by self.old).disk) (known_by self.old).told (unknown self.new (known_by self.old).clock) }

        // A call that fails counts once, and no other counts.
        ensures ok { OnOk result (self.new ≡ self.old) }
        ensures err { OnErr result (self.new ≡ record self.old { disk_faults = counted self.old.disk_faults }) }
    {
        let cut = self.journal().set_len(at);
        self.answered(cut.ok())
    }

    fn sync(&mut self) -> Result<(), Failed>
        requires attached { self.old.attached ≡ true }
        ensures disk { Syncs settled (known_by self.old).disk (known_by self.new).disk result }
        ensures content { content (known_by self.new) ≡ content (known_by self.old) }
        ensures rest { KeepsButDisk (known_by self.old) (known_by self.new) }
        ensures cause { HasCause self.old.disk_faults self.new.disk_faults result }
        ensures time { Passes (known_by self.old).clock (known_by self.new).clock (unknown self.old) (unknown self.new) }
        ensures inside { Quietly (known_by self.old).disk (known_by self.old).told (unknown self.new (known_by self.old).clock) }

        // A call that fails counts once, and no other counts.
        ensures ok { OnOk result (self.new ≡ self.old) }
        ensures err { OnErr result (self.new ≡ record self.old { disk_faults = counted self.old.disk_faults }) }
    {
        let synced = self.journal().sync_data();
        self.answered(synced.ok())
    }
}

// Reads once, but for interrupted calls. None where the read failed.
fn read_some<R: Read>(reader: &mut R, buf: &mut [u8]) -> Option<usize>
    ensures { IfSome result (λ count. count ≤ length buf.new) }
{
    for _ in 0..MOST_TRIES {
        match reader.read(buf) {
            Ok(count) => return Some(count),
            Err(error) if error.kind() == ErrorKind::Interrupted => {}
            Err(_) => return None,
        }
    }
    None
}

// Writes once, but for interrupted calls. None where the write failed.
fn write_some<R: Print>(rt: &R, piece: &[u8]) -> Option<usize>
    ensures { IfSome result (λ count. count ≤ length piece.now) }
{
    for _ in 0..MOST_TRIES {
        match rt.write_some(piece) {
            Ok(count) => return Some(count),
            Err(error) if error.kind() == ErrorKind::Interrupted => {}
            Err(_) => return None,
        }
    }
    None
}

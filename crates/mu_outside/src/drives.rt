ghost use Rattle.std.specs.Prelude.{◌≡◌, ◌≤◌, ◌↔◌, ◌^◌, ◌<◌, min, length, slice_index, IsTrue, IfOk, OnOk, OnErr};
ghost use Rattle.mu_outside.specs.Disks.{at_rest, wrote, shortened, settled, patched, InRange};
ghost use Rattle.mu_outside.specs.Scenes.{half_written, half_cut};
ghost use Rattle.mu_outside.specs.Images.{IsFilled};

use mu_tree::{Bytes, NoMemory};
use std::alloc::Global;
use std::marker::Model;

/// A disk in memory: what a read of it gives, and what a crash may leave of it.
#[derive(Debug, Drop)]
pub(crate) struct Drive {
    alloc: Global,
    content: Vec<u8>,
    synced: Vec<u8>,
    ranges: Vec<(u64, u64)>,
    low: u64,
    high: u64,
}

impl Model for Drive {
    ghost use Rattle.mu_outside.specs.Disks.{Disk};

    ghost Value = { Disk };

    ghost view = { λ drive. record {
      content = drive.content.items;
      synced = drive.synced.items;
      ranges = drive.ranges.items;
      low = drive.low;
      high = drive.high;
    } };
}

impl Drive {
    /// A disk of which a crash leaves these bytes.
    ///
    /// # Errors
    ///
    /// `NoMemory`.
    pub(crate) fn new(alloc: Global, first: &[u8]) -> Result<Drive, NoMemory>
        ensures { IfOk result (λ drive. drive ≡ at_rest first.now) }
    {
        Ok(Drive {
            alloc,
            content: Vec::from_slice(alloc, first)?,
            synced: Vec::from_slice(alloc, first)?,
            ranges: Vec::new(alloc),
            low: first.len() as u64,
            high: first.len() as u64,
        })
    }

    /// What a read gives.
    pub(crate) fn content(&self) -> &[u8]
        ensures { result.now ≡ self.now.content }
    {
        self.content.as_slice()
    }

    /// Writes these bytes from a place on, or from the end on where the place lies past it.
    ///
    /// # Errors
    ///
    /// `NoMemory` leaves all as it was.
    pub(crate) fn write(&mut self, at: u64, bytes: &[u8]) -> Result<(), NoMemory>
        ensures ok { OnOk result (self.new ≡ wrote (min at (length self.old.content)) bytes.now self.old) }
        ensures err { OnErr result (self.new ≡ self.old) }
    {
        let from = (at as usize).min(self.content.len());
        let past = (from + bytes.len()) as u64;
        self.ranges.reserve(1)?;
        overwrite(&mut self.content, from, bytes)?;
        self.ranges.insert(0, (from as u64, past))?;
        self.high = self.high.max(past);
        Ok(())
    }

    /// Fails to write in this range.
    ///
    /// # Errors
    ///
    /// `NoMemory` leaves all as it was.
    pub(crate) fn fail_write(&mut self, from: u64, past: u64) -> Result<(), NoMemory>
        ensures ok { OnOk result (self.new ≡ half_written from past self.old) }
        ensures err { OnErr result (self.new ≡ self.old) }
    {
        self.ranges.insert(0, (from, past))?;
        self.high = self.high.max(past);
        Ok(())
    }

    /// Cuts the disk to so many first bytes.
    ///
    /// # Errors
    ///
    /// `NoMemory` leaves all as it was.
    pub(crate) fn cut(&mut self, at: u64) -> Result<(), NoMemory>
        ensures ok { OnOk result (self.new ≡ shortened at self.old) }
        ensures err { OnErr result (self.new ≡ self.old) }
    {
        self.fail_cut(at)?;
        self.content.truncate(at as usize);
        Ok(())
    }

    /// Fails to cut the disk to so many first bytes.
    ///
    /// # Errors
    ///
    /// `NoMemory` leaves all as it was.
    pub(crate) fn fail_cut(&mut self, at: u64) -> Result<(), NoMemory>
        ensures ok { OnOk result (self.new ≡ half_cut at self.old) }
        ensures err { OnErr result (self.new ≡ self.old) }
    {
        self.ranges.insert(0, (at, self.content.len() as u64))?;
        self.low = self.low.min(at);
        Ok(())
    }

    /// Makes sure of what a read gives.
    ///
    /// # Errors
    ///
    /// `NoMemory` leaves all as it was.
    pub(crate) fn sync(&mut self) -> Result<(), NoMemory>
        ensures ok { OnOk result (self.new ≡ settled self.old) }
        ensures err { OnErr result (self.new ≡ self.old) }
    {
        self.synced = Vec::from_slice(self.alloc, self.content.as_slice())?;
        self.ranges.clear();
        self.low = self.content.len() as u64;
        self.high = self.low;
        Ok(())
    }

    /// What a crash may leave, with this byte wherever it may leave any, up to the highest end or else to the lowest.
    ///
    /// # Errors
    ///
    /// `NoMemory`.
    pub(crate) fn image(&self, alloc: Global, fill: u8, long: bool) -> Result<Bytes, NoMemory>
        requires { self.now.low ≤ self.now.high }
        ensures { IfOk result (λ image. IsFilled fill long self.now image) }
    {
        let end = if long { self.high } else { self.low };
        let mut image = Vec::new(alloc);
        for place in 0..end {
            image.push(byte_at(&self.ranges, &self.synced, place, fill))?;
        }
        Ok(Bytes::from_vec(image))
    }
}

// The byte at a place: this one in a range, and else the one that is made sure of.
fn byte_at(ranges: &[(u64, u64)], synced: &[u8], place: u64, fill: u8) -> u8
    ensures inside { InRange ranges.now place → result ≡ fill }
    ensures outside { (InRange ranges.now place → ⊥) → result ≡ slice_index synced.now place }
{
    if is_in_range(ranges, place) {
        return fill;
    }
    synced.get(place as usize).copied().unwrap_or(0)
}

// Whether a place lies in one of the ranges.
fn is_in_range(ranges: &[(u64, u64)], place: u64) -> bool
    ensures { IsTrue result ↔ InRange ranges.now place }
{
    for range in ranges {
        if (range.0..range.1).contains(&place) {
            return true;
        }
    }
    false
}

// Writes these bytes over what is there from a place on and past the end, or leaves all.
fn overwrite(content: &mut Vec<u8>, at: usize, bytes: &[u8]) -> Result<(), NoMemory>
    requires { at ≤ length content.old.items }
    ensures ok { OnOk result (content.new.items ≡ patched content.old.items at bytes.now) }
    ensures err { OnErr result (content.new.items ≡ content.old.items) }
{
    let kept = bytes.len().min(content.len() - at);
    content.extend_from_slice(&bytes[kept..])?;
    content[at..at + kept].copy_from_slice(&bytes[..kept]);
    Ok(())
}

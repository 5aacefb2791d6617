ghost use Rattle.std.specs.Prelude.{◌≡◌, ◌≤◌, ◌++◌, IfOk, OnOk, OnErr};
ghost use Rattle.mu_outside.specs.Scenes.{start, step, played, piece_of, disk_amid};
ghost use Rattle.mu_outside.specs.Images.{IsFilled};

use crate::calls::Call;
use crate::drives::Drive;
use mu_tree::{Bytes, NoMemory};
use std::alloc::Global;
use std::marker::Model;

/// What the calls of a desk lead to: the disk, and the printed bytes.
#[derive(Debug, Drop)]
pub(crate) struct Replay {
    drive: Drive,
    told: Vec<u8>,
}

impl Model for Replay {
    ghost use Rattle.mu_outside.specs.Scenes.{Scene};

    ghost Value = { Scene };

    ghost view = { λ replay. record { disk = replay.drive; told = replay.told.items } };
}

impl Replay {
    /// Before the first call, over a disk with these bytes.
    ///
    /// # Errors
    ///
    /// `NoMemory`.
    pub(crate) fn new(alloc: Global, first: &[u8]) -> Result<Replay, NoMemory>
        ensures { IfOk result (λ replay. replay ≡ start first.now) }
    {
        Ok(Replay {
            drive: Drive::new(alloc, first)?,
            told: Vec::new(alloc),
        })
    }

    /// What a read of the disk gives.
    pub(crate) fn content(&self) -> &[u8]
        ensures { result.now ≡ self.now.disk.content }
    {
        self.drive.content()
    }

    /// The printed bytes.
    pub(crate) fn told(&self) -> &[u8]
        ensures { result.now ≡ self.now.told }
    {
        self.told.as_slice()
    }

    /// Does what a call did.
    ///
    /// # Errors
    ///
    /// `NoMemory` leaves all as it was.
    pub(crate) fn apply(&mut self, call: &Call) -> Result<(), NoMemory>
        ensures ok { OnOk result (self.new ≡ step self.old call.now) }
        ensures err { OnErr result (self.new ≡ self.old) }
    {
        match call {
            Call::Silent => {}
            Call::Told(piece) => self.told.extend_from_slice(piece.items())?,
            Call::Wrote(at, bytes) => self.drive.write(*at, bytes.items())?,
            Call::WriteFailed(from, past) => self.drive.fail_write(*from, *past)?,
            Call::Cut(at) => self.drive.cut(*at)?,
            Call::CutFailed(at) => self.drive.fail_cut(*at)?,
            Call::Synced => self.drive.sync()?,
        }
        Ok(())
    }

    /// Does what a call did, but for what a sync makes sure of at its end.
    ///
    /// # Errors
    ///
    /// `NoMemory` leaves all as it was.
    pub(crate) fn enter(&mut self, call: &Call) -> Result<(), NoMemory>
        ensures { OnOk result (self.new ≡ record {
          disk = disk_amid self.old.disk call.now;
          told = self.old.told ++ piece_of call.now;
        }) }
    {
        if matches!(call, Call::Synced) {
            return Ok(());
        }
        self.apply(call)
    }

    /// What a crash may leave, with this byte wherever it may leave any, up to the highest end or else to the lowest, and
    /// the printed bytes.
    ///
    /// # Errors
    ///
    /// `NoMemory`.
    pub(crate) fn image(
        self,
        alloc: Global,
        fill: u8,
        long: bool,
    ) -> Result<(Bytes, Bytes), NoMemory>
        requires { self.disk.low ≤ self.disk.high }
        ensures image { IfOk result (λ pair. IsFilled fill long self.disk pair.0) }
        ensures told { IfOk result (λ pair. pair.1 ≡ self.told) }
    {
        let image = self.drive.image(alloc, fill, long)?;
        Ok((image, Bytes::from_vec(self.told)))
    }
}

/// What these calls led to over a disk with these bytes.
///
/// # Errors
///
/// `NoMemory`.
#[tactic(auto, using(crate::proofs::SceneLemmas::played_more))]
pub(crate) fn replayed(alloc: Global, first: &[u8], calls: &[Call]) -> Result<Replay, NoMemory>
    ensures { IfOk result (λ replay. replay ≡ played (start first.now) calls.now) }
{
    let mut replay = Replay::new(alloc, first)?;
    for call in calls {
        replay.apply(call)?;
    }
    Ok(replay)
}

ghost use Rattle.std.specs.Prelude.{◌≡◌, [], ◌∷◌, ◌++◌, IfOk, OnOk, OnErr};
ghost use Rattle.mu_outside.specs.Scenes.{start, step, played, printed_by};
ghost use Rattle.mu_outside.specs.Logs.{with_call, with_starved};

use crate::calls::Call;
use crate::counts::count;
use crate::replays::Replay;
use mu_tree::{Bytes, NoMemory};
use std::alloc::Global;
use std::marker::Model;

/// The calls of a desk, in order, and what they led to.
#[derive(Debug, Drop)]
pub(crate) struct Log {
    alloc: Global,
    pub(crate) first: Bytes,
    pub(crate) calls: Vec<Call>,
    replay: Replay,
    starved: u64,
}

impl Model for Log {
    ghost use Rattle.std.specs.Prelude.{◌≡◌};
    ghost use Rattle.mu_outside.specs.Logs.{LogState};
    ghost use Rattle.mu_outside.specs.Scenes.{start, played};

    ghost Value = { LogState };

    ghost view = { λ log. record { first = log.first; calls = log.calls.items; starved = log.starved } };

    ghost invariant = { λ log. log.replay ≡ played (start log.first) log.calls.items };
}

impl Log {
    /// No call so far, over a disk with these bytes.
    ///
    /// # Errors
    ///
    /// `NoMemory`.
    pub(crate) fn new(alloc: Global, first: Bytes) -> Result<Log, NoMemory>
        ensures { IfOk result (λ log. log ≡ record { first = first; calls = []; starved = 0 }) }
    {
        let replay = Replay::new(alloc, first.items())?;
        Ok(Log {
            alloc,
            first,
            calls: Vec::new(alloc),
            replay,
            starved: 0,
        })
    }

    /// What a read of the disk gives.
    pub(crate) fn content(&self) -> &[u8]
        ensures { result.now ≡ (played (start self.now.first) self.now.calls).disk.content }
    {
        self.replay.content()
    }

    /// The bytes that the calls printed.
    #[tactic(auto, using(crate::proofs::SceneLemmas::told_by_calls))]
    pub(crate) fn told(&self) -> &[u8]
        ensures bytes { result.now ≡ (played (start self.now.first) self.now.calls).told }
        ensures calls { result.now ≡ printed_by self.now.calls }
    {
        self.replay.told()
    }

    /// How many calls there was no memory to note.
    pub(crate) fn starved(&self) -> u64
        ensures { result ≡ self.now.starved }
    {
        self.starved
    }

    /// Notes a call.
    ///
    /// # Errors
    ///
    /// `NoMemory` notes nothing but that memory was wanting.
    #[tactic(auto, using(crate::proofs::SceneLemmas::played_push))]
    pub(crate) fn note(&mut self, call: Call) -> Result<(), NoMemory>
        ensures ok { OnOk result (self.new ≡ with_call call self.old) }
        ensures err { OnErr result (self.new ≡ with_starved self.old) }
    {
        if add_call(&mut self.calls, &mut self.replay, call).is_err() {
            return Err(self.starve());
        }
        Ok(())
    }

    /// Notes a call that prints a piece.
    ///
    /// # Errors
    ///
    /// `NoMemory` notes nothing but that memory was wanting.
    pub(crate) fn note_told(&mut self, piece: &[u8]) -> Result<(), NoMemory>
        ensures ok { OnOk result (self.new ≡ with_call (Call.Told piece.now) self.old) }
        ensures err { OnErr result (self.new ≡ with_starved self.old) }
    {
        match copied(self.alloc, piece) {
            Ok(piece) => self.note(Call::Told(piece)),
            Err(NoMemory) => Err(self.starve()),
        }
    }

    /// A call that writes these bytes from a place on, not yet noted.
    ///
    /// # Errors
    ///
    /// `NoMemory`.
    pub(crate) fn written(&self, at: u64, bytes: &[u8]) -> Result<Call, NoMemory>
        ensures { IfOk result (λ call. call ≡ Call.Wrote at bytes.now) }
    {
        Ok(Call::Wrote(at, copied(self.alloc, bytes)?))
    }

    /// Counts a call that there was no memory to note.
    pub(crate) fn starve(&mut self) -> NoMemory
        ensures { self.new ≡ with_starved self.old }
    {
        count(&mut self.starved);
        NoMemory
    }
}

fn copied(alloc: Global, bytes: &[u8]) -> Result<Bytes, NoMemory>
    ensures { IfOk result (λ copy. copy ≡ bytes.now) }
{
    Ok(Bytes::from_vec(Vec::from_slice(alloc, bytes)?))
}

// Adds a call to the calls and does what it did, or leaves both.
fn add_call(calls: &mut Vec<Call>, replay: &mut Replay, call: Call) -> Result<(), NoMemory>
    ensures calls { OnOk result (calls.new.items ≡ calls.old.items ++ call ∷ []) }
    ensures replay { OnOk result (replay.new ≡ step replay.old call) }
    ensures same_calls { OnErr result (calls.new.items ≡ calls.old.items) }
    ensures same_replay { OnErr result (replay.new ≡ replay.old) }
{
    calls.reserve(1)?;
    replay.apply(&call)?;
    if calls.push(call).is_err() {
        return Err(NoMemory);
    }
    Ok(())
}

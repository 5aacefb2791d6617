ghost use Rattle.std.specs.Prelude.{◌≡◌, ◌||◌, ◌++◌, ◌∷◌, [], false, ℕ, ◌≤◌, List, Option, take, IfOk, OnOk, OnErr, IsErrOf};
ghost use Rattle.std.specs.Io.KnownBytes.{append_known};
ghost use Rattle.mu_outside.specs.Outsides.{KeepsButTold, Rose};
ghost use Rattle.mural.specs.Lines.{whole_lines, lines};
ghost use Rattle.mu_flat.specs.Entries.{initial};
ghost use Rattle.mural.specs.Answers.{answer};
ghost use Rattle.mural.specs.Replies.{replies, told_for, refuses, some_refused, told_bytes};
ghost use Rattle.mural.specs.Interpreter.{IsFresh, Served, TellsFront};

use crate::answers::answer_line;
use crate::telling::tell_all;
use crate::wording::{is_refusal, reply_text};
use mu_command::LONGEST_LINE;
use mu_machine::Machine;
use mu_outside::{Failed, Outside};
use mu_tree::NoMemory;
use std::alloc::{AllocFailed, Global};

/// Why the lines of an input were not answered to their end.
#[derive(Clone, Copy, Debug, PartialEq, Eq)]
pub(crate) enum Stop {
    /// A reply could not be told.
    TellFault,
    /// Memory ran out.
    NoMemory,
}

impl From<NoMemory> for Stop {
    ghost use Rattle.std.specs.Prelude.{◌≡◌};
    ghost use Rattle.mural.specs.declared.interpreter.Stop.TheVariants as stop;

    ghost from_gives = { λ _ s. s ≡ stop.NoMemory };

    fn from(_error: NoMemory) -> Stop {
        Stop::NoMemory
    }
}

impl<T: Drop> From<AllocFailed<T>> for Stop {
    ghost use Rattle.std.specs.Prelude.{◌≡◌};
    ghost use Rattle.mural.specs.declared.interpreter.Stop.TheVariants as stop;

    ghost from_gives = { λ _ s. s ≡ stop.NoMemory };

    fn from(_error: AllocFailed<T>) -> Stop {
        Stop::NoMemory
    }
}

impl From<Failed> for Stop {
    ghost use Rattle.std.specs.Prelude.{◌≡◌};
    ghost use Rattle.mural.specs.declared.interpreter.Stop.TheVariants as stop;

    ghost from_gives = { λ _ s. s ≡ stop.TellFault };

    fn from(_error: Failed) -> Stop {
        Stop::TellFault
    }
}

/// A machine, and the input so far that is not answered yet.
#[derive(Drop)]
pub(crate) struct Interpreter {
    pub(crate) machine: Machine,
    /// The first bytes of the line in hand, one more than a line may have at the most.
    pub(crate) line: Vec<u8>,
    /// Whether some reply was a refusal.
    pub(crate) refused: bool,
}

impl Interpreter {
    /// An interpreter that has read nothing, over a machine that has the base theory alone.
    ///
    /// # Errors
    ///
    /// `NoMemory`.
    pub(crate) fn new(alloc: Global) -> Result<Interpreter, NoMemory>
        ensures { IfOk result (λ interpreter. IsFresh interpreter.machine interpreter.line.items interpreter.refused) }
    {
        Ok(Interpreter {
            machine: Machine::new(alloc)?,
            line: Vec::new(alloc),
            refused: false,
        })
    }

    /// Answers the line in hand. Its reply is told whole, or after a `TellFault` in part.
    fn respond<O: Outside>(&mut self, alloc: Global, out: &mut O) -> Result<(), Stop>
        ensures store { OnOk result (self.new.machine ≡ (answer self.old.machine self.old.line.items).entries) }
        ensures refused { OnOk result (self.new.refused ≡ (self.old.refused || refuses (answer self.old.machine self.old.line.items).reply)) }
        ensures told { OnOk result ((O.observed out.new).told ≡ append_known (O.observed out.old).told (told_for (answer self.old.machine self.old.line.items).reply)) }
        ensures front { OnErr result ((n : ℕ) × ((O.observed out.new).told ≡ append_known (O.observed out.old).told (take n (told_for (answer self.old.machine self.old.line.items).reply)))) }
        ensures rest { KeepsButTold (O.observed out.old) (O.observed out.new) }
        ensures later { (O.observed out.old).tell_faults ≤ (O.observed out.new).tell_faults }
        ensures cause { IsErrOf result Stop.TellFault → Rose (O.observed out.old).tell_faults (O.observed out.new).tell_faults }
    {
        let Some(reply) = answer_line(alloc, &mut self.machine, &self.line)? else {
            return Ok(());
        };
        self.refused = self.refused || is_refusal(&reply);
        let text = reply_text(alloc, reply)?;
        tell_all(out, text.items())?;
        Ok(())
    }

    /// Answers the line that this byte ends, or keeps the byte.
    fn feed_byte<O: Outside>(&mut self, alloc: Global, out: &mut O, byte: u8) -> Result<(), Stop>
        ensures served { OnOk result ((start : Option (List ℕ)) (bytes : List ℕ)
            → Served start bytes self.old.machine self.old.line.items self.old.refused (O.observed out.old).told
            → Served start (bytes ++ byte ∷ []) self.new.machine self.new.line.items self.new.refused (O.observed out.new).told) }
        ensures front { OnErr result ((start : Option (List ℕ)) (bytes : List ℕ)
            → Served start bytes self.old.machine self.old.line.items self.old.refused (O.observed out.old).told
            → TellsFront start (whole_lines (bytes ++ byte ∷ [])) (O.observed out.new).told) }
        ensures rest { KeepsButTold (O.observed out.old) (O.observed out.new) }
        ensures later { (O.observed out.old).tell_faults ≤ (O.observed out.new).tell_faults }
        ensures cause { IsErrOf result Stop.TellFault → Rose (O.observed out.old).tell_faults (O.observed out.new).tell_faults }
    {
        if byte == b'\n' {
            self.respond(alloc, out)?;
            self.line.clear();
            return Ok(());
        }
        if self.line.len() <= LONGEST_LINE {
            self.line.push(byte)?;
        }
        Ok(())
    }

    /// Answers the lines that end in these bytes, and keeps what is left.
    pub(crate) fn feed<O: Outside>(
        &mut self,
        alloc: Global,
        out: &mut O,
        bytes: &[u8],
    ) -> Result<(), Stop>
        ensures served { OnOk result ((start : Option (List ℕ)) (first : List ℕ)
            → Served start first self.old.machine self.old.line.items self.old.refused (O.observed out.old).told
            → Served start (first ++ bytes.now) self.new.machine self.new.line.items self.new.refused (O.observed out.new).told) }
        ensures front { OnErr result ((start : Option (List ℕ)) (first : List ℕ)
            → Served start first self.old.machine self.old.line.items self.old.refused (O.observed out.old).told
            → TellsFront start (whole_lines (first ++ bytes.now)) (O.observed out.new).told) }
        ensures rest { KeepsButTold (O.observed out.old) (O.observed out.new) }
        ensures later { (O.observed out.old).tell_faults ≤ (O.observed out.new).tell_faults }
        ensures cause { IsErrOf result Stop.TellFault → Rose (O.observed out.old).tell_faults (O.observed out.new).tell_faults }
    {
        for byte in bytes {
            self.feed_byte(alloc, out, *byte)?;
        }
        Ok(())
    }

    /// Answers the last line where no line feed ended it.
    pub(crate) fn finish<O: Outside>(&mut self, alloc: Global, out: &mut O) -> Result<(), Stop>
        ensures told { OnOk result ((start : Option (List ℕ)) (bytes : List ℕ)
            → Served start bytes self.old.machine self.old.line.items self.old.refused (O.observed out.old).told
            → (O.observed out.new).told ≡ append_known start (told_bytes (replies initial (lines bytes)))) }
        ensures refused { OnOk result ((start : Option (List ℕ)) (bytes : List ℕ)
            → Served start bytes self.old.machine self.old.line.items self.old.refused (O.observed out.old).told
            → self.new.refused ≡ some_refused (replies initial (lines bytes))) }
        ensures front { OnErr result ((start : Option (List ℕ)) (bytes : List ℕ)
            → Served start bytes self.old.machine self.old.line.items self.old.refused (O.observed out.old).told
            → TellsFront start (lines bytes) (O.observed out.new).told) }
        ensures rest { KeepsButTold (O.observed out.old) (O.observed out.new) }
        ensures later { (O.observed out.old).tell_faults ≤ (O.observed out.new).tell_faults }
        ensures cause { IsErrOf result Stop.TellFault → Rose (O.observed out.old).tell_faults (O.observed out.new).tell_faults }
    {
        if self.line.is_empty() {
            return Ok(());
        }
        self.respond(alloc, out)
    }
}

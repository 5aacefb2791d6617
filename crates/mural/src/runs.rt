ghost use Rattle.std.specs.Prelude.{◌≡◌, ◌≢◌, ◌<◌, ◌↔◌, [], ℕ, List, Some, length};
ghost use Rattle.mu_outside.specs.Outsides.{Rose};
ghost use Rattle.mural.specs.Runs.{Ended, HasRisen, IsComplete, of_stop, of_refused};
ghost use Rattle.mural.specs.Laws.{Laws};
ghost use Rattle.mural.specs.Interpreter.{IsFresh};

use crate::interpreter::{Interpreter, Stop};
use crate::status::Status;
use mu_outside::{Failed, Outside};
use mu_tree::NoMemory;
use std::alloc::Global;

/// The most bytes of an input that are read.
const MOST_INPUT: u64 = 1 << 28;

/// How many bytes are taken at once, at the most.
const PIECE: usize = 4096;

/// Answers the lines of the input, one after another, with an interpreter that has read nothing.
fn serve<O: Outside>(alloc: Global, out: &mut O, mut interpreter: Interpreter) -> Status
    requires { IsFresh interpreter.machine interpreter.line.items interpreter.refused }
    ensures ended { (input : List ℕ) → (O.observed out.old).left ≡ Some input → Ended input (O.observed out.old).told (O.observed out.new) result }
    ensures risen { HasRisen (O.observed out.old) (O.observed out.new) result }
    ensures served { result ≢ Status.Usage }
{
    let mut piece = [0u8; PIECE];
    let mut count = 0u64;
    loop {
        let taken = match out.take(&mut piece) {
            Ok(taken) => taken,
            Err(Failed) => return Status::ReadFault,
        };
        if taken == 0 {
            break;
        }
        let due = taken.min((MOST_INPUT - count) as usize);
        match interpreter.feed(alloc, out, &piece[..due]) {
            Ok(()) => {}
            Err(stop) => return status_of(stop),
        }
        if due < taken {
            return Status::InputTooLong;
        }
        count += due as u64;
    }
    match interpreter.finish(alloc, out) {
        Ok(()) => done(interpreter.refused),
        Err(stop) => status_of(stop),
    }
}

fn status_of(stop: Stop) -> Status
    ensures { result ≡ of_stop stop }
{
    match stop {
        Stop::TellFault => Status::TellFault,
        Stop::NoMemory => Status::NoMemory,
    }
}

fn done(refused: bool) -> Status
    ensures { result ≡ of_refused refused }
{
    if refused {
        Status::SomeRefused
    } else {
        Status::AllAccepted
    }
}

/// Answers the commands of the input, one a line, from an empty store on. It takes no words.
///
/// Every line but a blank one and a comment has a reply. A line that no line feed ends is answered at the input's end.
/// After a fault, want of memory and an input that is too long nothing more is told.
pub fn run<O: Outside>(alloc: Global, words: &[String], out: &mut O) -> Status
    ensures usage { (result ≡ Status.Usage) ↔ (0 < length words.now) }
    ensures untouched { result ≡ Status.Usage → O.observed out.new ≡ O.observed out.old }

    // What is told, by how the run ended.
    ensures ended { (input : List ℕ) → (O.observed out.old).left ≡ Some input → Ended input (O.observed out.old).told (O.observed out.new) result }
    ensures risen { HasRisen (O.observed out.old) (O.observed out.new) result }

    // Where no call fails, the run ends as its input asks.
    ensures complete { length words.now ≡ 0 → (input : List ℕ) → (O.observed out.old).left ≡ Some input
        → (Rose (O.observed out.old).read_faults (O.observed out.new).read_faults → ⊥)
        → (Rose (O.observed out.old).tell_faults (O.observed out.new).tell_faults → ⊥)
        → IsComplete input result }

    // Lines are read, and status words told, as the laws say.
    ensures laws { Laws }
{
    if !words.is_empty() {
        return Status::Usage;
    }
    match Interpreter::new(alloc) {
        Ok(interpreter) => serve(alloc, out, interpreter),
        Err(NoMemory) => Status::NoMemory,
    }
}

#[cfg(test)]
mod tests;

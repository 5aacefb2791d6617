ghost use Rattle.std.specs.Prelude.{◌≡◌, ◌↔◌, ◌≤◌, IsSome};

use thiserror::Error;

/// How a run ended.
#[derive(Clone, Copy, Debug, PartialEq, Eq)]
pub enum Status {
    /// The input was read to its end, and no reply is a refusal.
    AllAccepted,
    /// The input was read to its end, and some reply is a refusal.
    SomeRefused,
    /// The words of the call are none that the program takes.
    Usage,
    /// The input could not be read.
    ReadFault,
    /// The output could not be written.
    TellFault,
    /// Memory ran out.
    NoMemory,
    /// The input has more than 2^28 bytes.
    InputTooLong,
}

/// Why a run gave up, in words for a person.
#[derive(Debug, Drop, Error)]
pub enum RunFault {
    #[error("usage: mural < COMMANDS")]
    Usage,
    #[error("the input could not be read")]
    Read,
    #[error("the output could not be written")]
    Tell,
    #[error("out of memory")]
    NoMemory,
    #[error("the input has more than 268435456 bytes")]
    InputTooLong,
}

impl Status {
    ghost use Rattle.mural.specs.Status.{code_of};

    /// The exit status of the program.
    pub fn code(self) -> u8
        ensures { result ≡ code_of self }
    {
        match self {
            Status::AllAccepted => 0,
            Status::SomeRefused => 1,
            Status::Usage => 2,
            Status::ReadFault => 3,
            Status::TellFault => 4,
            Status::NoMemory => 6,
            Status::InputTooLong => 9,
        }
    }

    /// What is said of it on standard error: nothing where the input was read to its end.
    pub fn fault(self) -> Option<RunFault>
        ensures { IsSome result ↔ (2 ≤ code_of self) }
    {
        match self {
            Status::AllAccepted | Status::SomeRefused => None,
            Status::Usage => Some(RunFault::Usage),
            Status::ReadFault => Some(RunFault::Read),
            Status::TellFault => Some(RunFault::Tell),
            Status::NoMemory => Some(RunFault::NoMemory),
            Status::InputTooLong => Some(RunFault::InputTooLong),
        }
    }
}

#[cfg(test)]
mod tests {
    use super::*;
    use std::test::Fail;

    #[test]
    fn says_why_a_run_gave_up(rt: HostRuntime) -> Result<(), Fail> {
        let mut said = String::new(rt.alloc());
        for status in [
            Status::AllAccepted,
            Status::SomeRefused,
            Status::Usage,
            Status::ReadFault,
            Status::TellFault,
            Status::NoMemory,
            Status::InputTooLong,
        ] {
            if let Some(fault) = status.fault() {
                writeln!(said, "{fault}")?;
            }
        }
        assert!(rt; said.as_str() == SAID);
        Ok(())
    }

    const SAID: &str = "\
usage: mural < COMMANDS
the input could not be read
the output could not be written
out of memory
the input has more than 268435456 bytes
";
}

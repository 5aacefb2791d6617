//! The program `mural`: reads commands from standard input, a line each, and prints a reply to each.
#![tactic(auto)]

mod answers;
mod interpreter;
mod runs;
mod status;
mod telling;
mod wording;

use mu_host::Host;
use runs::run;
use status::Status;
use std::fs::File;
use std::io::ErrorKind;
use std::process::ExitCode;
use std::rt::{Env, Files};
use std::{env, io};

fn main(rt: HostRuntime) -> ExitCode {
    let status = start(&rt);
    if let Some(fault) = status.fault() {
        let _ = eprintln!(rt; "mural: {fault}");
    }
    ExitCode::from(status.code())
}

/// Runs over standard input and standard output, with the words that the program was given.
fn start<R: Env + AllocGlobal + Files<File = File> + Input + Print>(rt: &R) -> Status {
    match words(rt) {
        Ok(words) => run(rt.alloc(), words.as_slice(), &mut Host::new(rt)),
        Err(error) if error.kind() == ErrorKind::OutOfMemory => Status::NoMemory,
        Err(_) => Status::Usage,
    }
}

/// The words behind the program's name. One that is no text is an error.
fn words<R: Env + AllocGlobal>(rt: &R) -> io::Result<Vec<String>> {
    let mut words = Vec::new(rt.alloc());
    for word in env::args(rt)?.skip(1) {
        words.push(word)?;
    }
    Ok(words)
}

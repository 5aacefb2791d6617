//! Standard input and standard output of the running process, and the file of its journal.
#![tactic(auto)]

mod files;
mod hosts;
#[cfg(test)]
mod tests;

pub use hosts::Host;

/// How often a call is made that a signal interrupts each time.
const MOST_TRIES: usize = 100;

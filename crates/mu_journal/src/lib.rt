//! The journal: a file of records that a crash at any moment leaves whole.
#![tactic(auto)]

mod cleaning;
mod fault;
mod frame;
mod gate;
mod journal;
mod opening;
mod reading;
mod records;

pub use fault::StartFault;
pub use frame::Frame;
pub use journal::Journal;
pub use records::Records;

#[cfg(test)]
mod tests;

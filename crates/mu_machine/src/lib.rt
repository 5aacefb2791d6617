//! The machine under the program: each command carried out on a store that is valid at every moment, and what queries
//! tell of it.
#![tactic(auto)]

mod machines;
mod pages;
mod plans;
mod queries;
mod replies;
mod tallies;
mod units;

pub use machines::Machine;
pub use replies::Reply;
pub use tallies::Tally;

//! Standard input, standard output and the journal's disk behind one trait, and a device in memory that implements it.
#![tactic(auto)]

mod calls;
mod counts;
mod desks;
mod drives;
mod faults;
mod images;
mod logs;
mod outsides;
mod replays;

pub use desks::Desk;
pub use faults::Faults;
pub use outsides::{Failed, Outside};

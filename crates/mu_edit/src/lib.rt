//! Commands carried out on a store: when each is refused, and what it changes.
#![tactic(auto)]

mod changes;
mod declaring;
mod distinct;
mod dropping;
mod permits;
mod proving;
mod refusals;
mod refusing;
mod repeats;

pub use changes::apply;
pub use refusals::refusal;

//! Derivations in a store, and the status of a rule.
#![tactic(auto)]

mod books;
mod sights;
mod statuses;

pub use statuses::{RuleStatus, status, statuses_of};

//! Derivations and directed graphs: what is derivable, what is reachable, and what closes circles.
#![tactic(auto)]

mod circles;
mod derivations;
mod key_sets;
mod names;
mod told;
mod walks;

pub use circles::{are_apart, between};
pub use derivations::{Inferences, reached};
pub use key_sets::KeySet;
pub use told::{ToldSet, first_closed};
pub use walks::{Edges, reachable};

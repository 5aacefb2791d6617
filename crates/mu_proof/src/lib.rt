//! A proof as data: its items in order, the edits of it, and what it cites.
#![tactic(auto)]

mod alteration;
mod citations;
mod edits;
mod fault;
mod items;
mod places;
mod proofs;
mod walks;

pub use alteration::Alteration;
pub use citations::{Citations, Cited, cites};
pub use fault::ProofFault;
pub use items::{Item, ItemList};
pub use proofs::Proof;

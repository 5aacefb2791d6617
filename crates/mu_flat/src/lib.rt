//! The store: theories, constants, definitions, rules and proofs by name, as a context for checks, with the tests for circles.
#![tactic(auto)]

mod circles;
mod cited_sets;
mod citer_tables;
mod edits;
mod proof_edits;
mod proof_tables;
mod stores;

pub use cited_sets::CitedSet;
pub use edits::EditFault;
pub use proof_edits::ProofEdit;
pub use proof_tables::ProofTable;
pub use stores::Store;

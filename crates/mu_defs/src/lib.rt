//! Units and constants: what is seen from a unit, what a definition leads to, and what stands in a unit.
#![tactic(auto)]

mod base;
mod definition_table;
mod fault;
mod indexes;
mod owned;
mod owned_table;
mod sight;
mod units;
mod uses;

pub use base::{base_table, constant_at, is_base, is_base_constant};
pub use definition_table::DefinitionTable;
pub use fault::CircleFault;
pub use indexes::Index;
pub use owned::{Owned, axioms_within, constants_within, is_unused, names_within};
pub use owned_table::OwnedTable;
pub use sight::{parents_from, seen_from};
pub use units::UnitTable;
pub use uses::used_by;

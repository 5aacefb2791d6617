//! The language as definitions: tokens, the ways to write a tree, the languages of the parts of a line, and the small types that readers and printers of it share.
#![tactic(auto)]

mod declared;
mod excess;
mod fault;
mod ops;
mod symbol;
mod token;
mod way;

pub use declared::DeclaredConstant;
pub use excess::{Excess, MOST_DEPTH, MOST_NODES};
pub use fault::{PartFault, TextFault};
pub use ops::{ATOM_LEVEL, Op, PREFIX_LEVEL, constant, is_negation};
pub use symbol::{Mark, Sort, Word};
pub use token::{Token, TokenSort, text};
pub use way::{Beginning, Ending, Opening};

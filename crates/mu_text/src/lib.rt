//! The tokens of a line, with their sorts and their places, and the parts and trees that they spell.
#![tactic(auto)]

mod build;
mod descent;
mod operand;
pub mod parts;
mod reader;
mod texts;
mod tokens;

pub use reader::Reader;
pub use texts::{are_short, column, read_box, read_claim, read_head, read_tree, read_why};
pub use tokens::{Tokens, is_blank};

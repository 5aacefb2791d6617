//! Names, lists, finite maps by name and expressions: the plain data that all other crates speak of.
#![tactic(auto)]

mod bytes;
mod claim;
mod duplicate;
mod head;
mod memory;
mod names;
mod refusal;
mod sequence;
mod table;
mod trees;
mod why;

pub use bytes::{is_letter, is_name_byte};
pub use claim::{Claim, Definition, Hyp, Hyps, Kind, Kinds, Shape, TypedVar, TypedVars};
pub use duplicate::Duplicate;
pub use head::OpHead;
pub use memory::NoMemory;
pub use names::{Name, NameFault, Names, is_short};
pub use refusal::{CountWord, LimitWord, Refusal};
pub use sequence::{Bytes, Numbers, Sequence};
pub use table::{NameSet, Table};
pub use trees::{Tree, Trees};
pub use why::{Given, Inst, Ref, Refs, Why};

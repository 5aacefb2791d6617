//! The words of the language: those of its forms, of its refusals and of its operators, each found by its text and by
//! its number; and the count of the work that a check does.
#![tactic(auto)]

mod ops;
mod tables;
mod words;
mod work;

pub use ops::{Op, Ops, Side};
pub use tables::{forms, operators, refusals};
pub use words::{Row, Words};
pub use work::Work;

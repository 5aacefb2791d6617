//! Commands: what a line of the input may ask for, and how it is written and read.
#![tactic(auto)]

mod canonical;
mod command;
mod fields;
mod forms;
mod grammar;
mod lines;
mod making;
mod parts;
mod printing;
mod rows;

pub use canonical::print;
pub use command::Command;
pub use lines::{LONGEST_LINE, LineFault, read_line};

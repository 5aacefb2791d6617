//! The check of a proof: its verdict, with the cause where it doesn't hold.
//!
//! A line may refer to what stands before it in its own block or in an enclosing one, to the assumptions of the
//! blocks around it, and to the hypotheses of the rule that is proved. What a reference gives is a `Fact`: a nameless
//! tree or a sequent of nameless trees, entered once, where it stands. The `Environment` of an item has all facts
//! that it may cite, so what is not found there is not accessible.
#![tactic(auto)]

mod allowed;
mod blocks;
mod cause;
mod definitions;
mod environments;
mod fact;
mod facts;
mod hypotheses;
mod instances;
mod justifications;
mod labels;
mod lines;
mod metas;
mod verdicts;

pub use cause::{Cause, Fault, Verdict};
pub use verdicts::{Checker, Goal, check_proof};

//! Canonical text: what a tree, a claim, what a line holds by, what a box begins with or a head is printed as.
#![tactic(auto)]

mod canonical;
mod claims;
mod declarations;
mod heads;
mod pieces;
mod prints;
mod reasons;

pub use canonical::{mark_text, tree};
pub use claims::{block, claim};
pub use declarations::{declaration, formals};
pub use heads::head;
pub use prints::{print_box, print_claim, print_head, print_tree, print_why};
pub use reasons::reason;

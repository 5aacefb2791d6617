//! What is declared, nameless trees, and which trees and claims are well formed.
//!
//! `Context` is what a check may look up: constants, definitions, rules, morphisms and the units that are seen from
//! one another. A nameless tree is an expression in the locally nameless representation: its bound variables are de
//! Bruijn indices and its free variables keep their names, so that nameless trees are equal exactly where expressions
//! differ in the names of bound variables alone. Well-formedness looks at kinds and at the units that are seen, and needs no nameless trees.
#![tactic(auto)]

mod abstractions;
mod arities;
mod bare;
mod binders;
mod claims;
mod comparing;
mod contexts;
mod declaration;
mod formation;
mod growing;
mod instantiating;
mod nameless;
mod occurring;
mod opening;
mod pairing;
mod scopes;
mod translating;
mod unfolding;

pub use abstractions::Abstractions;
pub use arities::{occurrences_agree, same_occurrence};
pub use bare::{Bare, Bares, same, same_all};
pub use binders::Binders;
pub use claims::{add_type_occurrences, claim_occurrences, types_formed, well_formed};
pub use comparing::{are_instances_of, is_instance_of};
pub use contexts::{Context, Own};
pub use declaration::{ConstDecl, MorphMap, NameMap, Statement};
pub use formation::{Around, Scope, Scoped, all_formed, is_formed, is_formed_within};
pub use instantiating::{Abstraction, instantiate, instantiate_all};
pub use nameless::enter;
pub use occurring::{Occurrence, Occurrences, all_occurrences, occurrences};
pub use opening::opened;
pub use scopes::Variables;
pub use translating::translate;
pub use unfolding::{DeltaRule, delta_of, unfolded};

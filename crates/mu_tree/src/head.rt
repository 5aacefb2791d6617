use crate::claim::{TypedVar, TypedVars};
use crate::names::Name;

/// What an operation or an implicit function is declared with, besides its name.
#[derive(Debug, Drop)]
pub struct OpHead {
    /// The inputs. Each type is in the scope of the inputs before it.
    pub inputs: TypedVars,
    /// The names of the old and of the new state; none of a function.
    pub states: Option<(Name, Name)>,
    /// The result; a function has one.
    pub result: Option<TypedVar>,
}

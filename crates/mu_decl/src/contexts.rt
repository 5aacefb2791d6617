ghost use Rattle.std.specs.Prelude.{◌≡◌, ℕ, List, IfOk};
ghost use Rattle.std.specs.Option.{option_copied};
ghost use Rattle.std.specs.FinMap as map;
ghost use Rattle.mu_decl.specs.Contexts.{World, IsLawful, parents_of, own_constants, own_axioms};

use crate::declaration::{ConstDecl, MorphMap, Statement};
use mu_tree::{Definition, Name, Names, NoMemory};
use std::alloc::Global;

/// What a unit itself declares, without what it sees.
#[derive(Debug, Drop)]
pub struct Own {
    /// Its constants, in byte order.
    pub constants: Names,
    /// Its axioms, in byte order.
    pub axioms: Names,
}

/// What a check may look up. One record of finite maps, the world of the context, answers for every call, so that two
/// contexts of equal worlds cannot be told apart.
pub trait Context {
    ghost world: { Self → World };

    ghost exact: { (context : Self) (unit : List ℕ) → IsLawful (world context) unit };

    /// The constant of a name, none exactly where there is no such constant.
    fn constant(&self, name: &Name) -> Option<&ConstDecl>
        ensures { option_copied result ≡ map.get (world self.now).constants name.now };

    /// The definition of a constant, none exactly where it has none.
    fn definition(&self, name: &Name) -> Option<&Definition>
        ensures { option_copied result ≡ map.get (world self.now).definitions name.now };

    /// The rule of a name, axioms included, none exactly where there is no such rule.
    fn rule(&self, name: &Name) -> Option<&Statement>
        ensures { option_copied result ≡ map.get (world self.now).rules name.now };

    /// The morphism of a name, none exactly where there is no such morphism.
    fn morphism(&self, name: &Name) -> Option<&MorphMap>
        ensures { option_copied result ≡ map.get (world self.now).morphisms name.now };

    /// Whether there is a theory of this name.
    fn has_theory(&self, unit: &Name) -> bool
        ensures { result ≡ map.contains_key (world self.now).parents unit.now };

    /// The parents of a theory, in byte order, and none of a name that is no theory.
    ///
    /// # Errors
    ///
    /// `NoMemory` may come at any name.
    fn parents(&self, alloc: Global, unit: &Name) -> Result<Names, NoMemory>
        ensures { IfOk result (λ names. names ≡ parents_of (world self.now) unit.now) };

    /// The units that are seen from one, in byte order: itself, `base`, and all that are reached from it by parents.
    ///
    /// # Errors
    ///
    /// `NoMemory` may come at any name.
    fn seen(&self, alloc: Global, unit: &Name) -> Result<Names, NoMemory>
        ensures { IfOk result (λ names. names ≡ (world self.now).seen unit.now) };

    /// What a unit itself declares.
    ///
    /// # Errors
    ///
    /// `NoMemory` may come at any name.
    fn own(&self, alloc: Global, unit: &Name) -> Result<Own, NoMemory>
        ensures constants { IfOk result (λ own. own.constants ≡ own_constants (world self.now) unit.now) }
        ensures axioms { IfOk result (λ own. own.axioms ≡ own_axioms (world self.now) unit.now) };
}

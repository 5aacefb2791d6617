ghost use Rattle.std.specs.Prelude.{◌≡◌, ℕ, List, None, Some, IfOk, IfErr, OnOk, OnErr};
ghost use Rattle.std.specs.Option.{option_copied};
ghost use Rattle.std.specs.FinMap as finite;
ghost use Rattle.mu_graph.specs.Circles.{IsAcyclic};
ghost use Rattle.mu_graph.specs.Names.{led_by, linked, leads_linked};
ghost use Rattle.mu_defs.specs.Uses.{used_by};

use crate::fault::CircleFault;
use crate::indexes::Index;
use crate::uses::used_by;
use mu_graph::{Edges, first_closed};
use mu_tree::{Definition, Name, NameSet, NoMemory, Table};
use std::alloc::Global;
use std::marker::Model;

/// Definitions by the name of their constant, where a name leads to the constants that its definition uses, declared or
/// not. Contracts see each name with its definition, and at every moment no constant leads back to itself.
#[derive(Drop)]
pub struct DefinitionTable {
    by_name: Table<Definition>,
    /// The constants whose definitions use a constant, and perhaps some that used it before.
    users: Index,
}

impl Model for DefinitionTable {
    ghost use Rattle.std.specs.FinMap as map;
    ghost use Rattle.std.specs.Coded.{coded_list, coded_ℕ};
    ghost use Rattle.mu_tree.specs.Maps.{MapOf};
    ghost use Rattle.mu_tree.specs.contracts.claim.Definition as definition;
    ghost use Rattle.mu_tree.specs.declared.claim.Definition.{Definition};

    ghost Value = { MapOf Definition };

    ghost coded = { map.code (coded_list coded_ℕ) definition.the_row.coded };

    ghost use Rattle.mu_defs.specs.DefinitionTables.{IsKept};

    ghost view = { λ table. table.by_name };

    ghost invariant = { IsKept };
}

impl DefinitionTable {
    ghost use Rattle.mu_defs.specs.DefinitionTables.{first_constant, DefinitionCirclesAreExact};

    /// No definitions, which take no memory yet.
    pub fn new(alloc: Global) -> DefinitionTable
        ensures { result ≡ finite.empty }
    {
        DefinitionTable {
            by_name: Table::new(alloc),
            users: Index::new(alloc),
        }
    }

    /// The definition of a name, none exactly where it has none.
    pub fn get(&self, name: &Name) -> Option<&Definition>
        ensures { option_copied result ≡ finite.get self.now name.now }
    {
        self.by_name.get(name)
    }

    /// Whether a name has a definition.
    pub fn has(&self, name: &Name) -> bool
        ensures value { result ≡ finite.contains_key self.now name.now }
        ensures acyclic { IsAcyclic (led_by used_by self.now) }
    {
        self.by_name.has(name)
    }

    /// Tells whether no constant leads back to itself where a name gets a definition. It looks only at what the definition
    /// leads to, and at little where little leads to the name.
    ///
    /// # Errors
    ///
    /// `Circle` where some constant would. `NoMemory` may come at any call.
    #[tactic(auto, using(crate::proofs::DefinitionLemmas::definition_circles_are_exact))]
    pub fn permit(
        &self,
        alloc: Global,
        name: &Name,
        definition: &Definition,
    ) -> Result<(), CircleFault>
        ensures ok { OnOk result (first_constant (finite.insert self.now name.now definition.now) ≡ None) }
        ensures circle { IfErr result (λ fault. (first : List ℕ) → fault ≡ CircleFault.Circle first → first_constant (finite.insert self.now name.now definition.now) ≡ Some first) }
        ensures law { DefinitionCirclesAreExact }
    {
        match self.first_with(alloc, name, definition)? {
            Some(first) => Err(CircleFault::Circle(first)),
            None => Ok(()),
        }
    }

    /// The first constant in byte order that would lead back to itself where a name got a definition.
    fn first_with(
        &self,
        alloc: Global,
        name: &Name,
        definition: &Definition,
    ) -> Result<Option<Name>, NoMemory>
        ensures { IfOk result (λ first. first ≡ first_constant (finite.insert self.now name.now definition.now)) }
    {
        let starts = used_by(alloc, definition)?;
        let first = first_closed(alloc, self, &self.users, starts, name)?;
        Ok(first)
    }

    /// Sets the definition of a name.
    ///
    /// # Errors
    ///
    /// `NoMemory` leaves the definitions as they were.
    pub fn put(&mut self, alloc: Global, name: Name, definition: Definition) -> Result<(), NoMemory>
        requires { first_constant (finite.insert self.old name definition) ≡ None }
        ensures ok { OnOk result (self.new ≡ finite.insert self.old name definition) }
        ensures err { OnErr result (self.new ≡ self.old) }
    {
        let used = used_by(alloc, &definition)?;
        self.users.add_all(alloc, used.as_slice(), &name)?;
        self.by_name.put(name, definition)
    }

    /// Takes the definition of a name out, and says whether it had one. It takes no memory.
    pub fn take(&mut self, name: &Name) -> bool
        ensures found { result ≡ finite.contains_key self.old name.now }
        ensures taken { self.new ≡ finite.remove self.old name.now }
    {
        self.by_name.take(name).is_some()
    }
}

/// A name leads to the constants that its definition uses.
impl Edges for DefinitionTable {
    type Set = NameSet;

    ghost leads = { led_by used_by };

    ghost universe = { linked used_by };

    ghost within = { leads_linked used_by };

    fn leads(&self, alloc: Global, key: &Name) -> Result<Vec<Name>, NoMemory> {
        match self.get(key) {
            Some(definition) => used_by(alloc, definition),
            None => Ok(Vec::new(alloc)),
        }
    }
}

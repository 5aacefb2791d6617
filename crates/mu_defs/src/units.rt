ghost use Rattle.std.specs.Prelude.{◌≡◌, ℕ, List, true, false, None, Some, IfOk, IfErr, OnOk, OnErr};
ghost use Rattle.std.specs.FinMap as finite;
ghost use Rattle.mu_graph.specs.Circles.{IsAcyclic};
ghost use Rattle.mu_graph.specs.Names.{members, led_by};
ghost use Rattle.mu_defs.specs.Sight.{SightIsLawful, seen_from};

use crate::fault::CircleFault;
use crate::indexes::Index;
use crate::sight::{parents_from, seen_from};
use mu_graph::first_closed;
use mu_tree::{Name, NameSet, Names, NoMemory, Table};
use std::alloc::Global;
use std::marker::Model;

/// Units with their parents, some of which may be no units. Contracts see each unit with the set of its parents, and at
/// every moment no unit leads back to itself by them.
#[derive(Drop)]
pub struct UnitTable {
    parents: Table<NameSet>,
    /// The units that have a parent, and perhaps some that had it before.
    children: Index,
}

impl Model for UnitTable {
    ghost use Rattle.std.specs.FinMap as map;
    ghost use Rattle.std.specs.FinSet as set;
    ghost use Rattle.std.specs.Coded.{coded_list, coded_ℕ};
    ghost use Rattle.mu_tree.specs.Maps.{MapOf, NamesOf};

    ghost Value = { MapOf NamesOf };

    ghost coded = { map.code (coded_list coded_ℕ) (set.code (coded_list coded_ℕ)) };

    ghost use Rattle.mu_defs.specs.Units.{IsKept};

    ghost view = { λ table. table.parents };

    ghost invariant = { IsKept };
}

impl UnitTable {
    ghost use Rattle.mu_defs.specs.Units.{is_parent, with_parent, without_parent, first_unit, UnitCirclesAreExact};

    /// No units, which take no memory yet.
    pub fn new(alloc: Global) -> UnitTable
        ensures { result ≡ finite.empty }
    {
        UnitTable {
            parents: Table::new(alloc),
            children: Index::new(alloc),
        }
    }

    /// Whether there is a unit of this name.
    pub fn has(&self, name: &Name) -> bool
        ensures value { result ≡ finite.contains_key self.now name.now }
        ensures acyclic { IsAcyclic (led_by members self.now) }
    {
        self.parents.has(name)
    }

    /// The number of units.
    pub fn count(&self) -> usize
        ensures value { result ≡ finite.len self.now }
        ensures acyclic { IsAcyclic (led_by members self.now) }
    {
        self.parents.len()
    }

    /// Whether a unit has a parent.
    pub fn has_parent(&self, unit: &Name, parent: &Name) -> bool
        ensures { result ≡ is_parent self.now unit.now parent.now }
    {
        match self.parents.get(unit) {
            Some(parents) => parents.has(parent),
            None => false,
        }
    }

    /// The parents of a unit in byte order, and none of a name that is no unit.
    ///
    /// # Errors
    ///
    /// `NoMemory`.
    pub fn parents(&self, alloc: Global, unit: &Name) -> Result<Names, NoMemory>
        ensures { IfOk result (λ names. names ≡ led_by members self.now unit.now) }
    {
        parents_from(alloc, &self.parents, unit)
    }

    /// The names that are seen from a unit, in byte order: `base`, the unit itself, and all that it leads to by parents.
    ///
    /// It looks only at the units that are reached.
    ///
    /// # Errors
    ///
    /// `NoMemory`.
    pub fn seen(&self, alloc: Global, unit: &Name) -> Result<Names, NoMemory>
        ensures value { IfOk result (λ names. names ≡ seen_from self.now unit.now) }
        ensures law { SightIsLawful }
    {
        seen_from(alloc, &self.parents, unit)
    }

    /// The names of the units, in byte order.
    ///
    /// # Errors
    ///
    /// `NoMemory`.
    pub fn names(&self, alloc: Global) -> Result<Names, NoMemory>
        ensures { IfOk result (λ names. names ≡ finite.keys self.now) }
    {
        self.parents.names(alloc)
    }

    /// Adds a unit without parents.
    ///
    /// # Errors
    ///
    /// `NoMemory` leaves the units as they were.
    pub fn add(&mut self, alloc: Global, name: Name) -> Result<(), NoMemory>
        requires { finite.contains_key self.old name ≡ false }
        ensures ok { OnOk result (self.new ≡ finite.insert self.old name finite.empty) }
        ensures err { OnErr result (self.new ≡ self.old) }
    {
        self.parents.put(name, NameSet::new(alloc))
    }

    /// Takes a unit out, with what its parents are, and says whether it was there. Where it is a parent it stays one.
    pub fn take(&mut self, name: &Name) -> bool
        ensures found { result ≡ finite.contains_key self.old name.now }
        ensures taken { self.new ≡ finite.remove self.old name.now }
    {
        self.parents.take(name).is_some()
    }

    /// Tells whether no unit leads back to itself where a unit gets one more parent. It looks only at what the parent leads
    /// to, and at little where little leads to the unit.
    ///
    /// # Errors
    ///
    /// `Circle` where some unit would. `NoMemory` may come at any call.
    #[tactic(auto, using(crate::proofs::UnitLemmas::unit_circles_are_exact))]
    pub fn permit_parent(
        &self,
        alloc: Global,
        unit: &Name,
        parent: &Name,
    ) -> Result<(), CircleFault>
        requires { finite.contains_key self.now unit.now ≡ true }
        ensures ok { OnOk result (first_unit (with_parent self.now unit.now parent.now) ≡ None) }
        ensures circle { IfErr result (λ fault. (name : List ℕ) → fault ≡ CircleFault.Circle name → first_unit (with_parent self.now unit.now parent.now) ≡ Some name) }
        ensures law { UnitCirclesAreExact }
    {
        match self.first_with(alloc, unit, parent)? {
            Some(name) => Err(CircleFault::Circle(name)),
            None => Ok(()),
        }
    }

    /// The first unit in byte order that would lead back to itself where a unit got one more parent.
    fn first_with(
        &self,
        alloc: Global,
        unit: &Name,
        parent: &Name,
    ) -> Result<Option<Name>, NoMemory>
        ensures { IfOk result (λ first. first ≡ first_unit (with_parent self.now unit.now parent.now)) }
    {
        let mut starts = Vec::new(alloc);
        starts.push(parent.copy(alloc)?)?;
        let first = first_closed(alloc, &self.parents, &self.children, starts, unit)?;
        Ok(first)
    }

    /// Gives a unit one more parent.
    ///
    /// # Errors
    ///
    /// `NoMemory` leaves the units as they were.
    pub fn add_parent(&mut self, alloc: Global, unit: &Name, parent: Name) -> Result<(), NoMemory>
        requires there { finite.contains_key self.old unit.now ≡ true }
        requires free { first_unit (with_parent self.old unit.now parent) ≡ None }
        ensures ok { OnOk result (self.new ≡ with_parent self.old unit.now parent) }
        ensures err { OnErr result (self.new ≡ self.old) }
    {
        self.children
            .add(alloc, parent.copy(alloc)?, unit.copy(alloc)?)?;
        match self.parents.get_mut(unit) {
            Some(parents) => parents.add(parent),
            None => unreachable!(),
        }
    }

    /// Takes one of its parents from a unit, where it has this parent. It takes no memory.
    pub fn take_parent(&mut self, unit: &Name, parent: &Name)
        requires { finite.contains_key self.old unit.now ≡ true }
        ensures { self.new ≡ without_parent self.old unit.now parent.now }
    {
        match self.parents.get_mut(unit) {
            Some(parents) => {
                parents.take(parent);
            }
            None => unreachable!(),
        }
        self.children.take(parent, unit);
    }
}

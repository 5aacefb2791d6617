ghost use Rattle.std.specs.Prelude.{◌≡◌, IfOk};
ghost use Rattle.mu_decl.specs.Contexts.{base};
ghost use Rattle.mu_defs.specs.Sight.{SightIsLawful, parents_listed_in, seen_from, set_of};

use mu_graph::reachable;
use mu_tree::{Name, NameSet, Names, NoMemory, Table};
use std::alloc::Global;

/// The name of the theory that every unit sees.
fn base_name(alloc: Global) -> Result<Name, NoMemory>
    ensures { IfOk result (λ name. name ≡ base) }
{
    Name::read(alloc, b"base").map_err(|_| NoMemory)
}

/// The set of some names.
fn set_of(alloc: Global, names: Vec<Name>) -> Result<NameSet, NoMemory>
    ensures { IfOk result (λ set. set ≡ set_of names.items) }
{
    let mut set = NameSet::new(alloc);
    for name in names {
        set.add(name)?;
    }
    Ok(set)
}

/// The names that are seen from a unit, in byte order: `base`, the unit itself, and all that it leads to by parents.
///
/// It looks only at the units that are reached.
///
/// # Errors
///
/// `NoMemory`.
#[tactic(auto, using(crate::proofs::SightLemmas::sight_is_lawful))]
pub fn seen_from(alloc: Global, units: &Table<NameSet>, unit: &Name) -> Result<Names, NoMemory>
    ensures value { IfOk result (λ names. names ≡ seen_from units.now unit.now) }
    ensures law { SightIsLawful }
{
    let mut starts = Vec::new(alloc);
    starts.push(unit.copy(alloc)?)?;
    let mut found = reachable(alloc, units, starts)?;
    found.push(base_name(alloc)?)?;
    set_of(alloc, found)?.names(alloc)
}

/// The parents of a unit, in byte order, and none of a name that is no unit.
///
/// # Errors
///
/// `NoMemory`.
pub fn parents_from(alloc: Global, units: &Table<NameSet>, unit: &Name) -> Result<Names, NoMemory>
    ensures { IfOk result (λ names. names ≡ parents_listed_in units.now unit.now) }
{
    match units.get(unit) {
        Some(parents) => parents.names(alloc),
        None => Ok(Names::new(alloc)),
    }
}

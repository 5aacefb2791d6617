ghost use Rattle.std.specs.Prelude.{◌≡◌, ◌++◌, ◌∷◌, [], length, IfOk, OnOk, OnErr};
ghost use Rattle.std.specs.Option.{option_copied};
ghost use Rattle.std.specs.FinMap as finite;
ghost use Rattle.mu_decl.specs.Nameless.{place};
ghost use Rattle.mu_decl.specs.Binders.{from_end};

use mu_tree::{Name, Names, NoMemory, Sequence, Table};
use std::alloc::Global;
use std::marker::Model;

/// Names of bound variables, the innermost last, with a table to find the innermost one of a name.
///
/// Contracts see the list of the names.
#[derive(Drop)]
pub struct Binders {
    names: Names,
    places: Table<usize>,
}

impl Model for Binders {
    ghost use Rattle.std.specs.Prelude.{List, ℕ};
    ghost use Rattle.std.specs.Coded.{coded_list, coded_ℕ};
    ghost use Rattle.mu_decl.specs.Binders.{HasPlaces};

    ghost Value = { List (List ℕ) };

    ghost coded = { coded_list (coded_list coded_ℕ) };

    ghost view = { λ binders. binders.names };

    ghost invariant = { λ binders. HasPlaces binders.places binders.names };
}

impl Binders {
    /// No names, which take no memory yet.
    #[tactic(auto, using(crate::proofs::LastPlaces::no_places))]
    pub fn new(alloc: Global) -> Binders
        ensures { result ≡ [] }
    {
        Binders {
            names: Sequence::new(alloc),
            places: Table::new(alloc),
        }
    }

    /// Some names.
    ///
    /// # Errors
    ///
    /// `NoMemory`.
    pub fn of(alloc: Global, names: &[Name]) -> Result<Binders, NoMemory>
        ensures { IfOk result (λ binders. binders ≡ names.now) }
    {
        let mut binders = Binders::new(alloc);
        for name in names {
            binders.push(alloc, name)?;
        }
        Ok(binders)
    }

    /// How many names stand within the innermost one that is this name, none where it is not among them.
    #[tactic(auto, using(crate::proofs::LastPlaces::from_end_of))]
    pub fn place(&self, name: &Name) -> Option<usize>
        ensures { result ≡ place self.now name.now }
    {
        from_end(self.names.items(), self.places.get(name))
    }

    /// Adds a name at the end.
    ///
    /// # Errors
    ///
    /// `NoMemory` leaves the names as they were.
    #[tactic(auto, using(crate::proofs::LastPlaces::places_more))]
    pub fn push(&mut self, alloc: Global, name: &Name) -> Result<(), NoMemory>
        ensures { OnOk result (self.new ≡ self.old ++ name.now ∷ []) }
    {
        add(alloc, name, &mut self.names, &mut self.places)
    }
}

/// Counts from the end what is counted from the beginning.
fn from_end(names: &[Name], place: Option<&usize>) -> Option<usize>
    ensures { result ≡ from_end names.now (option_copied place.entry) }
{
    match place {
        Some(place) => Some(names.len().saturating_sub(1).saturating_sub(*place)),
        None => None,
    }
}

/// Adds a name at the end, and its place to the table.
fn add(
    alloc: Global,
    name: &Name,
    names: &mut Names,
    places: &mut Table<usize>,
) -> Result<(), NoMemory>
    ensures names { OnOk result (names.new ≡ names.old ++ name.now ∷ []) }
    ensures places { OnOk result (places.new ≡ finite.insert places.old name.now (length names.old)) }
    ensures names_stay { OnErr result (names.new ≡ names.old) }
    ensures places_stay { OnErr result (places.new ≡ places.old) }
{
    let at = names.len();
    let key = name.copy(alloc)?;
    names.push(name.copy(alloc)?)?;
    if places.put(key, at).is_err() {
        names.truncate(at);
        return Err(NoMemory);
    }
    Ok(())
}

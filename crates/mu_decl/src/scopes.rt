ghost use Rattle.std.specs.Prelude.{◌≡◌, ◌++◌, ◌∷◌, [], length, take, IfOk, OnOk, OnErr};
ghost use Rattle.std.specs.Option.{option_copied, is_some};
ghost use Rattle.mu_tree.specs.Names.{is_among};
ghost use Rattle.mu_decl.specs.Finding.{if_called, placed, with_place};
ghost use Rattle.mu_decl.specs.Scopes.{itself};

use mu_tree::{Name, Names, NoMemory, Sequence, Table};
use std::alloc::Global;
use std::marker::Model;

/// Names of variables, in order, with a table to tell whether a name is among them.
///
/// Contracts see the list of the names. Where a name was taken off the end, its place stays in the table; whether it
/// still stands there is looked at when it is asked for.
#[derive(Drop)]
pub struct Variables {
    names: Names,
    places: Table<usize>,
}

impl Model for Variables {
    ghost use Rattle.std.specs.Prelude.{List, ℕ};
    ghost use Rattle.std.specs.Coded.{coded_list, coded_ℕ};
    ghost use Rattle.mu_decl.specs.Finding.{Finds};
    ghost use Rattle.mu_decl.specs.Scopes.{itself};

    ghost Value = { List (List ℕ) };

    ghost coded = { coded_list (coded_list coded_ℕ) };

    ghost view = { λ variables. variables.names };

    ghost invariant = { λ variables. Finds itself variables.places variables.names };
}

impl Variables {
    /// No names, which take no memory yet.
    pub fn new(alloc: Global) -> Variables
        ensures { result ≡ [] }
    {
        Variables {
            names: Sequence::new(alloc),
            places: Table::new(alloc),
        }
    }

    /// Some names.
    ///
    /// # Errors
    ///
    /// `NoMemory`.
    pub fn of(alloc: Global, names: &[Name]) -> Result<Variables, NoMemory>
        ensures { IfOk result (λ variables. variables ≡ names.now) }
    {
        let mut variables = Variables::new(alloc);
        for name in names {
            variables.push(alloc, name.copy(alloc)?)?;
        }
        Ok(variables)
    }

    /// How many names there are.
    pub fn len(&self) -> usize
        ensures { result ≡ length self.now }
    {
        self.names.len()
    }

    /// Whether a name is among them.
    #[tactic(auto, using(crate::proofs::Finding::among))]
    pub fn contains(&self, name: &Name) -> bool
        ensures { result ≡ is_among self.now name.now }
    {
        stands(self.names.items(), name, self.places.get(name))
    }

    /// Adds a name at the end.
    ///
    /// # Errors
    ///
    /// `NoMemory` leaves the names as they were.
    pub fn push(&mut self, alloc: Global, name: Name) -> Result<(), NoMemory>
        ensures { OnOk result (self.new ≡ self.old ++ name ∷ []) }
    {
        place_next(alloc, self.names.items(), &name, &mut self.places)?;
        self.names.push(name)?;
        Ok(())
    }

    /// Keeps the first `count` names.
    #[tactic(auto, using(crate::proofs::Finding::finds_fewer))]
    pub fn truncate(&mut self, count: usize)
        ensures { self.new ≡ take count self.old }
    {
        self.names.truncate(count);
    }
}

fn is_this(name: &Name, found: Option<&Name>) -> bool
    ensures { result ≡ is_some (if_called itself name.now (option_copied found.entry)) }
{
    match found {
        Some(found) => found == name,
        None => false,
    }
}

/// Whether a name stands at a place.
fn stands(names: &[Name], name: &Name, place: Option<&usize>) -> bool
    ensures { result ≡ is_some (placed itself names.now name.now (option_copied place.entry)) }
{
    match place {
        Some(place) => is_this(name, names.get(*place)),
        None => false,
    }
}

/// Notes the place of the next name, unless it has one.
fn place_next(
    alloc: Global,
    names: &[Name],
    name: &Name,
    places: &mut Table<usize>,
) -> Result<(), NoMemory>
    ensures ok { OnOk result (places.new ≡ with_place itself names.now name.now places.old) }
    ensures err { OnErr result (places.new ≡ places.old) }
{
    if stands(names, name, places.get(name)) {
        return Ok(());
    }
    places.put(name.copy(alloc)?, names.len())
}

ghost use Rattle.std.specs.Prelude.{◌≡◌, ◌<◌, length, IfOk, OnOk};
ghost use Rattle.std.specs.Option.{option_copied};
ghost use Rattle.mu_decl.specs.Instantiating.{abstraction_of};
ghost use Rattle.mu_decl.specs.Abstractions.{located, with_place, Locates};

use crate::instantiating::Abstraction;
use mu_tree::{Name, NoMemory, Sequence, Table};
use std::alloc::Global;
use std::marker::Model;

/// Abstractions, with a table to find the first one of a metavariable.
///
/// Contracts see the list of the abstractions.
#[derive(Drop)]
pub struct Abstractions {
    given: Sequence<Abstraction>,
    places: Table<usize>,
}

impl Model for Abstractions {
    ghost use Rattle.std.specs.Prelude.{List};
    ghost use Rattle.std.specs.Coded.{coded_list};
    ghost use Rattle.mu_decl.specs.contracts.instantiating.Abstraction as abstraction;
    ghost use Rattle.mu_decl.specs.declared.instantiating.Abstraction.{Abstraction};
    ghost use Rattle.mu_decl.specs.Abstractions.{Locates};

    ghost Value = { List Abstraction };

    ghost coded = { coded_list abstraction.the_row.coded };

    ghost view = { λ all. all.given };

    ghost invariant = { λ all. Locates all.places all.given all.given };
}

impl Abstractions {
    /// Puts the metavariables of some abstractions into a table.
    ///
    /// # Errors
    ///
    /// `NoMemory`.
    pub fn new(alloc: Global, given: Sequence<Abstraction>) -> Result<Abstractions, NoMemory>
        ensures { IfOk result (λ all. all ≡ given) }
    {
        let places = places_of(alloc, given.items())?;
        Ok(Abstractions { given, places })
    }

    /// The first abstraction of a metavariable.
    pub fn find(&self, meta: &Name) -> Option<&Abstraction>
        ensures { option_copied result ≡ abstraction_of self.now meta.now }
    {
        located(self.given.items(), &self.places, meta)
    }
}

fn located<'a>(
    given: &'a [Abstraction],
    places: &Table<usize>,
    meta: &Name,
) -> Option<&'a Abstraction>
    ensures { option_copied result ≡ located given.now places.now meta.now }
{
    match places.get(meta) {
        Some(place) => given.get(*place),
        None => None,
    }
}

/// Notes the place of an abstraction, unless its metavariable has one.
fn place(
    alloc: Global,
    given: &[Abstraction],
    at: usize,
    meta: &Name,
    places: &mut Table<usize>,
) -> Result<(), NoMemory>
    ensures { OnOk result (places.new ≡ with_place given.now at meta.now places.old) }
{
    if located(given, places, meta).is_some() {
        return Ok(());
    }
    places.put(meta.copy(alloc)?, at)?;
    Ok(())
}

fn places_of(alloc: Global, given: &[Abstraction]) -> Result<Table<usize>, NoMemory>
    ensures { IfOk result (λ places. Locates places given.now given.now) }
{
    let mut places = Table::new(alloc);
    for (i, each) in given.iter().enumerate() {
        place(alloc, given, i, &each.meta, &mut places)?;
    }
    Ok(places)
}

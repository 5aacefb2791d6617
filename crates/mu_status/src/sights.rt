ghost use Rattle.std.specs.Prelude.{◌≡◌, IfOk, OnOk};
ghost use Rattle.std.specs.Option.{ForSome};
ghost use Rattle.mu_flat.specs.Entries.{world_of};
ghost use Rattle.mu_status.specs.Sights.{IsSightOf};

use mu_decl::{ConstDecl, Context, MorphMap, Own, Statement};
use mu_flat::Store;
use mu_tree::{Definition, Name, Names, NoMemory};
use std::alloc::Global;

/// A unit and what is seen from it.
#[derive(Drop)]
pub(crate) struct Sight {
    unit: Name,
    seen: Names,
}

/// A store, with what is seen from the unit that was asked for last.
///
/// Rules that are looked at one after another are mostly of one theory.
#[derive(Drop)]
pub(crate) struct Viewer<'a> {
    pub(crate) store: &'a Store,
    sight: Option<Sight>,
    ghost right: { ForSome sight (IsSightOf store.now) },
}

impl<'a> Viewer<'a> {
    /// A store of which no unit was asked for yet.
    pub(crate) fn new(store: &'a Store) -> Viewer<'a>
        ensures { result.store ≡ store.entry }
    {
        Viewer { store, sight: None }
    }

    /// Makes ready what is seen from a unit.
    pub(crate) fn look_from(&mut self, alloc: Global, unit: &Name) -> Result<(), NoMemory>
        ensures { OnOk result (self.new.store ≡ self.old.store) }
    {
        let is_ready = match &self.sight {
            Some(sight) => sight.unit == *unit,
            None => false,
        };
        if is_ready {
            return Ok(());
        }
        let seen = self.store.seen(alloc, unit)?;
        self.sight = Some(Sight {
            unit: unit.copy(alloc)?,
            seen,
        });
        Ok(())
    }
}

/// Equal names in memory of their own.
fn copied(alloc: Global, names: &Names) -> Result<Names, NoMemory>
    ensures { IfOk result (λ copy. copy ≡ names.now) }
{
    let mut copy = Names::new(alloc);
    for name in names.items() {
        copy.push(name.copy(alloc)?)?;
    }
    Ok(copy)
}

impl<'a> Context for Viewer<'a> {
    ghost use Rattle.mu_status.specs.Viewers.{world_seen, seen_lawfully};

    ghost world = { world_seen };

    ghost exact = { seen_lawfully };

    fn constant(&self, name: &Name) -> Option<&ConstDecl> {
        self.store.constant(name)
    }

    fn definition(&self, name: &Name) -> Option<&Definition> {
        self.store.definition(name)
    }

    fn rule(&self, name: &Name) -> Option<&Statement> {
        self.store.rule(name)
    }

    fn morphism(&self, name: &Name) -> Option<&MorphMap> {
        self.store.morphism(name)
    }

    fn has_theory(&self, unit: &Name) -> bool {
        self.store.has_theory(unit)
    }

    fn parents(&self, alloc: Global, unit: &Name) -> Result<Names, NoMemory> {
        self.store.parents(alloc, unit)
    }

    fn seen(&self, alloc: Global, unit: &Name) -> Result<Names, NoMemory> {
        match &self.sight {
            Some(sight) if sight.unit == *unit => copied(alloc, &sight.seen),
            _ => self.store.seen(alloc, unit),
        }
    }

    fn own(&self, alloc: Global, unit: &Name) -> Result<Own, NoMemory> {
        self.store.own(alloc, unit)
    }
}

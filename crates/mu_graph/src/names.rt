ghost use Rattle.std.specs.Prelude.{◌≡◌};
ghost use Rattle.std.specs.FinMap as map;
ghost use Rattle.mu_graph.specs.Names.{members, led_by, linked, leads_linked};

use crate::key_sets::KeySet;
use crate::walks::Edges;
use mu_tree::{Name, NameSet, NoMemory, Table};
use std::alloc::Global;

/// A set of names marks its members.
impl KeySet for NameSet {
    type Key = Name;

    ghost marked = { map.contains_key };

    fn none(alloc: Global) -> NameSet {
        NameSet::new(alloc)
    }

    fn has(&self, key: &Name) -> bool {
        self.has(key)
    }

    fn add(&mut self, key: Name) -> Result<(), NoMemory> {
        self.add(key)
    }
}

/// A map from names to sets of names, in which a name leads to those in its set, in byte order.
impl Edges for Table<NameSet> {
    type Set = NameSet;

    ghost leads = { led_by members };

    ghost universe = { linked members };

    ghost within = { leads_linked members };

    fn leads(&self, alloc: Global, key: &Name) -> Result<Vec<Name>, NoMemory> {
        match self.get(key) {
            Some(names) => Ok(names.names(alloc)?.into_vec()),
            None => Ok(Vec::new(alloc)),
        }
    }
}

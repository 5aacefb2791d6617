ghost use Rattle.std.specs.Prelude.{◌≡◌};
ghost use Rattle.mu_proof.specs.declared.citations.Cited.TheVariants.{Rule};
ghost use Rattle.mu_flat.specs.CitedSets.{is_marked, told_name, rules_tell};

use mu_graph::{KeySet, ToldSet};
use mu_proof::Cited;
use mu_tree::{Name, NameSet, NoMemory};
use std::alloc::Global;

/// A set of rules and morphisms.
#[derive(Drop)]
pub struct CitedSet {
    rules: NameSet,
    morphisms: NameSet,
}

impl CitedSet {
    /// Whether the set has a rule.
    pub fn has_rule(&self, name: &Name) -> bool
        ensures { result ≡ is_marked self.now.rules self.now.morphisms (Rule name.now) }
    {
        self.rules.has(name)
    }
}

impl KeySet for CitedSet {
    type Key = Cited;

    ghost marked = { λ set member. is_marked set.rules set.morphisms member };

    fn none(alloc: Global) -> CitedSet {
        CitedSet {
            rules: NameSet::new(alloc),
            morphisms: NameSet::new(alloc),
        }
    }

    fn has(&self, key: &Cited) -> bool {
        match key {
            Cited::Rule(name) => self.rules.has(name),
            Cited::Morphism(name) => self.morphisms.has(name),
        }
    }

    fn add(&mut self, key: Cited) -> Result<(), NoMemory> {
        match key {
            Cited::Rule(name) => self.rules.add(name),
            Cited::Morphism(name) => self.morphisms.add(name),
        }
    }
}

/// A rule tells its name, and a morphism none.
impl ToldSet for CitedSet {
    ghost told = { told_name };

    ghost named = { Rule };

    ghost tells = { rules_tell };

    fn told(key: &Cited) -> Option<&Name> {
        match key {
            Cited::Rule(name) => Some(name),
            Cited::Morphism(_) => None,
        }
    }
}

ghost use Rattle.std.specs.Prelude.{◌≡◌, ◌↔◌, ◌++◌, IfOk, OnOk, IsTrue};
ghost use Rattle.std.specs.List.{flat_map};
ghost use Rattle.mu_proof.specs.Citations.{is_rule, is_morphism, cited_by, morphism_cited, item_cites, cites};

use crate::items::Item;
use mu_tree::{Duplicate, Name, NoMemory, Sequence, Why};
use std::alloc::Global;

/// What a proof cites. Rules and morphisms have names apart from each other.
#[derive(Drop)]
pub enum Cited {
    Rule(Name),
    /// The morphism that translates a rule.
    Morphism(Name),
}

impl Cited {
    /// Whether this is the rule of a name.
    pub fn is_rule(&self, name: &Name) -> bool
        ensures value { result ≡ is_rule name.now self.now }
        ensures exact { IsTrue result ↔ (self.now ≡ Cited.Rule name.now) }
    {
        match self {
            Cited::Rule(rule) => rule == name,
            Cited::Morphism(_) => false,
        }
    }

    /// Whether this is the morphism of a name.
    pub fn is_morphism(&self, name: &Name) -> bool
        ensures value { result ≡ is_morphism name.now self.now }
        ensures exact { IsTrue result ↔ (self.now ≡ Cited.Morphism name.now) }
    {
        match self {
            Cited::Rule(_) => false,
            Cited::Morphism(morphism) => morphism == name,
        }
    }
}

impl Duplicate for Cited {
    fn duplicate(&self, alloc: Global) -> Result<Cited, NoMemory> {
        match self {
            Cited::Rule(rule) => Ok(Cited::Rule(rule.copy(alloc)?)),
            Cited::Morphism(morphism) => Ok(Cited::Morphism(morphism.copy(alloc)?)),
        }
    }
}

/// A list of what is cited.
pub type Citations = Sequence<Cited>;

fn add_morphism(alloc: Global, via: &Option<Name>, found: &mut Citations) -> Result<(), NoMemory>
    ensures { OnOk result (found.new ≡ found.old ++ morphism_cited via.now) }
{
    if let Some(name) = via {
        found.push(Cited::Morphism(name.copy(alloc)?))?;
    }
    Ok(())
}

fn add_cited(alloc: Global, why: &Option<Why>, found: &mut Citations) -> Result<(), NoMemory>
    ensures { OnOk result (found.new ≡ found.old ++ cited_by why.now) }
{
    if let Some(Why::Rule { rule, via, .. }) = why {
        found.push(Cited::Rule(rule.copy(alloc)?))?;
        add_morphism(alloc, via, found)?;
    }
    Ok(())
}

#[cycle(add_item)]
#[tactic(auto, using(crate::proofs::CitationEquations::citation_equations))]
fn add_item(alloc: Global, item: &Item, found: &mut Citations) -> Result<(), NoMemory>
    ensures { OnOk result (found.new ≡ found.old ++ item_cites item.now) }
{
    match item {
        Item::Line { why, .. } => {
            add_cited(alloc, why, found)?;
            Ok(())
        }
        Item::Block { items, .. } => {
            add_items(alloc, items.items(), found)?;
            Ok(())
        }
    }
}

#[cycle(add_item)]
fn add_items(alloc: Global, items: &[Item], found: &mut Citations) -> Result<(), NoMemory>
    ensures { OnOk result (found.new ≡ found.old ++ cites items.now) }
{
    for item in items {
        add_item(alloc, item, found)?;
    }
    Ok(())
}

/// The rules that the lines of a proof cite, each with the morphism that translates it, in the order of the lines and
/// each as often as it is cited.
///
/// # Errors
///
/// `NoMemory` may come at any items.
pub fn cites(alloc: Global, items: &[Item]) -> Result<Citations, NoMemory>
    ensures { IfOk result (λ found. found ≡ cites items.now) }
{
    let mut found = Sequence::new(alloc);
    add_items(alloc, items, &mut found)?;
    Ok(found)
}

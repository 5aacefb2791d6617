ghost use Rattle.std.specs.Prelude.{◌≡◌, IfOk, map};
ghost use Rattle.mu_decl.specs.Translating.{image, translated};
ghost use Rattle.mu_decl.specs.Laws.{TranslationOpens, TranslationInstantiates};

use crate::bare::{Bare, Bares};
use crate::growing::{application, binding, metavariable, place, variable};
use mu_tree::{Name, NoMemory, Table};
use sqlite_items::Items;
use std::alloc::Global;

/// The tree with its constants and binders renamed by a finite map. Those that it has nothing for stay, and so do
/// variables and metavariables.
///
/// The clauses `opens` and `instantiates` say that it does not matter whether a tree is translated before or after a
/// binder is opened or metavariables are replaced, where what is put in is translated too.
///
/// # Errors
///
/// `NoMemory` may come at any tree.
#[tactic(auto, using(crate::proofs::Translation::translation_opens, crate::proofs::Translation::translation_instantiates))]
pub fn translate(alloc: Global, tree: &Bare, names: &Table<Name>) -> Result<Bare, NoMemory>
    ensures value { IfOk result (λ bare. bare ≡ translated names.now tree.now) }
    ensures opens { TranslationOpens }
    ensures instantiates { TranslationInstantiates }
{
    translated(alloc, tree, names)
}

#[cycle(translated)]
#[tactic(auto, using(crate::proofs::TranslatedEquations::translated_equations))]
fn translated(alloc: Global, tree: &Bare, names: &Table<Name>) -> Result<Bare, NoMemory>
    ensures { IfOk result (λ bare. bare ≡ translated names.now tree.now) }
{
    match tree {
        Bare::Var(name) => variable(alloc, name),
        Bare::Index(index) => Ok(place(*index)),
        Bare::App(name, arguments) => {
            let arguments = translated_all(alloc, arguments.as_slice(), names)?;
            application(alloc, image(name, names), arguments)
        }
        Bare::Meta(name, arguments) => {
            let arguments = translated_all(alloc, arguments.as_slice(), names)?;
            metavariable(alloc, name, arguments)
        }
        Bare::Bind(binder, domain, body) => {
            let domain = translated(alloc, domain.get(), names)?;
            let body = translated(alloc, body.get(), names)?;
            binding(alloc, image(binder, names), domain, body)
        }
    }
}

#[cycle(translated)]
fn translated_all(alloc: Global, trees: &[Bare], names: &Table<Name>) -> Result<Bares, NoMemory>
    ensures { IfOk result (λ all. all ≡ map (translated names.now) trees.now) }
{
    let mut all = Items::new(alloc);
    for tree in trees {
        all.push(translated(alloc, tree, names)?)?;
    }
    Ok(all)
}

fn image<'a>(name: &'a Name, names: &'a Table<Name>) -> &'a Name
    ensures { result.now ≡ image names.now name.now }
{
    match names.get(name) {
        Some(found) => found,
        None => name,
    }
}

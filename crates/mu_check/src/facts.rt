ghost use Rattle.std.specs.Prelude.{◌≡◌, [], ◌∷◌, ◌++◌, IfOk, OnOk, map};
ghost use Rattle.mu_decl.specs.Nameless.{nameless};
ghost use Rattle.mu_decl.specs.Claims.{names_of};
ghost use Rattle.mu_check.specs.Facts.{types_under, closed, hypothesis_fact, typing, typing_fact, typing_of, plain_fact, typings, entered};

use crate::fact::Fact;
use mu_decl::{Abstraction, Bare, Bares, Binders, Variables, enter};
use mu_tree::{Given, Hyp, Name, NoMemory, Sequence, Tree, TypedVar};
use sqlite_items::Items;
use std::alloc::Global;

/// The nameless trees of some trees, with variables in scope and under binders.
pub fn enter_all(
    alloc: Global,
    trees: &[Tree],
    scope: &Variables,
    bound: &Binders,
) -> Result<Bares, NoMemory>
    ensures { IfOk result (λ all. all ≡ map (nameless scope.now bound.now) trees.now) }
{
    let mut all = Items::new(alloc);
    for tree in trees {
        all.push(enter(alloc, tree, scope, bound)?)?;
    }
    Ok(all)
}

/// The types of some variables, each under the variables before it, which are bound afterwards.
fn types_under(
    alloc: Global,
    scope: &Variables,
    bound: &mut Binders,
    vars: &[TypedVar],
) -> Result<Bares, NoMemory>
    ensures types { IfOk result (λ types. types ≡ types_under scope.now bound.old vars.now) }
    ensures bound { OnOk result (bound.new ≡ bound.old ++ names_of vars.now) }
{
    let mut types = Items::new(alloc);
    for var in vars {
        types.push(enter(alloc, &var.ty, scope, bound)?)?;
        bound.push(alloc, &var.name)?;
    }
    Ok(types)
}

/// A sequent, closed over its variables.
pub fn closed(
    alloc: Global,
    scope: &Variables,
    vars: &[TypedVar],
    premises: &[Tree],
    upshot: &Tree,
) -> Result<Fact, NoMemory>
    ensures { IfOk result (λ fact. fact ≡ closed scope.now vars.now premises.now upshot.now) }
{
    let mut bound = Binders::new(alloc);
    let types = types_under(alloc, scope, &mut bound, vars)?;
    let premises = enter_all(alloc, premises, scope, &bound)?;
    let upshot = enter(alloc, upshot, scope, &bound)?;
    Ok(Fact::Sequent {
        types,
        premises,
        upshot,
    })
}

/// A tree with these variables in scope.
pub fn plain_fact(alloc: Global, scope: &Variables, tree: &Tree) -> Result<Fact, NoMemory>
    ensures { IfOk result (λ fact. fact ≡ plain_fact scope.now tree.now) }
{
    let bound = Binders::new(alloc);
    Ok(Fact::Plain(enter(alloc, tree, scope, &bound)?))
}

/// A tree with no variable in scope.
pub fn stated_fact(alloc: Global, tree: &Tree) -> Result<Fact, NoMemory>
    ensures { IfOk result (λ fact. fact ≡ plain_fact [] tree.now) }
{
    let scope = Variables::new(alloc);
    plain_fact(alloc, &scope, tree)
}

/// What a hypothesis gives.
pub fn hypothesis_fact(alloc: Global, hypothesis: &Hyp) -> Result<Fact, NoMemory>
    ensures { IfOk result (λ fact. fact ≡ hypothesis_fact hypothesis.now) }
{
    let scope = Variables::new(alloc);
    match hypothesis {
        Hyp::Plain(tree) => plain_fact(alloc, &scope, tree),
        Hyp::Sequent {
            vars,
            premises,
            upshot,
        } => closed(alloc, &scope, vars.items(), premises.as_slice(), upshot),
    }
}

/// The typing of a term.
pub fn typing_fact(alloc: Global, term: &Bare, ty: Bare) -> Result<Fact, NoMemory>
    ensures { IfOk result (λ fact. fact ≡ typing_fact term.now ty) }
{
    let arguments = both(alloc, term, ty)?;
    let name = typing(alloc)?;
    Ok(Fact::Plain(Bare::App(name, arguments)))
}

/// A term, and a type after it.
fn both(alloc: Global, term: &Bare, ty: Bare) -> Result<Bares, NoMemory>
    ensures { IfOk result (λ trees. trees ≡ term.now ∷ ty ∷ []) }
{
    let mut trees = Items::new(alloc);
    trees.push(term.copy(alloc)?)?;
    trees.push(ty)?;
    Ok(trees)
}

fn typing(alloc: Global) -> Result<Name, NoMemory>
    ensures { IfOk result (λ name. name ≡ typing) }
{
    Name::read(alloc, b"typing").map_err(|_| NoMemory)
}

fn typing_of(alloc: Global, scope: &Variables, var: &TypedVar) -> Result<Fact, NoMemory>
    ensures { IfOk result (λ fact. fact ≡ typing_of scope.now var.now) }
{
    let bound = Binders::new(alloc);
    let ty = enter(alloc, &var.ty, scope, &bound)?;
    typing_fact(alloc, &Bare::Var(var.name.copy(alloc)?), ty)
}

/// The typings of some variables, which come into scope one after another.
fn typings(
    alloc: Global,
    scope: &mut Variables,
    vars: &[TypedVar],
) -> Result<Sequence<Fact>, NoMemory>
    ensures facts { IfOk result (λ facts. facts ≡ typings scope.old vars.now) }
    ensures scope { OnOk result (scope.new ≡ scope.old ++ names_of vars.now) }
{
    let mut facts = Sequence::new(alloc);
    for var in vars {
        facts.push(typing_of(alloc, scope, var)?)?;
        scope.push(alloc, var.name.copy(alloc)?)?;
    }
    Ok(facts)
}

fn add_assumptions(
    alloc: Global,
    scope: &Variables,
    trees: &[Tree],
    facts: &mut Sequence<Fact>,
) -> Result<(), NoMemory>
    ensures { OnOk result (facts.new ≡ facts.old ++ map (plain_fact scope.now) trees.now) }
{
    for tree in trees {
        facts.push(plain_fact(alloc, scope, tree)?)?;
    }
    Ok(())
}

/// The assumptions of a block, whose variables come into scope.
pub fn assumptions_of(
    alloc: Global,
    scope: &mut Variables,
    vars: &[TypedVar],
    trees: &[Tree],
) -> Result<Sequence<Fact>, NoMemory>
    ensures facts { IfOk result (λ facts. facts ≡ typings scope.old vars.now ++ map (plain_fact (scope.old ++ names_of vars.now)) trees.now) }
    ensures scope { OnOk result (scope.new ≡ scope.old ++ names_of vars.now) }
{
    let mut facts = typings(alloc, scope, vars)?;
    add_assumptions(alloc, scope, trees, &mut facts)?;
    Ok(facts)
}

/// The body of what stands for a metavariable, under its parameters.
fn entered_body(alloc: Global, scope: &Variables, given: &Given) -> Result<Bare, NoMemory>
    ensures { IfOk result (λ body. body ≡ nameless scope.now given.now.params given.now.body) }
{
    let bound = Binders::of(alloc, given.params.items())?;
    enter(alloc, &given.body, scope, &bound)
}

fn entered(alloc: Global, scope: &Variables, given: &Given) -> Result<Abstraction, NoMemory>
    ensures { IfOk result (λ abstraction. abstraction ≡ entered scope.now given.now) }
{
    let body = entered_body(alloc, scope, given)?;
    Ok(Abstraction {
        meta: given.meta.copy(alloc)?,
        count: given.params.len(),
        body,
    })
}

/// What stands for some metavariables, with these variables in scope.
pub fn entered_all(
    alloc: Global,
    scope: &Variables,
    given: &[Given],
) -> Result<Sequence<Abstraction>, NoMemory>
    ensures { IfOk result (λ all. all ≡ map (entered scope.now) given.now) }
{
    let mut all = Sequence::new(alloc);
    for each in given {
        all.push(entered(alloc, scope, each)?)?;
    }
    Ok(all)
}

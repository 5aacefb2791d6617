ghost use Rattle.std.specs.Prelude.{◌≡◌, [], ◌∷◌, ◌++◌, ◌+◌, IfOk, OnOk, map, nat_eq, length};
ghost use Rattle.std.specs.Option.{option_copied};
ghost use Rattle.std.specs.Cmp.Lexicographic.{pointwise};
ghost use Rattle.std.specs.List.{list_all};
ghost use Rattle.mu_tree.specs.declared.claim.Kind.TheVariants.{E};
ghost use Rattle.mu_decl.specs.Formation.{is_formed, expression};
ghost use Rattle.mu_decl.specs.Nameless.{nameless};
ghost use Rattle.mu_decl.specs.Opening.{opened};
ghost use Rattle.mu_check.specs.Facts.{typing_fact};
ghost use Rattle.mu_check.specs.Hypotheses.{term_typings, wanted, opened_fact, gives_this, upshot_cause, plain_cause, terms_formed, sequent_cause, hypothesis_cause};

use crate::cause::Cause;
use crate::environments::{Environment, gives};
use crate::fact::{Fact, difference, is_equal};
use crate::facts::{enter_all, plain_fact, typing_fact};
use crate::lines::PlacedLine;
use mu_decl::{
    Around, Bare, Bares, Binders, Context, Variables, all_formed, all_occurrences, opened,
};
use mu_tree::{NoMemory, Ref, Sequence, Tree};
use sqlite_items::Items;
use std::alloc::Global;

fn opened_fact(alloc: Global, by: &Bares, tree: &Bare) -> Result<Fact, NoMemory>
    ensures { IfOk result (λ fact. fact ≡ opened_fact by.now tree.now) }
{
    Ok(Fact::Plain(opened(alloc, tree, by)?))
}

fn add_opened(
    alloc: Global,
    by: &Bares,
    trees: &[Bare],
    facts: &mut Sequence<Fact>,
) -> Result<(), NoMemory>
    ensures { OnOk result (facts.new ≡ facts.old ++ map (opened_fact by.now) trees.now) }
{
    for tree in trees {
        facts.push(opened_fact(alloc, by, tree)?)?;
    }
    Ok(())
}

/// The typing of each term by its variable's type.
fn term_typings(alloc: Global, terms: &[Bare], types: &[Bare]) -> Result<Sequence<Fact>, NoMemory>
    requires { length terms.now ≡ length types.now }
    ensures { IfOk result (λ facts. facts ≡ term_typings [] terms.now types.now) }
{
    let mut before = Items::new(alloc);
    let mut facts = Sequence::new(alloc);
    for i in 0..terms.len() {
        add_typing(alloc, &mut before, &terms[i], &types[i], &mut facts)?;
    }
    Ok(facts)
}

/// Adds the typing of a term, and the term to those before the next one.
fn add_typing(
    alloc: Global,
    before: &mut Bares,
    term: &Bare,
    ty: &Bare,
    facts: &mut Sequence<Fact>,
) -> Result<(), NoMemory>
    ensures before { OnOk result (before.new ≡ before.old ++ term.now ∷ []) }
    ensures facts { OnOk result (facts.new ≡ facts.old ++ typing_fact term.now (opened before.old ty.now) ∷ []) }
{
    let ty = opened(alloc, ty, before)?;
    facts.push(typing_fact(alloc, term, ty)?)?;
    before.push(term.copy(alloc)?)?;
    Ok(())
}

fn gives_this(environment: &Environment, reference: &Ref, fact: &Fact) -> bool
    ensures { result ≡ gives_this environment.now reference.now fact.now }
{
    match gives(environment, reference) {
        Some(given) => is_equal(given, fact),
        None => false,
    }
}

fn all_give(environment: &Environment, refs: &[Ref], facts: &[Fact]) -> bool
    ensures { result ≡ pointwise (gives_this environment.now) refs.now facts.now }
{
    if refs.len() != facts.len() {
        return false;
    }
    for i in 0..refs.len() {
        if !gives_this(environment, &refs[i], &facts[i]) {
            return false;
        }
    }
    true
}

/// The first test that references and line fail against a sequent at these terms, one for each of its variables.
fn upshot_cause(
    alloc: Global,
    line: PlacedLine,
    refs: &[Ref],
    terms: &Bares,
    types: &Bares,
    premises: &Bares,
    upshot: &Bare,
) -> Result<Option<Cause>, NoMemory>
    requires { length terms.now ≡ length types.now }
    ensures { IfOk result (λ cause. cause ≡ upshot_cause line.entry.environment.now line.entry.tree.now refs.now terms.now types.now premises.now upshot.now) }
{
    if !give_wanted(alloc, line.environment, refs, terms, types, premises)? {
        return Ok(Some(Cause::HypothesisDiffers));
    }
    let upshot = opened_fact(alloc, terms, upshot)?;
    plain_cause(alloc, line, &upshot)
}

/// Whether the references give what a sequent wants at these terms.
fn give_wanted(
    alloc: Global,
    environment: &Environment,
    refs: &[Ref],
    terms: &Bares,
    types: &Bares,
    premises: &Bares,
) -> Result<bool, NoMemory>
    requires { length terms.now ≡ length types.now }
    ensures { IfOk result (λ yes. yes ≡ pointwise (gives_this environment.now) refs.now (wanted terms.now types.now premises.now)) }
{
    let mut facts = term_typings(alloc, terms.as_slice(), types.as_slice())?;
    add_opened(alloc, terms, premises.as_slice(), &mut facts)?;
    Ok(all_give(environment, refs, facts.items()))
}

/// Whether terms are well-formed elements where the line stands.
#[tactic(auto, using(mu_decl::proofs::Layers::variable_equations))]
fn are_elements<C: Context>(
    alloc: Global,
    context: &C,
    line: PlacedLine,
    terms: &[Tree],
) -> Result<bool, NoMemory>
    ensures { IfOk result (λ yes. yes ≡ list_all (is_formed (C.world context.now) line.entry.allowed.now.seen (map expression line.entry.environment.now.scope) E) terms.now) }
{
    let none = Variables::new(alloc);
    let around = Around {
        scope: &line.environment.scope,
        own: &none,
    };
    all_formed(alloc, context, &line.allowed.seen, around, terms)
}

fn terms_formed<C: Context>(
    alloc: Global,
    context: &C,
    line: PlacedLine,
    terms: &[Tree],
) -> Result<bool, NoMemory>
    ensures { IfOk result (λ yes. yes ≡ terms_formed (C.world context.now) line.entry.allowed.now line.entry.environment.now terms.now) }
{
    if !are_elements(alloc, context, line, terms)? {
        return Ok(false);
    }
    let mut found = Sequence::new(alloc);
    all_occurrences(alloc, context, terms, &mut found)?;
    Ok(line.allowed.metas.have(&found))
}

/// The cause where a line says something else than a fact.
pub fn plain_cause(alloc: Global, line: PlacedLine, given: &Fact) -> Result<Option<Cause>, NoMemory>
    ensures { IfOk result (λ cause. cause ≡ plain_cause line.entry.environment.now line.entry.tree.now given.now) }
{
    let said = plain_fact(alloc, &line.environment.scope, line.tree)?;
    Ok(difference(&said, given))
}

/// Whether a number is the sum of two.
fn are_together(number: usize, left: usize, right: usize) -> bool
    ensures { result ≡ nat_eq number (left + right) }
{
    match left.checked_add(right) {
        Some(sum) => number == sum,
        None => false,
    }
}

/// The first test that a line fails which cites a sequent hypothesis.
fn sequent_cause<C: Context>(
    alloc: Global,
    context: &C,
    line: PlacedLine,
    terms: &[Tree],
    refs: &[Ref],
    types: &Bares,
    premises: &Bares,
    upshot: &Bare,
) -> Result<Option<Cause>, NoMemory>
    ensures { IfOk result (λ cause. cause ≡ sequent_cause (C.world context.now) line.entry.allowed.now line.entry.environment.now line.entry.tree.now terms.now refs.now types.now premises.now upshot.now) }
{
    if terms.len() != types.len() || !are_together(refs.len(), types.len(), premises.len()) {
        return Ok(Some(Cause::WrongCount));
    }
    if !terms_formed(alloc, context, line, terms)? {
        return Ok(Some(Cause::IllFormedInstance));
    }
    let terms = entered_terms(alloc, line.environment, terms)?;
    let cause = upshot_cause(alloc, line, refs, &terms, types, premises, upshot)?;
    Ok(cause)
}

fn entered_terms(
    alloc: Global,
    environment: &Environment,
    terms: &[Tree],
) -> Result<Bares, NoMemory>
    ensures { IfOk result (λ trees. trees ≡ map (nameless environment.now.scope []) terms.now) }
{
    let bound = Binders::new(alloc);
    enter_all(alloc, terms, &environment.scope, &bound)
}

/// The first test that a line fails which cites a hypothesis, from the test that it is there on.
pub fn hypothesis_cause<C: Context>(
    alloc: Global,
    context: &C,
    line: PlacedLine,
    terms: &[Tree],
    refs: &[Ref],
    cited: Option<&Fact>,
) -> Result<Option<Cause>, NoMemory>
    ensures { IfOk result (λ cause. cause ≡ hypothesis_cause (C.world context.now) line.entry.allowed.now line.entry.environment.now line.entry.tree.now terms.now refs.now (option_copied cited.entry)) }
{
    let cited = match cited {
        Some(cited) => cited,
        None => return Ok(Some(Cause::Absent)),
    };
    match cited {
        Fact::Plain(_) => {
            if terms.len() != 0 || refs.len() != 0 {
                return Ok(Some(Cause::WrongCount));
            }
            let cause = plain_cause(alloc, line, cited)?;
            Ok(cause)
        }
        Fact::Sequent {
            types,
            premises,
            upshot,
        } => {
            let cause = sequent_cause(alloc, context, line, terms, refs, types, premises, upshot)?;
            Ok(cause)
        }
    }
}

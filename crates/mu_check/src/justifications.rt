ghost use Rattle.std.specs.Prelude.{◌≡◌, [], IfOk, map};
ghost use Rattle.std.specs.Option.{option_copied};
ghost use Rattle.std.specs.List.{list_all};
ghost use Rattle.std.specs.Cmp.Lexicographic.{pointwise};
ghost use Rattle.mu_tree.specs.declared.claim.Kind.TheVariants.{E};
ghost use Rattle.mu_decl.specs.Formation.{is_formed, expression};
ghost use Rattle.mu_decl.specs.Claims.{claim_occurrences};
ghost use Rattle.mu_check.specs.Same.{equal_facts};
ghost use Rattle.mu_check.specs.Facts.{plain_fact, hypothesis_fact, instantiated_fact, entered};
ghost use Rattle.mu_check.specs.Instances.{is_instance};
ghost use Rattle.mu_check.specs.Environments.{is_accessible};
ghost use Rattle.mu_check.specs.Causes.{meets, concludes, instance_cause, claim_cause, rule_cause, same_cause};
ghost use Rattle.mu_check.specs.Justifications.{refs_of, citing_cause, why_cause, justified_cause, line_cause};

use crate::allowed::has_known_metas;
use crate::cause::Cause;
use crate::definitions::definition_cause;
use crate::environments::{Environment, are_accessible, gives, is_accessible, nth};
use crate::fact::{Fact, is_instantiated};
use crate::facts::{entered_all, hypothesis_fact, plain_fact, stated_fact};
use crate::hypotheses::{hypothesis_cause, plain_cause};
use crate::instances::is_instance;
use crate::lines::PlacedLine;
use crate::metas::Metas;
use mu_decl::{Abstractions, Around, Context, Statement, Variables, claim_occurrences, is_formed};
use mu_tree::{Claim, Given, Hyp, Kind, Name, NoMemory, Ref, Tree, Why};
use std::alloc::Global;

/// Whether a reference gives an instantiated hypothesis.
fn meets(
    alloc: Global,
    environment: &Environment,
    given: &Abstractions,
    reference: &Ref,
    hypothesis: &Hyp,
) -> Result<bool, NoMemory>
    ensures { IfOk result (λ yes. yes ≡ meets environment.now given.now reference.now hypothesis.now) }
{
    match gives(environment, reference) {
        Some(fact) => is_hypothesis(alloc, given, hypothesis, fact),
        None => Ok(false),
    }
}

/// Whether a fact is an instantiated hypothesis.
fn is_hypothesis(
    alloc: Global,
    given: &Abstractions,
    hypothesis: &Hyp,
    fact: &Fact,
) -> Result<bool, NoMemory>
    ensures { IfOk result (λ yes. yes ≡ equal_facts fact.now (instantiated_fact given.now (hypothesis_fact hypothesis.now))) }
{
    let stated = hypothesis_fact(alloc, hypothesis)?;
    is_instantiated(alloc, given, &stated, fact)
}

/// Whether there are as many references as hypotheses, and each gives the instantiated hypothesis at its place.
fn all_meet(
    alloc: Global,
    environment: &Environment,
    given: &Abstractions,
    refs: &[Ref],
    hyps: &[Hyp],
) -> Result<bool, NoMemory>
    ensures { IfOk result (λ yes. yes ≡ pointwise (meets environment.now given.now) refs.now hyps.now) }
{
    if refs.len() != hyps.len() {
        return Ok(false);
    }
    for i in 0..refs.len() {
        if !meets(alloc, environment, given, &refs[i], &hyps[i])? {
            return Ok(false);
        }
    }
    Ok(true)
}

/// Whether a line is an instantiated conclusion.
fn concludes(
    alloc: Global,
    line: PlacedLine,
    given: &Abstractions,
    conclusion: &Tree,
) -> Result<bool, NoMemory>
    ensures { IfOk result (λ yes. yes ≡ concludes line.entry.environment.now given.now line.entry.tree.now conclusion.now) }
{
    let said = plain_fact(alloc, &line.environment.scope, line.tree)?;
    is_conclusion(alloc, given, conclusion, &said)
}

/// Whether a fact is an instantiated conclusion.
fn is_conclusion(
    alloc: Global,
    given: &Abstractions,
    conclusion: &Tree,
    fact: &Fact,
) -> Result<bool, NoMemory>
    ensures { IfOk result (λ yes. yes ≡ equal_facts fact.now (instantiated_fact given.now (plain_fact [] conclusion.now))) }
{
    let stated = stated_fact(alloc, conclusion)?;
    is_instantiated(alloc, given, &stated, fact)
}

fn instance_cause(
    alloc: Global,
    line: PlacedLine,
    given: &Abstractions,
    refs: &[Ref],
    claim: &Claim,
) -> Result<Option<Cause>, NoMemory>
    ensures { IfOk result (λ cause. cause ≡ instance_cause line.entry.environment.now given.now line.entry.tree.now refs.now claim.now) }
{
    if !all_meet(alloc, line.environment, given, refs, claim.hyps.items())? {
        return Ok(Some(Cause::HypothesisDiffers));
    }
    if !concludes(alloc, line, given, &claim.conclusion)? {
        return Ok(Some(Cause::ConclusionDiffers));
    }
    Ok(None)
}

/// The first test that a line fails which cites a rule of this claim, from the test of its instantiation on.
fn claim_cause<C: Context>(
    alloc: Global,
    context: &C,
    line: PlacedLine,
    refs: &[Ref],
    given: &[Given],
    claim: &Claim,
) -> Result<Option<Cause>, NoMemory>
    ensures { IfOk result (λ cause. cause ≡ claim_cause (C.world context.now) line.entry.allowed.now line.entry.environment.now line.entry.tree.now refs.now given.now claim.now) }
{
    if !is_instance_of_claim(alloc, context, line, given, claim)? {
        return Ok(Some(Cause::IllFormedInstance));
    }
    given_cause(alloc, line, refs, given, claim)
}

/// The metavariables of a claim.
pub fn metas_of_claim<C: Context>(
    alloc: Global,
    context: &C,
    claim: &Claim,
) -> Result<Metas, NoMemory>
    ensures { IfOk result (λ metas. metas ≡ claim_occurrences (C.world context.now) claim.now) }
{
    let found = claim_occurrences(alloc, context, claim)?;
    Metas::new(alloc, found)
}

/// Whether an instantiation is one of a claim where the line stands.
fn is_instance_of_claim<C: Context>(
    alloc: Global,
    context: &C,
    line: PlacedLine,
    given: &[Given],
    claim: &Claim,
) -> Result<bool, NoMemory>
    ensures { IfOk result (λ yes. yes ≡ is_instance (C.world context.now) line.entry.allowed.now line.entry.environment.now.scope (claim_occurrences (C.world context.now) claim.now) given.now) }
{
    let all = metas_of_claim(alloc, context, claim)?;
    let scope = &line.environment.scope;
    is_instance(alloc, context, line.allowed, scope, &all, given)
}

/// References and line against a claim, instantiated.
fn given_cause(
    alloc: Global,
    line: PlacedLine,
    refs: &[Ref],
    given: &[Given],
    claim: &Claim,
) -> Result<Option<Cause>, NoMemory>
    ensures { IfOk result (λ cause. cause ≡ instance_cause line.entry.environment.now (map (entered line.entry.environment.now.scope) given.now) line.entry.tree.now refs.now claim.now) }
{
    let list = entered_all(alloc, &line.environment.scope, given)?;
    let entered = Abstractions::new(alloc, list)?;
    instance_cause(alloc, line, &entered, refs, claim)
}

/// The first test that a line fails which cites this rule.
fn rule_cause<C: Context>(
    alloc: Global,
    context: &C,
    line: PlacedLine,
    refs: &[Ref],
    given: &[Given],
    cited: Option<&Statement>,
) -> Result<Option<Cause>, NoMemory>
    ensures { IfOk result (λ cause. cause ≡ rule_cause (C.world context.now) line.entry.allowed.now line.entry.environment.now line.entry.tree.now refs.now given.now (option_copied cited.entry)) }
{
    let cited = match cited {
        Some(cited) => cited,
        None => return Ok(Some(Cause::Absent)),
    };
    if !line.allowed.seen.contains(&cited.theory) {
        return Ok(Some(Cause::NotVisible));
    }
    if refs.len() != cited.claim.hyps.len() {
        return Ok(Some(Cause::WrongCount));
    }
    claim_cause(alloc, context, line, refs, given, &cited.claim)
}

/// The first test that a line fails which cites a rule of this name, translated by a morphism where one is named.
fn citing_cause<C: Context>(
    alloc: Global,
    context: &C,
    line: PlacedLine,
    rule: &Name,
    via: &Option<Name>,
    refs: &[Ref],
    given: &[Given],
) -> Result<Option<Cause>, NoMemory>
    ensures { IfOk result (λ cause. cause ≡ citing_cause (C.world context.now) line.entry.allowed.now line.entry.environment.now line.entry.tree.now rule.now via.now refs.now given.now) }
{
    match via {
        None => rule_cause(alloc, context, line, refs, given, context.rule(rule)),
        Some(_) => Ok(Some(Cause::Absent)),
    }
}

/// The first test that a line fails which repeats what is given.
fn same_cause(
    alloc: Global,
    line: PlacedLine,
    given: Option<&Fact>,
) -> Result<Option<Cause>, NoMemory>
    ensures { IfOk result (λ cause. cause ≡ same_cause line.entry.environment.now line.entry.tree.now (option_copied given.entry)) }
{
    match given {
        Some(fact) => match fact {
            Fact::Plain(_) => plain_cause(alloc, line, fact),
            Fact::Sequent { .. } => Ok(Some(Cause::HypothesisDiffers)),
        },
        None => Ok(None),
    }
}

/// Whether all that a justification refers to may be cited.
fn may_cite(environment: &Environment, why: &Why) -> bool
    ensures { result ≡ list_all (is_accessible environment.now) (refs_of why.now) }
{
    match why {
        Why::Rule { refs, .. } | Why::Hypothesis { refs, .. } => are_accessible(
            environment,
            refs.items(),
        ),
        Why::Definition { on, .. } | Why::Same { on } => is_accessible(environment, on),
    }
}

/// The first test that a line of this justification fails, from the test that what it cites is there on.
fn why_cause<C: Context>(
    alloc: Global,
    context: &C,
    line: PlacedLine,
    why: &Why,
) -> Result<Option<Cause>, NoMemory>
    ensures { IfOk result (λ cause. cause ≡ why_cause (C.world context.now) line.entry.allowed.now line.entry.environment.now line.entry.tree.now why.now) }
{
    match why {
        Why::Rule {
            rule,
            via,
            refs,
            inst,
        } => {
            let refs = refs.items();
            citing_cause(alloc, context, line, rule, via, refs, inst.items())
        }
        Why::Hypothesis { n, terms, refs } => {
            let cited = nth(line.environment.hyps.items(), *n);
            let terms = terms.as_slice();
            hypothesis_cause(alloc, context, line, terms, refs.items(), cited)
        }
        Why::Definition { constant, on } => {
            let given = gives(line.environment, on);
            let cited = context.definition(constant);
            definition_cause(alloc, context, line, constant, given, cited)
        }
        Why::Same { on } => same_cause(alloc, line, gives(line.environment, on)),
    }
}

/// The first test that a line of this justification fails, from the test of its references on.
fn justified_cause<C: Context>(
    alloc: Global,
    context: &C,
    line: PlacedLine,
    why: &Why,
) -> Result<Option<Cause>, NoMemory>
    ensures { IfOk result (λ cause. cause ≡ justified_cause (C.world context.now) line.entry.allowed.now line.entry.environment.now line.entry.tree.now why.now) }
{
    if !may_cite(line.environment, why) {
        return Ok(Some(Cause::NotAccessible));
    }
    why_cause(alloc, context, line, why)
}

/// Whether a line says an element.
#[tactic(auto, using(mu_decl::proofs::Layers::variable_equations))]
fn is_element<C: Context>(alloc: Global, context: &C, line: PlacedLine) -> Result<bool, NoMemory>
    ensures { IfOk result (λ yes. yes ≡ is_formed (C.world context.now) line.entry.allowed.now.seen (map expression line.entry.environment.now.scope) E line.entry.tree.now) }
{
    let none = Variables::new(alloc);
    let around = Around {
        scope: &line.environment.scope,
        own: &none,
    };
    is_formed(
        alloc,
        context,
        &line.allowed.seen,
        around,
        Kind::E,
        line.tree,
    )
}

/// The first test that a line fails.
pub fn line_cause<C: Context>(
    alloc: Global,
    context: &C,
    line: PlacedLine,
    why: &Option<Why>,
) -> Result<Option<Cause>, NoMemory>
    ensures { IfOk result (λ cause. cause ≡ line_cause (C.world context.now) line.entry.allowed.now line.entry.environment.now line.entry.tree.now why.now) }
{
    let Some(why) = why else {
        return Ok(Some(Cause::NoJustification));
    };
    if !is_element(alloc, context, line)? {
        return Ok(Some(Cause::IllFormedLine));
    }
    if !has_known_metas(alloc, context, line.allowed, Kind::E, line.tree)? {
        return Ok(Some(Cause::ForeignMeta));
    }
    justified_cause(alloc, context, line, why)
}

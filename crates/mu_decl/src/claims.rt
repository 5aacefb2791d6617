ghost use Rattle.std.specs.Prelude.{◌≡◌, ◌++◌, ◌&&◌, [], map, true, IfOk, OnOk};
ghost use Rattle.std.specs.List.{list_all, flat_map};
ghost use Rattle.mu_tree.specs.declared.claim.Kind.TheVariants.{E};
ghost use Rattle.mu_decl.specs.Formation.{expression, is_formed};
ghost use Rattle.mu_decl.specs.Claims.{names_of, scope_of, types_formed, type_occurrences, hypothesis_occurrences, claim_occurrences, hypothesis_formed, claim_formed, well_formed};

use crate::arities::occurrences_agree;
use crate::contexts::Context;
use crate::formation::{Around, all_formed, is_formed};
use crate::occurring::{Occurrences, all_occurrences, occurrences};
use crate::scopes::Variables;
use mu_tree::{Claim, Hyp, Kind, Name, Names, NoMemory, Sequence, Tree, TypedVar};
use std::alloc::Global;

/// Whether each variable's type is well formed in the scope of the variables before it. Where all are, the variables
/// have come to those that the types began with.
///
/// # Errors
///
/// `NoMemory` may come at any variables; some of them may then have come.
#[tactic(auto, using(crate::proofs::Layers::variable_equations))]
pub fn types_formed<C: Context>(
    alloc: Global,
    context: &C,
    seen: &Names,
    scope: &Variables,
    own: &mut Variables,
    vars: &[TypedVar],
) -> Result<bool, NoMemory>
    ensures formed { IfOk result (λ yes. yes ≡ types_formed (C.world context.now) seen.now (map expression scope.now ++ map expression own.old) vars.now) }
    ensures entered { IfOk result (λ yes. yes ≡ true → own.new ≡ own.old ++ names_of vars.now) }
{
    for var in vars {
        if !is_formed(
            alloc,
            context,
            seen,
            Around { scope, own },
            Kind::T,
            &var.ty,
        )? {
            return Ok(false);
        }
        own.push(alloc, var.name.copy(alloc)?)?;
    }
    Ok(true)
}

/// Whether a tree is a well-formed element with no variable in scope.
fn stated_formed<C: Context>(
    alloc: Global,
    context: &C,
    seen: &Names,
    tree: &Tree,
) -> Result<bool, NoMemory>
    ensures { IfOk result (λ yes. yes ≡ is_formed (C.world context.now) seen.now [] E tree.now) }
{
    let none = Variables::new(alloc);
    let around = Around {
        scope: &none,
        own: &none,
    };
    is_formed(alloc, context, seen, around, Kind::E, tree)
}

fn sequent_formed<C: Context>(
    alloc: Global,
    context: &C,
    seen: &Names,
    vars: &[TypedVar],
    premises: &[Tree],
    upshot: &Tree,
) -> Result<bool, NoMemory>
    ensures { IfOk result (λ yes. yes ≡ (types_formed (C.world context.now) seen.now [] vars.now && list_all (is_formed (C.world context.now) seen.now (scope_of vars.now) E) premises.now && is_formed (C.world context.now) seen.now (scope_of vars.now) E upshot.now)) }
{
    let none = Variables::new(alloc);
    let mut own = Variables::new(alloc);
    if !types_formed(alloc, context, seen, &none, &mut own, vars)? {
        return Ok(false);
    }
    let around = Around {
        scope: &none,
        own: &own,
    };
    if !all_formed(alloc, context, seen, around, premises)? {
        return Ok(false);
    }
    is_formed(alloc, context, seen, around, Kind::E, upshot)
}

fn hypothesis_formed<C: Context>(
    alloc: Global,
    context: &C,
    seen: &Names,
    hypothesis: &Hyp,
) -> Result<bool, NoMemory>
    ensures { IfOk result (λ yes. yes ≡ hypothesis_formed (C.world context.now) seen.now hypothesis.now) }
{
    match hypothesis {
        Hyp::Plain(tree) => stated_formed(alloc, context, seen, tree),
        Hyp::Sequent {
            vars,
            premises,
            upshot,
        } => sequent_formed(
            alloc,
            context,
            seen,
            vars.items(),
            premises.as_slice(),
            upshot,
        ),
    }
}

fn hypotheses_formed<C: Context>(
    alloc: Global,
    context: &C,
    seen: &Names,
    hypotheses: &[Hyp],
) -> Result<bool, NoMemory>
    ensures { IfOk result (λ yes. yes ≡ list_all (hypothesis_formed (C.world context.now) seen.now) hypotheses.now) }
{
    for hypothesis in hypotheses {
        if !hypothesis_formed(alloc, context, seen, hypothesis)? {
            return Ok(false);
        }
    }
    Ok(true)
}

/// Adds the occurrences of metavariables in the types of some variables, in the order of the variables.
///
/// # Errors
///
/// `NoMemory` may come at any variables; some occurrences may then be added.
pub fn add_type_occurrences<C: Context>(
    alloc: Global,
    context: &C,
    vars: &[TypedVar],
    found: &mut Occurrences,
) -> Result<(), NoMemory>
    ensures { OnOk result (found.new ≡ found.old ++ flat_map (type_occurrences (C.world context.now)) vars.now) }
{
    for var in vars {
        occurrences(alloc, context, Kind::T, &var.ty, found)?;
    }
    Ok(())
}

fn add_hypothesis_occurrences<C: Context>(
    alloc: Global,
    context: &C,
    hypothesis: &Hyp,
    found: &mut Occurrences,
) -> Result<(), NoMemory>
    ensures { OnOk result (found.new ≡ found.old ++ hypothesis_occurrences (C.world context.now) hypothesis.now) }
{
    match hypothesis {
        Hyp::Plain(tree) => occurrences(alloc, context, Kind::E, tree, found),
        Hyp::Sequent {
            vars,
            premises,
            upshot,
        } => {
            add_type_occurrences(alloc, context, vars.items(), found)?;
            all_occurrences(alloc, context, premises.as_slice(), found)?;
            occurrences(alloc, context, Kind::E, upshot, found)
        }
    }
}

/// The occurrences of metavariables in a claim: those of its hypotheses in order, then those of its conclusion.
///
/// # Errors
///
/// `NoMemory` may come at any claim.
pub fn claim_occurrences<C: Context>(
    alloc: Global,
    context: &C,
    claim: &Claim,
) -> Result<Occurrences, NoMemory>
    ensures { IfOk result (λ found. found ≡ claim_occurrences (C.world context.now) claim.now) }
{
    let mut found = Sequence::new(alloc);
    for hypothesis in claim.hyps.items() {
        add_hypothesis_occurrences(alloc, context, hypothesis, &mut found)?;
    }
    occurrences(alloc, context, Kind::E, &claim.conclusion, &mut found)?;
    Ok(found)
}

fn claim_formed<C: Context>(
    alloc: Global,
    context: &C,
    seen: &Names,
    claim: &Claim,
) -> Result<bool, NoMemory>
    ensures { IfOk result (λ yes. yes ≡ claim_formed (C.world context.now) seen.now claim.now) }
{
    if !hypotheses_formed(alloc, context, seen, claim.hyps.items())? {
        return Ok(false);
    }
    if !stated_formed(alloc, context, seen, &claim.conclusion)? {
        return Ok(false);
    }
    let found = claim_occurrences(alloc, context, claim)?;
    occurrences_agree(alloc, &found)
}

/// Whether a claim is well formed in a unit: its hypotheses and its conclusion are elements in the units that are
/// seen from it, with no variable in scope but a sequent's own, and no metavariable occurs with two numbers of
/// arguments or with two kinds.
///
/// # Errors
///
/// `NoMemory` may come at any claim.
pub fn well_formed<C: Context>(
    alloc: Global,
    context: &C,
    unit: &Name,
    claim: &Claim,
) -> Result<bool, NoMemory>
    ensures { IfOk result (λ yes. yes ≡ well_formed (C.world context.now) unit.now claim.now) }
{
    let seen = context.seen(alloc, unit)?;
    claim_formed(alloc, context, &seen, claim)
}

ghost use Rattle.std.specs.Prelude.{◌≡◌, false, nat_eq, IfOk, MatchOption};
ghost use Rattle.std.specs.FinMap as finite;
ghost use Rattle.std.specs.List.{list_all};
ghost use Rattle.std.specs.Cmp.Lexicographic.{pointwise};
ghost use Rattle.mu_decl.specs.Formation.{is_formed};
ghost use Rattle.mu_check.specs.Instances.{are_distinct, AreSet, expressions, fits, has_meta, metas_of, is_instance};

use crate::allowed::{Allowed, has_known_metas};
use crate::metas::Metas;
use mu_decl::{Around, Context, Occurrence, Variables, is_formed};
use mu_tree::{Given, Kind, Name, NameSet, Names, NoMemory, Sequence};
use std::alloc::Global;

/// The names as a set, none where one stands twice.
fn distinct(alloc: Global, names: &[Name]) -> Result<Option<NameSet>, NoMemory>
    ensures { IfOk result (λ found. MatchOption found (are_distinct names.now ≡ false) (λ set. AreSet set names.now)) }
{
    let mut set = NameSet::new(alloc);
    for name in names {
        if set.has(name) {
            return Ok(None);
        }
        set.add(name.copy(alloc)?)?;
    }
    Ok(Some(set))
}

fn are_distinct(alloc: Global, names: &[Name]) -> Result<bool, NoMemory>
    ensures { IfOk result (λ yes. yes ≡ are_distinct names.now) }
{
    match distinct(alloc, names)? {
        Some(_) => Ok(true),
        None => Ok(false),
    }
}

fn have_metas(set: &NameSet, all: &[Occurrence]) -> bool
    ensures { result ≡ list_all (λ o. finite.contains_key set.now o.meta) all.now }
{
    all.iter().all(|occurrence| set.has(&occurrence.meta))
}

/// Whether a body may stand for its metavariable, which has to be one of the cited claim.
fn fits<C: Context>(
    alloc: Global,
    context: &C,
    allowed: &Allowed,
    scope: &Variables,
    all: &Metas,
    given: &Given,
) -> Result<bool, NoMemory>
    ensures { IfOk result (λ yes. yes ≡ fits (C.world context.now) allowed.now scope.now all.now given.now) }
{
    let first = match all.first(&given.meta) {
        Some(first) => first,
        None => return Ok(false),
    };
    if first.count != given.params.len() {
        return Ok(false);
    }
    if !are_distinct(alloc, given.params.items())? {
        return Ok(false);
    }
    if !is_body(alloc, context, allowed, scope, first.kind, given)? {
        return Ok(false);
    }
    has_known_metas(alloc, context, allowed, first.kind, &given.body)
}

/// Whether the body of what is given is well formed and of this kind.
fn is_body<C: Context>(
    alloc: Global,
    context: &C,
    allowed: &Allowed,
    scope: &Variables,
    kind: Kind,
    given: &Given,
) -> Result<bool, NoMemory>
    ensures { IfOk result (λ yes. yes ≡ is_formed (C.world context.now) allowed.now.seen (expressions scope.now given.now.params) kind given.now.body) }
{
    let own = Variables::of(alloc, given.params.items())?;
    let around = Around { scope, own: &own };
    is_formed(alloc, context, &allowed.seen, around, kind, &given.body)
}

fn all_fit<C: Context>(
    alloc: Global,
    context: &C,
    allowed: &Allowed,
    scope: &Variables,
    all: &Metas,
    given: &[Given],
) -> Result<bool, NoMemory>
    ensures { IfOk result (λ yes. yes ≡ list_all (fits (C.world context.now) allowed.now scope.now all.now) given.now) }
{
    for each in given {
        if !fits(alloc, context, allowed, scope, all, each)? {
            return Ok(false);
        }
    }
    Ok(true)
}

fn metas_of(alloc: Global, given: &[Given]) -> Result<Names, NoMemory>
    ensures { IfOk result (λ names. names ≡ metas_of given.now) }
{
    let mut names = Sequence::new(alloc);
    for each in given {
        names.push(each.meta.copy(alloc)?)?;
    }
    Ok(names)
}

/// Whether an instantiation gives each metavariable of a claim exactly once, no other, and each by a body that fits.
/// Of the claim it takes the occurrences of metavariables.
pub fn is_instance<C: Context>(
    alloc: Global,
    context: &C,
    allowed: &Allowed,
    scope: &Variables,
    all: &Metas,
    given: &[Given],
) -> Result<bool, NoMemory>
    ensures { IfOk result (λ yes. yes ≡ is_instance (C.world context.now) allowed.now scope.now all.now given.now) }
{
    if !all_fit(alloc, context, allowed, scope, all, given)? {
        return Ok(false);
    }
    let names = metas_of(alloc, given)?;
    match distinct(alloc, names.items())? {
        Some(set) => Ok(have_metas(&set, all.items())),
        None => Ok(false),
    }
}

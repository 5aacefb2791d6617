ghost use Rattle.std.specs.Prelude.{◌≡◌, [], ◌++◌, IfOk, OnOk, length, nat_eq};
ghost use Rattle.std.specs.Option.{option_copied};
ghost use Rattle.mu_decl.specs.Formation.{is_formed, occurrences};
ghost use Rattle.mu_decl.specs.Nameless.{nameless};
ghost use Rattle.mu_decl.specs.Unfolding.{delta_of};
ghost use Rattle.mu_check.specs.Same.{equal_facts};
ghost use Rattle.mu_check.specs.Causes.{test};
ghost use Rattle.mu_check.specs.declared.cause.Cause.TheVariants.{ConclusionDiffers};
ghost use Rattle.mu_check.specs.declared.fact.Fact.TheVariants as fact;
ghost use Rattle.mu_check.specs.Definitions.{parameters, body_formed, definition_formed, unfolded_fact, unfolding_cause, defined_cause, definition_cause};

use crate::cause::Cause;
use crate::fact::{Fact, difference};
use crate::lines::PlacedLine;
use mu_decl::{
    Around, Bare, Binders, ConstDecl, Context, DeltaRule, Scope, Scoped, Variables, delta_of,
    enter, is_formed_within, occurrences, unfolded,
};
use mu_tree::{Definition, Kind, Name, Names, NoMemory, Sequence, Shape, Tree};
use std::alloc::Global;

/// The parameters of a definition as variables, one for each kind.
fn parameters(alloc: Global, names: &[Name], kinds: &[Kind]) -> Result<Scope, NoMemory>
    requires { length names.now ≡ length kinds.now }
    ensures { IfOk result (λ scope. scope ≡ parameters names.now kinds.now) }
{
    let mut scope = Sequence::new(alloc);
    for i in 0..names.len() {
        scope.push(Scoped {
            name: names[i].copy(alloc)?,
            kind: kinds[i],
        })?;
    }
    Ok(scope)
}

fn body_formed<C: Context>(
    alloc: Global,
    context: &C,
    declared: &ConstDecl,
    definition: &Definition,
    kinds: &[Kind],
) -> Result<bool, NoMemory>
    ensures { IfOk result (λ yes. yes ≡ body_formed (C.world context.now) declared.now definition.now kinds.now) }
{
    if kinds.len() != definition.params.len() {
        return Ok(false);
    }
    if !is_body(alloc, context, declared, definition, kinds)? {
        return Ok(false);
    }
    has_no_metas(alloc, context, declared.result, &definition.body)
}

/// Whether the body of a definition is well formed in the constant's unit.
fn is_body<C: Context>(
    alloc: Global,
    context: &C,
    declared: &ConstDecl,
    definition: &Definition,
    kinds: &[Kind],
) -> Result<bool, NoMemory>
    requires { length definition.now.params ≡ length kinds.now }
    ensures { IfOk result (λ yes. yes ≡ is_formed (C.world context.now) ((C.world context.now).seen declared.now.theory) (parameters definition.now.params kinds.now) declared.now.result definition.now.body) }
{
    let seen = context.seen(alloc, &declared.theory)?;
    let mut inner = parameters(alloc, definition.params.items(), kinds)?;
    is_formed_in(
        alloc,
        context,
        &seen,
        &mut inner,
        declared.result,
        &definition.body,
    )
}

/// Whether a tree is well formed with variables of any kind in scope.
fn is_formed_in<C: Context>(
    alloc: Global,
    context: &C,
    seen: &Names,
    inner: &mut Scope,
    kind: Kind,
    tree: &Tree,
) -> Result<bool, NoMemory>
    ensures { IfOk result (λ yes. yes ≡ is_formed (C.world context.now) seen.now inner.old kind tree.now) }
{
    let none = Variables::new(alloc);
    let around = Around {
        scope: &none,
        own: &none,
    };
    is_formed_within(alloc, context, seen, around, inner, kind, tree)
}

/// Whether no metavariable is in a tree of this kind.
fn has_no_metas<C: Context>(
    alloc: Global,
    context: &C,
    kind: Kind,
    tree: &Tree,
) -> Result<bool, NoMemory>
    ensures { IfOk result (λ yes. yes ≡ nat_eq (length (occurrences (C.world context.now) tree.now kind)) 0) }
{
    let mut found = Sequence::new(alloc);
    occurrences(alloc, context, kind, tree, &mut found)?;
    Ok(found.len() == 0)
}

/// Whether a definition of a constant that is declared so is well formed.
fn definition_formed<C: Context>(
    alloc: Global,
    context: &C,
    declared: &ConstDecl,
    definition: &Definition,
) -> Result<bool, NoMemory>
    ensures { IfOk result (λ yes. yes ≡ definition_formed (C.world context.now) declared.now definition.now) }
{
    match &declared.shape {
        Shape::Plain(kinds) => body_formed(alloc, context, declared, definition, kinds.items()),
        Shape::Binder(_) => Ok(false),
    }
}

fn unfolded_fact(alloc: Global, delta: &DeltaRule, tree: &Bare) -> Result<Fact, NoMemory>
    ensures { IfOk result (λ fact. fact ≡ unfolded_fact delta.now tree.now) }
{
    Ok(Fact::Plain(unfolded(alloc, tree, delta)?))
}

/// Line and tree, both unfolded.
fn unfolded_cause(
    alloc: Global,
    line: PlacedLine,
    delta: &DeltaRule,
    tree: &Bare,
) -> Result<Option<Cause>, NoMemory>
    ensures { IfOk result (λ cause. cause ≡ unfolding_cause line.entry.environment.now line.entry.tree.now delta.now (Some (fact.Plain tree.now))) }
{
    let said = unfolded_line(alloc, line, delta)?;
    unfolding_difference(alloc, delta, &said, tree)
}

/// What a line gives, against a tree that is unfolded.
fn unfolding_difference(
    alloc: Global,
    delta: &DeltaRule,
    said: &Fact,
    tree: &Bare,
) -> Result<Option<Cause>, NoMemory>
    ensures { IfOk result (λ cause. cause ≡ test (equal_facts said.now (unfolded_fact delta.now tree.now)) ConclusionDiffers None) }
{
    let wanted = unfolded_fact(alloc, delta, tree)?;
    Ok(difference(said, &wanted))
}

/// The tree of a line, unfolded.
fn unfolded_line(alloc: Global, line: PlacedLine, delta: &DeltaRule) -> Result<Fact, NoMemory>
    ensures { IfOk result (λ fact. fact ≡ unfolded_fact delta.now (nameless line.entry.environment.now.scope [] line.entry.tree.now)) }
{
    let bare = entered_tree(alloc, line)?;
    unfolded_fact(alloc, delta, &bare)
}

fn entered_tree(alloc: Global, line: PlacedLine) -> Result<Bare, NoMemory>
    ensures { IfOk result (λ bare. bare ≡ nameless line.entry.environment.now.scope [] line.entry.tree.now) }
{
    let bound = Binders::new(alloc);
    enter(alloc, line.tree, &line.environment.scope, &bound)
}

/// Line and reference, both unfolded.
fn unfolding_cause(
    alloc: Global,
    line: PlacedLine,
    delta: &DeltaRule,
    given: Option<&Fact>,
) -> Result<Option<Cause>, NoMemory>
    ensures { IfOk result (λ cause. cause ≡ unfolding_cause line.entry.environment.now line.entry.tree.now delta.now (option_copied given.entry)) }
{
    match given {
        Some(Fact::Plain(bare)) => unfolded_cause(alloc, line, delta, bare),
        Some(Fact::Sequent { .. }) => Ok(Some(Cause::HypothesisDiffers)),
        None => Ok(None),
    }
}

fn defined_cause<C: Context>(
    alloc: Global,
    context: &C,
    line: PlacedLine,
    constant: &Name,
    given: Option<&Fact>,
    definition: &Definition,
    declared: Option<&ConstDecl>,
) -> Result<Option<Cause>, NoMemory>
    ensures { IfOk result (λ cause. cause ≡ defined_cause (C.world context.now) line.entry.allowed.now line.entry.environment.now line.entry.tree.now constant.now (option_copied given.entry) definition.now (option_copied declared.entry)) }
{
    let declared = match declared {
        Some(declared) => declared,
        None => return Ok(Some(Cause::NotVisible)),
    };
    if !line.allowed.seen.contains(&declared.theory) {
        return Ok(Some(Cause::NotVisible));
    }
    if !definition_formed(alloc, context, declared, definition)? {
        return Ok(Some(Cause::IllFormedDefinition));
    }
    given_cause(alloc, line, constant, definition, given)
}

/// Line and reference, unfolded by a definition.
fn given_cause(
    alloc: Global,
    line: PlacedLine,
    constant: &Name,
    definition: &Definition,
    given: Option<&Fact>,
) -> Result<Option<Cause>, NoMemory>
    ensures { IfOk result (λ cause. cause ≡ unfolding_cause line.entry.environment.now line.entry.tree.now (delta_of constant.now definition.now) (option_copied given.entry)) }
{
    let delta = delta_of(alloc, constant, definition)?;
    let cause = unfolding_cause(alloc, line, &delta, given)?;
    Ok(cause)
}

/// The first test that a line fails which unfolds the definition of a constant in what is given, from the test that
/// the definition is there on.
pub fn definition_cause<C: Context>(
    alloc: Global,
    context: &C,
    line: PlacedLine,
    constant: &Name,
    given: Option<&Fact>,
    definition: Option<&Definition>,
) -> Result<Option<Cause>, NoMemory>
    ensures { IfOk result (λ cause. cause ≡ definition_cause (C.world context.now) line.entry.allowed.now line.entry.environment.now line.entry.tree.now constant.now (option_copied given.entry) (option_copied definition.entry)) }
{
    match definition {
        Some(definition) => defined_cause(
            alloc,
            context,
            line,
            constant,
            given,
            definition,
            context.constant(constant),
        ),
        None => Ok(Some(Cause::Absent)),
    }
}

ghost use Rattle.std.specs.Prelude.{◌≡◌, ◌++◌, IfOk};
ghost use Rattle.std.specs.List.{list_any, flat_map};
ghost use Rattle.mu_decl.specs.Claims.{type_occurrences, all_occurrences};
ghost use Rattle.mu_check.specs.Metas.{are_known};
ghost use Rattle.mu_check.specs.Blocks.{shadows, block_formed, block_cause};

use crate::allowed::Allowed;
use crate::cause::Cause;
use mu_decl::{
    Around, Context, Variables, add_type_occurrences, all_formed, all_occurrences, types_formed,
};
use mu_tree::{Name, NoMemory, Sequence, Tree, TypedVar};
use std::alloc::Global;

/// A block, without its items.
#[derive(Clone, Copy)]
pub struct BlockHead<'a> {
    /// Its label.
    pub label: &'a Name,
    /// Its variables.
    pub vars: &'a [TypedVar],
    /// What it assumes of them.
    pub assumptions: &'a [Tree],
}

fn shadow(scope: &Variables, vars: &[TypedVar]) -> bool
    ensures { result ≡ list_any (shadows scope.now) vars.now }
{
    vars.iter().any(|var| scope.contains(&var.name))
}

#[tactic(auto, using(mu_decl::proofs::Layers::variable_equations))]
fn block_formed<C: Context>(
    alloc: Global,
    context: &C,
    allowed: &Allowed,
    scope: &Variables,
    head: BlockHead,
) -> Result<bool, NoMemory>
    ensures { IfOk result (λ yes. yes ≡ block_formed (C.world context.now) allowed.now scope.now head.entry.vars.now head.entry.assumptions.now) }
{
    let mut own = Variables::new(alloc);
    if !types_formed(alloc, context, &allowed.seen, scope, &mut own, head.vars)? {
        return Ok(false);
    }
    let around = Around { scope, own: &own };
    all_formed(alloc, context, &allowed.seen, around, head.assumptions)
}

/// The first test that a block fails before its items are looked at.
pub fn block_cause<C: Context>(
    alloc: Global,
    context: &C,
    allowed: &Allowed,
    scope: &Variables,
    head: BlockHead,
) -> Result<Option<Cause>, NoMemory>
    ensures { IfOk result (λ cause. cause ≡ block_cause (C.world context.now) allowed.now scope.now head.entry.vars.now head.entry.assumptions.now) }
{
    if shadow(scope, head.vars) {
        return Ok(Some(Cause::ShadowedVariable));
    }
    if !block_formed(alloc, context, allowed, scope, head)? {
        return Ok(Some(Cause::IllFormedBox));
    }
    if !head_has_known_metas(alloc, context, allowed, head)? {
        return Ok(Some(Cause::ForeignMeta));
    }
    Ok(None)
}

/// Whether the metavariables of a block's head are those of the rule's claim.
fn head_has_known_metas<C: Context>(
    alloc: Global,
    context: &C,
    allowed: &Allowed,
    head: BlockHead,
) -> Result<bool, NoMemory>
    ensures { IfOk result (λ yes. yes ≡ are_known allowed.now.metas (flat_map (type_occurrences (C.world context.now)) head.entry.vars.now ++ all_occurrences (C.world context.now) head.entry.assumptions.now)) }
{
    let mut found = Sequence::new(alloc);
    add_type_occurrences(alloc, context, head.vars, &mut found)?;
    all_occurrences(alloc, context, head.assumptions, &mut found)?;
    Ok(allowed.metas.have(&found))
}

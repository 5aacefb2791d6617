ghost use Rattle.std.specs.Prelude.{◌≡◌, None, Some, IfErr, IfOk, OnOk};
ghost use Rattle.mu_tree.specs.declared.refusal.Refusal.{Refusal as RefusalOf};
ghost use Rattle.mu_edit.specs.Distinct.{repeated_in_claim, repeated_in_hypotheses, repeated_in_hypothesis, repeated_in_instantiation, repeated_in_item, repeated_in_reason, repeated_name, repeated_parameter, repeated_variable, written_meta};

use crate::repeats::first_repeat;
use mu_flat::EditFault;
use mu_proof::Item;
use mu_tree::{Bytes, Claim, Given, Hyp, Name, NoMemory, Refusal, TypedVar, Why};
use std::alloc::Global;

/// Whether no variable of a list stands twice, with the refusal where one does.
///
/// # Errors
///
/// `Refused` with the first that an earlier one equals. `NoMemory`.
pub(crate) fn variables_differ(alloc: Global, vars: &[TypedVar]) -> Result<(), EditFault>
    ensures ok { OnOk result (repeated_variable vars.now ≡ None) }
    ensures fault { IfErr result (λ fault. (refusal : RefusalOf) → fault ≡ EditFault.Refused refusal → repeated_variable vars.now ≡ Some refusal) }
{
    match first_repeat(alloc, vars)? {
        Some(name) => Err(taken(alloc, name)?),
        None => Ok(()),
    }
}

/// Whether no name of a list stands twice, with the refusal where one does.
///
/// # Errors
///
/// `Refused` with the first that an earlier one equals. `NoMemory`.
pub(crate) fn names_differ(alloc: Global, names: &[Name]) -> Result<(), EditFault>
    ensures ok { OnOk result (repeated_name names.now ≡ None) }
    ensures fault { IfErr result (λ fault. (refusal : RefusalOf) → fault ≡ EditFault.Refused refusal → repeated_name names.now ≡ Some refusal) }
{
    match first_repeat(alloc, names)? {
        Some(name) => Err(taken(alloc, name)?),
        None => Ok(()),
    }
}

/// The fault that a name stands twice.
fn taken(alloc: Global, name: &Name) -> Result<EditFault, NoMemory>
    ensures { IfOk result (λ fault. fault ≡ EditFault.Refused (Refusal.Taken name.now)) }
{
    Ok(EditFault::Refused(Refusal::Taken(name.copy(alloc)?.into_bytes())))
}

/// Whether no variable of a sequent in a claim stands twice there, with the refusal where one does.
///
/// # Errors
///
/// `Refused` with the first repeated variable, sequent by sequent. `NoMemory`.
#[tactic(auto, unfolding(crate::specs::Distinct::repeated_in_claim))]
pub(crate) fn sequents_differ(alloc: Global, claim: &Claim) -> Result<(), EditFault>
    ensures ok { OnOk result (repeated_in_claim claim.now ≡ None) }
    ensures fault { IfErr result (λ fault. (refusal : RefusalOf) → fault ≡ EditFault.Refused refusal → repeated_in_claim claim.now ≡ Some refusal) }
{
    for hypothesis in claim.hyps.items() {
        hypothesis_differs(alloc, hypothesis)?;
    }
    Ok(())
}

fn hypothesis_differs(alloc: Global, hypothesis: &Hyp) -> Result<(), EditFault>
    ensures ok { OnOk result (repeated_in_hypothesis hypothesis.now ≡ None) }
    ensures fault { IfErr result (λ fault. (refusal : RefusalOf) → fault ≡ EditFault.Refused refusal → repeated_in_hypothesis hypothesis.now ≡ Some refusal) }
{
    match hypothesis {
        Hyp::Plain(_) => Ok(()),
        Hyp::Sequent { vars, .. } => variables_differ(alloc, vars.items()),
    }
}

/// Whether no metavariable of a justification is given twice, and no parameter of one abstraction, with the refusal where
/// one is.
///
/// # Errors
///
/// `Refused` with the first repeated metavariable, and else the first repeated parameter. `NoMemory`.
#[tactic(auto, unfolding(crate::specs::Distinct::repeated_in_reason))]
pub(crate) fn reason_differs(alloc: Global, why: &Why) -> Result<(), EditFault>
    ensures ok { OnOk result (repeated_in_reason why.now ≡ None) }
    ensures fault { IfErr result (λ fault. (refusal : RefusalOf) → fault ≡ EditFault.Refused refusal → repeated_in_reason why.now ≡ Some refusal) }
{
    match why {
        Why::Rule { inst, .. } => metavariables_differ(alloc, inst.items()),
        Why::Hypothesis { .. } => Ok(()),
        Why::Definition { .. } => Ok(()),
        Why::Same { .. } => Ok(()),
    }
}

fn metavariables_differ(alloc: Global, inst: &[Given]) -> Result<(), EditFault>
    ensures ok { OnOk result (repeated_in_instantiation inst.now ≡ None) }
    ensures fault { IfErr result (λ fault. (refusal : RefusalOf) → fault ≡ EditFault.Refused refusal → repeated_in_instantiation inst.now ≡ Some refusal) }
{
    match first_repeat(alloc, inst)? {
        Some(meta) => Err(EditFault::Refused(Refusal::Taken(written_meta(alloc, meta)?))),
        None => parameters_differ(alloc, inst),
    }
}

/// A metavariable as it is written.
fn written_meta(alloc: Global, meta: &Name) -> Result<Bytes, NoMemory>
    ensures { IfOk result (λ text. text ≡ written_meta meta.now) }
{
    let mut text = Vec::from_slice(alloc, b"?")?;
    text.extend_from_slice(meta.bytes())?;
    Ok(Bytes::from_vec(text))
}

fn parameters_differ(alloc: Global, inst: &[Given]) -> Result<(), EditFault>
    ensures ok { OnOk result (repeated_parameter inst.now ≡ None) }
    ensures fault { IfErr result (λ fault. (refusal : RefusalOf) → fault ≡ EditFault.Refused refusal → repeated_parameter inst.now ≡ Some refusal) }
{
    for given in inst {
        abstraction_differs(alloc, given)?;
    }
    Ok(())
}

fn abstraction_differs(alloc: Global, given: &Given) -> Result<(), EditFault>
    ensures ok { OnOk result (repeated_name given.now.params ≡ None) }
    ensures fault { IfErr result (λ fault. (refusal : RefusalOf) → fault ≡ EditFault.Refused refusal → repeated_name given.now.params ≡ Some refusal) }
{
    names_differ(alloc, given.params.items())
}

/// Whether no variable that an item brings in stands twice, with the refusal where one does.
///
/// # Errors
///
/// `Refused` with the first that an earlier one equals. `NoMemory`.
pub(crate) fn own_variables_differ(alloc: Global, item: &Item) -> Result<(), EditFault>
    ensures ok { OnOk result (repeated_in_item item.now ≡ None) }
    ensures fault { IfErr result (λ fault. (refusal : RefusalOf) → fault ≡ EditFault.Refused refusal → repeated_in_item item.now ≡ Some refusal) }
{
    match item {
        Item::Line { .. } => Ok(()),
        Item::Block { vars, .. } => variables_differ(alloc, vars.items()),
    }
}

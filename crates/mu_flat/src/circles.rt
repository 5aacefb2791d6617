ghost use Rattle.std.specs.Prelude.{◌≡◌, Some, IfOk};
ghost use Rattle.mu_proof.specs.Citations.{cited_by};
ghost use Rattle.mu_proof.specs.declared.citations.Cited.TheVariants.{Rule};
ghost use Rattle.mu_graph.specs.Circles.{GainsAt, IsAcyclic};
ghost use Rattle.mu_flat.specs.ProofTables.{ProofsOf, leads};
ghost use Rattle.mu_flat.specs.Circles.{first_circle};
ghost use Rattle.mu_flat.specs.CiterTables.{HasAllCiters};

use crate::citer_tables::CiterTable;
use crate::proof_tables::ProofTable;
use mu_graph::first_closed;
use mu_proof::Cited;
use mu_tree::{Name, NoMemory, Why};
use std::alloc::Global;

/// The first rule name in byte order that leads back to itself where a rule cites what a reason cites, and no rule does so
/// before. `citers` has the rules that cite a rule. It looks at no more than what the reason leads to, and at little where
/// little leads to the rule.
///
/// # Errors
///
/// `NoMemory`.
pub(crate) fn first_circle(
    alloc: Global,
    proofs: &ProofTable,
    citers: &CiterTable,
    rule: &Name,
    why: &Why,
) -> Result<Option<Name>, NoMemory>
    requires acyclic { IsAcyclic (leads proofs.now) }
    requires citers { HasAllCiters citers.now proofs.now }
    ensures { IfOk result (λ first. (after : ProofsOf) → GainsAt (leads proofs.now) (leads after) (Rule rule.now) (cited_by (Some why.now)) → first ≡ first_circle after) }
{
    let starts = cited_by(alloc, why)?;
    let target = Cited::Rule(rule.copy(alloc)?);
    let first = first_closed(alloc, proofs, citers, starts, &target)?;
    Ok(first)
}

/// What a reason cites.
fn cited_by(alloc: Global, why: &Why) -> Result<Vec<Cited>, NoMemory>
    ensures { IfOk result (λ found. found.items ≡ cited_by (Some why.now)) }
{
    let mut found = Vec::new(alloc);
    if let Why::Rule { rule, via, .. } = why {
        found.push(Cited::Rule(rule.copy(alloc)?))?;
        if let Some(morphism) = via {
            found.push(Cited::Morphism(morphism.copy(alloc)?))?;
        }
    }
    Ok(found)
}

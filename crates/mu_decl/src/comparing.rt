ghost use Rattle.std.specs.Prelude.{◌≡◌, ◌↔◌, IsTrue, IfOk, map};
ghost use Rattle.mu_decl.specs.Instantiating.{instantiated};
ghost use Rattle.mu_decl.specs.Comparing.{read};

use crate::abstractions::Abstractions;
use crate::bare::Bare;
use crate::growing::{MOST_LEVELS, fewer};
use crate::pairing::{Reading, Rest, parts};
use mu_tree::NoMemory;
use std::alloc::Global;

/// Whether a tree is a pattern with all metavariables replaced as `instantiate` does.
///
/// Pattern and tree are compared in step, and the first difference ends the comparison. So the work grows with the
/// tree, however large the instance is.
///
/// # Errors
///
/// `NoMemory` may come at any trees, and comes where the comparison would go down more than four thousand levels.
pub fn is_instance_of(
    alloc: Global,
    given: &Abstractions,
    pattern: &Bare,
    tree: &Bare,
) -> Result<bool, NoMemory>
    ensures { IfOk result (λ yes. IsTrue yes ↔ (instantiated given.now pattern.now ≡ tree.now)) }
{
    agree(
        alloc,
        given,
        Reading::Instantiated,
        pattern,
        tree,
        MOST_LEVELS,
    )
}

/// Whether trees are patterns with all metavariables replaced, each the one at its place.
///
/// # Errors
///
/// As `is_instance_of`.
pub fn are_instances_of(
    alloc: Global,
    given: &Abstractions,
    patterns: &[Bare],
    trees: &[Bare],
) -> Result<bool, NoMemory>
    ensures { IfOk result (λ yes. IsTrue yes ↔ (map (instantiated given.now) patterns.now ≡ trees.now)) }
{
    all_agree(
        alloc,
        given,
        Reading::Instantiated,
        patterns,
        trees,
        u64::MAX,
    )
}

/// Whether a tree is a pattern as it is read.
#[cycle(agree)]
fn agree(
    alloc: Global,
    given: &Abstractions,
    reading: Reading,
    pattern: &Bare,
    tree: &Bare,
    levels: u64,
) -> Result<bool, NoMemory>
    ensures { IfOk result (λ yes. IsTrue yes ↔ (read given.now reading.entry pattern.now ≡ tree.now)) }
{
    let levels = fewer(levels)?;
    match parts(alloc, given, reading, pattern, tree)? {
        Rest::Known(yes) => Ok(yes),
        Rest::One(pair) => agree(alloc, given, pair.reading, pair.pattern, pair.tree, levels),
        Rest::Lowered(argument, outer) => {
            let yes = agree(
                alloc,
                given,
                Reading::Instantiated,
                argument,
                &outer,
                levels,
            )?;
            Ok(yes)
        }
        Rest::All(reading, patterns, trees) => {
            all_agree(alloc, given, reading, patterns, trees, levels)
        }
        Rest::Both(domain, body) => {
            if !agree(
                alloc,
                given,
                domain.reading,
                domain.pattern,
                domain.tree,
                levels,
            )? {
                return Ok(false);
            }
            agree(alloc, given, body.reading, body.pattern, body.tree, levels)
        }
    }
}

/// Whether trees are patterns as they are read, place by place.
#[cycle(agree)]
fn all_agree(
    alloc: Global,
    given: &Abstractions,
    reading: Reading,
    patterns: &[Bare],
    trees: &[Bare],
    levels: u64,
) -> Result<bool, NoMemory>
    ensures { IfOk result (λ yes. IsTrue yes ↔ (map (read given.now reading.entry) patterns.now ≡ trees.now)) }
{
    if patterns.len() != trees.len() {
        return Ok(false);
    }
    for i in 0..patterns.len() {
        if !agree(alloc, given, reading, &patterns[i], &trees[i], levels)? {
            return Ok(false);
        }
    }
    Ok(true)
}

ghost use Rattle.std.specs.Prelude.{◌≡◌, ◌≤◌, ◌↔◌, IfOk, OnOk, map, None, Some};
ghost use Rattle.std.specs.Option.{option_copied};
ghost use Rattle.mu_proof.specs.Proofs.{root};
ghost use Rattle.mu_check.specs.Facts.{plain_fact};
ghost use Rattle.mu_check.specs.Environments.{Keeps, with_item, within, left};
ghost use Rattle.mu_check.specs.Justifications.{line_cause};
ghost use Rattle.mu_check.specs.Blocks.{block_cause};
ghost use Rattle.mu_check.specs.Judgements.{IsRight, VerdictsAreExact};
ghost use Rattle.mu_check.specs.Tests.{VerdictsAreByPlace, CitationsAreByPlace};
ghost use Rattle.mu_check.specs.Verdicts.{labelled, line_tree, last_line, ending_cause, checked, in_order, with_block, allowed_by, verdict};
ghost use Rattle.mu_check.specs.Goals.{conclusion_cause, goal_by, goal_fault, KeepsGoal, IsGoalOf, IsChecker};
ghost use Rattle.mu_tables.specs.Work.{raised};
ghost use Rattle.mu_check.specs.Lines.{lines_of};

use crate::allowed::Allowed;
use crate::blocks::{BlockHead, block_cause};
use crate::cause::{Cause, Fault, Verdict};
use crate::environments::{Environment, Extent, add_item, extent_of, leave, start, within};
use crate::fact::{Fact, difference};
use crate::facts::{closed, plain_fact, stated_fact};
use crate::justifications::{line_cause, metas_of_claim};
use crate::lines::{PlacedLine, lines_of};
use mu_decl::{Context, Statement};
use mu_proof::{Item, Proof};
use mu_tables::Work;
use mu_tree::{Name, NoMemory, Tree, Why};
use std::alloc::Global;

fn blame(alloc: Global, label: &Name, cause: Cause) -> Result<Verdict, NoMemory>
    ensures { IfOk result (λ verdict. verdict ≡ labelled label.now (Some cause)) }
{
    Ok(Some(Fault {
        label: label.copy(alloc)?,
        cause,
    }))
}

fn root(alloc: Global) -> Result<Name, NoMemory>
    ensures { IfOk result (λ name. name ≡ root) }
{
    Name::read(alloc, b"root").map_err(|_| NoMemory)
}

fn blame_root(alloc: Global, cause: Cause) -> Result<Verdict, NoMemory>
    ensures { IfOk result (λ verdict. verdict ≡ labelled root (Some cause)) }
{
    let root = root(alloc)?;
    blame(alloc, &root, cause)
}

#[tactic(auto, using(crate::proofs::CheckedEquations::tree_equations))]
fn line_tree(item: &Item) -> Option<&Tree>
    ensures { option_copied result ≡ line_tree item.now }
{
    match item {
        Item::Line { tree, .. } => Some(tree),
        Item::Block { .. } => None,
    }
}

/// The tree of the last item, where that is a line.
fn last_line(items: &[Item]) -> Option<&Tree>
    ensures { option_copied result ≡ last_line items.now }
{
    match items.last() {
        Some(item) => line_tree(item),
        None => None,
    }
}

/// The fault of a line; where there is none, the line may be cited from now on.
fn line_fault<C: Context>(
    alloc: Global,
    context: &C,
    allowed: &Allowed,
    environment: &mut Environment,
    label: &Name,
    tree: &Tree,
    why: &Option<Why>,
) -> Result<Verdict, NoMemory>
    ensures fault { IfOk result (λ verdict. verdict ≡ labelled label.now (line_cause (C.world context.now) allowed.now environment.old tree.now why.now)) }
    ensures hyps { OnOk result (environment.new.hyps ≡ environment.old.hyps) }
    ensures after { IfOk result (λ verdict. verdict ≡ None → environment.new ≡ with_item label.now (plain_fact environment.old.scope tree.now) environment.old) }
{
    let line = PlacedLine {
        allowed,
        environment,
        tree,
    };
    if let Some(cause) = line_cause(alloc, context, line, why)? {
        return blame(alloc, label, cause);
    }
    let gives = plain_fact(alloc, &environment.scope, tree)?;
    add_item(alloc, environment, label, gives)?;
    Ok(None)
}

/// Enters a block, unless a test before its items fails.
fn open_block<C: Context>(
    alloc: Global,
    context: &C,
    allowed: &Allowed,
    environment: &mut Environment,
    head: BlockHead,
) -> Result<Verdict, NoMemory>
    ensures fault { IfOk result (λ verdict. verdict ≡ labelled head.entry.label.now (block_cause (C.world context.now) allowed.now environment.old.scope head.entry.vars.now head.entry.assumptions.now)) }
    ensures hyps { OnOk result (environment.new.hyps ≡ environment.old.hyps) }
    ensures entered { IfOk result (λ verdict. verdict ≡ None → environment.new ≡ within head.entry.label.now head.entry.vars.now head.entry.assumptions.now environment.old) }
{
    if let Some(cause) = block_cause(alloc, context, allowed, &environment.scope, head)? {
        return blame(alloc, head.label, cause);
    }
    within(alloc, environment, head)?;
    Ok(None)
}

/// Leaves a block, which may be cited from now on if it ends with a line.
fn close_block(
    alloc: Global,
    environment: &mut Environment,
    outer: Extent,
    head: BlockHead,
    last: Option<&Tree>,
) -> Result<Verdict, NoMemory>
    ensures fault { IfOk result (λ verdict. verdict ≡ labelled head.entry.label.now (ending_cause (option_copied last.entry))) }
    ensures hyps { OnOk result (environment.new.hyps ≡ environment.old.hyps) }
    ensures after { IfOk result (λ verdict. verdict ≡ None → environment.new ≡ with_block head.entry.label.now head.entry.vars.now head.entry.assumptions.now (option_copied last.entry) (left outer environment.old)) }
{
    leave(environment, outer);
    match last {
        Some(last) => {
            let gives = closed(alloc, &environment.scope, head.vars, head.assumptions, last)?;
            add_item(alloc, environment, head.label, gives)?;
            Ok(None)
        }
        None => blame(alloc, head.label, Cause::Unfinished),
    }
}

/// The first fault of an item; where there is none, the item may be cited from now on.
#[cycle(item_fault)]
#[tactic(auto, using(crate::proofs::CheckedEquations::checked_equations, crate::proofs::CheckedEquations::ending, crate::proofs::Keeping::left_back, crate::proofs::Keeping::keeps_item, crate::proofs::Keeping::keeps_block, crate::proofs::Keeping::keeps_all, crate::proofs::Keeping::keeps_more))]
fn item_fault<C: Context>(
    alloc: Global,
    context: &C,
    allowed: &Allowed,
    environment: &mut Environment,
    item: &Item,
) -> Result<Verdict, NoMemory>
    ensures fault { IfOk result (λ verdict. verdict ≡ (checked (C.world context.now) allowed.now item.now).fault environment.old) }
    ensures after { IfOk result (λ verdict. verdict ≡ None → environment.new ≡ (checked (C.world context.now) allowed.now item.now).after environment.old) }
    ensures hyps { OnOk result (environment.new.hyps ≡ environment.old.hyps) }
    ensures kept { IfOk result (λ verdict. verdict ≡ None → Keeps environment.old environment.new) }
{
    match item {
        Item::Line { label, tree, why } => {
            line_fault(alloc, context, allowed, environment, label, tree, why)
        }
        Item::Block {
            label,
            vars,
            assumptions,
            items,
        } => {
            let vars = vars.items();
            let assumptions = assumptions.as_slice();
            let head = BlockHead {
                label,
                vars,
                assumptions,
            };
            let items = items.items();
            let outer = extent_of(environment);
            if let Some(found) = open_block(alloc, context, allowed, environment, head)? {
                return Ok(Some(found));
            }
            if let Some(found) = items_fault(alloc, context, allowed, environment, items)? {
                return Ok(Some(found));
            }
            close_block(alloc, environment, outer, head, last_line(items))
        }
    }
}

/// The first fault of some items.
#[cycle(item_fault)]
fn items_fault<C: Context>(
    alloc: Global,
    context: &C,
    allowed: &Allowed,
    environment: &mut Environment,
    items: &[Item],
) -> Result<Verdict, NoMemory>
    ensures fault { IfOk result (λ verdict. verdict ≡ in_order (map (checked (C.world context.now) allowed.now) items.now) environment.old) }
    ensures hyps { OnOk result (environment.new.hyps ≡ environment.old.hyps) }
    ensures kept { IfOk result (λ verdict. verdict ≡ None → Keeps environment.old environment.new) }
{
    for item in items {
        if let Some(found) = item_fault(alloc, context, allowed, environment, item)? {
            return Ok(Some(found));
        }
    }
    Ok(None)
}

/// The last line against the conclusion.
fn conclusion_cause(
    alloc: Global,
    conclusion: &Fact,
    last: Option<&Tree>,
) -> Result<Option<Cause>, NoMemory>
    ensures { IfOk result (λ cause. cause ≡ conclusion_cause conclusion.now (option_copied last.entry)) }
{
    let Some(last) = last else {
        return Ok(Some(Cause::Unfinished));
    };
    let said = stated_fact(alloc, last)?;
    Ok(difference(&said, conclusion))
}

/// What the proofs of a rule are checked against: its claim, entered once for all of them.
#[derive(Drop)]
pub struct Goal {
    /// What the proofs may speak of.
    pub allowed: Allowed,
    /// What may be cited in a proof, the rule's hypotheses among it; what else is left in it by a proof doesn't count.
    pub environment: Environment,
    /// The conclusion.
    pub conclusion: Fact,
}

/// Checks the proofs of one rule.
#[derive(Drop)]
pub struct Checker {
    /// The rule that is to be proved.
    pub rule: Name,
    /// What its proofs are checked against, none where there is no such rule.
    pub goal: Option<Goal>,
}

fn allowed_by<C: Context>(
    alloc: Global,
    context: &C,
    statement: &Statement,
) -> Result<Allowed, NoMemory>
    ensures { IfOk result (λ allowed. allowed ≡ allowed_by (C.world context.now) statement.now) }
{
    let seen = context.seen(alloc, &statement.theory)?;
    let metas = metas_of_claim(alloc, context, &statement.claim)?;
    Ok(Allowed { seen, metas })
}

fn goal_by<C: Context>(alloc: Global, context: &C, statement: &Statement) -> Result<Goal, NoMemory>
    ensures { IfOk result (λ goal. goal ≡ goal_by (C.world context.now) statement.now) }
{
    let allowed = allowed_by(alloc, context, statement)?;
    let environment = start(alloc, &statement.claim)?;
    let conclusion = stated_fact(alloc, &statement.claim.conclusion)?;
    Ok(Goal {
        allowed,
        environment,
        conclusion,
    })
}

fn goal_of<C: Context>(alloc: Global, context: &C, rule: &Name) -> Result<Option<Goal>, NoMemory>
    ensures { IfOk result (λ goal. IsGoalOf (C.world context.now) rule.now goal) }
{
    match context.rule(rule) {
        Some(statement) => {
            let goal = goal_by(alloc, context, statement)?;
            Ok(Some(goal))
        }
        None => Ok(None),
    }
}

/// The first fault of a proof against what it is to prove.
#[tactic(auto, using(crate::proofs::CheckedEquations::ending))]
fn goal_fault<C: Context>(
    alloc: Global,
    context: &C,
    items: &[Item],
    goal: &mut Goal,
) -> Result<Verdict, NoMemory>
    ensures fault { IfOk result (λ verdict. verdict ≡ goal_fault (C.world context.now) goal.old items.now) }
    ensures kept { OnOk result (KeepsGoal goal.old goal.new) }
{
    let nothing = Extent {
        scope: 0,
        blocks: 0,
        items: 0,
    };
    leave(&mut goal.environment, nothing);
    if let Some(found) = items_fault(alloc, context, &goal.allowed, &mut goal.environment, items)? {
        return Ok(Some(found));
    }
    match conclusion_cause(alloc, &goal.conclusion, last_line(items))? {
        Some(cause) => blame_root(alloc, cause),
        None => Ok(None),
    }
}

/// The first fault of a proof of the rule, against what was made ready for it.
#[tactic(auto, using(crate::proofs::GoalLemmas::goal_verdict))]
fn verdict<C: Context>(
    alloc: Global,
    context: &C,
    items: &[Item],
    rule: &Name,
    goal: &mut Option<Goal>,
) -> Result<Verdict, NoMemory>
    requires { IsGoalOf (C.world context.now) rule.now goal.old }
    ensures verdict { IfOk result (λ found. found ≡ verdict (C.world context.now) rule.now items.now) }
    ensures kept { OnOk result (IsGoalOf (C.world context.now) rule.now goal.new) }
{
    match goal {
        Some(goal) => {
            let found = goal_fault(alloc, context, items, goal)?;
            Ok(found)
        }
        None => {
            let found = blame_root(alloc, Cause::NoRule)?;
            Ok(found)
        }
    }
}

impl Checker {
    /// Makes ready what the proofs of the rule of this name are checked against.
    ///
    /// # Errors
    ///
    /// `NoMemory` may come at any rule.
    #[tactic(auto, unfolding(crate::specs::Goals::IsChecker))]
    pub fn new<C: Context>(alloc: Global, context: &C, rule: &Name) -> Result<Checker, NoMemory>
        ensures checker { IfOk result (λ checker. IsChecker (C.world context.now) checker) }
        ensures rule { IfOk result (λ checker. checker.rule ≡ rule.now) }
    {
        let name = rule.copy(alloc)?;
        let goal = goal_of(alloc, context, rule)?;
        Ok(Checker { rule: name, goal })
    }

    /// The verdict on a proof of the rule, in the context that the checker was made in.
    ///
    /// The items are tested from first to last, a block before the items in it and again after them, and the whole
    /// proof last. The label of a fault is that of the item, and `root` for the whole proof. A line that cites a rule
    /// translated by a morphism doesn't hold: its cause is `Absent`, unless an earlier one fits. The lines of the proof
    /// count as work.
    ///
    /// # Errors
    ///
    /// `NoMemory` may come at any proof. The checker is no longer of use then.
    #[tactic(auto, unfolding(crate::specs::Goals::IsChecker))]
    pub fn check<C: Context>(
        &mut self,
        alloc: Global,
        context: &C,
        proof: &Proof,
        work: &mut Work,
    ) -> Result<Verdict, NoMemory>
        requires { IsChecker (C.world context.now) self.old }
        ensures work { work.new.lines ≡ raised work.old.lines (lines_of proof.now) }
        ensures grows { work.old.lines ≤ work.new.lines }
        ensures verdict { IfOk result (λ found. found ≡ verdict (C.world context.now) self.old.rule proof.now) }
        ensures kept { OnOk result (IsChecker (C.world context.now) self.new) }
        ensures rule { OnOk result (self.new.rule ≡ self.old.rule) }
        ensures right { IfOk result (λ found. (found ≡ None) ↔ IsRight (C.world context.now) self.old.rule proof.now) }
        ensures exact { VerdictsAreExact }
        ensures placed { VerdictsAreByPlace }
        ensures cited { CitationsAreByPlace }
    {
        count(proof, work);
        verdict(alloc, context, proof.items(), &self.rule, &mut self.goal)
    }
}

/// Counts the lines of a proof as work.
fn count(proof: &Proof, work: &mut Work)
    ensures work { work.new.lines ≡ raised work.old.lines (lines_of proof.now) }
    ensures grows { work.old.lines ≤ work.new.lines }
{
    let _before = work.lines();
    work.add_lines(lines_of(proof.items()));
}

/// The verdict on a proof of the rule of this name, as a `Checker` of the rule gives it. The lines of the proof count as
/// work, however far the check goes.
///
/// # Errors
///
/// `NoMemory` may come at any proof.
pub fn check_proof<C: Context>(
    alloc: Global,
    context: &C,
    proof: &Proof,
    rule: &Name,
    work: &mut Work,
) -> Result<Verdict, NoMemory>
    ensures work { work.new.lines ≡ raised work.old.lines (lines_of proof.now) }
    ensures verdict { IfOk result (λ found. found ≡ verdict (C.world context.now) rule.now proof.now) }
    ensures right { IfOk result (λ found. (found ≡ None) ↔ IsRight (C.world context.now) rule.now proof.now) }
    ensures exact { VerdictsAreExact }
    ensures placed { VerdictsAreByPlace }
    ensures cited { CitationsAreByPlace }
{
    count(proof, work);
    let mut goal = goal_of(alloc, context, rule)?;
    verdict(alloc, context, proof.items(), rule, &mut goal)
}

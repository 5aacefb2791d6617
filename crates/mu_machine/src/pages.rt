ghost use Rattle.std.specs.Prelude.{◌≡◌, ◌≤◌, ◌++◌, codes, map, IfOk, OnOk};
ghost use Rattle.std.specs.FinMap as finite;
ghost use Rattle.std.specs.List.{flat_map};
ghost use Rattle.mu_check.specs.Goals.{IsChecker};
ghost use Rattle.mu_flat.specs.Entries.{world_of};
ghost use Rattle.mu_check.specs.Verdicts.{verdict};
ghost use Rattle.mu_print.specs.Canonical.{tree_text};
ghost use Rattle.mu_print.specs.Texts.{block_text};
ghost use Rattle.mu_machine.specs.Pages.{cause_word, item_text, proof_line, proof_lines, proof_page, rule_line, rule_names, rule_page, rule_word, status_page, verdict_words, why_text};

use mu_check::{Cause, Checker, Fault, Verdict};
use mu_decl::Statement;
use mu_flat::Store;
use mu_proof::{Item, Proof};
use mu_status::RuleStatus;
use mu_tables::Work;
use mu_tree::{Bytes, Name, NoMemory, Table, Tree, Trees, TypedVars, Why};
use std::alloc::{AllocError, Global};

/// The page that tells the status of a rule with this statement.
///
/// # Errors
///
/// `NoMemory`.
pub(crate) fn status_page(
    alloc: Global,
    rule: &Name,
    statement: &Statement,
    status: RuleStatus,
) -> Result<Bytes, NoMemory>
    ensures { IfOk result (λ page. page ≡ status_page rule.now statement.now status) }
{
    let mut page = Vec::from_slice(alloc, rule.bytes())?;
    page.push(b' ')?;
    page.extend_from_slice(rule_word(statement))?;
    page.push(b' ')?;
    page.extend_from_slice(status.word().as_bytes())?;
    page.push(b'\n')?;
    Ok(Bytes::from_vec(page))
}

/// The page of a rule with this statement and status: what it claims, and what is to be said of each proof of it.
///
/// # Errors
///
/// `NoMemory`.
pub(crate) fn rule_page(
    alloc: Global,
    store: &Store,
    rule: &Name,
    statement: &Statement,
    status: RuleStatus,
    work: &mut Work,
) -> Result<Bytes, NoMemory>
    ensures value { IfOk result (λ page. page ≡ rule_page store.now rule.now statement.now status) }
    ensures work { work.old.lines ≤ work.new.lines }
{
    let mut page = Vec::new(alloc);
    add_rule(&mut page, rule, statement, status)?;
    add_proofs(alloc, &mut page, store, rule, work)?;
    page.extend_from_slice(b"end\n")?;
    Ok(Bytes::from_vec(page))
}

/// The word for a rule.
pub(crate) fn rule_word(statement: &Statement) -> &'static [u8]
    ensures { result.now ≡ rule_word statement.now }
{
    if statement.is_axiom {
        b"axiom"
    } else {
        b"rule"
    }
}

/// Adds the line that says what a rule claims.
#[tactic(auto, using(std::proofs::Common::append_assoc))]
fn add_rule(
    page: &mut Vec<u8>,
    rule: &Name,
    statement: &Statement,
    status: RuleStatus,
) -> Result<(), AllocError>
    ensures { OnOk result (page.new.items ≡ page.old.items ++ rule_line rule.now statement.now status) }
{
    add_names(page, rule, statement)?;
    page.extend_from_slice(status.word().as_bytes())?;
    page.extend_from_slice(b" : ")?;
    mu_print::claim(page, &statement.claim)?;
    page.extend_from_slice(b"\n")
}

/// Adds the word for a rule, its unit and its name.
#[tactic(auto, using(std::proofs::Common::append_assoc), unfolding(crate::specs::Pages::rule_names))]
fn add_names(page: &mut Vec<u8>, rule: &Name, statement: &Statement) -> Result<(), AllocError>
    ensures { OnOk result (page.new.items ≡ page.old.items ++ rule_names rule.now statement.now) }
{
    page.extend_from_slice(rule_word(statement))?;
    page.extend_from_slice(b" ")?;
    page.extend_from_slice(statement.theory.bytes())?;
    page.extend_from_slice(b" ")?;
    page.extend_from_slice(rule.bytes())?;
    page.extend_from_slice(b" ")
}

/// Adds a line for each proof of a rule.
fn add_proofs(
    alloc: Global,
    page: &mut Vec<u8>,
    store: &Store,
    rule: &Name,
    work: &mut Work,
) -> Result<(), NoMemory>
    ensures value { OnOk result (page.new.items ≡ page.old.items ++ proof_lines store.now rule.now) }
    ensures work { work.old.lines ≤ work.new.lines }
{
    match store.proofs().of_rule(rule) {
        Some(proofs) => add_each(alloc, page, store, rule, proofs, work),
        None => Ok(()),
    }
}

/// Adds a line for each of some proofs of a rule.
fn add_each(
    alloc: Global,
    page: &mut Vec<u8>,
    store: &Store,
    rule: &Name,
    proofs: &Table<Proof>,
    work: &mut Work,
) -> Result<(), NoMemory>
    ensures value { OnOk result (page.new.items ≡ page.old.items ++ flat_map (proof_line store.now rule.now) (finite.entries proofs.now)) }
    ensures work { work.old.lines ≤ work.new.lines }
{
    let mut checker = Checker::new(alloc, store, rule)?;
    add_checked(alloc, page, store, proofs, &mut checker, work)
}

/// Adds a line for each of some proofs of the checker's rule.
fn add_checked(
    alloc: Global,
    page: &mut Vec<u8>,
    store: &Store,
    proofs: &Table<Proof>,
    checker: &mut Checker,
    work: &mut Work,
) -> Result<(), NoMemory>
    requires { IsChecker (world_of store.now) checker.old }
    ensures value { OnOk result (page.new.items ≡ page.old.items ++ flat_map (proof_line store.now checker.old.rule) (finite.entries proofs.now)) }
    ensures work { work.old.lines ≤ work.new.lines }
{
    for entry in proofs.entries(alloc)? {
        add_proof(alloc, page, store, entry.0, entry.1, checker, work)?;
    }
    Ok(())
}

/// Adds the line of a proof of the checker's rule.
fn add_proof(
    alloc: Global,
    page: &mut Vec<u8>,
    store: &Store,
    name: &Name,
    proof: &Proof,
    checker: &mut Checker,
    work: &mut Work,
) -> Result<(), NoMemory>
    requires { IsChecker (world_of store.now) checker.old }
    ensures line { OnOk result (page.new.items ≡ page.old.items ++ proof_line store.now checker.old.rule (name.now, proof.now)) }
    ensures kept { OnOk result (IsChecker (world_of store.now) checker.new) }
    ensures rule { OnOk result (checker.new.rule ≡ checker.old.rule) }
    ensures work { work.old.lines ≤ work.new.lines }
{
    page.extend_from_slice(b"proof ")?;
    page.extend_from_slice(name.bytes())?;
    let found = checker.check(alloc, store, proof, work)?;
    add_told(page, &found)?;
    Ok(())
}

/// The page of a proof of a rule: its verdict and its items.
///
/// # Errors
///
/// `NoMemory`.
#[tactic(auto, using(std::proofs::Common::append_assoc), unfolding(crate::specs::Pages::proof_page))]
pub(crate) fn proof_page(
    alloc: Global,
    store: &Store,
    rule: &Name,
    name: &Name,
    proof: &Proof,
    work: &mut Work,
) -> Result<Bytes, NoMemory>
    ensures value { IfOk result (λ page. page ≡ proof_page store.now rule.now name.now proof.now) }
    ensures work { work.old.lines ≤ work.new.lines }
{
    let mut page = Vec::from_slice(alloc, b"proof ")?;
    page.extend_from_slice(rule.bytes())?;
    page.push(b' ')?;
    page.extend_from_slice(name.bytes())?;
    add_verdict(alloc, &mut page, store, rule, proof, work)?;
    add_items(alloc, &mut page, b"", proof.items())?;
    page.extend_from_slice(b"end\n")?;
    Ok(Bytes::from_vec(page))
}

/// Adds what is told of the verdict of a proof of a rule.
fn add_verdict(
    alloc: Global,
    page: &mut Vec<u8>,
    store: &Store,
    rule: &Name,
    proof: &Proof,
    work: &mut Work,
) -> Result<(), NoMemory>
    ensures value { OnOk result (page.new.items ≡ page.old.items ++ verdict_words (verdict (world_of store.now) rule.now proof.now)) }
    ensures work { work.old.lines ≤ work.new.lines }
{
    let mut checker = Checker::new(alloc, store, rule)?;
    let found = checker.check(alloc, store, proof, work)?;
    add_told(page, &found)?;
    Ok(())
}

/// Adds what is told of a verdict.
fn add_told(page: &mut Vec<u8>, found: &Verdict) -> Result<(), AllocError>
    ensures { OnOk result (page.new.items ≡ page.old.items ++ verdict_words found.now) }
{
    match found {
        Some(fault) => add_fault(page, fault),
        None => page.extend_from_slice(b" checks\n"),
    }
}

/// Adds items behind these blanks.
#[cycle(add_item)]
fn add_items(
    alloc: Global,
    page: &mut Vec<u8>,
    blanks: &[u8],
    items: &[Item],
) -> Result<(), AllocError>
    ensures { OnOk result (page.new.items ≡ page.old.items ++ flat_map (λ each. item_text each blanks.now) items.now) }
{
    for item in items {
        add_item(alloc, page, blanks, item)?;
    }
    Ok(())
}

/// Adds an item behind these blanks: a line, or a box and its items, two blanks deeper.
#[cycle(add_item)]
#[tactic(auto, using(std::proofs::Common::append_assoc, crate::proofs::PageLemmas::item_equations))]
fn add_item(alloc: Global, page: &mut Vec<u8>, blanks: &[u8], item: &Item) -> Result<(), AllocError>
    ensures { OnOk result (page.new.items ≡ page.old.items ++ item_text item.now blanks.now) }
{
    match item {
        Item::Line { label, tree, why } => {
            add_line(page, blanks, label, tree, why)?;
            Ok(())
        }
        Item::Block {
            label,
            vars,
            assumptions,
            items,
        } => {
            add_head(page, blanks, label, vars, assumptions)?;
            let deeper = deeper(alloc, blanks)?;
            add_items(alloc, page, &deeper, items.items())?;
            Ok(())
        }
    }
}

/// Two blanks more.
fn deeper(alloc: Global, blanks: &[u8]) -> Result<Vec<u8>, AllocError>
    ensures { IfOk result (λ more. more.items ≡ blanks.now ++ codes "  ") }
{
    let mut more = Vec::from_slice(alloc, blanks)?;
    more.extend_from_slice(b"  ")?;
    Ok(more)
}

/// Adds a line behind these blanks.
#[tactic(auto, using(std::proofs::Common::append_assoc))]
fn add_line(
    page: &mut Vec<u8>,
    blanks: &[u8],
    label: &Name,
    tree: &Tree,
    why: &Option<Why>,
) -> Result<(), AllocError>
    ensures { OnOk result (page.new.items ≡ page.old.items ++ (blanks.now ++ (label.now ++ (codes " : " ++ (tree_text tree.now ++ (codes " by " ++ (why_text why.now ++ codes "\n"))))))) }
{
    page.extend_from_slice(blanks)?;
    page.extend_from_slice(label.bytes())?;
    page.extend_from_slice(b" : ")?;
    mu_print::tree(page, tree)?;
    page.extend_from_slice(b" by ")?;
    add_why(page, why)?;
    page.extend_from_slice(b"\n")
}

/// Adds what a line holds by, or that nothing is said of it.
fn add_why(page: &mut Vec<u8>, why: &Option<Why>) -> Result<(), AllocError>
    ensures { OnOk result (page.new.items ≡ page.old.items ++ why_text why.now) }
{
    match why {
        Some(reason) => mu_print::reason(page, reason),
        None => page.extend_from_slice(b"nothing"),
    }
}

/// Adds the line that a box begins with, behind these blanks.
#[tactic(auto, using(std::proofs::Common::append_assoc))]
fn add_head(
    page: &mut Vec<u8>,
    blanks: &[u8],
    label: &Name,
    vars: &TypedVars,
    assumptions: &Trees,
) -> Result<(), AllocError>
    ensures { OnOk result (page.new.items ≡ page.old.items ++ (blanks.now ++ (codes "box " ++ (label.now ++ (codes " : " ++ (block_text vars.now assumptions.now ++ codes "\n")))))) }
{
    page.extend_from_slice(blanks)?;
    page.extend_from_slice(b"box ")?;
    page.extend_from_slice(label.bytes())?;
    page.extend_from_slice(b" : ")?;
    mu_print::block(page, vars.items(), assumptions.as_slice())?;
    page.extend_from_slice(b"\n")
}

/// Adds what is told of a fault.
fn add_fault(page: &mut Vec<u8>, fault: &Fault) -> Result<(), AllocError>
    ensures { OnOk result (page.new.items ≡ page.old.items ++ verdict_words (Some fault.now)) }
{
    page.extend_from_slice(b" fault ")?;
    page.extend_from_slice(fault.label.bytes())?;
    page.push(b' ')?;
    page.extend_from_slice(cause_word(fault.cause))?;
    page.extend_from_slice(b"\n")
}

/// The word for a cause.
fn cause_word(cause: Cause) -> &'static [u8]
    ensures { result.now ≡ cause_word cause }
{
    match cause {
        Cause::NoRule => b"no-rule",
        Cause::ShadowedVariable => b"shadowed-variable",
        Cause::IllFormedBox => b"ill-formed-box",
        Cause::ForeignMeta => b"foreign-meta",
        Cause::Unfinished => b"unfinished",
        Cause::NoJustification => b"no-justification",
        Cause::IllFormedLine => b"ill-formed-line",
        Cause::NotAccessible => b"not-accessible",
        Cause::Absent => b"absent",
        Cause::NotVisible => b"not-visible",
        Cause::IllFormedDefinition => b"ill-formed-definition",
        Cause::WrongCount => b"wrong-count",
        Cause::IllFormedInstance => b"ill-formed-instance",
        Cause::HypothesisDiffers => b"hypothesis-differs",
        Cause::ConclusionDiffers => b"conclusion-differs",
    }
}

ghost use Rattle.std.specs.Prelude.{◌≡◌, ◌≤◌, ◌∷◌, ◌++◌, [], map, List, Some, IfOk, OnOk};
ghost use Rattle.std.specs.FinMap as finite;
ghost use Rattle.std.specs.List.{list_all, list_any};
ghost use Rattle.mu_proof.specs.Citations.{cites};
ghost use Rattle.mu_proof.specs.declared.citations.Cited.{Cited as CitedOf};
ghost use Rattle.mu_proof.specs.declared.citations.Cited.TheVariants.{Rule};
ghost use Rattle.mu_check.specs.Goals.{IsChecker};
ghost use Rattle.mu_flat.specs.CitedSets.{is_marked};
ghost use Rattle.mu_flat.specs.Entries.{world_of};
ghost use Rattle.mu_flat.specs.ProofTables.{proofs_of};
ghost use Rattle.mu_graph.specs.Derivations.{is_ready};
ghost use Rattle.mu_status.specs.Books.{kept_ways, told_status, Knows, IsBook};
ghost use Rattle.mu_status.specs.Statuses.{proof_ways, way_by, formed_ways, checks, status_unchecked, status_by_proofs};

use crate::sights::Viewer;
use crate::statuses::RuleStatus;
use mu_check::Checker;
use mu_decl::{Context, Statement, well_formed};
use mu_flat::{CitedSet, Store};
use mu_graph::{Inferences, KeySet};
use mu_proof::{Citations, Cited, Proof, cites};
use mu_tables::Work;
use mu_tree::{Name, NoMemory, Sequence, Table};
use std::alloc::Global;

/// What is known of a rule before it is known what is derivable.
#[derive(Drop)]
pub(crate) struct Standing {
    /// The ways to it.
    ways: Sequence<Citations>,
    /// Its status if no derivation has it.
    otherwise: RuleStatus,
}

/// What is known of some rules.
#[derive(Drop)]
pub(crate) struct Book {
    rules: Table<Standing>,
}

impl Book {
    /// The status that is told of a name where what is derivable is marked, none where nothing is known of it.
    pub(crate) fn told_status(&self, marks: &CitedSet, name: &Name) -> Option<RuleStatus>
        ensures { result ≡ told_status (is_marked marks.now.rules marks.now.morphisms (Rule name.now)) (finite.get self.now.rules name.now) }
    {
        match self.rules.get(name) {
            Some(_) if marks.has_rule(name) => Some(RuleStatus::Established),
            Some(known) => Some(known.otherwise),
            None => None,
        }
    }
}

impl Inferences for Book {
    type Set = CitedSet;

    ghost ways = { λ book member. kept_ways book.rules member };

    fn is_ready(&self, key: &Cited, marks: &CitedSet) -> bool {
        match key {
            Cited::Rule(rule) => match self.rules.get(rule) {
                Some(known) => some_marked(known.ways.items(), marks),
                None => false,
            },
            Cited::Morphism(_) => false,
        }
    }
}

fn all_marked(way: &Citations, marks: &CitedSet) -> bool
    ensures { result ≡ list_all (⟦<CitedSet as KeySet>⟧.marked marks.now) way.now }
{
    way.items().iter().all(|member| marks.has(member))
}

fn some_marked(ways: &[Citations], marks: &CitedSet) -> bool
    ensures { result ≡ is_ready (⟦<CitedSet as KeySet>⟧.marked marks.now) ways.now }
{
    ways.iter().any(|way| all_marked(way, marks))
}

/// What each proof of a rule that checks cites. The claim of the rule is made ready once for all of them.
fn proof_ways(
    alloc: Global,
    context: &Viewer,
    rule: &Name,
    proofs: &Table<Proof>,
    work: &mut Work,
) -> Result<Sequence<Citations>, NoMemory>
    ensures value { IfOk result (λ ways. ways ≡ proof_ways context.now.store.now rule.now (finite.entries proofs.now)) }
    ensures work { work.old.lines ≤ work.new.lines }
{
    let mut checker = Checker::new(alloc, context, rule)?;
    checked_ways(alloc, context, proofs, &mut checker, work)
}

/// What each proof of the checker's rule that checks cites.
fn checked_ways(
    alloc: Global,
    context: &Viewer,
    proofs: &Table<Proof>,
    checker: &mut Checker,
    work: &mut Work,
) -> Result<Sequence<Citations>, NoMemory>
    requires { IsChecker (world_of context.now.store.now) checker.old }
    ensures value { IfOk result (λ ways. ways ≡ proof_ways context.now.store.now checker.old.rule (finite.entries proofs.now)) }
    ensures work { work.old.lines ≤ work.new.lines }
{
    let mut ways = Sequence::new(alloc);
    for entry in proofs.entries(alloc)? {
        add_way(alloc, context, entry.1, checker, &mut ways, work)?;
    }
    Ok(ways)
}

/// Adds what a proof of the checker's rule cites, where it checks.
fn add_way(
    alloc: Global,
    context: &Viewer,
    proof: &Proof,
    checker: &mut Checker,
    ways: &mut Sequence<Citations>,
    work: &mut Work,
) -> Result<(), NoMemory>
    requires { IsChecker (world_of context.now.store.now) checker.old }
    ensures ways { OnOk result (ways.new ≡ ways.old ++ way_by context.now.store.now checker.old.rule proof.now) }
    ensures kept { OnOk result (IsChecker (world_of context.now.store.now) checker.new) }
    ensures rule { OnOk result (checker.new.rule ≡ checker.old.rule) }
    ensures work { work.old.lines ≤ work.new.lines }
{
    if checker.check(alloc, context, proof, work)?.is_none() {
        add_citations(alloc, proof, ways)?;
    }
    Ok(())
}

/// Adds what a proof cites.
fn add_citations(
    alloc: Global,
    proof: &Proof,
    ways: &mut Sequence<Citations>,
) -> Result<(), NoMemory>
    ensures { OnOk result (ways.new ≡ ways.old ++ cites proof.now ∷ []) }
{
    ways.push(cites(alloc, proof.items())?)
}

/// The ways to a rule with this statement, whose claim is well formed. Each proof of it is checked once.
fn formed_ways(
    alloc: Global,
    context: &Viewer,
    rule: &Name,
    statement: &Statement,
    work: &mut Work,
) -> Result<Sequence<Citations>, NoMemory>
    ensures value { IfOk result (λ ways. ways ≡ formed_ways context.now.store.now rule.now statement.now) }
    ensures work { work.old.lines ≤ work.new.lines }
{
    let mut ways = Sequence::new(alloc);
    if statement.is_axiom {
        ways.push(Sequence::new(alloc))?;
        return Ok(ways);
    }
    match context.store.proofs().of_rule(rule) {
        Some(proofs) => proof_ways(alloc, context, rule, proofs, work),
        None => Ok(ways),
    }
}

/// The status of a rule without a derivation, where it is known whether a proof of it checks.
fn status_by_proofs(
    alloc: Global,
    store: &Store,
    rule: &Name,
    is_complete: bool,
) -> Result<RuleStatus, NoMemory>
    ensures { IfOk result (λ status. let entries = finite.entries (proofs_of store.now.proofs rule.now) in
        is_complete ≡ list_any (checks store.now rule.now) entries → status ≡ status_by_proofs store.now rule.now entries) }
{
    if is_complete {
        return Ok(RuleStatus::Complete);
    }
    match store.proofs().of_rule(rule) {
        Some(proofs) => status_unchecked(alloc, proofs),
        None => Ok(RuleStatus::Unproved),
    }
}

/// The status of a rule none of whose proofs checks.
fn status_unchecked(alloc: Global, proofs: &Table<Proof>) -> Result<RuleStatus, NoMemory>
    ensures { IfOk result (λ status. status ≡ status_unchecked (finite.entries proofs.now)) }
{
    if proofs.entries(alloc)?.is_empty() {
        return Ok(RuleStatus::Unproved);
    }
    Ok(RuleStatus::Incomplete)
}

/// What is known of a rule with this statement. Each proof of it is checked once.
fn standing_of(
    alloc: Global,
    context: &Viewer,
    rule: &Name,
    statement: &Statement,
    work: &mut Work,
) -> Result<Standing, NoMemory>
    requires { finite.get context.now.store.now.rules rule.now ≡ Some statement.now }
    ensures value { IfOk result (λ known. Knows context.now.store.now rule.now statement.now known) }
    ensures work { work.old.lines ≤ work.new.lines }
{
    if !well_formed(alloc, context, &statement.theory, &statement.claim)? {
        return Ok(Standing {
            ways: Sequence::new(alloc),
            otherwise: RuleStatus::IllFormed,
        });
    }
    let ways = formed_ways(alloc, context, rule, statement, work)?;
    let is_complete = !ways.is_empty();
    let otherwise = status_by_proofs(alloc, context.store, rule, is_complete)?;
    Ok(Standing { ways, otherwise })
}

/// Adds what is known of the rule of a name, where there is one.
fn add_rule(
    alloc: Global,
    viewer: &mut Viewer,
    rule: &Name,
    rules: &mut Table<Standing>,
    work: &mut Work,
) -> Result<(), NoMemory>
    ensures value { OnOk result ((members : List CitedOf) → IsBook viewer.old.store.now members rules.old → IsBook viewer.old.store.now (members ++ Rule rule.now ∷ []) rules.new) }
    ensures store { OnOk result (viewer.new.store ≡ viewer.old.store) }
    ensures work { work.old.lines ≤ work.new.lines }
{
    let store = viewer.store;
    let Some(statement) = store.rule(rule) else {
        return Ok(());
    };
    viewer.look_from(alloc, &statement.theory)?;
    let known = standing_of(alloc, viewer, rule, statement, work)?;
    rules.put(rule.copy(alloc)?, known)?;
    Ok(())
}

/// What is known of the rules among some members. Each proof of a member is checked once for each place where it stands.
pub(crate) fn book_of(
    alloc: Global,
    store: &Store,
    members: &[Cited],
    work: &mut Work,
) -> Result<Book, NoMemory>
    ensures value { IfOk result (λ book. IsBook store.now members.now book.rules) }
    ensures work { work.old.lines ≤ work.new.lines }
{
    let mut viewer = Viewer::new(store);
    let mut rules = Table::new(alloc);
    for member in members {
        if let Cited::Rule(name) = member {
            add_rule(alloc, &mut viewer, name, &mut rules, work)?;
        }
    }
    Ok(Book { rules })
}

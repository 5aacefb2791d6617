ghost use Rattle.std.specs.Prelude.{◌≡◌, ◌<◌, ◌++◌, ℕ, List, None, Some, [], true, is_some, IfOk, OnOk, OnErr, IfErr};
ghost use Rattle.std.specs.Option.{option_copied};
ghost use Rattle.std.specs.FinMap as finite;
ghost use Rattle.mu_tree.specs.Names.{is_segment};
ghost use Rattle.mu_tree.specs.declared.refusal.Refusal.{Refusal as RefusalOf};
ghost use Rattle.mu_proof.specs.declared.items.Item.{Item as ItemOf};
ghost use Rattle.mu_proof.specs.declared.alteration.Alteration.TheVariants as alteration;
ghost use Rattle.mu_proof.specs.Edits.{altered};
ghost use Rattle.mu_flat.specs.Circles.{CirclesAreExact};
ghost use Rattle.mu_flat.specs.CiterTables.{AddsCiter};
ghost use Rattle.mu_flat.specs.Edits.{box_refusal, circle_refusal, cite_refusal, edit_refusal, line_refusal, place_refusal, refusal_in};
ghost use Rattle.mu_flat.specs.ProofEdits.{PutsOpen, fault_of, made};
ghost use Rattle.mu_flat.specs.ProofTables.{ProofsOf, proof_at, proofs_of, with_own, with_proof, without_proof, with_edit_at, count_proofs, leads, led_to, leads_within, cited_in, has_line_at, with_reason_at};

use crate::circles::first_circle;
use crate::cited_sets::CitedSet;
use crate::citer_tables::CiterTable;
use crate::edits::{EditFault, unknown};
use crate::proof_edits::{ProofEdit, edit_proof, try_edit_proof};
use mu_graph::Edges;
use mu_proof::{Cited, Item, Proof, cites};
use mu_tree::{Name, Names, NoMemory, Refusal, Table, Why};
use std::alloc::Global;
use std::marker::Model;

/// The proofs of rules, by the name of their rule, which needn't be there, and their own. As a graph, a rule leads to what
/// its proofs cite, and no rule leads back to itself.
#[derive(Drop)]
pub struct ProofTable {
    by_rule: Table<Table<Proof>>,
    /// The rules that cite a rule, and perhaps some that cited it before.
    citers: CiterTable,
    /// How many proofs there are.
    count: usize,
}

impl Model for ProofTable {
    ghost use Rattle.std.specs.FinMap as map;
    ghost use Rattle.std.specs.Coded.{coded_list, coded_ℕ};
    ghost use Rattle.mu_proof.specs.contracts.items.Item as item;
    ghost use Rattle.mu_flat.specs.KeptProofs.{IsKept};
    ghost use Rattle.mu_flat.specs.ProofTables.{ProofsOf};

    ghost Value = { ProofsOf };

    ghost coded = { map.code (coded_list coded_ℕ) (map.code (coded_list coded_ℕ) (coded_list item.the_row.coded)) };

    ghost view = { λ table. table.by_rule };

    ghost invariant = { IsKept };
}

impl ProofTable {
    /// No proofs, which take no memory yet.
    pub fn new(alloc: Global) -> ProofTable
        ensures { result ≡ finite.empty }
    {
        ProofTable {
            by_rule: Table::new(alloc),
            citers: CiterTable::new(alloc),
            count: 0,
        }
    }

    /// How many proofs there are.
    pub fn count(&self) -> usize
        ensures { result ≡ count_proofs self.now }
    {
        self.count
    }

    /// The proofs of a rule by their names, none where it has none.
    pub fn of_rule(&self, rule: &Name) -> Option<&Table<Proof>>
        ensures { option_copied result ≡ finite.get self.now rule.now }
    {
        self.by_rule.get(rule)
    }

    /// The proof of a rule that has a name, none exactly where there is no such proof.
    pub fn find(&self, rule: &Name, proof: &Name) -> Option<&Proof>
        ensures { option_copied result ≡ proof_at self.now rule.now proof.now }
    {
        match self.by_rule.get(rule) {
            Some(proofs) => proofs.get(proof),
            None => None,
        }
    }

    /// The names of the rules that have proofs, in byte order.
    ///
    /// # Errors
    ///
    /// `NoMemory`.
    pub fn rules(&self, alloc: Global) -> Result<Names, NoMemory>
        ensures { IfOk result (λ names. names ≡ finite.keys self.now) }
    {
        self.by_rule.names(alloc)
    }

    /// Puts an empty proof there as that of a rule and a name.
    ///
    /// # Errors
    ///
    /// `NoMemory` leaves the proofs as they were.
    pub fn add(&mut self, alloc: Global, rule: Name, proof: Name) -> Result<(), NoMemory>
        requires plain { is_segment proof ≡ true }
        requires new { proof_at self.old rule proof ≡ None }
        requires room { count_proofs self.old < 65536 }
        ensures ok { OnOk result (self.new ≡ with_proof self.old rule proof []) }
        ensures err { OnErr result (self.new ≡ self.old) }
    {
        add_in(alloc, &mut self.by_rule, rule, proof)?;
        self.count += 1;
        Ok(())
    }

    /// Takes a proof of a rule out, with all its items, and says whether it was there.
    pub fn take(&mut self, rule: &Name, proof: &Name) -> bool
        ensures found { result ≡ is_some (proof_at self.old rule.now proof.now) }
        ensures taken { self.new ≡ without_proof self.old rule.now proof.now }
    {
        let found = take_in(&mut self.by_rule, rule, proof);
        if found {
            self.count -= 1;
        }
        found
    }

    /// Tells whether there is a place for an item in a block of a proof, right before an item of the block or at its
    /// end, and whether the item brings labels that it may have. It doesn't tell whether there is room for it.
    ///
    /// # Errors
    ///
    /// `Refused` where there is no such proof, block or item, or where a label that the new item brings is taken: the
    /// first of them that fits. `NoMemory` may come at any call.
    pub fn permit_item(
        &self,
        alloc: Global,
        rule: &Name,
        proof: &Name,
        block: &Name,
        before: Option<&Name>,
        item: &Item,
    ) -> Result<(), EditFault>
        ensures ok { OnOk result (place_refusal self.now rule.now proof.now block.now (option_copied before.entry) item.now ≡ None) }
        ensures fault { IfErr result (λ fault. (refusal : RefusalOf) → fault ≡ EditFault.Refused refusal → place_refusal self.now rule.now proof.now block.now (option_copied before.entry) item.now ≡ Some refusal) }
    {
        match self.find(rule, proof) {
            Some(found) => Ok(found.test_place(alloc, block, before, item)?),
            None => Err(unknown(alloc, proof)),
        }
    }

    /// Tells whether there is a line of a label in a proof, in whatever box.
    ///
    /// # Errors
    ///
    /// `Refused` where there is no such proof, and else where it has no such line. `NoMemory` may come at any call.
    pub fn permit_line(
        &self,
        alloc: Global,
        rule: &Name,
        proof: &Name,
        label: &Name,
    ) -> Result<(), EditFault>
        ensures ok { OnOk result (line_refusal self.now rule.now proof.now label.now ≡ None) }
        ensures fault { IfErr result (λ fault. (refusal : RefusalOf) → fault ≡ EditFault.Refused refusal → line_refusal self.now rule.now proof.now label.now ≡ Some refusal) }
    {
        match self.find(rule, proof) {
            Some(found) if found.has_line(label) => Ok(()),
            Some(_) => Err(unknown(alloc, label)),
            None => Err(unknown(alloc, proof)),
        }
    }

    /// Tells whether there is a box of a label in a proof, in whatever box.
    ///
    /// # Errors
    ///
    /// `Refused` where there is no such proof, and else where it has no such box. `NoMemory` may come at any call.
    pub fn permit_box(
        &self,
        alloc: Global,
        rule: &Name,
        proof: &Name,
        label: &Name,
    ) -> Result<(), EditFault>
        ensures ok { OnOk result (box_refusal self.now rule.now proof.now label.now ≡ None) }
        ensures fault { IfErr result (λ fault. (refusal : RefusalOf) → fault ≡ EditFault.Refused refusal → box_refusal self.now rule.now proof.now label.now ≡ Some refusal) }
    {
        match self.find(rule, proof) {
            Some(found) if found.has_box(label) => Ok(()),
            Some(_) => Err(unknown(alloc, label)),
            None => Err(unknown(alloc, proof)),
        }
    }

    /// Makes an edit in a proof that brings no citation into it.
    ///
    /// # Errors
    ///
    /// `Refused` where there is no such proof, and else with the first fault of the edit that fits. `NoMemory` may come at
    /// any call. Each leaves the proofs as they were.
    pub fn edit(
        &mut self,
        alloc: Global,
        rule: &Name,
        proof: &Name,
        edit: ProofEdit,
    ) -> Result<(), EditFault>
        requires { PutsOpen edit }
        ensures ok { OnOk result (edit_refusal self.old rule.now proof.now edit ≡ None) }
        ensures new { OnOk result (self.new ≡ with_edit_at self.old rule.now proof.now edit) }
        ensures fault { IfErr result (λ fault. (refusal : RefusalOf) → fault ≡ EditFault.Refused refusal → edit_refusal self.old rule.now proof.now edit ≡ Some refusal) }
        ensures err { OnErr result (self.new ≡ self.old) }
    {
        edit_in(alloc, &mut self.by_rule, rule, proof, edit)
    }

    /// Tells whether an edit can be made in a proof, and leaves the proofs.
    ///
    /// # Errors
    ///
    /// `Refused` as `edit` would be. `NoMemory` may come at any call.
    pub fn try_edit(
        &self,
        alloc: Global,
        rule: &Name,
        proof: &Name,
        edit: ProofEdit,
    ) -> Result<(), EditFault>
        ensures ok { OnOk result (edit_refusal self.now rule.now proof.now edit ≡ None) }
        ensures fault { IfErr result (λ fault. (refusal : RefusalOf) → fault ≡ EditFault.Refused refusal → edit_refusal self.now rule.now proof.now edit ≡ Some refusal) }
    {
        let Some(found) = self.find(rule, proof) else {
            drop(edit);
            return Err(unknown(alloc, proof));
        };
        try_edit_proof(alloc, found, edit)?;
        Ok(())
    }

    /// Cites a line of a proof to a reason, in place of the one that it had.
    ///
    /// # Errors
    ///
    /// `Refused` where there is no such proof, where it has no such line, and else where afterwards some rule would
    /// lead back to itself: the first of them that fits. `NoMemory` may come at any call. Each leaves the proofs as they
    /// were.
    #[tactic(auto, using(crate::proofs::FirstCircle::circles_are_exact))]
    pub fn cite(
        &mut self,
        alloc: Global,
        rule: &Name,
        proof: &Name,
        label: &Name,
        why: Why,
    ) -> Result<(), EditFault>
        ensures ok { OnOk result (cite_refusal self.old rule.now proof.now label.now why ≡ None) }
        ensures new { OnOk result (self.new ≡ with_reason_at self.old rule.now proof.now label.now (Some why)) }
        ensures fault { IfErr result (λ fault. (refusal : RefusalOf) → fault ≡ EditFault.Refused refusal → cite_refusal self.old rule.now proof.now label.now why ≡ Some refusal) }
        ensures err { OnErr result (self.new ≡ self.old) }
        ensures law { CirclesAreExact }
    {
        self.permit_line(alloc, rule, proof, label)?;
        self.permit_reason(alloc, rule, &why)?;
        add_citer(alloc, &mut self.citers, rule, &why)?;
        set_reason(&mut self.by_rule, rule, proof, label, why);
        Ok(())
    }

    /// Tells whether no rule leads back to itself where a line of some proof of a rule gets a reason.
    ///
    /// # Errors
    ///
    /// `Refused` where some rule would lead back to itself, with the first of them. `NoMemory` may come at any call.
    pub fn permit_reason(&self, alloc: Global, rule: &Name, why: &Why) -> Result<(), EditFault>
        ensures ok { OnOk result ((proof label : List ℕ) → line_refusal self.now rule.now proof label ≡ None → circle_refusal self.now rule.now proof label why.now ≡ None) }
        ensures fault { IfErr result (λ fault. (refusal : RefusalOf) → fault ≡ EditFault.Refused refusal → (proof label : List ℕ) → line_refusal self.now rule.now proof label ≡ None → circle_refusal self.now rule.now proof label why.now ≡ Some refusal) }
    {
        match first_circle(alloc, self, &self.citers, rule, why)? {
            Some(name) => Err(EditFault::Refused(Refusal::Circle(name.into_bytes()))),
            None => Ok(()),
        }
    }
}

/// Puts an empty proof there as that of a rule and a name.
fn add_in(
    alloc: Global,
    by_rule: &mut Table<Table<Proof>>,
    rule: Name,
    proof: Name,
) -> Result<(), NoMemory>
    ensures ok { OnOk result (by_rule.new ≡ with_proof by_rule.old rule proof []) }
    ensures err { OnErr result (by_rule.new ≡ by_rule.old) }
{
    match by_rule.get_mut(&rule) {
        Some(proofs) => proofs.put(proof, Proof::new(alloc)),
        None => add_first(alloc, by_rule, rule, proof),
    }
}

/// Puts an empty proof there as that of a rule that has none.
fn add_first(
    alloc: Global,
    by_rule: &mut Table<Table<Proof>>,
    rule: Name,
    proof: Name,
) -> Result<(), NoMemory>
    requires { finite.get by_rule.old rule ≡ None }
    ensures ok { OnOk result (by_rule.new ≡ with_proof by_rule.old rule proof []) }
    ensures err { OnErr result (by_rule.new ≡ by_rule.old) }
{
    let mut proofs = Table::new(alloc);
    proofs.put(proof, Proof::new(alloc))?;
    by_rule.put(rule, proofs)
}

/// Takes a proof of a rule out, and says whether it was there. A rule name without proofs is not kept.
fn take_in(by_rule: &mut Table<Table<Proof>>, rule: &Name, proof: &Name) -> bool
    ensures found { result ≡ is_some (proof_at by_rule.old rule.now proof.now) }
    ensures taken { by_rule.new ≡ without_proof by_rule.old rule.now proof.now }
{
    let Some(proofs) = by_rule.get_mut(rule) else {
        return false;
    };
    let found = proofs.take(proof).is_some();
    if proofs.is_empty() {
        by_rule.take(rule);
    }
    found
}

/// Makes an edit in a proof.
fn edit_in(
    alloc: Global,
    by_rule: &mut Table<Table<Proof>>,
    rule: &Name,
    proof: &Name,
    edit: ProofEdit,
) -> Result<(), EditFault>
    ensures ok { OnOk result (edit_refusal by_rule.old rule.now proof.now edit ≡ None) }
    ensures new { OnOk result (by_rule.new ≡ with_edit_at by_rule.old rule.now proof.now edit) }
    ensures fault { IfErr result (λ fault. (refusal : RefusalOf) → fault ≡ EditFault.Refused refusal → edit_refusal by_rule.old rule.now proof.now edit ≡ Some refusal) }
    ensures err { OnErr result (by_rule.new ≡ by_rule.old) }
{
    let Some(proofs) = by_rule.get_mut(rule) else {
        drop(edit);
        return Err(unknown(alloc, proof));
    };
    edit_own(alloc, proofs, proof, edit)
}

/// Makes an edit in one of the proofs of a rule.
///
/// An edit that is not made is dropped by a call: the drop of a variable is proved for each kind of edit.
fn edit_own(
    alloc: Global,
    proofs: &mut Table<Proof>,
    proof: &Name,
    edit: ProofEdit,
) -> Result<(), EditFault>
    ensures ok { OnOk result (refusal_in proof.now (fault_of edit) (finite.get proofs.old proof.now) ≡ None) }
    ensures new { OnOk result ((items : List ItemOf) → finite.get proofs.old proof.now ≡ Some items → proofs.new ≡ finite.insert proofs.old proof.now (made edit items)) }
    ensures fault { IfErr result (λ fault. (refusal : RefusalOf) → fault ≡ EditFault.Refused refusal → refusal_in proof.now (fault_of edit) (finite.get proofs.old proof.now) ≡ Some refusal) }
    ensures err { OnErr result (proofs.new ≡ proofs.old) }
{
    let Some(found) = proofs.get_mut(proof) else {
        drop(edit);
        return Err(unknown(alloc, proof));
    };
    edit_proof(alloc, found, edit)?;
    Ok(())
}

/// Sets the reason of a line that is there, in whatever box of a proof. It takes no memory.
fn set_reason(by_rule: &mut Table<Table<Proof>>, rule: &Name, proof: &Name, label: &Name, why: Why)
    requires { has_line_at label.now (proof_at by_rule.old rule.now proof.now) ≡ true }
    ensures { by_rule.new ≡ with_reason_at by_rule.old rule.now proof.now label.now (Some why) }
{
    match by_rule.get_mut(rule) {
        Some(proofs) => set_reason_in(proofs, proof, label, why),
        None => unreachable!(),
    }
}

/// Sets the reason of a line that is there in one of the proofs of a rule.
fn set_reason_in(proofs: &mut Table<Proof>, proof: &Name, label: &Name, why: Why)
    requires { has_line_at label.now (finite.get proofs.old proof.now) ≡ true }
    ensures { (items : List ItemOf) → finite.get proofs.old proof.now ≡ Some items → proofs.new ≡ finite.insert proofs.old proof.now (altered items label.now (alteration.Why (Some why))) }
{
    match proofs.get_mut(proof) {
        Some(found) => {
            found.replace_why(label, Some(why));
        }
        None => unreachable!(),
    }
}

/// Adds a rule as one that cites the rule that a reason cites, where it cites one.
fn add_citer(
    alloc: Global,
    citers: &mut CiterTable,
    citer: &Name,
    why: &Why,
) -> Result<(), NoMemory>
    ensures ok { OnOk result (AddsCiter citers.old citers.new citer.now (Some why.now)) }
    ensures err { OnErr result (citers.new ≡ citers.old) }
{
    if let Why::Rule { rule, .. } = why {
        citers.add(alloc, rule.copy(alloc)?, citer.copy(alloc)?)?;
    }
    Ok(())
}

impl Edges for ProofTable {
    type Set = CitedSet;

    ghost leads = { leads };

    ghost universe = { led_to };

    ghost within = { leads_within };

    fn leads(&self, alloc: Global, key: &Cited) -> Result<Vec<Cited>, NoMemory> {
        let mut found = Vec::new(alloc);
        if let Cited::Rule(rule) = key {
            if let Some(proofs) = self.of_rule(rule) {
                add_cited_in(alloc, proofs, &mut found)?;
            }
        }
        Ok(found)
    }
}

/// Adds what some proofs cite.
fn add_cited_in(
    alloc: Global,
    proofs: &Table<Proof>,
    found: &mut Vec<Cited>,
) -> Result<(), NoMemory>
    ensures { OnOk result (found.new.items ≡ found.old.items ++ cited_in proofs.now) }
{
    for entry in proofs.entries(alloc)? {
        let mut cited = cites(alloc, entry.1.items())?.into_vec();
        found.append(&mut cited)?;
    }
    Ok(())
}

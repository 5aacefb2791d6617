ghost use Rattle.std.specs.Prelude.{◌≡◌, IfOk, OnOk};
ghost use Rattle.std.specs.Option.{option_copied};
ghost use Rattle.mu_check.specs.Metas.{is_known, are_known, first_of, is_tabled, noted, Tells};

use mu_decl::{Occurrence, Occurrences, same_occurrence};
use mu_tree::{Name, NoMemory, Sequence, Table};
use std::alloc::Global;
use std::marker::Model;

/// Occurrences of metavariables, with a table to find those of one metavariable.
///
/// Contracts see the list of the occurrences.
#[derive(Drop)]
pub struct Metas {
    all: Occurrences,
    by_meta: Table<Occurrences>,
}

impl Model for Metas {
    ghost use Rattle.std.specs.Prelude.{List};
    ghost use Rattle.mu_decl.specs.declared.occurring.Occurrence.{Occurrence};
    ghost use Rattle.mu_check.specs.Metas.{Tells};

    ghost Value = { List Occurrence };

    ghost view = { λ metas. metas.all };

    ghost invariant = { λ metas. Tells metas.by_meta metas.all };
}

impl Metas {
    /// Puts occurrences into a table.
    ///
    /// # Errors
    ///
    /// `NoMemory`.
    pub fn new(alloc: Global, all: Occurrences) -> Result<Metas, NoMemory>
        ensures { IfOk result (λ metas. metas ≡ all) }
    {
        let by_meta = tabled(alloc, all.items())?;
        Ok(Metas { all, by_meta })
    }

    /// The occurrences, in order.
    pub fn items(&self) -> &[Occurrence]
        ensures { result.now ≡ self.now }
    {
        self.all.items()
    }

    /// Whether a metavariable occurs in this way.
    fn has(&self, occurrence: &Occurrence) -> bool
        ensures { result ≡ is_known self.now occurrence.now }
    {
        let _all = &self.all;
        is_tabled(&self.by_meta, occurrence)
    }

    /// The first occurrence of a metavariable.
    pub fn first(&self, meta: &Name) -> Option<&Occurrence>
        ensures { option_copied result ≡ first_of self.now meta.now }
    {
        let _all = &self.all;
        match self.by_meta.get(meta) {
            Some(same) => same.items().first(),
            None => None,
        }
    }

    /// Whether all of some metavariables occur in this way.
    pub fn have(&self, all: &Occurrences) -> bool
        ensures { result ≡ are_known self.now all.now }
    {
        all.items().iter().all(|occurrence| self.has(occurrence))
    }
}

fn is_known(occurrence: &Occurrence, all: &[Occurrence]) -> bool
    ensures { result ≡ is_known all.now occurrence.now }
{
    all.iter().any(|other| same_occurrence(occurrence, other))
}

fn is_tabled(table: &Table<Occurrences>, occurrence: &Occurrence) -> bool
    ensures { result ≡ is_tabled table.now occurrence.now }
{
    match table.get(&occurrence.meta) {
        Some(same) => is_known(occurrence, same.items()),
        None => false,
    }
}

/// Adds an occurrence, unless its metavariable occurs in this way already.
fn note(
    alloc: Global,
    table: &mut Table<Occurrences>,
    occurrence: &Occurrence,
) -> Result<(), NoMemory>
    ensures { OnOk result (table.new ≡ noted table.old occurrence.now) }
{
    if is_tabled(table, occurrence) {
        return Ok(());
    }
    let mut same = Sequence::new(alloc);
    let _known = table.swap(&occurrence.meta, &mut same);
    same.push(Occurrence {
        meta: occurrence.meta.copy(alloc)?,
        count: occurrence.count,
        kind: occurrence.kind,
    })?;
    table.put(occurrence.meta.copy(alloc)?, same)?;
    Ok(())
}

fn tabled(alloc: Global, all: &[Occurrence]) -> Result<Table<Occurrences>, NoMemory>
    ensures { IfOk result (λ table. Tells table all.now) }
{
    let mut table = Table::new(alloc);
    for occurrence in all {
        note(alloc, &mut table, occurrence)?;
    }
    Ok(table)
}

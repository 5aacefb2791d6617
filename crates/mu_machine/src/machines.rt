ghost use Rattle.std.specs.Prelude.{◌≡◌, ◌≤◌, IfOk, OnErr};
ghost use Rattle.mu_command.specs.Language.{IsCommand};
ghost use Rattle.mu_flat.specs.Entries.{initial};
ghost use Rattle.mu_status.specs.Statuses.{StatusesAreExact, status_at};
ghost use Rattle.mu_machine.specs.Sound.{IsSound};
ghost use Rattle.mu_machine.specs.Steps.{step};
ghost use Rattle.mu_machine.specs.Tallies.{tallied};

use crate::plans::{Plan, carry_out, plan_of};
use crate::replies::Reply;
use crate::tallies::{Tally, count_rules};
use mu_command::Command;
use mu_flat::Store;
use mu_status::{RuleStatus, status};
use mu_tables::Work;
use mu_tree::{Name, NoMemory};
use std::alloc::Global;
use std::marker::Model;

/// A store that commands are carried out on, one after another. Contracts see the finite maps of the store, which are
/// sound at every moment.
#[derive(Drop)]
pub struct Machine {
    store: Store,
}

impl Model for Machine {
    ghost use Rattle.mu_flat.specs.Entries.{Entries};
    ghost use Rattle.mu_flat.specs.Codes.{code};
    ghost use Rattle.mu_machine.specs.Sound.{IsSound};

    ghost Value = { Entries };

    ghost coded = { code };

    ghost view = { λ inside. inside.store };

    ghost invariant = { λ inside. IsSound inside.store };
}

impl Machine {
    /// A machine whose store has the base theory alone.
    ///
    /// # Errors
    ///
    /// `NoMemory`.
    pub fn new(alloc: Global) -> Result<Machine, NoMemory>
        ensures { IfOk result (λ machine. machine ≡ initial) }
    {
        let store = Store::new(alloc)?;
        Ok(Machine { store })
    }

    /// The store.
    pub fn store(&self) -> &Store
        ensures value { result.now ≡ self.now }
        ensures sound { IsSound self.now }
    {
        &self.store
    }

    /// Carries out a command, where a journal has room for this many bytes. A change is refused as `JournalFull` exactly
    /// where nothing else refuses it and its record, which has six bytes more than its canonical text, would pass the
    /// room. The lines of the proofs that are checked for the command count as work, which never falls.
    ///
    /// # Errors
    ///
    /// `NoMemory` leaves the machine as it was.
    pub fn step(
        &mut self,
        alloc: Global,
        command: Command,
        room: u64,
        work: &mut Work,
    ) -> Result<Reply, NoMemory>
        requires { IsCommand command }
        ensures ok { IfOk result (λ reply. step self.old room command ≡ record { entries = self.new; reply = reply }) }
        ensures err { OnErr result (self.new ≡ self.old) }
        ensures work { work.old.lines ≤ work.new.lines }
    {
        match plan_of(alloc, &self.store, &command, room, work) {
            Ok(Plan::Tell(reply)) => {
                discard(command);
                Ok(reply)
            }
            Ok(Plan::Change(line)) => carry_out(alloc, &mut self.store, command, line),
            Err(NoMemory) => {
                discard(command);
                Err(NoMemory)
            }
        }
    }

    /// The status of the rule of a name, none exactly where there is no such rule. The lines of the proofs that are checked
    /// for it count as work, which never falls.
    ///
    /// # Errors
    ///
    /// `NoMemory`.
    pub fn status(
        &self,
        alloc: Global,
        rule: &Name,
        work: &mut Work,
    ) -> Result<Option<RuleStatus>, NoMemory>
        ensures value { IfOk result (λ status. status ≡ status_at self.now rule.now) }
        ensures work { work.old.lines ≤ work.new.lines }
        ensures laws { StatusesAreExact }
    {
        status(alloc, &self.store, rule, work)
    }

    /// How many rules, axioms among them, have each status. Each stored proof of a rule is checked once.
    ///
    /// # Errors
    ///
    /// `NoMemory`.
    pub fn tally(&self, alloc: Global, work: &mut Work) -> Result<Tally, NoMemory>
        ensures value { IfOk result (λ tally. tally ≡ tallied self.now) }
        ensures work { work.old.lines ≤ work.new.lines }
    {
        count_rules(alloc, &self.store, work)
    }
}

/// Lets a command go. What a command holds has many shapes: letting it go here alone keeps the proof of a step short.
fn discard(_command: Command) {}

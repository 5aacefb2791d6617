ghost use Rattle.std.specs.Prelude.{◌≡◌, true, false, None, IfOk, OnOk, OnErr};
ghost use Rattle.std.specs.Option.{option_copied};
ghost use Rattle.std.specs.FinMap as finite;
ghost use Rattle.mu_graph.specs.Names.{members, led_by, linked, leads_linked};
ghost use Rattle.mu_defs.specs.Indexes.{with_member, with_all, without_member, Keeps};

use mu_graph::Edges;
use mu_tree::{Name, NameSet, Names, NoMemory, Table};
use std::alloc::Global;
use std::marker::Model;

/// A relation between names, from the second to the first: the names that are kept under a name. As a graph, a name leads
/// to those that are kept under it.
#[derive(Drop)]
pub struct Index {
    by_name: Table<NameSet>,
}

impl Model for Index {
    ghost use Rattle.std.specs.FinMap as map;
    ghost use Rattle.std.specs.FinSet as set;
    ghost use Rattle.std.specs.Coded.{coded_list, coded_ℕ};
    ghost use Rattle.mu_tree.specs.Maps.{MapOf, NamesOf};

    ghost Value = { MapOf NamesOf };

    ghost coded = { map.code (coded_list coded_ℕ) (set.code (coded_list coded_ℕ)) };

    ghost view = { λ index. index.by_name };
}

impl Index {
    /// Nothing is kept, which takes no memory yet.
    pub fn new(alloc: Global) -> Index
        ensures { result ≡ finite.empty }
    {
        Index {
            by_name: Table::new(alloc),
        }
    }

    /// The names that are kept under a name, none where no name is.
    pub fn members(&self, name: &Name) -> Option<&NameSet>
        ensures { option_copied result ≡ finite.get self.now name.now }
    {
        self.by_name.get(name)
    }

    /// The names that are kept under a name, in byte order.
    ///
    /// # Errors
    ///
    /// `NoMemory`.
    pub fn names(&self, alloc: Global, name: &Name) -> Result<Names, NoMemory>
        ensures { IfOk result (λ names. names ≡ led_by members self.now name.now) }
    {
        match self.members(name) {
            Some(members) => members.names(alloc),
            None => Ok(Names::new(alloc)),
        }
    }

    /// Keeps a member under a name.
    ///
    /// # Errors
    ///
    /// `NoMemory` leaves the index as it was.
    pub fn add(&mut self, alloc: Global, name: Name, member: Name) -> Result<(), NoMemory>
        ensures ok { OnOk result (self.new ≡ with_member self.old name member) }
        ensures err { OnErr result (self.new ≡ self.old) }
    {
        match self.by_name.get_mut(&name) {
            Some(members) => members.add(member),
            None => self.add_first(alloc, name, member),
        }
    }

    /// Keeps a member under a name, the first one there.
    fn add_first(&mut self, alloc: Global, name: Name, member: Name) -> Result<(), NoMemory>
        requires { finite.get self.old name ≡ None }
        ensures ok { OnOk result (self.new ≡ with_member self.old name member) }
        ensures err { OnErr result (self.new ≡ self.old) }
    {
        let mut members = NameSet::new(alloc);
        members.add(member)?;
        self.by_name.put(name, members)
    }

    /// Keeps a member under each of some names.
    ///
    /// # Errors
    ///
    /// `NoMemory`, and then the member may be kept under some of the names. Nothing that was kept is lost.
    #[tactic(auto, using(crate::proofs::IndexLemmas::keeps_all))]
    pub fn add_all(&mut self, alloc: Global, names: &[Name], member: &Name) -> Result<(), NoMemory>
        ensures ok { OnOk result (self.new ≡ with_all self.old names.now member.now) }
        ensures err { OnErr result (Keeps self.old self.new) }
    {
        for name in names {
            self.add(alloc, name.copy(alloc)?, member.copy(alloc)?)?;
        }
        Ok(())
    }

    /// No longer keeps a member under a name. It takes no memory.
    pub fn take(&mut self, name: &Name, member: &Name)
        ensures { self.new ≡ without_member self.old name.now member.now }
    {
        if self.take_member(name, member) {
            self.by_name.take(name);
        }
    }

    /// Takes a member from those under a name, and says whether some were there and none is left.
    fn take_member(&mut self, name: &Name, member: &Name) -> bool
        ensures some { result ≡ false → self.new ≡ without_member self.old name.now member.now }
        ensures none { result ≡ true → finite.remove self.new name.now ≡ without_member self.old name.now member.now }
    {
        let Some(members) = self.by_name.get_mut(name) else {
            return false;
        };
        members.take(member);
        members.is_empty()
    }
}

/// A name leads to those that are kept under it.
impl Edges for Index {
    type Set = NameSet;

    ghost leads = { led_by members };

    ghost universe = { linked members };

    ghost within = { leads_linked members };

    fn leads(&self, alloc: Global, key: &Name) -> Result<Vec<Name>, NoMemory> {
        Ok(self.names(alloc, key)?.into_vec())
    }
}

ghost use Rattle.std.specs.Prelude.{◌≡◌, ◌↔◌, map, true, false, IsTrue, IfOk, OnOk, OnErr};
ghost use Rattle.std.specs.Borrow.{sem};
ghost use Rattle.std.specs.Option.{option_copied, option_copied_mut, unwrap_or};
ghost use Rattle.mu_tree.specs.Lending.{LendsValue};
ghost use Rattle.std.specs.FinMap as finite;
ghost use Rattle.std.specs.Map.Iter.{deref_pair};

use crate::memory::NoMemory;
use crate::names::{Name, Names};
use crate::sequence::Sequence;
use std::alloc::Global;
use std::collections::BTreeMap;
use std::marker::Model;
use std::mem;

/// A map from names to values. Contracts see the finite map, whose keys are in the byte order of names.
#[derive(Drop)]
pub struct Table<V> {
    entries: BTreeMap<Name, V>,
}

impl<V> Model for Table<V> {
    ghost use Rattle.std.specs.Ordering.{nat_cmp};
    ghost use Rattle.std.specs.Cmp.Lexicographic.{slice_cmp};
    ghost use Rattle.std.specs.FinMap as map;
    ghost use Rattle.std.specs.Coded.{coded_list, coded_ℕ};

    ghost Value = { map.FinMap (slice_cmp nat_cmp) V };

    ghost coded = { map.code (coded_list coded_ℕ) V.code };

    ghost view = { λ table. map.from_entries table.entries.entries };
}

impl<V> Table<V> {
    /// An empty map, which takes no memory yet.
    pub fn new(alloc: Global) -> Table<V>
        ensures { result ≡ finite.empty }
    {
        Table {
            entries: BTreeMap::new(alloc),
        }
    }

    /// The value at a name, none exactly where the map has no such name.
    pub fn get(&self, name: &Name) -> Option<&V>
        ensures { option_copied result ≡ finite.get self.now name.now }
    {
        self.entries.get(name)
    }

    /// Whether the map has a value at a name.
    pub fn has(&self, name: &Name) -> bool
        ensures { result ≡ finite.contains_key self.now name.now }
    {
        self.get(name).is_some()
    }

    /// The number of names with a value.
    pub fn len(&self) -> usize
        ensures { result ≡ finite.len self.now }
    {
        self.entries.len()
    }

    /// Whether no name has a value.
    pub fn is_empty(&self) -> bool
        ensures { IsTrue result ↔ (self.now ≡ finite.empty) }
    {
        self.len() == 0
    }

    /// The names of the map, in byte order.
    ///
    /// # Errors
    ///
    /// `NoMemory`.
    pub fn names(&self, alloc: Global) -> Result<Names, NoMemory>
        ensures { IfOk result (λ names. names ≡ finite.keys self.now) }
    {
        let mut names = Sequence::new(alloc);
        for name in self.entries.keys() {
            names.push(name.copy(alloc)?)?;
        }
        Ok(names)
    }

    /// The names of the map in byte order, each with its value.
    ///
    /// # Errors
    ///
    /// `NoMemory`.
    pub fn entries(&self, alloc: Global) -> Result<Vec<(&Name, &V)>, NoMemory>
        ensures { IfOk result (λ entries. map deref_pair entries.items ≡ finite.entries self.now) }
    {
        let mut entries = Vec::new(alloc);
        for entry in self.entries.iter() {
            entries.push(entry)?;
        }
        Ok(entries)
    }

    /// The value at a name for a change of it, none exactly where the map has no such name.
    pub fn get_mut(&mut self, name: &Name) -> Option<&mut V>
        ensures* writes_back { sem 𝓛 (LendsValue V.row self.entry name.now result) }
        ensures value { option_copied_mut result ≡ finite.get self.old name.now }
    {
        self.entries.get_mut(name)
    }

    /// Exchanges the value at a name for another one, where the map has such a name, and says whether it has. It takes
    /// no memory, so that a value can be taken out, changed and put back.
    pub fn swap(&mut self, name: &Name, value: &mut V) -> bool
        ensures found { result ≡ finite.contains_key self.old name.now }
        ensures value { value.new ≡ unwrap_or (finite.get self.old name.now) value.old }
        ensures there { result ≡ true → self.new ≡ finite.insert self.old name.now value.old }
        ensures none { result ≡ false → self.new ≡ self.old }
    {
        let Some(there) = self.entries.get_mut(name) else {
            return false;
        };
        mem::swap(there, value);
        true
    }
}

impl<V: Drop> Table<V> {
    /// Sets the value at a name.
    ///
    /// # Errors
    ///
    /// `NoMemory` leaves the map as it was.
    pub fn put(&mut self, name: Name, value: V) -> Result<(), NoMemory>
        ensures ok { OnOk result (self.new ≡ finite.insert self.old name value) }
        ensures err { OnErr result (self.new ≡ self.old) }
    {
        match self.entries.insert(name, value) {
            Ok(_) => Ok(()),
            Err(_) => Err(NoMemory),
        }
    }

    /// Takes a name out of the map and gives the value that it had, none exactly where the map has no such name.
    pub fn take(&mut self, name: &Name) -> Option<V>
        ensures value { result ≡ finite.get self.old name.now }
        ensures taken { self.new ≡ finite.remove self.old name.now }
    {
        self.entries.remove(name)
    }
}

/// A set of names.
#[derive(Drop)]
pub struct NameSet {
    marks: Table<()>,
}

impl Model for NameSet {
    ghost use Rattle.std.specs.Ordering.{nat_cmp};
    ghost use Rattle.std.specs.Cmp.Lexicographic.{slice_cmp};
    ghost use Rattle.std.specs.FinMap as map;
    ghost use Rattle.std.specs.FinSet as set;
    ghost use Rattle.std.specs.Coded.{coded_list, coded_ℕ};

    ghost Value = { map.FinMap (slice_cmp nat_cmp) (Unit {0}) };

    ghost coded = { set.code (coded_list coded_ℕ) };

    ghost view = { λ set. set.marks };
}

impl NameSet {
    /// An empty set, which takes no memory yet.
    pub fn new(alloc: Global) -> NameSet
        ensures { result ≡ finite.empty }
    {
        NameSet {
            marks: Table::new(alloc),
        }
    }

    /// Whether the name is in the set.
    pub fn has(&self, name: &Name) -> bool
        ensures { result ≡ finite.contains_key self.now name.now }
    {
        self.marks.has(name)
    }

    /// The names of the set, in byte order.
    ///
    /// # Errors
    ///
    /// `NoMemory`.
    pub fn names(&self, alloc: Global) -> Result<Names, NoMemory>
        ensures { IfOk result (λ names. names ≡ finite.keys self.now) }
    {
        self.marks.names(alloc)
    }

    /// The number of names in the set.
    pub fn len(&self) -> usize
        ensures { result ≡ finite.len self.now }
    {
        self.marks.len()
    }

    /// Whether no name is in the set.
    pub fn is_empty(&self) -> bool
        ensures { IsTrue result ↔ (self.now ≡ finite.empty) }
    {
        self.marks.is_empty()
    }

    /// Takes a name out of the set, and says whether it was there.
    pub fn take(&mut self, name: &Name) -> bool
        ensures found { result ≡ finite.contains_key self.old name.now }
        ensures taken { self.new ≡ finite.remove self.old name.now }
    {
        self.marks.take(name).is_some()
    }

    /// Adds a name.
    ///
    /// # Errors
    ///
    /// `NoMemory` leaves the set as it was.
    pub fn add(&mut self, name: Name) -> Result<(), NoMemory>
        ensures ok { OnOk result (self.new ≡ finite.insert self.old name tt) }
        ensures err { OnErr result (self.new ≡ self.old) }
    {
        self.marks.put(name, ())
    }
}

ghost use Rattle.std.specs.Prelude.{◌≡◌, ◌<◌, ◌≤◌, [], ◌∷◌, ◌++◌, ◌↔◌, Some, length, take, slice_get, remove, IsTrue, IfOk, OnOk, OnErr};
ghost use Rattle.std.specs.List.{insert};
ghost use Rattle.std.specs.Borrow.{sem};
ghost use Rattle.mu_tree.specs.Lending.{LendsItem};

use crate::memory::NoMemory;
use std::alloc::Global;
use std::marker::Model;

/// A growing list. Contracts see the list of its items, so that a copy equals what it was copied from.
#[derive(Debug, Drop)]
pub struct Sequence<T> {
    items: Vec<T>,
}

impl<T> Model for Sequence<T> {
    ghost use Rattle.std.specs.Prelude.{List};
    ghost use Rattle.std.specs.Coded.{coded_list};

    ghost Value = { List T };

    ghost coded = { coded_list T.code };

    ghost view = { λ sequence. sequence.items.items };
}

/// A list of bytes.
pub type Bytes = Sequence<u8>;

/// A list of numbers.
pub type Numbers = Sequence<u64>;

impl<T> Sequence<T> {
    /// An empty list with room for as many items as are said.
    ///
    /// # Errors
    ///
    /// `NoMemory`.
    pub fn with_capacity(alloc: Global, count: usize) -> Result<Sequence<T>, NoMemory>
        ensures { IfOk result (λ list. list ≡ []) }
    {
        Ok(Sequence {
            items: Vec::with_capacity(alloc, count)?,
        })
    }

    /// An empty list, which takes no memory yet.
    pub fn new(alloc: Global) -> Sequence<T>
        ensures { result ≡ [] }
    {
        Sequence {
            items: Vec::new(alloc),
        }
    }

    /// Takes the items of a `Vec` over, without new memory.
    pub fn from_vec(items: Vec<T>) -> Sequence<T>
        ensures { result ≡ items.items }
    {
        Sequence { items }
    }

    /// Gives the items as a `Vec`, without new memory.
    pub fn into_vec(self) -> Vec<T>
        ensures { result.items ≡ self }
    {
        self.items
    }

    /// How many items the list has.
    pub fn len(&self) -> usize
        ensures { result ≡ length self.now }
    {
        self.items.len()
    }

    /// Whether the list has no item.
    pub fn is_empty(&self) -> bool
        ensures { IsTrue result ↔ (self.now ≡ []) }
    {
        self.items.is_empty()
    }

    /// The item at a place from 0, for a change of it.
    pub fn at_mut(&mut self, at: usize) -> &mut T
        requires { at < length self.old }
        ensures* writes_back { sem 𝓛 (LendsItem T.row self.entry at result) }
        ensures value { slice_get self.old at ≡ Some result.now }
    {
        &mut self.items[at]
    }

    /// The items, in order.
    pub fn items(&self) -> &[T]
        ensures { result.now ≡ self.now }
    {
        self.items.as_slice()
    }
}

impl<T: Drop> Sequence<T> {
    /// Adds an item at the end.
    ///
    /// # Errors
    ///
    /// `NoMemory` leaves the list as it was.
    pub fn push(&mut self, item: T) -> Result<(), NoMemory>
        ensures ok { OnOk result (self.new ≡ self.old ++ item ∷ []) }
        ensures err { OnErr result (self.new ≡ self.old) }
    {
        make_room(&mut self.items)?;
        self.items.push(item)?;
        Ok(())
    }

    /// The same items in a list that has no more room than they need.
    ///
    /// # Errors
    ///
    /// `NoMemory`.
    pub fn fit(self, alloc: Global) -> Result<Sequence<T>, NoMemory>
        ensures { IfOk result (λ list. list ≡ self) }
    {
        if self.items.len() == self.items.capacity() {
            return Ok(self);
        }
        let mut items = Vec::with_capacity(alloc, self.items.len())?;
        for item in self.items {
            items.push(item)?;
        }
        Ok(Sequence { items })
    }

    /// Puts an item in at a place from 0, before the one that stands there, or at the end where that is the place.
    ///
    /// # Errors
    ///
    /// `NoMemory` leaves the list as it was.
    pub fn insert(&mut self, at: usize, item: T) -> Result<(), NoMemory>
        requires { at ≤ length self.old }
        ensures ok { OnOk result (self.new ≡ insert self.old at item) }
        ensures err { OnErr result (self.new ≡ self.old) }
    {
        make_room(&mut self.items)?;
        self.items.insert(at, item)?;
        Ok(())
    }

    /// Takes out the item at a place from 0.
    pub fn remove(&mut self, at: usize) -> T
        requires { at < length self.old }
        ensures item { slice_get self.old at ≡ Some result }
        ensures rest { self.new ≡ remove self.old at }
    {
        self.items.remove(at)
    }

    /// Keeps the first `count` items.
    pub fn truncate(&mut self, count: usize)
        ensures { self.new ≡ take count self.old }
    {
        self.items.truncate(count);
    }
}

/// Makes room for one more item where there is none. A list keeps at most a quarter more room than it needs, since most
/// lists of a store have one item or two and stay for long.
fn make_room<T>(items: &mut Vec<T>) -> Result<(), NoMemory>
    ensures { items.new.items ≡ items.old.items }
{
    let count = items.len();
    if count == items.capacity() {
        items.reserve_exact(count / 4 + 1)?;
    }
    Ok(())
}

ghost use Rattle.std.specs.Prelude.{◌≡◌, ◌↔◌, ◌≤◌, ◌+◌, ◌++◌, ◌∷◌, [], length, drop, slice_get, Some, OnOk, OnErr, IsNone, IfSome};

use mu_tree::{Bytes, NoMemory, Sequence};
use std::alloc::Global;
use std::marker::Model;

/// The bytes of records, in order. Contracts see a list of lists of bytes.
#[derive(Drop)]
pub struct Records {
    alloc: Global,
    rows: Sequence<Bytes>,
}

impl Model for Records {
    ghost use Rattle.std.specs.Prelude.{List, ℕ};

    ghost Value = { List (List ℕ) };

    ghost view = { λ records. records.rows };
}

impl Records {
    /// No records, which take no memory yet.
    pub fn new(alloc: Global) -> Records
        ensures { result ≡ [] }
    {
        Records {
            alloc,
            rows: Sequence::new(alloc),
        }
    }

    /// Adds a copy of these bytes as one record at the end.
    ///
    /// # Errors
    ///
    /// `NoMemory` leaves the records as they were.
    pub fn push(&mut self, one: &[u8]) -> Result<(), NoMemory>
        ensures ok { OnOk result (self.new ≡ self.old ++ one.now ∷ []) }
        ensures err { OnErr result (self.new ≡ self.old) }
    {
        let row = one.to_vec(self.alloc)?;
        self.add(Bytes::from_vec(row))
    }

    // Adds these bytes as one record at the end.
    pub(crate) fn add(&mut self, row: Bytes) -> Result<(), NoMemory>
        ensures ok { OnOk result (self.new ≡ self.old ++ row ∷ []) }
        ensures err { OnErr result (self.new ≡ self.old) }
    {
        self.rows.push(row)
    }

    /// The bytes of the record at a place from 0, and nothing past the last.
    pub fn nth(&self, i: usize) -> Option<&[u8]>
        ensures none { IsNone result ↔ (length self.now ≤ i) }
        ensures one { IfSome result (λ one. slice_get self.now i ≡ Some one.now) }
        ensures rest { IfSome result (λ one. drop i self.now ≡ one.now ∷ drop (i + 1) self.now) }
    {
        match self.rows.items().get(i) {
            Some(row) => Some(row.items()),
            None => None,
        }
    }
}

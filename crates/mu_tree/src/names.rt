ghost use Rattle.std.specs.Prelude.{◌≡◌, ◌==◌, ◌&&◌, true, false, nat_le, length, Some, refl, IfOk, IfErr, IsTrue};
ghost use Rattle.std.specs.Bool.{nat_eq};
ghost use Rattle.std.specs.List.{list_all, slice_split};
ghost use Rattle.std.specs.Ordering.{nat_cmp};
ghost use Rattle.std.specs.Cmp.{partial_equiv_from_equiv};
ghost use Rattle.std.specs.Cmp.Lexicographic.{pointwise, slice_cmp, nat_list_eq_equiv, nat_list_cmp_total, texts_po, texts_ties};
ghost use Rattle.mu_tree.specs.Names.{IsName, is_name as name_test, is_segment as segment_test, are_segments as segments_test, is_short as short_test, segments, is_among};

use crate::bytes::{are_name_bytes, is_letter};
use crate::memory::NoMemory;
use crate::sequence::{Bytes, Sequence};
use std::alloc::{AllocError, Global};
use std::cmp::Ordering;
use std::marker::Model;

/// The most segments that a name may have.
const MOST_SEGMENTS: usize = 3;

/// The most bytes that a segment of a name may have.
const LONGEST_SEGMENT: usize = 64;

/// A name: one to three segments joined by dots, each a letter and then letters, digits and `_`, of at most 64 bytes.
///
/// Contracts see its bytes. Names are equal where their bytes are, and in the order of their bytes.
#[derive(Debug, Drop)]
pub struct Name {
    bytes: Vec<u8>,
}

impl Model for Name {
    ghost use Rattle.std.specs.Prelude.{List, ℕ};
    ghost use Rattle.mu_tree.specs.Names.{IsName};

    ghost Value = { List ℕ };

    ghost view = { λ name. name.bytes.items };

    ghost invariant = { λ name. IsName name.bytes.items };
}

/// Why a text is no name.
#[derive(Clone, Copy, Debug)]
pub enum NameFault {
    /// It is not one to three segments joined by dots.
    Malformed,
    /// It is, and a segment has more than 64 bytes.
    SegmentTooLong,
    /// Memory ran out.
    NoMemory,
}

impl From<AllocError> for NameFault {
    ghost use Rattle.std.specs.Prelude.{◌≡◌};
    ghost use Rattle.mu_tree.specs.declared.names.NameFault.TheVariants.{NoMemory};

    ghost from_gives = { λ _ fault. fault ≡ NoMemory };

    fn from(_error: AllocError) -> NameFault {
        NameFault::NoMemory
    }
}

impl Name {
    /// Reads a text as a name.
    ///
    /// # Errors
    ///
    /// `Malformed` where the text is not spelled as a name, and else `SegmentTooLong` where a segment has more than
    /// 64 bytes. `NoMemory` may come at any text.
    pub fn read(alloc: Global, text: &[u8]) -> Result<Name, NameFault>
        ensures ok { IfOk result (λ name. name ≡ text.now) }
        ensures name { IfOk result (λ _. IsName text.now) }
        ensures malformed { IfErr result (λ fault. fault ≡ NameFault.Malformed → name_test text.now ≡ false) }
        ensures long { IfErr result (λ fault. fault ≡ NameFault.SegmentTooLong → (name_test text.now ≡ true)) }
        ensures limit { IfErr result (λ fault. fault ≡ NameFault.SegmentTooLong → (short_test text.now ≡ false)) }
    {
        if !is_name(text) {
            return Err(NameFault::Malformed);
        }
        if !is_short(text) {
            return Err(NameFault::SegmentTooLong);
        }
        let bytes = Vec::from_slice(alloc, text)?;
        Ok(Name { bytes })
    }

    /// Some name, to stand where the bytes of one are not kept.
    ///
    /// # Errors
    ///
    /// `NoMemory`.
    pub fn placeholder(alloc: Global) -> Result<Name, NoMemory> {
        let bytes = Vec::from_slice(alloc, b"x")?;
        Ok(Name { bytes })
    }

    /// The name's bytes.
    pub fn bytes(&self) -> &[u8]
        ensures all { result.now ≡ self.now }
        ensures name { IsName self.now }
    {
        self.bytes.as_slice()
    }

    /// The name's bytes, without new memory.
    pub fn into_bytes(self) -> Bytes
        ensures { result ≡ self }
    {
        Bytes::from_vec(self.bytes)
    }

    /// Whether the name has one segment alone.
    pub fn is_plain(&self) -> bool
        ensures { result ≡ segment_test self.now }
    {
        is_segment(self.bytes())
    }

    /// An equal name in memory of its own.
    pub fn copy(&self, alloc: Global) -> Result<Name, NoMemory>
        ensures { IfOk result (λ name. name ≡ self.now) }
    {
        let bytes = Vec::from_slice(alloc, self.bytes.as_slice())?;
        Ok(Name { bytes })
    }
}

fn is_segment(text: &[u8]) -> bool
    ensures { result ≡ segment_test text.now }
{
    match text {
        [first, rest @ ..] => is_letter(*first) && are_name_bytes(rest),
        [] => false,
    }
}

fn are_segments(text: &[u8]) -> bool
    ensures { result ≡ segments_test text.now }
{
    text.split(|byte| *byte == b'.')
        .all(|segment| is_segment(segment))
}

fn count_segments(text: &[u8]) -> usize
    ensures { result ≡ length (segments text.now) }
{
    text.split(|byte| *byte == b'.').count()
}

fn is_name(text: &[u8]) -> bool
    ensures { result ≡ name_test text.now }
{
    are_segments(text) && count_segments(text) <= MOST_SEGMENTS
}

/// Whether no segment of the text, its parts between dots, has more bytes than a name may have.
pub fn is_short(text: &[u8]) -> bool
    ensures { result ≡ short_test text.now }
{
    text.split(|byte| *byte == b'.')
        .all(|segment| segment.len() <= LONGEST_SEGMENT)
}

impl PartialEq for Name {
    ghost eq = { pointwise nat_eq };

    ghost laws = { partial_equiv_from_equiv nat_list_eq_equiv };

    fn eq(&self, other: &Name) -> bool {
        self.bytes() == other.bytes()
    }
}

impl Eq for Name {
    ghost laws = { nat_list_eq_equiv };
}

impl PartialOrd for Name {
    ghost partial_cmp = { λ x y. Some (slice_cmp nat_cmp x y) };

    ghost laws = { texts_po };

    fn partial_cmp(&self, other: &Name) -> Option<Ordering> {
        Some(self.cmp(other))
    }
}

impl Ord for Name {
    ghost cmp = { slice_cmp nat_cmp };

    ghost total = { nat_list_cmp_total };

    ghost matches_partial_cmp = { λ x y. refl };

    ghost matches_eq = { texts_ties };

    fn cmp(&self, other: &Name) -> Ordering {
        self.bytes().cmp(other.bytes())
    }
}

/// A list of names.
pub type Names = Sequence<Name>;

impl Sequence<Name> {
    /// Whether a name is in the list.
    pub fn contains(&self, name: &Name) -> bool
        ensures { result ≡ is_among self.now name.now }
    {
        self.items().contains(name)
    }
}

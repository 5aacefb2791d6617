ghost use Rattle.std.specs.Prelude.{◌≡◌, ◌≤◌, ◌<◌, ◌+◌, ◌^◌, List, ℕ, length, IsTrue, IsFalse};
ghost use Rattle.mu_journal.specs.Gates.{IsKnown, IsGate};

/// What stands at the place of a gate.
#[derive(Clone, Copy)]
pub(crate) enum Gate {
    /// The journal ends here, at this byte.
    End(u8),
    /// An open gate stands before something that is no whole record.
    Broken,
    /// An open gate stands before a record of so many bytes.
    Record(u32),
}

/// An open gate. Each other byte is a closed one.
pub(crate) const OPEN: u8 = 0xA5;

/// The most bytes of a record.
const MAX_RECORD: u32 = 1 << 24;

/// What the bytes from a gate's place on show, in a content of this length: five of them, or all there are.
pub(crate) fn gate_of(known: &[u8], at: u64, len: u64) -> Gate
    requires small { at + 5 < 2 ^ 63 }
    ensures within { (size : ℕ) → result ≡ Gate.Record size → (1 ≤ size) × (size ≤ 2 ^ 24) × (at + 6 + size ≤ len) }
    ensures gate { (content : List ℕ) → IsKnown content at known.now → (length known.now < 5 → length content ≤ at + length known.now)
        → at < length content → length content ≡ len → IsGate content at result }
{
    if known.is_empty() {
        return Gate::Broken;
    }
    let gate = known[0];
    if gate != OPEN {
        return Gate::End(gate);
    }
    if known.len() < 2 {
        return Gate::End(gate);
    }
    if known.len() < 5 {
        return Gate::Broken;
    }
    let size = u32::from_be_bytes([known[1], known[2], known[3], known[4]]);
    if fits_in(size, at, len) {
        Gate::Record(size)
    } else {
        Gate::Broken
    }
}

/// Whether a record of so many bytes, its length and its gate fit behind an open gate.
fn fits_in(size: u32, at: u64, len: u64) -> bool
    requires small { at + 5 < 2 ^ 63 }
    ensures yes { IsTrue result → (1 ≤ size) × (size ≤ 2 ^ 24) × (at + 6 + size ≤ len) }
    ensures otherwise { IsFalse result → 1 ≤ size → size ≤ 2 ^ 24 → len < at + 6 + size }
{
    size >= 1 && size <= MAX_RECORD && at + 6 + size as u64 <= len
}

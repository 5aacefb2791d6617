// The bytes that the tests open.

use crate::StartFault;

/// A journal without records.
pub(super) const NEW: &[u8] = b"MURALJ1\n\0";

/// A journal of one record.
pub(super) const ONE: &[u8] = b"MURALJ1\n\xA5\0\0\0\x0Ctheory prop\n\0";

/// A journal of two records.
pub(super) const TWO: &[u8] =
    b"MURALJ1\n\xA5\0\0\0\x0Ctheory prop\n\xA5\0\0\0\x12const prop p -> e\n\0";

/// The text of the first record.
pub(super) const THEORY: &[u8] = b"theory prop\n";

/// The text of the second record.
pub(super) const VARIABLE: &[u8] = b"const prop p -> e\n";

/// A content, the records that it opens to, and the disk after that.
type Open = (&'static [u8], &'static [&'static [u8]], &'static [u8]);

/// Contents that are journals.
pub(super) fn opened() -> [Open; 13] {
    [
        (b"", &[], NEW),
        (b"MURAL", &[], NEW),
        (b"another", &[], NEW),
        (NEW, &[], NEW),
        (b"MURALJ1\n\xA5", &[], NEW),
        (b"MURALJ1\n\x17", &[], NEW),
        (b"MURALJ1\n\0\0", &[], NEW),
        (b"MURALJ1\n\x17\xA5\xA5", &[], NEW),
        (b"MURALJ1\n\0\0\0\0\x0Ctheory prop\n\0", &[], NEW),
        (ONE, &[THEORY], ONE),
        (b"MURALJ1\n\xA5\0\0\0\x0Ctheory prop\n\xA5", &[THEORY], ONE),
        (
            b"MURALJ1\n\xA5\0\0\0\x0Ctheory prop\n\0const prop p -> e\n\xA5",
            &[THEORY],
            ONE,
        ),
        (TWO, &[THEORY, VARIABLE], TWO),
    ]
}

/// Contents that are refused, with the faults.
pub(super) fn refused() -> [(&'static [u8], StartFault); 7] {
    let torn = StartFault::Torn { number: 1 };
    [
        (b"MURALJ2\n\0\0", StartFault::NotJournal),
        (b"theory prop\n", StartFault::NotJournal),
        (b"MURALJ1\n\xA5\0\0\x01", torn),
        (b"MURALJ1\n\xA5\0\0\0\0\0", torn),
        (b"MURALJ1\n\xA5\0\0\0\x01a", torn),
        (b"MURALJ1\n\xA5\x01\0\0\x01a\0", torn),
        (
            b"MURALJ1\n\xA5\0\0\0\x01\n\xA5a",
            StartFault::Torn { number: 2 },
        ),
    ]
}

/// Up to three bytes behind a gate.
pub(super) fn short() -> [&'static [u8]; 8] {
    [
        b"",
        b"\0",
        b"\xA5",
        b"\0\0",
        b"\0\xA5",
        b"\xA5\0",
        b"\0\0\0",
        b"\xA5\xA5\xA5",
    ]
}

/// What an image has where any byte may stand, and whether it ends at the highest end.
pub(super) fn ends() -> [(u8, bool); 6] {
    [
        (0, false),
        (0, true),
        (0xA5, false),
        (0xA5, true),
        (0xFF, false),
        (0xFF, true),
    ]
}

/// Contents that are brought to a clean end, with their records and how many calls that takes.
pub(super) fn repaired() -> [(&'static [u8], &'static [&'static [u8]], u64); 4] {
    [
        (b"", &[], 5),
        (b"MURALJ1\n\xA5", &[], 5),
        (b"MURALJ1\n\xA5\0\0\0\x0Ctheory prop\n\xA5", &[THEORY], 7),
        (
            b"MURALJ1\n\xA5\0\0\0\x0Ctheory prop\n\x17\0\0\0\x01\n\0",
            &[THEORY],
            9,
        ),
    ]
}

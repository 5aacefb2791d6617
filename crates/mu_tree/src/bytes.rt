ghost use Rattle.std.specs.Prelude.{◌≡◌};
ghost use Rattle.std.specs.List.{list_all};
ghost use Rattle.mu_tree.specs.Names.{is_letter as letter_test, is_name_byte as name_byte_test};

/// Whether the byte is an ASCII letter.
pub fn is_letter(byte: u8) -> bool
    ensures { result ≡ letter_test byte }
{
    byte.is_ascii_alphabetic()
}

/// Whether the byte may stand in a segment of a name: a letter, a digit or `_`.
pub fn is_name_byte(byte: u8) -> bool
    ensures { result ≡ name_byte_test byte }
{
    byte.is_ascii_alphanumeric() || byte == b'_'
}

pub(crate) fn are_name_bytes(text: &[u8]) -> bool
    ensures { result ≡ list_all name_byte_test text.now }
{
    text.iter().all(|byte| is_name_byte(*byte))
}

ghost use Rattle.std.specs.Prelude.{◌≡◌, ◌++◌, ◌&&◌, length, IsTrue, IfSome, is_some};
ghost use Rattle.std.specs.Bool.{nat_eq};
ghost use Rattle.std.specs.List.{starts_with};
ghost use Rattle.std.specs.Str.{bytes_eq};
ghost use Rattle.mu_tables.specs.Words.{IsBehind, are_words, is_bare, lengthened, number_behind, number_of, rows_of, some_begins, word_of};

/// A text and its number.
#[derive(Clone, Copy, Debug)]
pub struct Row {
    pub text: &'static str,
    pub number: u8,
}

/// N texts with their numbers, in the order of their bytes. No text and no number stands twice.
#[derive(Clone, Copy, Debug)]
pub struct Words<const N: usize> {
    pub(crate) rows: &'static [Row],
    ghost counted: { length rows.now ≡ N },
    ghost sorted: { IsTrue (are_words (rows_of rows.now)) },
}

impl<const N: usize> Words<N> {
    /// The number of a text; none where no row has it.
    pub fn find(&self, text: &[u8]) -> Option<u8>
        ensures { result ≡ number_of text.now (rows_of self.now.rows.now) }
    {
        find_number(self.rows, text)
    }

    /// The number of the text that is this word behind a front; none where no row has it, as where a blank is in the word.
    pub fn find_behind(&self, front: &[u8], word: &[u8]) -> Option<u8>
        ensures { result ≡ number_behind front.now word.now (rows_of self.now.rows.now) }
    {
        if !is_bare(word) {
            return None;
        }
        find_joined(self.rows, front, word)
    }

    /// The front, this word behind it and a blank; none where no row's text begins so, or a blank is in the word.
    pub fn lengthened(&self, front: &[u8], word: &[u8]) -> Option<&'static [u8]>
        ensures front { IfSome result (λ longer. longer.now ≡ lengthened front.now word.now) }
        ensures is_some { is_some result ≡ (is_bare word.now && some_begins (lengthened front.now word.now) (rows_of self.now.rows.now)) }
    {
        if !is_bare(word) {
            return None;
        }
        find_front(self.rows, front, word)
    }

    /// The text of a number; none where no row has it.
    pub fn word(&self, number: u8) -> Option<&'static str>
        ensures { result ≡ word_of number self.now.rows.now }
    {
        find_word(self.rows, number)
    }
}

fn find_number(rows: &[Row], text: &[u8]) -> Option<u8>
    ensures { result ≡ number_of text.now (rows_of rows.now) }
{
    for row in rows {
        if row.text.as_bytes() == text {
            return Some(row.number);
        }
    }
    None
}

fn find_word(rows: &[Row], number: u8) -> Option<&'static str>
    ensures { result ≡ word_of number rows.now }
{
    for row in rows {
        if row.number == number {
            return Some(row.text);
        }
    }
    None
}

/// Whether no byte of the word is a blank.
fn is_bare(word: &[u8]) -> bool
    ensures { result ≡ is_bare word.now }
{
    word.iter().all(|byte| *byte != b' ')
}

fn find_joined(rows: &[Row], front: &[u8], word: &[u8]) -> Option<u8>
    ensures { result ≡ number_of (front.now ++ word.now) (rows_of rows.now) }
{
    for row in rows {
        if is_joined(row.text.as_bytes(), front, word) {
            return Some(row.number);
        }
    }
    None
}

fn find_front(rows: &[Row], front: &[u8], word: &[u8]) -> Option<&'static [u8]>
    ensures front { IfSome result (λ longer. longer.now ≡ lengthened front.now word.now) }
    ensures is_some { is_some result ≡ some_begins (lengthened front.now word.now) (rows_of rows.now) }
{
    for row in rows {
        if let Some(longer) = longer_front(row.text.as_bytes(), front, word) {
            return Some(longer);
        }
    }
    None
}

/// What is left of the text behind the front and the word.
fn behind<'a>(text: &'a [u8], front: &[u8], word: &[u8]) -> Option<&'a [u8]>
    ensures { IsBehind text.now (front.now ++ word.now) result }
{
    match text.strip_prefix(front) {
        Some(rest) => rest.strip_prefix(word),
        None => None,
    }
}

/// Whether the text is the word behind the front.
#[tactic(auto, using(crate::proofs::Fronts::is_whole, crate::proofs::Fronts::is_not_whole))]
fn is_joined(text: &[u8], front: &[u8], word: &[u8]) -> bool
    ensures { result ≡ bytes_eq text.now (front.now ++ word.now) }
{
    match behind(text, front, word) {
        Some(rest) => rest.is_empty(),
        None => false,
    }
}

/// The first bytes of the text, where they are the front, the word and a blank.
#[tactic(auto, using(crate::proofs::Fronts::begins, crate::proofs::Fronts::begins_none, crate::proofs::Fronts::begins_other))]
fn longer_front<'a>(text: &'a [u8], front: &[u8], word: &[u8]) -> Option<&'a [u8]>
    ensures front { IfSome result (λ longer. longer.now ≡ lengthened front.now word.now) }
    ensures is_some { is_some result ≡ starts_with nat_eq text.now (lengthened front.now word.now) }
{
    match behind(text, front, word)? {
        [b' ', rest @ ..] => Some(&text[..text.len() - rest.len()]),
        _ => None,
    }
}

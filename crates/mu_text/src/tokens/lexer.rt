ghost use Rattle.std.specs.Prelude.{◌≡◌, ◌∷◌, [], ◌≤◌, MatchOption, length, drop};
ghost use Rattle.std.specs.List.{prefix_len};
ghost use Rattle.mu_tree.specs.Names.{is_digit as digit_test, is_name_byte as name_byte_test};
ghost use Rattle.mu_grammar.specs.Reading.{is_blank as blank_test, starts_positive as positive_first};
ghost use Rattle.mu_grammar.specs.Tokens.{starts_letter as letter_first, starts_with as byte_first, run_length as run_length_of, dots as dots_of, name_sort as name_sort_of, is_arrow as arrow_test, is_pair as pair_test, is_single as single_test, first_token as token_of};

use mu_grammar::TokenSort;
use mu_tree::{is_letter, is_name_byte};

/// The most dots that a name has.
const MOST_DOTS: usize = 2;

/// The most digits that a place has.
pub(crate) const MOST_DIGITS: usize = 9;

/// Whether the byte is a blank, which may stand between tokens: a space, a tab or a carriage return.
pub fn is_blank(byte: u8) -> bool
    ensures { result ≡ blank_test byte }
{
    byte == b' ' || byte == b'\t' || byte == b'\r'
}

/// How many first bytes go on with a name: a dot does so exactly where a letter follows it.
fn run_length(text: &[u8]) -> usize
    ensures value { result ≡ run_length_of text.now }
    ensures within { result ≤ length text.now }
{
    let mut rest = text;
    let mut count = 0;
    while let [first, tail @ ..] = rest {
        let is_joint = *first == b'.' && starts_letter(tail);
        if !is_name_byte(*first) && !is_joint {
            return count;
        }
        count += 1;
        rest = tail;
    }
    count
}

fn segment_length(text: &[u8]) -> usize
    ensures value { result ≡ prefix_len name_byte_test text.now }
    ensures within { result ≤ length text.now }
{
    text.iter().take_while(|byte| is_name_byte(**byte)).count()
}

fn digit_length(text: &[u8]) -> usize
    ensures value { result ≡ prefix_len digit_test text.now }
    ensures within { result ≤ length text.now }
{
    text.iter().take_while(|byte| byte.is_ascii_digit()).count()
}

fn count_dots(text: &[u8]) -> usize
    ensures { result ≡ dots_of text.now }
{
    text.iter().filter(|byte| **byte == b'.').count()
}

fn starts_letter(text: &[u8]) -> bool
    ensures { result ≡ letter_first text.now }
{
    match text {
        [first, ..] => is_letter(*first),
        [] => false,
    }
}

pub(crate) fn starts_positive(text: &[u8]) -> bool
    ensures { result ≡ positive_first text.now }
{
    match text {
        [first, ..] => matches!(first, b'1'..=b'9'),
        [] => false,
    }
}

fn starts_with(byte: u8, text: &[u8]) -> bool
    ensures { result ≡ byte_first byte text.now }
{
    match text {
        [first, ..] => *first == byte,
        [] => false,
    }
}

fn name_sort(dots: usize) -> TokenSort
    ensures { result ≡ name_sort_of dots }
{
    if dots <= MOST_DOTS {
        TokenSort::Name
    } else {
        TokenSort::Wrong
    }
}

/// Whether the bytes begin with the symbol of three bytes.
fn is_arrow(first: u8, rest: &[u8]) -> bool
    ensures { result ≡ arrow_test first rest.now }
{
    match rest {
        [_, tail @ ..] => first == b'<' && starts_with(b'=', rest) && starts_with(b'>', tail),
        [] => false,
    }
}

/// Whether the bytes begin with a symbol of two bytes.
fn is_pair(first: u8, rest: &[u8]) -> bool
    ensures { result ≡ pair_test first rest.now }
{
    (first == b':' && starts_with(b'=', rest))
        || (first == b'=' && starts_with(b'>', rest))
        || (first == b'|' && starts_with(b'-', rest))
        || (first == b'-' && starts_with(b'>', rest))
}

fn is_single(byte: u8) -> bool
    ensures { result ≡ single_test byte }
{
    matches!(
        byte,
        b'(' | b')' | b'[' | b']' | b'{' | b'}' | b',' | b';' | b'.' | b':' | b'=' | b'|'
    )
}

/// The sort of the token that begins with `first`, and how many bytes it has in `rest`.
#[tactic(auto, unfolding(mu_grammar::specs::Tokens::first_token))]
pub(crate) fn first_token(first: u8, rest: &[u8]) -> (TokenSort, usize)
    ensures value { result ≡ token_of first rest.now }
    ensures within { result.1 ≤ length rest.now }
{
    if is_letter(first) {
        let length = run_length(rest);
        return (name_sort(count_dots(&rest[..length])), length);
    }
    if first == b'?' && starts_letter(rest) {
        return (TokenSort::Meta, segment_length(rest));
    }
    if first == b'#' && starts_positive(rest) {
        return (TokenSort::Place, digit_length(rest).min(MOST_DIGITS));
    }
    if is_arrow(first, rest) {
        return (TokenSort::Symbol, 2);
    }
    if is_pair(first, rest) {
        return (TokenSort::Symbol, 1);
    }
    if is_single(first) {
        return (TokenSort::Symbol, 0);
    }
    (TokenSort::Wrong, 0)
}

pub(crate) fn split(text: &[u8]) -> Option<(u8, &[u8])>
    ensures { MatchOption result (text.now ≡ []) (λ parts. text.now ≡ parts.0 ∷ parts.1.now) }
{
    match text {
        [] => None,
        [first, tail @ ..] => Some((*first, tail)),
    }
}

pub(crate) fn after(text: &[u8], count: usize) -> &[u8]
    requires { count ≤ length text.now }
    ensures { result.now ≡ drop count text.now }
{
    &text[count..]
}

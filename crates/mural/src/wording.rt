ghost use Rattle.std.specs.Prelude.{◌≡◌, ◌++◌, IfOk, OnOk, codes};
ghost use Rattle.mural.specs.Wording.{told_as, is_refusal as refusal_test, count_word, limit_word, refusal_detail, refusal_word, refusal_words};

use mu_machine::Reply;
use mu_tree::{Bytes, CountWord, LimitWord, NoMemory, Refusal};
use std::alloc::Global;

/// The bytes that tell a reply.
pub(crate) fn reply_text(alloc: Global, reply: Reply) -> Result<Bytes, NoMemory>
    ensures { IfOk result (λ text. text ≡ told_as reply) }
{
    match reply {
        Reply::Changed { .. } => {
            let text = Vec::from_slice(alloc, b"ok\n")?;
            Ok(Bytes::from_vec(text))
        }
        Reply::Page { text } => Ok(text),
        Reply::Refused(refusal) => {
            let mut text = Vec::from_slice(alloc, b"refused ")?;
            text.extend_from_slice(refusal_text(alloc, &refusal)?.items())?;
            text.push(b'\n')?;
            Ok(Bytes::from_vec(text))
        }
    }
}

/// The words of a refusal.
fn refusal_text(alloc: Global, refusal: &Refusal) -> Result<Bytes, NoMemory>
    ensures { IfOk result (λ text. text ≡ refusal_words refusal.now) }
{
    let mut text = Vec::from_slice(alloc, refusal_word(refusal))?;
    add_detail(alloc, &mut text, refusal)?;
    Ok(Bytes::from_vec(text))
}

/// The word for a refusal.
fn refusal_word(refusal: &Refusal) -> &'static [u8]
    ensures { result.now ≡ refusal_word refusal.now }
{
    match refusal {
        Refusal::LineTooLong => b"line-too-long",
        Refusal::Syntax(_) => b"syntax",
        Refusal::Limit(_) => b"limit",
        Refusal::Unknown(_) => b"unknown",
        Refusal::Taken(_) => b"taken",
        Refusal::Builtin(_) => b"builtin",
        Refusal::NotEmpty(_) => b"not-empty",
        Refusal::Circle(_) => b"circle",
        Refusal::NoMatch => b"no-match",
        Refusal::Undetermined(_) => b"undetermined",
        Refusal::TooMany(_) => b"too-many",
        Refusal::JournalFull => b"journal-full",
    }
}

/// Adds what a refusal is about.
fn add_detail(alloc: Global, text: &mut Vec<u8>, refusal: &Refusal) -> Result<(), NoMemory>
    ensures { OnOk result (text.new.items ≡ text.old.items ++ refusal_detail refusal.now) }
{
    match refusal {
        Refusal::Syntax(column) => add_spaced(text, column.to_string(alloc)?.as_bytes()),
        Refusal::Limit(limit) => add_spaced(text, limit_text(*limit)),
        Refusal::Unknown(detail)
        | Refusal::Taken(detail)
        | Refusal::Builtin(detail)
        | Refusal::NotEmpty(detail)
        | Refusal::Circle(detail) => add_spaced(text, detail.items()),
        Refusal::Undetermined(meta) => {
            text.extend_from_slice(b" ?")?;
            text.extend_from_slice(meta.bytes())?;
            Ok(())
        }
        Refusal::TooMany(count) => add_spaced(text, count_text(*count)),
        Refusal::LineTooLong | Refusal::NoMatch | Refusal::JournalFull => Ok(()),
    }
}

/// Adds a blank, and bytes.
#[tactic(auto, using(std::proofs::Common::append_assoc))]
fn add_spaced(text: &mut Vec<u8>, bytes: &[u8]) -> Result<(), NoMemory>
    ensures { OnOk result (text.new.items ≡ text.old.items ++ (codes " " ++ bytes.now)) }
{
    text.extend_from_slice(b" ")?;
    text.extend_from_slice(bytes)?;
    Ok(())
}

fn limit_text(limit: LimitWord) -> &'static [u8]
    ensures { result.now ≡ limit_word limit }
{
    match limit {
        LimitWord::Name => b"name",
        LimitWord::Nodes => b"nodes",
        LimitWord::Depth => b"depth",
        LimitWord::Text => b"text",
    }
}

fn count_text(count: CountWord) -> &'static [u8]
    ensures { result.now ≡ count_word count }
{
    match count {
        CountWord::Theories => b"theories",
        CountWord::Specs => b"specs",
        CountWord::Reifications => b"reifications",
        CountWord::Morphisms => b"morphisms",
        CountWord::Constants => b"constants",
        CountWord::Rules => b"rules",
        CountWord::Proofs => b"proofs",
        CountWord::Boxes => b"boxes",
        CountWord::Items => b"items",
        CountWord::Text => b"text",
    }
}

/// Whether the reply is a refusal.
pub(crate) fn is_refusal(reply: &Reply) -> bool
    ensures { result ≡ refusal_test reply.now }
{
    matches!(reply, Reply::Refused(_))
}

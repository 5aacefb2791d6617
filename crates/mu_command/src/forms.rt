ghost use Rattle.std.specs.Prelude.{◌≡◌, IfSome, find, is_some, option_and_then};
ghost use Rattle.mu_tables.specs.Tables.{the_forms};
ghost use Rattle.mu_tables.specs.Words.{lengthened, number_behind, text_of};
ghost use Rattle.mu_grammar.specs.Lexemes.{first_bytes};
ghost use Rattle.mu_grammar.specs.Parts.{Gives, Same, first_as, starts};
ghost use Rattle.mu_command.specs.Forms.{forms, is_front, named, number, numbered, read_form};
ghost use Rattle.mu_command.specs.Words.{ended_by, goes_on};

use mu_grammar::{PartFault, Sort, Word};
use mu_tables::forms;
use mu_text::Reader;

/// The forms of commands, with their numbers in the table of words.
#[derive(Clone, Copy, Debug, PartialEq, Eq)]
pub(crate) enum Form {
    Theory = 1,
    Parent = 2,
    Unparent = 3,
    Const = 4,
    AlterConst = 5,
    Define = 6,
    Undefine = 7,
    Axiom = 8,
    Rule = 9,
    AlterRule = 10,
    Proof = 11,
    Line = 12,
    Box = 13,
    AlterLine = 14,
    AlterBox = 15,
    Move = 16,
    Cite = 17,
    Unjustify = 18,
    DropUnit = 19,
    DropConst = 20,
    DropRule = 21,
    DropProof = 22,
    DropItem = 23,
    Status = 24,
    ShowUnit = 25,
    ShowRule = 26,
    ShowProof = 27,
}

const ALL: [Form; 27] = [
    Form::Theory,
    Form::Parent,
    Form::Unparent,
    Form::Const,
    Form::AlterConst,
    Form::Define,
    Form::Undefine,
    Form::Axiom,
    Form::Rule,
    Form::AlterRule,
    Form::Proof,
    Form::Line,
    Form::Box,
    Form::AlterLine,
    Form::AlterBox,
    Form::Move,
    Form::Cite,
    Form::Unjustify,
    Form::DropUnit,
    Form::DropConst,
    Form::DropRule,
    Form::DropProof,
    Form::DropItem,
    Form::Status,
    Form::ShowUnit,
    Form::ShowRule,
    Form::ShowProof,
];

/// The number of the form in the table of words.
fn number(form: Form) -> u8
    ensures { result ≡ number form }
{
    form as u8
}

/// The words of a form, with one blank between each two.
pub(crate) fn words(form: Form) -> &'static [u8]
    ensures { result.now ≡ text_of (number form) the_forms }
{
    match forms().word(number(form)) {
        Some(text) => text.as_bytes(),
        None => b"",
    }
}

fn numbered(n: u8) -> Option<Form>
    ensures { result ≡ numbered n }
{
    ALL.iter().copied().find(|form| number(*form) == n)
}

/// The form whose words the first token ends, behind those before it.
#[tactic(auto, using(crate::proofs::FormLemmas::plain_ends))]
fn form_ended(front: &[u8], reader: &Reader) -> Option<Form>
    ensures { result ≡ first_as (ended_by named front.now) reader.now }
{
    match reader.peek() {
        Some(Sort::Word(Word::Plain)) => form_behind(front, reader.bytes()),
        _ => None,
    }
}

/// The form whose words are this one behind those before it.
fn form_behind(front: &[u8], word: &[u8]) -> Option<Form>
    ensures { result ≡ option_and_then numbered (number_behind front.now word.now the_forms) }
{
    match forms().find_behind(front, word) {
        Some(n) => numbered(n),
        None => None,
    }
}

/// The words before the first token, it, and a blank, where some form goes on so.
#[tactic(auto, using(crate::proofs::FormLemmas::plain_goes_on))]
fn longer_front(front: &[u8], reader: &Reader) -> Option<&'static [u8]>
    ensures front { IfSome result (λ longer. longer.now ≡ lengthened front.now (first_bytes reader.now)) }
    ensures is_some { is_some result ≡ starts (goes_on is_front front.now) reader.now }
{
    match reader.peek() {
        Some(Sort::Word(Word::Plain)) => forms().lengthened(front, reader.bytes()),
        _ => None,
    }
}

/// Reads the words that say of which form a command is.
///
/// # Errors
///
/// `Mismatch` at the first token with which the words of no form go on.
#[tactic(auto, using(crate::proofs::FormLemmas::words_go_on, crate::proofs::FormLemmas::words_end), unfolding(crate::specs::Forms::read_form))]
pub(crate) fn read_form(reader: &mut Reader) -> Result<Form, PartFault>
    ensures { Gives Same (read_form reader.old) result reader.new }
{
    let mut front: &'static [u8] = &[];
    while let Some(longer) = longer_front(front, reader) {
        front = longer;
        reader.skip();
    }
    match form_ended(front, reader) {
        Some(form) => {
            reader.skip();
            Ok(form)
        }
        None => Err(PartFault::Mismatch),
    }
}

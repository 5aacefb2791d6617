ghost use Rattle.std.specs.Prelude.{◌≡◌};
ghost use Rattle.mu_command.specs.Parts.{keyword_text};
ghost use Rattle.mu_command.specs.Rows.{row};

use crate::forms::Form;
use crate::parts::Keyword::{self, In, To};
use crate::parts::Part::{
    self, Before, Block, Claim, Declaration, Formals, Name, Plain, Reason, Sign, Tree, Word,
};
use mu_grammar::Mark::{Colon, Eq};

const IN: Part = Word(In);

const TO: Part = Word(To);

const COLON: Part = Sign(Colon);

const EQUALS: Part = Sign(Eq);

/// The parts that follow the words of a form.
pub(crate) fn row(form: Form) -> &'static [Part]
    ensures { result.now ≡ row form }
{
    match form {
        Form::Theory => &[Plain],
        Form::Parent => &[Plain, Name],
        Form::Unparent => &[Plain, Name],
        Form::Const => &[Plain, Declaration],
        Form::AlterConst => &[Declaration],
        Form::Define => &[Plain, Formals, EQUALS, Tree],
        Form::Undefine => &[Plain],
        Form::Axiom => &[Plain, Plain, COLON, Claim],
        Form::Rule => &[Plain, Plain, COLON, Claim],
        Form::AlterRule => &[Plain, COLON, Claim],
        Form::Proof => &[Name, Plain],
        Form::Line => &[Name, Plain, Plain, IN, Name, Before, COLON, Tree],
        Form::Box => &[Name, Plain, Plain, IN, Name, Before, COLON, Block],
        Form::AlterLine => &[Name, Plain, Plain, COLON, Tree],
        Form::AlterBox => &[Name, Plain, Plain, COLON, Block],
        Form::Move => &[Name, Plain, Plain, TO, Name, Before],
        Form::Cite => &[Name, Plain, Plain, COLON, Reason],
        Form::Unjustify => &[Name, Plain, Plain],
        Form::DropUnit => &[Plain],
        Form::DropConst => &[Plain],
        Form::DropRule => &[Plain],
        Form::DropProof => &[Name, Plain],
        Form::DropItem => &[Name, Plain, Plain],
        Form::Status => &[Name],
        Form::ShowUnit => &[Name],
        Form::ShowRule => &[Name],
        Form::ShowProof => &[Name, Name],
    }
}

/// The bytes of a keyword.
pub(crate) fn keyword_bytes(keyword: Keyword) -> &'static [u8]
    ensures { result.now ≡ keyword_text keyword }
{
    match keyword {
        In => b"in",
        To => b"to",
    }
}

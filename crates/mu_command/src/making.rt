ghost use Rattle.std.specs.Prelude.{◌≡◌, ◌∷◌, drop, is_some, true};
ghost use Rattle.mu_command.specs.Making.{Begins, BeginsItem, BeginsPlaced, asked, first, others, sorts_of};
ghost use Rattle.mu_command.specs.Making as sort;
ghost use Rattle.mu_command.specs.Rows.{fields_of, form_of, row};

use crate::command::Command;
use crate::forms::Form;
use crate::parts::{Field, Fields};
use mu_grammar::DeclaredConstant;
use mu_tree::{Claim, Definition, Name, Names, Tree, Trees, TypedVars, Why};

/// The command of a form, by what its parts say.
#[tactic(auto, using(crate::proofs::FormLemmas::none_left))]
pub(crate) fn make(form: Form, fields: Fields) -> Command
    requires { sorts_of fields ≡ asked (row form) }
    ensures form { form_of result ≡ form }
    ensures fields { fields_of result ≡ fields }
{
    let mut fields = fields;
    let fields = &mut fields;
    match form {
        Form::Theory => Command::Theory(name(fields)),
        Form::Parent => Command::Parent(name(fields), name(fields)),
        Form::Unparent => Command::Unparent(name(fields), name(fields)),
        Form::Const => {
            let unit = name(fields);
            let declared = declaration(fields);
            Command::Const(unit, declared.name, declared.shape, declared.result)
        }
        Form::AlterConst => {
            let declared = declaration(fields);
            Command::AlterConst(declared.name, declared.shape, declared.result)
        }
        Form::Define => {
            let constant = name(fields);
            let params = formals(fields);
            let body = tree(fields);
            Command::Define(constant, Definition { params, body })
        }
        Form::Undefine => Command::Undefine(name(fields)),
        Form::Axiom => Command::Axiom(name(fields), name(fields), claim(fields)),
        Form::Rule => Command::Rule(name(fields), name(fields), claim(fields)),
        Form::AlterRule => Command::AlterRule(name(fields), claim(fields)),
        Form::Proof => Command::Proof(name(fields), name(fields)),
        Form::Line => {
            let (rule, proof, label, block, before) = placed(fields);
            Command::Line(rule, proof, label, block, before, tree(fields))
        }
        Form::Box => {
            let (rule, proof, label, block, before) = placed(fields);
            let (vars, assumptions) = head(fields);
            Command::Box(rule, proof, label, block, before, vars, assumptions)
        }
        Form::AlterLine => Command::AlterLine(
            name(fields),
            name(fields),
            name(fields),
            tree(fields),
        ),
        Form::AlterBox => {
            let (rule, proof, label) = item(fields);
            let (vars, assumptions) = head(fields);
            Command::AlterBox(rule, proof, label, vars, assumptions)
        }
        Form::Move => {
            let (rule, proof, label, block, before) = placed(fields);
            Command::Move(rule, proof, label, block, before)
        }
        Form::Cite => Command::Cite(name(fields), name(fields), name(fields), reason(fields)),
        Form::Unjustify => Command::Unjustify(name(fields), name(fields), name(fields)),
        Form::DropUnit => Command::DropUnit(name(fields)),
        Form::DropConst => Command::DropConst(name(fields)),
        Form::DropRule => Command::DropRule(name(fields)),
        Form::DropProof => Command::DropProof(name(fields), name(fields)),
        Form::DropItem => Command::DropItem(name(fields), name(fields), name(fields)),
        Form::Status => Command::Status(name(fields)),
        Form::ShowUnit => Command::ShowUnit(name(fields)),
        Form::ShowRule => Command::ShowRule(name(fields)),
        Form::ShowProof => Command::ShowProof(name(fields), name(fields)),
    }
}

/// Takes out the names of a rule, a proof and an item.
fn item(fields: &mut Fields) -> (Name, Name, Name)
    requires { BeginsItem fields.old }
    ensures value { fields.old ≡ Field.Name result.0 ∷ Field.Name result.1 ∷ Field.Name result.2 ∷ fields.new }
    ensures rest { sorts_of fields.new ≡ drop 3 (sorts_of fields.old) }
{
    (name(fields), name(fields), name(fields))
}

/// Takes out the names of a rule, a proof and an item, and the place of the item: its block, and the item before which it
/// stands.
fn placed(fields: &mut Fields) -> (Name, Name, Name, Name, Option<Name>)
    requires { BeginsPlaced fields.old }
    ensures value { fields.old
        ≡ Field.Name result.0 ∷ Field.Name result.1 ∷ Field.Name result.2 ∷ Field.Name result.3 ∷ Field.Before result.4 ∷ fields.new }
    ensures rest { sorts_of fields.new ≡ drop 5 (sorts_of fields.old) }
{
    let (rule, proof, label) = item(fields);
    (rule, proof, label, name(fields), before(fields))
}

/// Takes the first field out.
#[tactic(auto, using(crate::proofs::FormLemmas::begins_some))]
fn take(fields: &mut Fields) -> Field
    requires { is_some (first (sorts_of fields.old)) ≡ true }
    ensures value { fields.old ≡ result ∷ fields.new }
{
    fields.remove(0)
}

#[tactic(auto, unfolding(crate::specs::Making::sorts_of))]
fn name(fields: &mut Fields) -> Name
    requires { Begins sort.name fields.old }
    ensures value { fields.old ≡ Field.Name result ∷ fields.new }
    ensures rest { sorts_of fields.new ≡ others (sorts_of fields.old) }
{
    match take(fields) {
        Field::Name(name) => name,
        _ => unreachable!(),
    }
}

#[tactic(auto, unfolding(crate::specs::Making::sorts_of))]
fn declaration(fields: &mut Fields) -> DeclaredConstant
    requires { Begins sort.declaration fields.old }
    ensures value { fields.old ≡ Field.Declaration result ∷ fields.new }
    ensures rest { sorts_of fields.new ≡ others (sorts_of fields.old) }
{
    match take(fields) {
        Field::Declaration(declared) => declared,
        _ => unreachable!(),
    }
}

#[tactic(auto, unfolding(crate::specs::Making::sorts_of))]
fn formals(fields: &mut Fields) -> Names
    requires { Begins sort.formals fields.old }
    ensures value { fields.old ≡ Field.Formals result ∷ fields.new }
    ensures rest { sorts_of fields.new ≡ others (sorts_of fields.old) }
{
    match take(fields) {
        Field::Formals(names) => names,
        _ => unreachable!(),
    }
}

#[tactic(auto, unfolding(crate::specs::Making::sorts_of))]
fn before(fields: &mut Fields) -> Option<Name>
    requires { Begins sort.before fields.old }
    ensures value { fields.old ≡ Field.Before result ∷ fields.new }
    ensures rest { sorts_of fields.new ≡ others (sorts_of fields.old) }
{
    match take(fields) {
        Field::Before(item) => item,
        _ => unreachable!(),
    }
}

#[tactic(auto, unfolding(crate::specs::Making::sorts_of))]
fn tree(fields: &mut Fields) -> Tree
    requires { Begins sort.tree fields.old }
    ensures value { fields.old ≡ Field.Tree result ∷ fields.new }
    ensures rest { sorts_of fields.new ≡ others (sorts_of fields.old) }
{
    match take(fields) {
        Field::Tree(tree) => tree,
        _ => unreachable!(),
    }
}

#[tactic(auto, unfolding(crate::specs::Making::sorts_of))]
fn claim(fields: &mut Fields) -> Claim
    requires { Begins sort.claim fields.old }
    ensures value { fields.old ≡ Field.Claim result ∷ fields.new }
    ensures rest { sorts_of fields.new ≡ others (sorts_of fields.old) }
{
    match take(fields) {
        Field::Claim(claim) => claim,
        _ => unreachable!(),
    }
}

#[tactic(auto, unfolding(crate::specs::Making::sorts_of))]
fn reason(fields: &mut Fields) -> Why
    requires { Begins sort.reason fields.old }
    ensures value { fields.old ≡ Field.Reason result ∷ fields.new }
    ensures rest { sorts_of fields.new ≡ others (sorts_of fields.old) }
{
    match take(fields) {
        Field::Reason(why) => why,
        _ => unreachable!(),
    }
}

#[tactic(auto, unfolding(crate::specs::Making::sorts_of))]
fn head(fields: &mut Fields) -> (TypedVars, Trees)
    requires { Begins sort.block fields.old }
    ensures value { fields.old ≡ Field.Block result.0 result.1 ∷ fields.new }
    ensures rest { sorts_of fields.new ≡ others (sorts_of fields.old) }
{
    match take(fields) {
        Field::Block(vars, assumptions) => (vars, assumptions),
        _ => unreachable!(),
    }
}

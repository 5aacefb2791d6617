ghost use Rattle.std.specs.Prelude.{◌≡◌, ℕ, List};
ghost use Rattle.mu_grammar.specs.Parts.{Gives, StandsEach, starts};
ghost use Rattle.mu_grammar.specs.References.{StandsReference, is_place_token, read_labelled, read_reference, read_references};
ghost use Rattle.mu_grammar.specs.SimpleParts.{StandsName};

use crate::parts::{place, plain_name, sees};
use crate::reader::Reader;
use mu_grammar::{Mark, PartFault, Sort, Word};
use mu_tree::{Name, Ref, Refs};
use std::alloc::Global;

fn sees_place(reader: &Reader) -> bool
    ensures { result ≡ starts is_place_token reader.now }
{
    reader.peek() == Some(Sort::Word(Word::Place))
}

/// Reads a reference: a label, a label with a place behind it, or a place.
///
/// # Errors
///
/// `Mismatch` at the first token with which no reference goes on. `NoMemory`.
#[tactic(auto, unfolding(mu_grammar::specs::References::read_reference))]
pub fn reference(alloc: Global, reader: &mut Reader) -> Result<Ref, PartFault>
    ensures { Gives StandsReference (read_reference reader.old) result reader.new }
{
    if sees_place(reader) {
        let number = place(reader)?;
        return Ok(Ref::Hypothesis(number));
    }
    let label = plain_name(alloc, reader)?;
    labelled(reader, label)
}

/// Reads what follows a label: the place of an assumption, where one stands.
fn labelled(reader: &mut Reader, label: Name) -> Result<Ref, PartFault>
    ensures { (text : List ℕ) → StandsName text label → Gives StandsReference (read_labelled text reader.old) result reader.new }
{
    if sees_place(reader) {
        let number = place(reader)?;
        return Ok(Ref::Assumption(label, number));
    }
    Ok(Ref::Item(label))
}

/// Reads references between commas, at least one.
///
/// # Errors
///
/// `Mismatch` at the first token with which no such list goes on. `NoMemory`.
#[tactic(auto, unfolding(mu_grammar::specs::References::read_references))]
pub fn references(alloc: Global, reader: &mut Reader) -> Result<Refs, PartFault>
    ensures { Gives (StandsEach StandsReference) (read_references reader.old) result reader.new }
{
    let mut refs = Refs::new(alloc);
    let first = reference(alloc, reader)?;
    refs.push(first)?;
    while sees(reader, Mark::Comma) {
        reader.skip();
        let next = reference(alloc, reader)?;
        refs.push(next)?;
    }
    Ok(refs.fit(alloc)?)
}

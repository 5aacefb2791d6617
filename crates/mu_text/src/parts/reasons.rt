ghost use Rattle.std.specs.Prelude.{◌≡◌};
ghost use Rattle.mu_grammar.specs.declared.excess.Excess.{Excess};
ghost use Rattle.mu_grammar.specs.Parts.{Gives, StandsEach};
ghost use Rattle.mu_grammar.specs.SimpleParts.{StandsName};
ghost use Rattle.mu_grammar.specs.Groups.{StandsOptional};
ghost use Rattle.mu_grammar.specs.References.{StandsReference};
ghost use Rattle.mu_grammar.specs.Excesses.{Raising, StandsTree, in_each, one_tree};
ghost use Rattle.mu_grammar.specs.Reasons.{StandsAbstraction, StandsCited, StandsReason, read_abstraction, read_abstractions, read_by_definition, read_by_hypothesis, read_by_rule, read_by_same, read_cited, read_from, read_reason, read_terms, read_via, read_with, trees_in_abstraction, trees_in_cited, trees_in_reason};

use crate::parts::{
    mark, meta, name, parameters, place, plain_name, reference, references, sees, sees_word, tree,
    trees, word,
};
use crate::reader::Reader;
use mu_grammar::{Excess, Mark, PartFault};
use mu_tree::{Given, Inst, Name, Refs, Trees, Why};
use std::alloc::Global;

/// Reads an abstraction: a metavariable, its parameters in brackets where there are any, `:=` and a tree. The limits that the
/// tree passes are raised.
///
/// # Errors
///
/// `Mismatch` at the first token with which no abstraction goes on. `NoMemory`.
#[tactic(auto, unfolding(mu_grammar::specs::Reasons::read_abstraction))]
pub fn abstraction(
    alloc: Global,
    reader: &mut Reader,
    excess: &mut Excess,
) -> Result<Given, PartFault>
    ensures { Gives (Raising StandsAbstraction trees_in_abstraction excess.old excess.new) (read_abstraction reader.old) result reader.new }
{
    let meta = meta(alloc, reader)?;
    let params = parameters(alloc, reader)?;
    mark(reader, Mark::Becomes)?;
    let body = tree(alloc, reader, excess)?;
    Ok(Given { meta, params, body })
}

/// Reads abstractions with semicolons between them, at least one.
///
/// # Errors
///
/// `Mismatch` at the first token with which no such list goes on. `NoMemory`.
#[tactic(auto, unfolding(mu_grammar::specs::Reasons::read_abstractions))]
pub fn abstractions(
    alloc: Global,
    reader: &mut Reader,
    excess: &mut Excess,
) -> Result<Inst, PartFault>
    ensures { Gives (Raising (StandsEach StandsAbstraction) (in_each trees_in_abstraction) excess.old excess.new) (read_abstractions reader.old) result reader.new }
{
    let mut inst = Inst::new(alloc);
    let first = abstraction(alloc, reader, excess)?;
    inst.push(first)?;
    while sees(reader, Mark::Semicolon) {
        reader.skip();
        let next = abstraction(alloc, reader, excess)?;
        inst.push(next)?;
    }
    Ok(inst.fit(alloc)?)
}

/// Reads `from` and references, where the word stands.
#[tactic(auto, unfolding(mu_grammar::specs::Reasons::read_from))]
fn from_references(alloc: Global, reader: &mut Reader) -> Result<Refs, PartFault>
    ensures { Gives (StandsEach StandsReference) (read_from reader.old) result reader.new }
{
    if !sees_word(reader, b"from") {
        return Ok(Refs::new(alloc));
    }
    word(reader, b"from")?;
    references(alloc, reader)
}

/// Reads `with` and abstractions, where the word stands.
#[tactic(auto, unfolding(mu_grammar::specs::Reasons::read_with))]
fn with_abstractions(
    alloc: Global,
    reader: &mut Reader,
    excess: &mut Excess,
) -> Result<Inst, PartFault>
    ensures { Gives (Raising (StandsEach StandsAbstraction) (in_each trees_in_abstraction) excess.old excess.new) (read_with reader.old) result reader.new }
{
    if !sees_word(reader, b"with") {
        return Ok(Inst::new(alloc));
    }
    word(reader, b"with")?;
    abstractions(alloc, reader, excess)
}

/// Reads `with` and trees, where the word stands.
#[tactic(auto, unfolding(mu_grammar::specs::Reasons::read_terms))]
fn with_terms(alloc: Global, reader: &mut Reader, excess: &mut Excess) -> Result<Trees, PartFault>
    ensures { Gives (Raising (StandsEach StandsTree) (in_each one_tree) excess.old excess.new) (read_terms reader.old) result reader.new }
{
    if !sees_word(reader, b"with") {
        return Ok(Trees::new(alloc));
    }
    word(reader, b"with")?;
    trees(alloc, reader, excess)
}

/// Reads `via` and the name of a morphism, where the word stands.
#[tactic(auto, unfolding(mu_grammar::specs::Reasons::read_via))]
fn via_morphism(alloc: Global, reader: &mut Reader) -> Result<Option<Name>, PartFault>
    ensures { Gives (StandsOptional StandsName) (read_via reader.old) result reader.new }
{
    if !sees_word(reader, b"via") {
        return Ok(None);
    }
    word(reader, b"via")?;
    let morphism = plain_name(alloc, reader)?;
    Ok(Some(morphism))
}

/// Reads the references and the abstractions of a rule, where there are any.
#[tactic(auto, unfolding(mu_grammar::specs::Reasons::read_cited))]
fn cited(alloc: Global, reader: &mut Reader, excess: &mut Excess) -> Result<(Refs, Inst), PartFault>
    ensures { Gives (Raising StandsCited trees_in_cited excess.old excess.new) (read_cited reader.old) result reader.new }
{
    let refs = from_references(alloc, reader)?;
    let inst = with_abstractions(alloc, reader, excess)?;
    Ok((refs, inst))
}

/// Reads `rule` and its name, then a morphism, references and abstractions, where there are any.
#[tactic(auto, unfolding(mu_grammar::specs::Reasons::read_by_rule))]
fn by_rule(alloc: Global, reader: &mut Reader, excess: &mut Excess) -> Result<Why, PartFault>
    ensures { Gives (Raising StandsReason trees_in_reason excess.old excess.new) (read_by_rule reader.old) result reader.new }
{
    word(reader, b"rule")?;
    let rule = name(alloc, reader)?;
    let via = via_morphism(alloc, reader)?;
    let (refs, inst) = cited(alloc, reader, excess)?;
    Ok(Why::Rule {
        rule,
        via,
        refs,
        inst,
    })
}

/// Reads `hyp` and a place, then terms and references, where there are any.
#[tactic(auto, unfolding(mu_grammar::specs::Reasons::read_by_hypothesis))]
fn by_hypothesis(alloc: Global, reader: &mut Reader, excess: &mut Excess) -> Result<Why, PartFault>
    ensures { Gives (Raising StandsReason trees_in_reason excess.old excess.new) (read_by_hypothesis reader.old) result reader.new }
{
    word(reader, b"hyp")?;
    let n = place(reader)?;
    let terms = with_terms(alloc, reader, excess)?;
    let refs = from_references(alloc, reader)?;
    Ok(Why::Hypothesis { n, terms, refs })
}

/// Reads `def`, the name of a constant, `on` and a reference.
#[tactic(auto, unfolding(mu_grammar::specs::Reasons::read_by_definition))]
fn by_definition(alloc: Global, reader: &mut Reader) -> Result<Why, PartFault>
    ensures { (excess : Excess) → Gives (Raising StandsReason trees_in_reason excess excess) (read_by_definition reader.old) result reader.new }
{
    word(reader, b"def")?;
    let constant = name(alloc, reader)?;
    word(reader, b"on")?;
    let on = reference(alloc, reader)?;
    Ok(Why::Definition { constant, on })
}

/// Reads `same` and a reference.
#[tactic(auto, unfolding(mu_grammar::specs::Reasons::read_by_same))]
fn by_same(alloc: Global, reader: &mut Reader) -> Result<Why, PartFault>
    ensures { (excess : Excess) → Gives (Raising StandsReason trees_in_reason excess excess) (read_by_same reader.old) result reader.new }
{
    word(reader, b"same")?;
    let on = reference(alloc, reader)?;
    Ok(Why::Same { on })
}

/// Reads what a line of a proof holds by: a rule, a hypothesis, a definition or a reference alone. The limits that its trees
/// pass are raised.
///
/// # Errors
///
/// `Mismatch` at the first token with which no reason goes on. `NoMemory`.
#[tactic(auto, unfolding(mu_grammar::specs::Reasons::read_reason))]
pub fn reason(alloc: Global, reader: &mut Reader, excess: &mut Excess) -> Result<Why, PartFault>
    ensures { Gives (Raising StandsReason trees_in_reason excess.old excess.new) (read_reason reader.old) result reader.new }
{
    if sees_word(reader, b"rule") {
        return by_rule(alloc, reader, excess);
    }
    if sees_word(reader, b"hyp") {
        return by_hypothesis(alloc, reader, excess);
    }
    if sees_word(reader, b"def") {
        return by_definition(alloc, reader);
    }
    by_same(alloc, reader)
}

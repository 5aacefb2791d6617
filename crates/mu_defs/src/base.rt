ghost use Rattle.std.specs.Prelude.{◌≡◌, IfOk, OnOk};
ghost use Rattle.std.specs.Option.{option_copied};
ghost use Rattle.std.specs.FinMap as finite;
ghost use Rattle.mu_defs.specs.Base.{is_base as base_test, is_base_constant as base_constant_test, base_table, plain as plain_constant, binder as binder_constant, with_base, BaseIsFirst};

use mu_decl::ConstDecl;
use mu_tree::{Kind, Kinds, Name, NoMemory, Shape, Table};
use std::alloc::Global;

/// Whether the text is the name of the base theory.
pub fn is_base(text: &[u8]) -> bool
    ensures { result ≡ base_test text.now }
{
    text == b"base".as_slice()
}

/// Whether the text names a constant of the base theory.
pub fn is_base_constant(text: &[u8]) -> bool
    ensures { result ≡ base_constant_test text.now }
{
    matches!(
        text,
        b"and"
            | b"bool"
            | b"eq"
            | b"exists"
            | b"false"
            | b"forall"
            | b"iff"
            | b"imp"
            | b"not"
            | b"or"
            | b"sub"
            | b"true"
            | b"typing"
    )
}

/// The name of something that is always there.
pub(crate) fn base_name(alloc: Global, text: &[u8]) -> Result<Name, NoMemory>
    ensures { IfOk result (λ name. name ≡ text.now) }
{
    Name::read(alloc, text).map_err(|_| NoMemory)
}

fn add_plain(
    alloc: Global,
    table: &mut Table<ConstDecl>,
    text: &[u8],
    kinds: &[Kind],
    result_kind: Kind,
) -> Result<(), NoMemory>
    ensures { OnOk result (table.new ≡ finite.insert table.old text.now (plain_constant kinds.now result_kind)) }
{
    let declared = ConstDecl {
        theory: base_name(alloc, b"base")?,
        shape: Shape::Plain(Kinds::from_vec(Vec::from_slice(alloc, kinds)?)),
        result: result_kind,
    };
    table.put(base_name(alloc, text)?, declared)
}

fn add_binder(
    alloc: Global,
    table: &mut Table<ConstDecl>,
    text: &[u8],
    result_kind: Kind,
) -> Result<(), NoMemory>
    ensures { OnOk result (table.new ≡ finite.insert table.old text.now (binder_constant result_kind)) }
{
    let declared = ConstDecl {
        theory: base_name(alloc, b"base")?,
        shape: Shape::Binder(Kind::E),
        result: result_kind,
    };
    table.put(base_name(alloc, text)?, declared)
}

/// The constants of the base theory, by name.
///
/// # Errors
///
/// `NoMemory`.
pub fn base_table(alloc: Global) -> Result<Table<ConstDecl>, NoMemory>
    ensures { IfOk result (λ table. table ≡ base_table) }
{
    let two = [Kind::E, Kind::E];
    let mut table = Table::new(alloc);
    add_plain(alloc, &mut table, b"and", &two, Kind::E)?;
    add_plain(alloc, &mut table, b"bool", &[], Kind::T)?;
    add_plain(alloc, &mut table, b"eq", &two, Kind::E)?;
    add_binder(alloc, &mut table, b"exists", Kind::E)?;
    add_plain(alloc, &mut table, b"false", &[], Kind::E)?;
    add_binder(alloc, &mut table, b"forall", Kind::E)?;
    add_plain(alloc, &mut table, b"iff", &two, Kind::E)?;
    add_plain(alloc, &mut table, b"imp", &two, Kind::E)?;
    add_plain(alloc, &mut table, b"not", &[Kind::E], Kind::E)?;
    add_plain(alloc, &mut table, b"or", &two, Kind::E)?;
    add_binder(alloc, &mut table, b"sub", Kind::T)?;
    add_plain(alloc, &mut table, b"true", &[], Kind::E)?;
    add_plain(alloc, &mut table, b"typing", &[Kind::E, Kind::T], Kind::E)?;
    Ok(table)
}

/// The constant of a name: the one of the base theory where it has one of this name, and else the stored one.
#[tactic(auto, using(crate::proofs::BaseLemmas::base_is_first))]
pub fn constant_at<'a>(
    base: &'a Table<ConstDecl>,
    stored: &'a Table<ConstDecl>,
    name: &Name,
) -> Option<&'a ConstDecl>
    requires { base.now ≡ base_table }
    ensures value { option_copied result ≡ finite.get (with_base stored.now) name.now }
    ensures law { BaseIsFirst }
{
    match base.get(name) {
        Some(declared) => Some(declared),
        None => stored.get(name),
    }
}

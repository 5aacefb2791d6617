// Public calls of the crates below that no command makes yet, each once.

ghost use Rattle.std.specs.Prelude.{◌<◌, ◌^◌, length};

use mu_decl::{
    Abstraction, Bare, Bares, Binders, DeltaRule, Variables, delta_of, enter, instantiate, opened,
    same, translate, unfolded,
};
use mu_grammar::TextFault;
use mu_print::{print_box, print_claim, print_head, print_tree, print_why};
use mu_text::{read_box, read_claim, read_head, read_tree, read_why};
use mu_tree::{Bytes, Definition, Name, Names, Table};
use std::alloc::Global;
use std::test::Fail;

#[test]
fn reads_and_prints_parts(rt: HostRuntime) -> Result<(), Fail> {
    let alloc = rt.alloc();
    let tree = read_tree(alloc, b"forall{x:T. not p(x)=>(?m [x])=y}")?;
    assert_eq!(rt; (tree.size(), tree.depth()), (10, 5));
    assert_eq!(rt; tree.names(alloc)?.len(), 8);
    let text = print_tree(alloc, &tree)?;
    assert!(rt; text.items() == b"forall{x:T. not p(x) => ?m[x] = y}".as_slice());
    let claim = print_claim(alloc, &read_claim(alloc, b"((p)and(q))and(r);q|-p")?)?;
    assert!(rt; claim.items() == b"p and q and r; q |- p".as_slice());
    let why = print_why(
        alloc,
        &read_why(alloc, b"rule r from l,#12 with ?m[x]:=(x)")?,
    )?;
    assert!(rt; why.items() == b"rule r from l, #12 with ?m[x] := x".as_slice());
    Ok(())
}

/// The canonical text of what a box begins with.
fn box_text(alloc: Global, text: &[u8]) -> Result<Bytes, Fail>
    requires { length text.now < 2 ^ 31 }
{
    let (vars, assumptions) = read_box(alloc, text)?;
    Ok(print_box(alloc, &vars, &assumptions)?)
}

/// The canonical text of a head.
fn head_text(alloc: Global, text: &[u8], op: bool) -> Result<Bytes, Fail>
    requires { length text.now < 2 ^ 31 }
{
    let (name, head) = read_head(alloc, text, op)?;
    Ok(print_head(alloc, &name, &head)?)
}

#[test]
fn reads_and_prints_boxes_and_heads(rt: HostRuntime) -> Result<(), Fail> {
    let alloc = rt.alloc();
    let text = box_text(alloc, b"x:N,y:(V(x))|(p),imp(p,q)")?;
    assert!(rt; text.items() == b"x:N, y:V(x) | p, p => q".as_slice());
    let text = head_text(alloc, b"f(x:N,y:(V(x)))old s new t result r:N", true)?;
    assert!(rt; text.items() == b"f(x:N, y:V(x)) old s new t result r:N".as_slice());
    let text = head_text(alloc, b"f( )result r:(N)", false)?;
    assert!(rt; text.items() == b"f() result r:N".as_slice());
    Ok(())
}

#[test]
fn refuses_parts_that_end_too_early(rt: HostRuntime) {
    let alloc = rt.alloc();
    assert!(rt; matches!(read_why(alloc, b"same"), Err(TextFault::Syntax(5))));
    assert!(rt; matches!(read_box(alloc, b"x:N"), Err(TextFault::Syntax(4))));
    assert!(rt; matches!(read_head(alloc, b"f()", true), Err(TextFault::Syntax(4))));
}

/// The nameless tree of a text.
fn entered(alloc: Global, text: &[u8]) -> Result<Bare, Fail>
    requires { length text.now < 2 ^ 31 }
{
    let tree = read_tree(alloc, text)?;
    Ok(enter(alloc, &tree, &Variables::new(alloc), &Binders::new(alloc))?)
}

/// The nameless tree of a text in which the variable `x` is bound outside.
fn entered_under(alloc: Global, text: &[u8]) -> Result<Bare, Fail>
    requires { length text.now < 2 ^ 31 }
{
    let mut bound = Binders::new(alloc);
    bound.push(alloc, &Name::read(alloc, b"x")?)?;
    let tree = read_tree(alloc, text)?;
    Ok(enter(alloc, &tree, &Variables::new(alloc), &bound)?)
}

/// What stands for `?P[x]`.
fn abstraction(alloc: Global) -> Result<Vec<Abstraction>, Fail> {
    let mut given = Vec::new(alloc);
    given.push(Abstraction {
        meta: Name::read(alloc, b"P")?,
        count: 1,
        body: entered_under(alloc, b"forall{y:T. x = y}")?,
    })?;
    Ok(given)
}

/// The definition `d(x) = x and x`.
fn definition(alloc: Global) -> Result<DeltaRule, Fail> {
    let mut params = Names::new(alloc);
    params.push(Name::read(alloc, b"x")?)?;
    let body = read_tree(alloc, b"x and x")?;
    Ok(delta_of(
        alloc,
        &Name::read(alloc, b"d")?,
        &Definition { params, body },
    )?)
}

#[test]
fn opens_and_translates(rt: HostRuntime) -> Result<(), Fail> {
    let alloc = rt.alloc();
    let mut by = Bares::new(alloc);
    by.push(entered(alloc, b"q")?)?;
    let at = opened(alloc, &entered_under(alloc, b"x = p")?, &by)?;
    assert!(rt; same(&at, &entered(alloc, b"q = p")?));
    let mut names = Table::new(alloc);
    names.put(Name::read(alloc, b"f")?, Name::read(alloc, b"g")?)?;
    let renamed = translate(alloc, &entered(alloc, b"f(p)")?, &names)?;
    assert!(rt; same(&renamed, &entered(alloc, b"g(p)")?));
    Ok(())
}

#[test]
fn unfolds_and_instantiates(rt: HostRuntime) -> Result<(), Fail> {
    let alloc = rt.alloc();
    let twice = unfolded(alloc, &entered(alloc, b"d(d(p))")?, &definition(alloc)?)?;
    assert!(rt; same(&twice, &entered(alloc, b"(p and p) and (p and p)")?));
    let given = abstraction(alloc)?;
    let instance = instantiate(alloc, &entered(alloc, b"?P[y]")?, given.as_slice())?;
    assert!(rt; same(&instance, &entered(alloc, b"forall{z:T. y = z}")?));
    Ok(())
}

// Each form once, in a loose spelling behind `> ` and in its canonical one below.

ghost use Rattle.mu_command.specs.Language.{IsCommand};

use mu_command::{Command, LineFault, print, read_line};
use mu_text::Tokens;
use mu_tree::{Bytes, NoMemory, Refusal};
use std::alloc::Global;
use std::test::Fail;

const FORMS: &[u8] = b"\
> theory  a
theory a
>  parent a\tb.c
parent a b.c
> unparent a  b.c
unparent a b.c
> const a c(e,t)->e
const a c(e, t) -> e
> alter  const c{ e }->t
alter const c{e} -> t
> define c(x,y)=((x)and y)
define c(x, y) = x and y
> undefine  c
undefine c
> axiom a r:p;{x:T|p(x)|-q}|-?m [x]
axiom a r : p; {x:T | p(x) |- q} |- ?m[x]
> rule a r:imp(p,q)
rule a r : p => q
> alter  rule r:(p)
alter rule r : p
> proof r.s  m
proof r.s m
> line r m l  in root  before k:forall{x:T .p}
line r m l in root before k : forall{x:T. p}
> box r m b in root:x:T,y:U|p(x),q
box r m b in root : x:T, y:U | p(x), q
> alter line r m l:not(p)
alter line r m l : not p
> alter box r m b:|p
alter box r m b : | p
> move r m l  to b  before k
move r m l to b before k
> cite r m l:rule a.b via f from l,b #2,#1 with ?m[x]:=p;?n:=q
cite r m l : rule a.b via f from l, b#2, #1 with ?m[x] := p; ?n := q
> cite r m l:hyp #3 with p,q from l
cite r m l : hyp #3 with p, q from l
> cite r m l:def c on #1
cite r m l : def c on #1
> cite r m l:same b #2
cite r m l : same b#2
> unjustify r  m l
unjustify r m l
> drop  unit a
drop unit a
> drop const\tc
drop const c
> drop rule  r
drop rule r
> drop proof r.s  m
drop proof r.s m
> drop item r.s m  l
drop item r.s m l
> status  a.b
status a.b
> show  unit base
show unit base
> show rule  a.b
show rule a.b
> show proof a.b  m
show proof a.b m
";

/// Lets a command go. It has many shapes: letting it go here alone keeps the proofs of its readers short.
fn discard(_command: Command) {}

/// The canonical text of a command, which is let go.
fn canonical(alloc: Global, command: Command) -> Result<Bytes, NoMemory>
    requires { IsCommand command }
{
    print(alloc, &command)
}

/// Whether a line reads as the command whose canonical text this is.
fn reads_as(alloc: Global, line: &[u8], text: &[u8]) -> Result<bool, NoMemory> {
    match read_line(alloc, line) {
        Ok(Some(command)) => Ok(canonical(alloc, command)?.items() == text),
        _ => Ok(false),
    }
}

/// Whether a line reads as no command from a place on.
fn stops_at(alloc: Global, line: &[u8], from: usize) -> bool {
    match read_line(alloc, line) {
        Ok(Some(command)) => {
            discard(command);
            false
        }
        Err(LineFault::Refused(Refusal::Syntax(column))) => column as usize > from
            && column as usize - from == 1,
        _ => false,
    }
}

/// Whether a line with another token in place of the one that begins at a place stops there.
fn stops_behind(alloc: Global, line: &[u8], from: usize) -> Result<bool, NoMemory> {
    let Some(front) = line.get(..from) else {
        return Ok(false);
    };
    let mut broken = Vec::from_slice(alloc, front)?;
    broken.push(b'!')?;
    Ok(stops_at(alloc, broken.as_slice(), from))
}

/// Whether the place of each token is told where another one stands in it.
fn stops_everywhere(alloc: Global, line: &[u8]) -> Result<bool, NoMemory> {
    let tokens = Tokens::read(alloc, line)?;
    let mut all = true;
    for token in tokens.items() {
        all = stops_behind(alloc, line, token.from)? && all;
    }
    Ok(all)
}

#[test]
fn reads_each_form_in_any_spelling(rt: HostRuntime) -> Result<(), Fail> {
    let alloc = rt.alloc();
    let mut loose: &[u8] = b"";
    for line in FORMS.split(|byte| *byte == b'\n') {
        match line.strip_prefix(b"> ".as_slice()) {
            Some(spelled) => loose = spelled,
            None if line.is_empty() => {}
            None => {
                assert!(rt; reads_as(alloc, loose, line)?, "{line:?}");
                assert!(rt; stops_everywhere(alloc, line)?, "{line:?}");
            }
        }
    }
    Ok(())
}

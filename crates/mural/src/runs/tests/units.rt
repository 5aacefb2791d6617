// Transcripts of the pages of theories, written by hand: lines behind `> `, each with its reply below.

/// All of them.
pub(super) fn units() -> [&'static [u8]; 2] {
    [PAGES, CHANGES]
}

/// What a page lists, each in byte order of the names.
const PAGES: &[u8] = b"\
> show unit base
theory base
const and(e, e) -> e
const bool -> t
const eq(e, e) -> e
const exists{e} -> e
const false -> e
const forall{e} -> e
const iff(e, e) -> e
const imp(e, e) -> e
const not(e) -> e
const or(e, e) -> e
const sub{e} -> t
const true -> e
const typing(e, t) -> e
end
> show unit t
refused unknown t
> show unit
refused syntax 10
> show unit ?t
refused syntax 11
> show unit t u
refused syntax 13
> theory t
ok
> show  unit\tt
theory t
end
> show unit t.t
refused unknown t.t
> parent t low2
ok
> parent t low.er
ok
> parent t base
ok
> parent t low
ok
> parent t Low
ok
> const t b{t}->e
ok
> const t ab(e,t,e) -> e
ok
> const t a2 -> e
ok
> const t a_b -> t
ok
> const t a10(e) -> t
ok
> const t B{e} -> t
ok
> const t a -> e
ok
> define b(x)=not(not(x))
ok
> define ab(x,y,z) = eq(x, z)
ok
> define a2 = true and(true or false)
ok
> rule t r3 : imp(?p, ?q)
ok
> rule t r2 : ?p => ?q
ok
> axiom t r1 : ((?p) and (?q)) |- ?p
ok
> rule t r10 : ?p and ?q |- ?p
ok
> axiom t worse : b{x:a. x}
ok
> rule t bad : a(a)
ok
> rule t R : {x:B{y:bool. y} | ?p[x] |- a} |- a
ok
> proof r10 m
ok
> line r10 m l in root : ?p
ok
> cite r10 m l : rule r1 from #1 with ?p := ?p; ?q := ?q
ok
> proof r2 m
ok
> line r2 m l in root : ?p => ?q
ok
> cite r2 m l : rule r3 with ?p := ?p; ?q := ?q
ok
> proof R m
ok
> proof R n
ok
> proof r4 m
ok
> show unit t
theory t
parent Low
parent base
parent low
parent low.er
parent low2
const B{e} -> t
const a -> e
const a10(e) -> t
const a2 -> e
define a2 = true and (true or false)
const a_b -> t
const ab(e, t, e) -> e
define ab(x, y, z) = x = z
const b{t} -> e
define b(x) = not not x
rule R incomplete : {x:B{y:bool. y} | ?p[x] |- a} |- a
rule bad ill-formed : a(a)
axiom r1 established : ?p and ?q |- ?p
rule r10 established : ?p and ?q |- ?p
rule r2 complete : ?p => ?q
rule r3 unproved : ?p => ?q
axiom worse ill-formed : b{x:a. x}
end
> show unit low
refused unknown low
> parent base t
refused builtin base
> const base c -> e
refused builtin base
";

/// A page tells what is there at the moment, and of its own theory alone.
const CHANGES: &[u8] = b"\
> theory a
ok
> theory b
ok
> parent b a
ok
> const a p -> e
ok
> axiom a hold : p and p
ok
> const b d(e) -> e
ok
> define d(x) = x and x
ok
> rule b twice : d(p)
ok
> proof twice m
ok
> line twice m one in root : p and p
ok
> cite twice m one : rule hold
ok
> line twice m two in root : d(p)
ok
> cite twice m two : def d on one
ok
> show unit a
theory a
const p -> e
axiom hold established : p and p
end
> show unit b
theory b
parent a
const d(e) -> e
define d(x) = x and x
rule twice established : d(p)
end
> define d(y) = y or y
ok
> show unit b
theory b
parent a
const d(e) -> e
define d(y) = y or y
rule twice incomplete : d(p)
end
> define d(v)=(v)and(v)
ok
> show unit b
theory b
parent a
const d(e) -> e
define d(v) = v and v
rule twice established : d(p)
end
> undefine d
ok
> alter const d{t} -> t
ok
> show unit b
theory b
parent a
const d{t} -> t
rule twice ill-formed : d(p)
end
> alter const d(e) -> e
ok
> define d(x) = x and x
ok
> alter rule hold : p
ok
> alter rule twice : p and p
ok
> show unit a
theory a
const p -> e
axiom hold established : p
end
> show unit b
theory b
parent a
const d(e) -> e
define d(x) = x and x
rule twice incomplete : p and p
end
> alter rule hold : p and p
ok
> alter rule twice : d(p)
ok
> unparent b a
ok
> show unit b
theory b
const d(e) -> e
define d(x) = x and x
rule twice ill-formed : d(p)
end
> parent b a
ok
> parent a b
refused circle a
> const b p -> e
refused taken p
> define d(x) = d(x)
refused circle d
> show unit b
theory b
parent a
const d(e) -> e
define d(x) = x and x
rule twice established : d(p)
end
> drop proof twice m
ok
> show unit b
theory b
parent a
const d(e) -> e
define d(x) = x and x
rule twice unproved : d(p)
end
> drop rule twice
ok
> undefine d
ok
> drop const d
ok
> show unit b
theory b
parent a
end
> drop unit b
ok
> show unit b
refused unknown b
> theory b
ok
> drop rule hold
ok
> drop const p
ok
> const b p(e) -> e
ok
> axiom b hold : p(true)
ok
> show unit a
theory a
end
> show unit b
theory b
const p(e) -> e
axiom hold established : p(true)
end
";

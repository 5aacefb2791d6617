// Transcripts on trees, written by hand from the grammar: lines behind `> `, each with its reply below.

/// All of them.
pub(super) fn trees() -> [&'static [u8]; 8] {
    [
        OPERATORS,
        READINGS,
        BINDERS,
        METAVARIABLES,
        CONSTANTS,
        LONG_NAMES,
        TURNED,
        QUANTIFIERS,
    ]
}

/// Operators by their levels and sides, and where they fit nothing.
const OPERATORS: &[u8] = b"\
> theory t
ok
> const t p -> e
ok
> const t q -> e
ok
> const t r -> e
ok
> axiom t a1 : p and q or r
ok
> axiom t a2 : p => q => r
ok
> axiom t a3 : not not p
ok
> axiom t a4 : p<=>q
ok
> axiom t a5 : (p <=> q) <=> r
ok
> axiom t a6 : p = (q = r)
ok
> axiom t a7 : p and not q
ok
> axiom t a8 : ((p))
ok
> axiom t a9 : imp(p, q) => iff(p, eq(q, r))
ok
> axiom t b1 : not p; p : bool |- p = q
ok
> axiom t b : p <=> q <=> r
refused syntax 21
> axiom t b : p = q = r
refused syntax 19
> axiom t b : p = q : r
refused syntax 19
> axiom t b : p : q : r
refused syntax 19
> axiom t b : p = not q
refused syntax 17
> axiom t b : p : not q
refused syntax 17
> axiom t b : p = q <=> not r
ok
> axiom t c : not
refused syntax 16
> axiom t c : p and
refused syntax 18
> axiom t c : and p
refused syntax 13
> axiom t c : and(p, q)
refused syntax 13
> axiom t c : or(p)
refused syntax 13
> axiom t c : not(p, q)
refused syntax 18
> axiom t c : p or or q
refused syntax 18
> axiom t c : p not q
refused syntax 15
> axiom t c : (p
refused syntax 15
> axiom t c : (p))
refused syntax 16
> axiom t c : ()
refused syntax 14
> axiom t c : (p)(q)
refused syntax 16
> axiom t c : (p, q)
refused syntax 15
> axiom t c : p == q
refused syntax 16
> axiom t c : p <= q
refused syntax 15
> axiom t c : p -> q
refused syntax 15
> axiom t c : p := q
refused syntax 15
> axiom t c : p; q and |- r
refused syntax 22
> axiom t c : p |- q |- r
refused syntax 20
> axiom t c : p(q) and (q or not r) => not(p) = q
ok
";

/// What is read as one tree, and what as two.
const READINGS: &[u8] = b"\
> theory t
ok
> const t p -> e
ok
> const t q -> e
ok
> const t r -> e
ok
> axiom t a : p => q => r
ok
> rule t a1 : imp(p, imp(q, r))
ok
> proof a1 m
ok
> line a1 m l in root : p => (q => r)
ok
> cite a1 m l : rule a
ok
> status a1
a1 rule established
> rule t a2 : (p => q) => r
ok
> proof a2 m
ok
> line a2 m l in root : (p => q) => r
ok
> cite a2 m l : rule a
ok
> status a2
a2 rule incomplete
> axiom t b : p or q or r
ok
> rule t b1 : (p or q) or r
ok
> proof b1 m
ok
> line b1 m l in root : (p or q) or r
ok
> cite b1 m l : rule b
ok
> status b1
b1 rule established
> rule t b2 : p or (q or r)
ok
> proof b2 m
ok
> line b2 m l in root : p or (q or r)
ok
> cite b2 m l : rule b
ok
> status b2
b2 rule incomplete
> axiom t c : not(p) = q
ok
> rule t c1 : not (p = q)
ok
> proof c1 m
ok
> line c1 m l in root : not eq(p, q)
ok
> cite c1 m l : rule c
ok
> status c1
c1 rule established
> rule t c2 : (not p) = q
ok
> proof c2 m
ok
> line c2 m l in root : (not p) = q
ok
> cite c2 m l : rule c
ok
> status c2
c2 rule incomplete
> axiom t d : p and q = r or p : bool
ok
> rule t d1 : (p and (q = r)) or (typing(p, bool))
ok
> proof d1 m
ok
> line d1 m l in root : (p and q = r) or p : bool
ok
> cite d1 m l : rule d
ok
> status d1
d1 rule established
> axiom t f : p <=> q => not p and r
ok
> rule t f1 : iff(p, q => ((not p) and r))
ok
> proof f1 m
ok
> line f1 m l in root : p <=> (q => (not p and r))
ok
> cite f1 m l : rule f
ok
> status f1
f1 rule established
";

/// Binders, with one variable each.
const BINDERS: &[u8] = b"\
> theory t
ok
> const t T -> t
ok
> const t p -> e
ok
> const t le(e, e) -> e
ok
> const t all{e} -> e
ok
> axiom t a1 : forall{x:T. le(x, x)}
ok
> axiom t a2 : forall { x : T . exists{y:T. le(x, y)} } and p
ok
> axiom t a3 : all{x:bool. not x}
ok
> axiom t a4 : forall{x:p => p. p}
ok
> axiom t a5 : forall{x:y:T. p}
ok
> axiom t a6 : le(forall{x:T. p}, p) => a.b{x:T. true{y:c. x}}
ok
> axiom t a7 : forall
ok
> axiom t b : forall{x:T.p}
refused syntax 25
> axiom t b : forall{x:T. p
refused syntax 26
> axiom t b : forall{x. p}
refused syntax 21
> axiom t b : forall{x:T, p}
refused syntax 23
> axiom t b : forall{x:T}
refused syntax 23
> axiom t b : forall{x:T. }
refused syntax 25
> axiom t b : forall{x:y:z:T. p}
refused syntax 25
> axiom t b : forall{}
refused syntax 20
> axiom t b : forall{and:T. p}
refused syntax 20
> axiom t b : forall{true:T. p}
refused syntax 20
> axiom t b : forall{a.b:T. p}
refused syntax 20
> axiom t b : forall{?x:T. p}
refused syntax 20
> axiom t b : and{x:T. p}
refused syntax 13
> axiom t b : not{x:T. p}
refused syntax 16
> axiom t b : forall[x]
refused syntax 19
> axiom t b : forall{x:T. p}(p)
refused syntax 27
> axiom t b : {x:T. p}
refused syntax 17
> status a1
a1 axiom established
> status a2
a2 axiom established
> status a4
a4 axiom ill-formed
> status a7
a7 axiom ill-formed
";

/// Metavariables with arguments, and abstractions with parameters.
const METAVARIABLES: &[u8] = b"\
> theory t
ok
> const t T -> t
ok
> const t p -> e
ok
> const t f(e) -> e
ok
> axiom t a1 : ?m[p, f(p)]
ok
> axiom t a2 : ?m [p,?n[?n[p]]] and ?and
ok
> axiom t a3 : ?m[forall{x:T. ?n[x]}]; ?m[not p] |- p
ok
> axiom t b : ?m[]
refused syntax 16
> axiom t b : ?m[p,]
refused syntax 18
> axiom t b : ?m[p
refused syntax 17
> axiom t b : ?m[p; p]
refused syntax 17
> axiom t b : ?m(p)
refused syntax 15
> axiom t b : ?m[p](p)
refused syntax 18
> axiom t b : ?m[p][p]
refused syntax 18
> axiom t b : ?m{x:T. p}
refused syntax 15
> axiom t b : ?m.a
refused syntax 15
> axiom t b : ? m
refused syntax 13
> axiom t b : ?1
refused syntax 13
> axiom t b : p[p]
refused syntax 14
> axiom t all : ?m[p]; ?m[f(p)] |- ?m[f(f(p))]
ok
> axiom t b1 : p = p
ok
> axiom t b2 : f(p) = f(p)
ok
> rule t r : f(f(p)) = f(f(p))
ok
> proof r m
ok
> line r m l1 in root : p = p
ok
> cite r m l1 : rule b1
ok
> line r m l2 in root : f(p) = f(p)
ok
> cite r m l2 : rule b2
ok
> line r m l3 in root : f(f(p)) = f(f(p))
ok
> cite r m l3 : rule all from l1, l2 with ?m[x] := x = x
ok
> status r
r rule established
> cite r m l3 : rule all from l1, l2 with ?m[x] := x = p
ok
> status r
r rule incomplete
> cite r m l3 : rule all from l1, l2 with ?m[y, x] := y = x
ok
> status r
r rule incomplete
> cite r m l3 : rule all from l1, l2 with ?m[ y ] := eq(y, (y))
ok
> status r
r rule established
> cite r m l3 : rule a with ?m[] := p
refused syntax 30
> cite r m l3 : rule a with ?m[x,] := p
refused syntax 32
> cite r m l3 : rule a with ?m[and] := p
refused syntax 30
> cite r m l3 : rule a with ?m[x, true] := p
refused syntax 33
> cite r m l3 : rule a with ?m[x.y] := p
refused syntax 30
> cite r m l3 : rule a with ?m[f(x)] := p
refused syntax 31
> cite r m l3 : rule a with ?m[x := p
refused syntax 32
> cite r m l3 : rule a with ?m[x] = p
refused syntax 33
> cite r m l3 : rule a with ?m[x] :=
refused syntax 35
> cite r m l3 : rule a with ?m := p => ?n[p] = p;
refused syntax 48
> cite r m l3 : rule a with ?m := p = p = p
refused syntax 39
";

/// Constants with kinds and of binder shape.
const CONSTANTS: &[u8] = b"\
> theory t
ok
> const t T -> t
ok
> const t f(t, e) -> t
ok
> const t B{e} -> t
ok
> const t C { t }->e
ok
> const t e -> t
ok
> const t t(t, e) -> e
ok
> const t true{e} -> e
refused builtin true
> const t forall{e} -> e
refused builtin forall
> const base X{t} -> t
refused builtin base
> const nope X{t} -> t
refused unknown nope
> const t B -> e
refused taken B
> const t D{e, e} -> e
refused syntax 12
> const t D{} -> e
refused syntax 11
> const t D{e -> e
refused syntax 13
> const t D{e}(e) -> e
refused syntax 13
> const t D(e){e} -> e
refused syntax 13
> const t D[e] -> e
refused syntax 10
> const t D() -> e
refused syntax 11
> const t D -> k
refused syntax 14
> const t D(e, k) -> e
refused syntax 14
> const t D(e) -> e -> e
refused syntax 19
> const t D ->
refused syntax 13
> const t D{x:T. e} -> e
refused syntax 11
> const t D.D{e} -> e
refused syntax 9
> const t D
refused syntax 10
> axiom t a1 : C{x:T. T} and e(T)
ok
> axiom t a2 : C{x:T. f(T, x)}
ok
> axiom t a3 : t(f(T, true), true)
ok
> axiom t a4 : t(true, true)
ok
> axiom t a5 : forall{x:f(T, true). t(B{y:T. x = y}, x)}
ok
> axiom t a6 : C(T)
ok
> axiom t a7 : true : B{x:bool. x}
ok
> axiom t a8 : B{x:bool. x}
ok
> status a2
a2 axiom established
> status a3
a3 axiom established
> status a4
a4 axiom ill-formed
> status a5
a5 axiom established
> status a6
a6 axiom ill-formed
> status a7
a7 axiom established
> status a8
a8 axiom ill-formed
";

/// Segments of 64 and of 65 bytes: syntax goes before the limit, and this before all else.
const LONG_NAMES: &[u8] = b"\
> theory aaaaaaaaaaaaaaaaaaaaaaaaaaaaaaaaaaaaaaaaaaaaaaaaaaaaaaaaaaaaaaaa
ok
> theory aaaaaaaaaaaaaaaaaaaaaaaaaaaaaaaaaaaaaaaaaaaaaaaaaaaaaaaaaaaaaaaaa
refused limit name
> theory aaaaaaaaaaaaaaaaaaaaaaaaaaaaaaaaaaaaaaaaaaaaaaaaaaaaaaaaaaaaaaaaa x
refused syntax 74
> theory aaaaaaaaaaaaaaaaaaaaaaaaaaaaaaaaaaaaaaaaaaaaaaaaaaaaaaaaaaaaaaaaa.b
refused syntax 8
> const aaaaaaaaaaaaaaaaaaaaaaaaaaaaaaaaaaaaaaaaaaaaaaaaaaaaaaaaaaaaaaaa aaaaaaaaaaaaaaaaaaaaaaaaaaaaaaaaaaaaaaaaaaaaaaaaaaaaaaaaaaaaaaaa -> e
ok
> const nope aaaaaaaaaaaaaaaaaaaaaaaaaaaaaaaaaaaaaaaaaaaaaaaaaaaaaaaaaaaaaaaaa -> e
refused limit name
> axiom nope b : p.aaaaaaaaaaaaaaaaaaaaaaaaaaaaaaaaaaaaaaaaaaaaaaaaaaaaaaaaaaaaaaaaa
refused limit name
> axiom nope b : ?aaaaaaaaaaaaaaaaaaaaaaaaaaaaaaaaaaaaaaaaaaaaaaaaaaaaaaaaaaaaaaaaa
refused limit name
> axiom aaaaaaaaaaaaaaaaaaaaaaaaaaaaaaaaaaaaaaaaaaaaaaaaaaaaaaaaaaaaaaaa b : aaaaaaaaaaaaaaaaaaaaaaaaaaaaaaaaaaaaaaaaaaaaaaaaaaaaaaaaaaaaaaaa.aaaaaaaaaaaaaaaaaaaaaaaaaaaaaaaaaaaaaaaaaaaaaaaaaaaaaaaaaaaaaaaa.aaaaaaaaaaaaaaaaaaaaaaaaaaaaaaaaaaaaaaaaaaaaaaaaaaaaaaaaaaaaaaaa => ?aaaaaaaaaaaaaaaaaaaaaaaaaaaaaaaaaaaaaaaaaaaaaaaaaaaaaaaaaaaaaaaa
ok
> rule nope b : p.aaaaaaaaaaaaaaaaaaaaaaaaaaaaaaaaaaaaaaaaaaaaaaaaaaaaaaaaaaaaaaaaa.b.c
refused syntax 15
> rule nope b : forall{aaaaaaaaaaaaaaaaaaaaaaaaaaaaaaaaaaaaaaaaaaaaaaaaaaaaaaaaaaaaaaaaa:T. p}
refused limit name
> rule nope b : aaaaaaaaaaaaaaaaaaaaaaaaaaaaaaaaaaaaaaaaaaaaaaaaaaaaaaaaaaaaaaaaa aaaaaaaaaaaaaaaaaaaaaaaaaaaaaaaaaaaaaaaaaaaaaaaaaaaaaaaaaaaaaaaaa
refused syntax 81
> line r m l in aaaaaaaaaaaaaaaaaaaaaaaaaaaaaaaaaaaaaaaaaaaaaaaaaaaaaaaaaaaaaaaaa : p
refused limit name
> cite r m l : rule a from aaaaaaaaaaaaaaaaaaaaaaaaaaaaaaaaaaaaaaaaaaaaaaaaaaaaaaaaaaaaaaaaa
refused limit name
> cite r m l : rule a with ?m[aaaaaaaaaaaaaaaaaaaaaaaaaaaaaaaaaaaaaaaaaaaaaaaaaaaaaaaaaaaaaaaaa] := p
refused limit name
> status aaaaaaaaaaaaaaaaaaaaaaaaaaaaaaaaaaaaaaaaaaaaaaaaaaaaaaaaaaaaaaaaa
refused limit name
> aaaaaaaaaaaaaaaaaaaaaaaaaaaaaaaaaaaaaaaaaaaaaaaaaaaaaaaaaaaaaaaaa b
refused syntax 1
> axiom base b : aaaaaaaaaaaaaaaaaaaaaaaaaaaaaaaaaaaaaaaaaaaaaaaaaaaaaaaaaaaaaaaaa
refused limit name
> rule base aaaaaaaaaaaaaaaaaaaaaaaaaaaaaaaaaaaaaaaaaaaaaaaaaaaaaaaaaaaaaaaaa : p
refused limit name
> const base aaaaaaaaaaaaaaaaaaaaaaaaaaaaaaaaaaaaaaaaaaaaaaaaaaaaaaaaaaaaaaaaa -> e
refused limit name
> const aaaaaaaaaaaaaaaaaaaaaaaaaaaaaaaaaaaaaaaaaaaaaaaaaaaaaaaaaaaaaaaaa and -> e
refused limit name
> const aaaaaaaaaaaaaaaaaaaaaaaaaaaaaaaaaaaaaaaaaaaaaaaaaaaaaaaaaaaaaaaaa ands -> e
refused limit name
> proof base aaaaaaaaaaaaaaaaaaaaaaaaaaaaaaaaaaaaaaaaaaaaaaaaaaaaaaaaaaaaaaaaa
refused limit name
> theory base
refused builtin base
";

/// A conjunction is turned round.
const TURNED: &[u8] = b"\
> theory prop
ok
> axiom prop and_e1 : ?p and ?q |- ?p
ok
> axiom prop and_e2 : ?p and ?q |- ?q
ok
> axiom prop and_i : ?p; ?q |- ?p and ?q
ok
> rule prop and_swap : ?p and ?q |- ?q and ?p
ok
> proof and_swap m
ok
> line and_swap m l3 in root : ?q and ?p
ok
> cite and_swap m l3 : rule and_i from l1, l2 with ?p := ?q; ?q := ?p
ok
> status and_swap
and_swap rule incomplete
> line and_swap m l1 in root before l3 : ?q
ok
> line and_swap m l2 in root before l3 : ?p
ok
> cite and_swap m l1 : rule and_e2 from #1 with ?p := ?p; ?q := ?q
ok
> cite and_swap m l2 : rule and_e1 from #1 with ?p := ?p; ?q := ?q
ok
> status and_swap
and_swap rule established
";

/// Rules on quantifiers.
const QUANTIFIERS: &[u8] = b"\
> theory q
ok
> const q N -> t
ok
> const q le(e, e) -> e
ok
> axiom q all_e : forall{x:?T. ?P[x]}; ?a : ?T |- ?P[?a]
ok
> axiom q all_i : {x:?T | |- ?P[x]} |- forall{x:?T. ?P[x]}
ok
> axiom q ex_i : ?P[?a]; ?a : ?T |- exists{x:?T. ?P[x]}
ok
> rule q r : forall{y:N. exists{x:N. le(y, x)}} |- forall{x:N. exists{z:N. le(x, z)}}
ok
> status r
r rule unproved
> proof r m
ok
> line r m l in root : forall{b:N. exists{x:N. le(b, x)}}
ok
> cite r m l : rule all_i from #1
ok
> status r
r rule incomplete
> const q c -> e
ok
> axiom q c_is : c : N
ok
> rule q s : forall{y:N. exists{x:N. le(y, x)}} |- exists{z:N. le(c, z)}
ok
> proof s m
ok
> line s m l1 in root : c : N
ok
> cite s m l1 : rule c_is
ok
> line s m l2 in root : exists{z:N. le(c, z)}
ok
> cite s m l2 : rule all_e from #1, l1 with ?T := N; ?P[y] := exists{x:N. le(y, x)}; ?a := c
ok
> status s
s rule established
> cite s m l2 : rule all_e from #1, l1 with ?T := N; ?P[x] := exists{x:N. le(x, x)}; ?a := c
ok
> status s
s rule incomplete
> rule q u : le(c, c) |- exists{z:N. le(z, c)}
ok
> proof u m
ok
> line u m l1 in root : c : N
ok
> cite u m l1 : rule c_is
ok
> line u m l2 in root : exists{w:N. le(w, c)}
ok
> cite u m l2 : rule ex_i from #1, l1 with ?P[v] := le(v, c); ?a := c; ?T := N
ok
> status u
u rule established
";

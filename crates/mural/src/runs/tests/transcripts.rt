// Transcripts, written by hand from the grammar: lines behind `> `, each with its reply below, if it has one.

/// All of them.
pub(super) fn transcripts() -> [&'static [u8]; 10] {
    [
        DECLARATIONS,
        AXIOMS,
        PROOFS,
        CITATIONS,
        OTHERS,
        FROM_THE_END,
        CLAIMS,
        REASONS,
        STATUSES,
        CIRCLES,
    ]
}

/// Blank lines and comments, theories and constants.
const DECLARATIONS: &[u8] = b"\
> theory t
ok
>   # a comment
> 
> \t \r
> theory t\r
refused taken t
>  theory\tu
ok
> theory
refused syntax 7
> theory 
refused syntax 7
> theory t u
refused syntax 10
> theory t.u
refused syntax 8
> theory base
refused builtin base
> theory theory
ok
> theorem t
refused syntax 1
> const t p -> e
ok
> const t p -> e
refused taken p
> const t q->e # no comment
refused syntax 14
> const t q->e
ok
> const base r -> e
refused builtin base
> const t and -> e
refused builtin and
> const t true -> e
refused builtin true
> const t r -> k
refused syntax 14
> const nope r -> e
refused unknown nope
> const nope p -> e
refused unknown nope
> const u f(e) -> e
ok
> const u g(e, e)->e
ok
> const u h() -> e
refused syntax 11
> const u h(e,) -> e
refused syntax 13
> const u h(e e) -> e
refused syntax 13
> const u h(e
refused syntax 12
> const u h(e) e
refused syntax 14
> const u h -> e e
refused syntax 16
> const u.v h -> e
refused syntax 7
";

/// Axioms, and what is known of them.
const AXIOMS: &[u8] = b"\
> theory t
ok
> theory u
ok
> const t p -> e
ok
> const t q -> e
ok
> const u f(e) -> e
ok
> const u g(e, e) -> e
ok
> axiom t a : p
ok
> axiom t a : p
refused taken a
> axiom u b : p
ok
> axiom t c : true
ok
> axiom t d : bool
ok
> axiom t f1 : nope
ok
> axiom t g : and
refused syntax 13
> axiom t h : x.y
ok
> axiom t a.b : p
refused syntax 9
> axiom nope a : p
refused unknown nope
> axiom base i : true
refused builtin base
> axiom t and : false
ok
> axiom t i : p q
refused syntax 15
> axiom t i : p;
refused syntax 15
> axiom t i : p; q
refused syntax 17
> axiom t i : |- q
refused syntax 13
> axiom t i : p, q |- q
refused syntax 14
> axiom t i : p |- 
refused syntax 17
> axiom t i : p(q
refused syntax 16
> axiom t i : p()
refused syntax 15
> axiom t i : (p
refused syntax 15
> axiom t i : not
refused syntax 16
> axiom t i : p and
refused syntax 18
> axiom t i : ?a; ?b |- ?a
ok
> axiom t mp : ?a(p)
refused syntax 16
> axiom u k : f(true, true)
ok
> axiom u l : f(true)
ok
> status a
a axiom established
> status b
b axiom ill-formed
> status c
c axiom established
> status d
d axiom ill-formed
> status f1
f1 axiom ill-formed
> status h
h axiom ill-formed
> status and
and axiom established
> status g
refused unknown g
> status k
k axiom ill-formed
> status l
l axiom established
> status i
i axiom established
";

/// Rules, proofs and their lines.
const PROOFS: &[u8] = b"\
> theory t
ok
> const t p -> e
ok
> const t q -> e
ok
> axiom t a : p
ok
> rule t r1 : q
ok
> rule t a : q
refused taken a
> rule t r1
refused syntax 10
> rule t r1 q
refused syntax 11
> rule nope x : p
refused unknown nope
> rule base x : p
refused builtin base
> status r1
r1 rule unproved
> proof r1 m
ok
> proof r1 m
refused taken m
> proof r1 m.n
refused syntax 10
> proof x.y.z m
ok
> proof a.b.c.d m
refused syntax 7
> proof r1
refused syntax 9
> line r1 m l1 in root : q
ok
> line r1 m l1 in root : q
refused taken l1
> line r1 m root in root : q
refused taken root
> line r1 x l2 in root : q
refused unknown x
> line nope m l2 in root : q
refused unknown m
> line r1 m l2 in b : q
refused unknown b
> line r1 m l2 in l1 : q
refused unknown l1
> line r1 m l2 in root before k : q
refused unknown k
> line r1 m l1 in root before k : q
refused unknown k
> line r1 m l0 in root before l1 : p
ok
> line r1 m l2 on root : q
refused syntax 14
> line r1 m l2 in root before : q
refused syntax 29
> line r1 m l.2 in root : q
refused syntax 12
> line r1 m l2 in root q
refused syntax 22
> line r1 m l2 in root : q r
refused syntax 26
> line r1 m l2 in root : bool
ok
";

/// What lines hold by, circles, and what is known of rules.
const CITATIONS: &[u8] = b"\
> theory t
ok
> const t p -> e
ok
> const t q -> e
ok
> axiom t a : p
ok
> rule t r1 : q
ok
> proof r1 m
ok
> line r1 m l0 in root : p
ok
> line r1 m l1 in root : q
ok
> cite r1 m l1 : rule a
ok
> cite r1 m l9 : rule a
refused unknown l9
> cite r1 x l1 : rule a
refused unknown x
> cite r1 m l1 : rule
refused syntax 20
> cite r1 m l1 : some l0
refused syntax 16
> cite r1 m l1 : rule a from
refused syntax 27
> cite r1 m l1 : rule a from l0 l1
refused syntax 31
> cite r1 m l1 : rule a from l0#1
ok
> cite r1 m l1 : rule a from #1 l0
refused syntax 31
> cite r1 m l1 : rule a from l0, #1
ok
> cite r1 m l1 : rule a from l0, #1 #2
refused syntax 35
> cite r1 m l1 : rule a from l0, #0
refused syntax 32
> cite r1 m l1 : rule a with ?x = p
refused syntax 31
> cite r1 m l1 : rule a with ?x := p from l0
refused syntax 36
> cite r1 m l1 : rule a with ?x := p;
refused syntax 36
> cite r1 m l1 : rule a on f
refused syntax 23
> cite r1 m l1 : rule x.y
ok
> cite r1 m l1 : rule r1
refused circle r1
> rule t r2 : q
ok
> proof r2 m
ok
> line r2 m l in root : q
ok
> cite r2 m l : rule r1
ok
> cite r1 m l1 : rule r2
refused circle r1
> cite r1 m l1 : rule a from l0, #1, b#2 with ?x := p
ok
> cite r1 m l1 : rule a from l0, #1, b with ?x := p; ?y := f(?x, q)
ok
> status r1
r1 rule incomplete
> status r2
r2 rule complete
";

/// Queries, forms that there are not yet, and long names.
const OTHERS: &[u8] = b"\
> theory t
ok
> const t p -> e
ok
> axiom t a : p
ok
> status a.b
refused unknown a.b
> status p
refused unknown p
> status
refused syntax 7
> status ?a
refused syntax 8
> status status a
refused syntax 15
> boxes r1 m b in root : p
refused syntax 1
> show theory a
refused syntax 6
> ; theory v
refused syntax 1
> aaaaaaaaaaaaaaaaaaaaaaaaaaaaaaaaaaaaaaaaaaaaaaaaaaaaaaaaaaaaaaaaa b
refused syntax 1
> status aaaaaaaaaaaaaaaaaaaaaaaaaaaaaaaaaaaaaaaaaaaaaaaaaaaaaaaaaaaaaaaaa
refused limit name
> # aaaaaaaaaaaaaaaaaaaaaaaaaaaaaaaaaaaaaaaaaaaaaaaaaaaaaaaaaaaaaaaaa
> status aaaaaaaaaaaaaaaaaaaaaaaaaaaaaaaaaaaaaaaaaaaaaaaaaaaaaaaaaaaaaaaa
refused unknown aaaaaaaaaaaaaaaaaaaaaaaaaaaaaaaaaaaaaaaaaaaaaaaaaaaaaaaaaaaaaaaa
> status x.y.z
refused unknown x.y.z
> status a
a axiom established
";

/// A proof that is done from its end on.
const FROM_THE_END: &[u8] = b"\
> theory t
ok
> const t p -> e
ok
> const t q -> e
ok
> axiom t x : p
ok
> axiom t xy : p |- q
ok
> rule t y : q
ok
> proof y m
ok
> line y m l1 in root : p
ok
> line y m l2 in root : q
ok
> cite y m l2 : rule xy from l1
ok
> status y
y rule incomplete
> cite y m l1 : rule x
ok
> status y
y rule established
";

/// Which claims are well formed.
const CLAIMS: &[u8] = b"\
> theory u
ok
> const u p -> e
ok
> const u f(e, e) -> e
ok
> axiom u a : f(p, imp(p, ?x)); eq(?x, ?y) |- iff(?y, false)
ok
> status a
a axiom established
> axiom u b : typing(?x, ?y); ?x |- typing(?x, bool)
ok
> status b
b axiom established
> axiom u c : typing(?x, ?x)
ok
> status c
c axiom ill-formed
> axiom u d : typing(p, ?x) |- ?x
ok
> status d
d axiom ill-formed
> axiom u e : bool
ok
> status e
e axiom ill-formed
> axiom u g : bool |- p
ok
> status g
g axiom ill-formed
> axiom u h : f(p, bool)
ok
> status h
h axiom ill-formed
> axiom u i : typing(p, p)
ok
> status i
i axiom ill-formed
> axiom u j : f(p)
ok
> status j
j axiom ill-formed
> axiom u k : true(p)
ok
> status k
k axiom ill-formed
> axiom u l : forall(p)
ok
> status l
l axiom ill-formed
> axiom u m : exists
ok
> status m
m axiom ill-formed
";

/// When a line holds, and when a proof is right: one thing is wrong, and then mended.
const REASONS: &[u8] = b"\
> theory u
ok
> theory v
ok
> const u p -> e
ok
> const u q -> e
ok
> axiom u mp : ?P; imp(?P, ?Q) |- ?Q
ok
> axiom u any : ?P
ok
> axiom v far : ?P
ok
> rule u goal : p; imp(p, q) |- q
ok
> proof goal m
ok
> status goal
goal rule incomplete
> line goal m l in root : q
ok
> status goal
goal rule incomplete
> cite goal m l : rule mp from #1, #2 with ?P := p; ?Q := q
ok
> status goal
goal rule established
> cite goal m l : rule none from #1, #2 with ?P := p; ?Q := q
ok
> status goal
goal rule incomplete
> cite goal m l : rule any with ?P := q
ok
> status goal
goal rule established
> cite goal m l : rule far with ?P := q
ok
> status goal
goal rule incomplete
> cite goal m l : rule mp from #1, #2 with ?Q := q; ?P := p
ok
> status goal
goal rule established
> cite goal m l : rule mp from #1 with ?P := p; ?Q := q
ok
> status goal
goal rule incomplete
> cite goal m l : rule mp from #1, #2, #2 with ?P := p; ?Q := q
ok
> status goal
goal rule incomplete
> cite goal m l : rule mp from #2, #1 with ?P := p; ?Q := q
ok
> status goal
goal rule incomplete
> cite goal m l : rule mp from #1, #3 with ?P := p; ?Q := q
ok
> status goal
goal rule incomplete
> cite goal m l : rule mp from #1, l with ?P := p; ?Q := q
ok
> status goal
goal rule incomplete
> cite goal m l : rule mp from #1, k with ?P := p; ?Q := q
ok
> status goal
goal rule incomplete
> cite goal m l : rule mp from #1, #2 with ?P := p
ok
> status goal
goal rule incomplete
> cite goal m l : rule mp from #1, #2 with ?P := p; ?Q := q; ?R := p
ok
> status goal
goal rule incomplete
> cite goal m l : rule mp from #1, #2 with ?P := p; ?Q := q; ?P := p
refused taken ?P
> status goal
goal rule incomplete
> cite goal m l : rule mp from #1, #2 with ?P := p; ?Q := bool
ok
> status goal
goal rule incomplete
> cite goal m l : rule any with ?P := p
ok
> status goal
goal rule incomplete
> cite goal m l : rule any with ?P := q
ok
> status goal
goal rule established
> line goal m k in root : p
ok
> cite goal m k : rule any with ?P := p
ok
> status goal
goal rule incomplete
> line goal m last in root : q
ok
> status goal
goal rule incomplete
> cite goal m last : rule mp from k, #2 with ?P := p; ?Q := q
ok
> status goal
goal rule established
> cite goal m l : rule mp from k, #2 with ?P := p; ?Q := q
ok
> status goal
goal rule incomplete
> rule u self : ?Z |- ?Z
ok
> proof self m
ok
> line self m l in root : ?Z
ok
> cite self m l : rule any with ?P := ?Z
ok
> status self
self rule established
> line self m k in root before l : ?Y
ok
> cite self m k : rule any with ?P := ?Y
ok
> status self
self rule incomplete
> proof self n
ok
> line self n k in root : bool
ok
> cite self n k : rule any with ?P := bool
ok
> line self n l in root : ?Z
ok
> cite self n l : rule any with ?P := ?Z
ok
> status self
self rule incomplete
> proof self a
ok
> line self a l in root : ?Z
ok
> cite self a l : rule any with ?P := ?Z
ok
> status self
self rule established
";

/// How a status rests on other rules, and on what comes later.
const STATUSES: &[u8] = b"\
> theory u
ok
> const u p -> e
ok
> axiom u ax : p
ok
> rule u late : p
ok
> rule u early : p
ok
> status early
early rule unproved
> proof early m
ok
> line early m a in root : p
ok
> cite early m a : rule late
ok
> status early
early rule complete
> proof late m
ok
> status late
late rule incomplete
> status early
early rule complete
> proof late n
ok
> line late n a in root : p
ok
> cite late n a : rule ax
ok
> status late
late rule established
> status early
early rule established
> proof ax m
ok
> status ax
ax axiom established
> proof new m
ok
> line new m a in root : p
ok
> cite new m a : rule ax
ok
> status new
refused unknown new
> rule u new : p
ok
> status new
new rule established
> axiom u odd : q
ok
> rule u upon : q
ok
> proof upon m
ok
> line upon m a in root : q
ok
> cite upon m a : rule odd
ok
> status odd
odd axiom ill-formed
> status upon
upon rule ill-formed
> const u q -> e
ok
> status odd
odd axiom established
> status upon
upon rule established
";

/// Rules that would lead back to themselves, one of which is not there.
const CIRCLES: &[u8] = b"\
> theory t
ok
> const t p -> e
ok
> rule t a : p
ok
> rule t b : p
ok
> proof a m
ok
> line a m l in root : p
ok
> proof b m
ok
> line b m l in root : p
ok
> cite a m l : rule b
ok
> cite b m l : rule a
refused circle a
> cite b m l : rule b
refused circle b
> status a
a rule complete
> status b
b rule incomplete
> axiom t x : p
ok
> cite b m l : rule x
ok
> proof z m
ok
> line z m l in root : p
ok
> cite z m l : rule a
ok
> cite b m l : rule z
refused circle a
> status z
refused unknown z
> status b
b rule established
> status a
a rule established
> cite b m k : rule z
refused unknown k
> cite b n l : rule z
refused unknown n
> proof b n
ok
> line b n l in root : p
ok
> cite b n l : rule z
refused circle a
> cite b n l : rule c
ok
> proof c m
ok
> line c m l in root : p
ok
> cite c m l : rule z
refused circle a
> cite a m l : rule x
ok
> cite c m l : rule z
ok
> cite a m l : rule c
refused circle a
> cite a m l : rule b
refused circle a
> cite z m l : rule x
ok
> cite a m l : rule b
ok
";

// Transcripts of reasons and references, written by hand from the grammar: lines behind `> `, each with its reply below.

/// All of them.
pub(super) fn reasons() -> [&'static [u8]; 5] {
    [REASONS, REFERENCES, REFUSALS, SYNTAX, CANONICAL_TEXT]
}

/// The other reasons, and each way in which a line doesn't hold by them.
const REASONS: &[u8] = b"\
> theory t
ok
> const t p -> e
ok
> const t q -> e
ok
> axiom t ap : p
ok
> axiom t or_e : ?p or ?q; {| ?p |- ?r}; {| ?q |- ?r} |- ?r
ok
> rule t r : p or p |- p
ok
> proof r m
ok
> box r m b in root : | p
ok
> line r m k in b : p
ok
> cite r m k : same b#1
ok
> line r m l in root : p
ok
> cite r m l : rule or_e from #1, b, b with ?p := p; ?q := p; ?r := p
ok
> show rule r
rule t r established : p or p |- p
proof m checks
end
> cite r m l : rule or_e from #1, b, #1 with ?p := p; ?q := p; ?r := p
ok
> show rule r
rule t r incomplete : p or p |- p
proof m fault l hypothesis-differs
end
> cite r m l : rule or_e from b, b, b with ?p := p; ?q := p; ?r := p
ok
> show rule r
rule t r incomplete : p or p |- p
proof m fault l hypothesis-differs
end
> cite r m l : rule or_e from #1, b, b with ?p := p; ?q := p; ?r := q
ok
> show rule r
rule t r incomplete : p or p |- p
proof m fault l hypothesis-differs
end
> cite r m l : rule ap via f
ok
> show rule r
rule t r incomplete : p or p |- p
proof m fault l absent
end
> cite r m l : rule nope via f from #1, b with ?p := q
ok
> show rule r
rule t r incomplete : p or p |- p
proof m fault l absent
end
> cite r m l : rule ap via f from nope
ok
> show rule r
rule t r incomplete : p or p |- p
proof m fault l not-accessible
end
> cite r m l : def p on #1
ok
> show rule r
rule t r incomplete : p or p |- p
proof m fault l absent
end
> cite r m l : def p on b
ok
> show rule r
rule t r incomplete : p or p |- p
proof m fault l absent
end
> cite r m l : def p on #2
ok
> show rule r
rule t r incomplete : p or p |- p
proof m fault l not-accessible
end
> cite r m l : same #1
ok
> show rule r
rule t r incomplete : p or p |- p
proof m fault l conclusion-differs
end
> cite r m l : same b
ok
> show rule r
rule t r incomplete : p or p |- p
proof m fault l hypothesis-differs
end
> cite r m l : same l
ok
> show rule r
rule t r incomplete : p or p |- p
proof m fault l not-accessible
end
> line r m j in root before l : p
ok
> cite r m j : rule ap
ok
> cite r m l : same j
ok
> show rule r
rule t r established : p or p |- p
proof m checks
end
> cite r m j : same l
ok
> show rule r
rule t r incomplete : p or p |- p
proof m fault j not-accessible
end
> rule t s : q |- p
ok
> cite r m j : rule s from k with ?x := p
ok
> cite r m k : rule s from b#1
ok
> show rule r
rule t r incomplete : p or p |- p
proof m fault k hypothesis-differs
end
> proof s m
ok
> box s m b in root : | q
ok
> line s m l in b : p
ok
> cite s m l : rule r from #1
refused circle r
> rule t u : p
ok
> cite s m l : rule u
ok
> line s m k in root : p
ok
> cite s m k : rule or_e from j, b, b with ?p := q; ?q := q; ?r := p
ok
> line s m j in root before k : q or q
ok
> cite s m j : rule or_i from i with ?p := q; ?q := q
ok
> line s m i in root before j : q
ok
> cite s m i : hyp #1
ok
> axiom t or_i : ?p |- ?p or ?q
ok
> status s
s rule complete
> cite s m l : rule ap
ok
> status s
s rule established
";

/// References to the assumptions of boxes.
const REFERENCES: &[u8] = b"\
> theory t
ok
> const t p -> e
ok
> const t N -> t
ok
> const t V(e) -> t
ok
> const t f(e) -> e
ok
> rule t r : p
ok
> proof r a
ok
> box r a b in root : x:N, y:V(x) | f(x), p
ok
> line r a l in b : y : V(x)
ok
> cite r a l : same b#2
ok
> show rule r
rule t r incomplete : p
proof a fault root unfinished
end
> cite r a l : same b#1
ok
> show rule r
rule t r incomplete : p
proof a fault l conclusion-differs
end
> cite r a l : same b#3
ok
> show rule r
rule t r incomplete : p
proof a fault l conclusion-differs
end
> cite r a l : same b#4
ok
> show rule r
rule t r incomplete : p
proof a fault l conclusion-differs
end
> cite r a l : same b#5
ok
> show rule r
rule t r incomplete : p
proof a fault l not-accessible
end
> cite r a l : same b#999999999
ok
> show rule r
rule t r incomplete : p
proof a fault l not-accessible
end
> cite r a l : same l#1
ok
> show rule r
rule t r incomplete : p
proof a fault l not-accessible
end
> cite r a l : same root#1
ok
> show rule r
rule t r incomplete : p
proof a fault l not-accessible
end
> cite r a l : same b #2
ok
> box r a c in b : z:V(y) | p
ok
> line r a k in c : z : V(y)
ok
> cite r a k : same c#1
ok
> line r a j in c : f(x)
ok
> cite r a j : same b#3
ok
> line r a i in b : p
ok
> cite r a i : same c#2
ok
> show proof r a
proof r a fault i not-accessible
box b : x:N, y:V(x) | f(x), p
  l : y : V(x) by same b#2
  box c : z:V(y) | p
    k : z : V(y) by same c#1
    j : f(x) by same b#3
  i : p by same c#2
end
> cite r a i : same k
ok
> show rule r
rule t r incomplete : p
proof a fault i not-accessible
end
> cite r a i : same b#4
ok
> show rule r
rule t r incomplete : p
proof a fault root unfinished
end
> line r a n in root : p
ok
> cite r a n : same b#4
ok
> show rule r
rule t r incomplete : p
proof a fault n not-accessible
end
> cite r a n : same i
ok
> show rule r
rule t r incomplete : p
proof a fault n not-accessible
end
> cite r a n : same b
ok
> show rule r
rule t r incomplete : p
proof a fault n hypothesis-differs
end
> box r a d in root before n : | p
ok
> line r a o in d : p
ok
> cite r a o : same b#4
ok
> show rule r
rule t r incomplete : p
proof a fault o not-accessible
end
> cite r a o : same d#1
ok
> show rule r
rule t r incomplete : p
proof a fault n hypothesis-differs
end
> line r a h in c before j : f(x)
ok
> cite r a h : same j
ok
> show rule r
rule t r incomplete : p
proof a fault h not-accessible
end
> cite r a h : same l
ok
> show rule r
rule t r incomplete : p
proof a fault h conclusion-differs
end
";

/// What is refused of boxes, sequents and reasons, and where items come to stand.
const REFUSALS: &[u8] = b"\
> theory t
ok
> const t p -> e
ok
> const t N -> t
ok
> axiom t a : p
ok
> axiom nope b : {x:N, x:N | |- p} |- p
refused unknown nope
> axiom t a : {x:N, x:N | |- p} |- p
refused taken a
> axiom t b : {x:N, x:N | |- p} |- p
refused taken x
> rule t b : p; {x:N | |- p}; {y:N, x:N, z:N, x:N, y:N | p |- p} |- p
refused taken x
> rule t b : {y:N, y:N | |- p}; {x:N, x:N | |- p} |- p
refused taken y
> rule t b : {x:N | |- p}; {x:N | forall{x:N. p} |- p} |- p
ok
> rule nope b : {x:N, x:N | |- p} |- p
refused unknown nope
> rule t b : {x:N, x:N | |- p} |- p
refused taken b
> rule t r : p
ok
> proof r m
ok
> box r nope b in root : x:N, x:N |
refused unknown nope
> box nope m b in root : |
refused unknown m
> box r m b in c : x:N, x:N |
refused unknown c
> box r m b in c before d : |
refused unknown c
> box r m b in root before d : x:N, x:N |
refused unknown d
> box r m root in root : x:N, x:N |
refused taken root
> box r m b in root : x:N, y:N, x:N, y:N | p
refused taken x
> box r m b in root : x:N, y:N |
ok
> box r m b in b : x:N, x:N |
refused taken b
> box r m c in b : x:N |
ok
> line r m l in c : p
ok
> line r m l in root : p
refused taken l
> line r m c in root : p
refused taken c
> box r m l in root : x:N, x:N |
refused taken l
> line r m root in c : p
refused taken root
> line r m k in l : p
refused unknown l
> box r m k in l : |
refused unknown l
> line r m k in b.c : p
refused unknown b.c
> line r m k in c before l : p
ok
> line r m j in root before l : p
refused unknown l
> line r m j in root before c : p
refused unknown c
> line r m j in b before l : p
refused unknown l
> line r m l in b before l : p
refused unknown l
> line r m j in c before b : p
refused unknown b
> line r m j in c before c : p
refused unknown c
> line r m j in b before root : p
refused unknown root
> line r m j in b before a.b : p
refused unknown a.b
> line r m j in b before c : p
ok
> line r m i in root before b : p
ok
> box r m d in b before c : | p
ok
> box r m e in root before b : |
ok
> box r m f in d : |
ok
> line r m g in f : p
ok
> line r m h in b : p
ok
> cite r m b : rule a
refused unknown b
> cite r m root : rule a
refused unknown root
> cite r m d : rule a with ?p := p; ?p := p
refused unknown d
> cite r nope l : rule a with ?p := p; ?p := p
refused unknown nope
> cite r m l : rule a with ?p := p; ?q := p; ?q := p; ?p := p
refused taken ?q
> cite r m l : rule a with ?p[x, x] := p; ?q := p; ?q := p
refused taken ?q
> cite r m l : rule a with ?p[x, y] := p; ?q[x, z, y, z, x] := p; ?s[u, u] := p
refused taken z
> cite r m l : rule r with ?p := p; ?p := p
refused taken ?p
> cite r m l : rule r with ?p[x, x] := p
refused taken x
> cite r m l : rule r with ?p[x] := p; ?q[x] := p
refused circle r
> cite r m l : rule a with ?p[x] := p; ?q[x] := p
ok
> cite r m g : hyp #1 with p, p from a#1, a#1
ok
> show proof r m
proof r m fault i no-justification
i : p by nothing
box e : |
box b : x:N, y:N |
  j : p by nothing
  box d : | p
    box f : |
      g : p by hyp #1 with p, p from a#1, a#1
  box c : x:N |
    k : p by nothing
    l : p by rule a with ?p[x] := p; ?q[x] := p
  h : p by nothing
end
> show proof r nope
refused unknown nope
> show proof nope m
refused unknown m
> show proof a.b c.d
refused unknown c.d
";

/// Where sequents, boxes, reasons and pages of proofs go on.
const SYNTAX: &[u8] = b"\
> theory t
ok
> axiom t a : {
refused syntax 14
> axiom t a : {x
refused syntax 15
> axiom t a : {x | p |- q} |- p
refused syntax 16
> axiom t a : {p, q |- r} |- p
refused syntax 15
> axiom t a : {x:| |- p} |- p
refused syntax 16
> axiom t a : {x:N} |- p
refused syntax 17
> axiom t a : {x:N. p} |- p
refused syntax 17
> axiom t a : {x:N y:N | |- p} |- p
refused syntax 18
> axiom t a : {x:N, | |- p} |- p
refused syntax 19
> axiom t a : {true:N | |- p} |- p
refused syntax 14
> axiom t a : {and:N | |- p} |- p
refused syntax 14
> axiom t a : {a.b:N | |- p} |- p
refused syntax 14
> axiom t a : {?x:N | |- p} |- p
refused syntax 14
> axiom t a : {|- p} |- p
refused syntax 14
> axiom t a : {x:N |} |- p
refused syntax 19
> axiom t a : {x:N | | |- p} |- p
refused syntax 20
> axiom t a : {x:N | p} |- p
refused syntax 21
> axiom t a : {x:N | p; q |- p} |- p
refused syntax 21
> axiom t a : {x:N | p, |- p} |- p
refused syntax 23
> axiom t a : {x:N | p |- } |- p
refused syntax 25
> axiom t a : {x:N | p |- q
refused syntax 26
> axiom t a : {x:N | p |- q, r} |- p
refused syntax 26
> axiom t a : {x:N | p |- q |- r} |- p
refused syntax 27
> axiom t a : {x:N | p |- q}
refused syntax 27
> axiom t a : {x:N | p |- q} and p
refused syntax 28
> axiom t a : {x:N | p |- q}; p
refused syntax 30
> axiom t a : p and {| p |- q} |- p
refused syntax 19
> axiom t a : ({| p |- q}) |- p
refused syntax 14
> axiom t a : p |- {| p |- q}
refused syntax 18
> axiom t a : {{| p |- q} | |- p} |- p
refused syntax 14
> axiom t a : {| {| p |- q} |- p} |- p
refused syntax 16
> axiom t a : {| p |- q} |- p p
refused syntax 29
> axiom t a:{||-p};{x:N,y:N||-x}|-p
ok
> rule t a : {x:N |-
refused syntax 17
> proof r m
ok
> box r m b in root :
refused syntax 20
> box r m b in root : p and q
refused syntax 23
> box r m b in root : p
refused syntax 22
> box r m b in root : ?m |
refused syntax 21
> box r m b in root : x:N
refused syntax 24
> box r m b in root : x:N | p,
refused syntax 29
> box r m b in root : x:N | p; q
refused syntax 28
> box r m b in root : x:N | p |- q
refused syntax 29
> box r m b in root : | | p
refused syntax 23
> box r m b in root : {x:N | p}
refused syntax 21
> box r m b in root |
refused syntax 19
> box r m b in root before : |
refused syntax 26
> box r m b.c in root : |
refused syntax 9
> box r m.n b in root : |
refused syntax 7
> box r m b : |
refused syntax 11
> box r m b in ?m : |
refused syntax 14
> box a.b m b in c.d before e.f : |
refused unknown m
> box r m and in root:|
ok
> line r m not in and : p
ok
> line r m l in and : {| p |- q}
refused syntax 21
> line r m l in and : | p
refused syntax 21
> cite r m not : hyp
refused syntax 19
> cite r m not : hyp 1
refused syntax 20
> cite r m not : hyp l
refused syntax 20
> cite r m not : hyp #0
refused syntax 20
> cite r m not : hyp ?x
refused syntax 20
> cite r m not : hyp #1 #2
refused syntax 23
> cite r m not : hyp #1 with
refused syntax 27
> cite r m not : hyp #1 with ?x := p
refused syntax 31
> cite r m not : hyp #1 with p; q
refused syntax 29
> cite r m not : hyp #1 with p, from l
refused syntax 36
> cite r m not : hyp #1 from l with p
refused syntax 30
> cite r m not : hyp #1 with p from
refused syntax 34
> cite r m not : hyp #1 with p from l, b#1, #2 l
refused syntax 46
> cite r m not : def
refused syntax 19
> cite r m not : def #1
refused syntax 20
> cite r m not : def c
refused syntax 21
> cite r m not : def c l
refused syntax 22
> cite r m not : def c on
refused syntax 24
> cite r m not : def c on l, k
refused syntax 26
> cite r m not : def c(x) on l
refused syntax 21
> cite r m not : same
refused syntax 20
> cite r m not : same a.b
refused syntax 21
> cite r m not : same ?x
refused syntax 21
> cite r m not : same l, k
refused syntax 22
> cite r m not : same l k
refused syntax 23
> cite r m not : same l#1#2
refused syntax 24
> cite r m not : same #1#2
refused syntax 23
> cite r m not : same l#0
refused syntax 22
> cite r m not : rule a via
refused syntax 26
> cite r m not : rule a via b.c
refused syntax 27
> cite r m not : rule a via m via m
refused syntax 29
> cite r m not : rule a from l via m
refused syntax 30
> cite r m not : rule a from l#1,
refused syntax 32
> cite r m not : rule a with ?x[] := p
refused syntax 31
> cite r m not : axiom a
refused syntax 16
> cite r m not : rule via via via from from, on#1, not, root with ?with := with
ok
> cite r m not : def a.b.c on on
ok
> cite r m not : same same
ok
> cite r m not : hyp #999999999 with with, from from from, with #2
ok
> show proof
refused syntax 11
> show proof r
refused syntax 13
> show proof r m n
refused syntax 16
> show proof r : m
refused syntax 14
";

/// What is kept of sequents, boxes and reasons is told in canonical text; a proof may be there without its rule.
const CANONICAL_TEXT: &[u8] = b"\
> theory t
ok
> axiom t a : {x:N,y:(x)|p and(q),((x=y))|-imp(p,q)}|-p
ok
> show rule a
axiom t a ill-formed : {x:N, y:x | p and q, x = y |- p => q} |- p
end
> axiom t b:{|p|-q};{x:forall{y:N. y}||-?P [x]};{||-u}|-(p)
ok
> show rule b
axiom t b ill-formed : {| p |- q}; {x:forall{y:N. y} | |- ?P[x]}; {| |- u} |- p
end
> rule t c:{x:y:N,z:p=>q|not(not x)|-(p or q)or r};p|-q
ok
> show rule c
rule t c ill-formed : {x:y : N, z:p => q | not not x |- p or q or r}; p |- q
end
> proof r m
ok
> show proof r m
proof r m fault root no-rule
end
> box  r m b in root:x:N,y:forall{z:N. p}|p and(q),(?m [x])
ok
> box r m c in b:|
ok
> box r m d in c:x:N|
ok
> box r m e in d:|(p),q
ok
> line r m i in e:(p)
ok
> cite r m i:rule a via f from i,b #2,#3 with ?P [x,y]:=(p);?q:=imp(x,y)
ok
> line r m j in e:p
ok
> cite r m j:hyp #2 with (x),f(x , y),imp(p,q) from i,b #1
ok
> line r m k in c:p
ok
> cite r m k:def c on b #2
ok
> line r m l in b:p
ok
> cite r m l:same #1
ok
> line r m n in b:p
ok
> show proof r m
proof r m fault root no-rule
box b : x:N, y:forall{z:N. p} | p and q, ?m[x]
  box c : |
    box d : x:N |
      box e : | p, q
        i : p by rule a via f from i, b#2, #3 with ?P[x, y] := p; ?q := x => y
        j : p by hyp #2 with x, f(x, y), p => q from i, b#1
    k : p by def c on b#2
  l : p by same #1
  n : p by nothing
end
> proof a m
ok
> line a m l in root : p
ok
> show proof a m
proof a m fault l no-justification
l : p by nothing
end
";

// Transcripts of boxes, sequents and hypotheses, written by hand from the grammar: lines behind `> `, each with its reply below.

/// All of them.
pub(super) fn boxes() -> [&'static [u8]; 4] {
    [FROM_THE_OUTSIDE, CAUSES, SCOPES, HYPOTHESES]
}

/// A proof that is built from its outermost box on, with the first fault after each step.
const FROM_THE_OUTSIDE: &[u8] = b"\
> theory t
ok
> const t p -> e
ok
> axiom t imp_i : {| ?p |- ?q} |- ?p => ?q
ok
> rule t r : p => p
ok
> proof r m
ok
> show proof r m
proof r m fault root unfinished
end
> box r m b in root : | p
ok
> show proof r m
proof r m fault b unfinished
box b : | p
end
> box r m c in b : |
ok
> show proof r m
proof r m fault c unfinished
box b : | p
  box c : |
end
> line r m l in c : p
ok
> show proof r m
proof r m fault l no-justification
box b : | p
  box c : |
    l : p by nothing
end
> cite r m l : same b#1
ok
> show proof r m
proof r m fault b unfinished
box b : | p
  box c : |
    l : p by same b#1
end
> line r m k in b : p
ok
> cite r m k : same l
ok
> show proof r m
proof r m fault k not-accessible
box b : | p
  box c : |
    l : p by same b#1
  k : p by same l
end
> cite r m k : same c
ok
> show rule r
rule t r incomplete : p => p
proof m fault k hypothesis-differs
end
> cite r m k : same b
ok
> show rule r
rule t r incomplete : p => p
proof m fault k not-accessible
end
> cite r m k : same k
ok
> show rule r
rule t r incomplete : p => p
proof m fault k not-accessible
end
> cite r m k : same c#1
ok
> show rule r
rule t r incomplete : p => p
proof m fault k not-accessible
end
> cite r m k : same b#1
ok
> show rule r
rule t r incomplete : p => p
proof m fault root unfinished
end
> line r m j in root : p => p
ok
> cite r m j : rule imp_i from c with ?p := p; ?q := p
ok
> show rule r
rule t r incomplete : p => p
proof m fault j not-accessible
end
> cite r m j : rule imp_i from k with ?p := p; ?q := p
ok
> show rule r
rule t r incomplete : p => p
proof m fault j not-accessible
end
> cite r m j : rule imp_i from b with ?p := p; ?q := p
ok
> show proof r m
proof r m checks
box b : | p
  box c : |
    l : p by same b#1
  k : p by same b#1
j : p => p by rule imp_i from b with ?p := p; ?q := p
end
> status r
r rule established
> line r m i in root : p
ok
> cite r m i : same b#1
ok
> show rule r
rule t r incomplete : p => p
proof m fault i not-accessible
end
";

/// Each cause that a box can have, and the order of the causes.
const CAUSES: &[u8] = b"\
> theory t
ok
> const t p -> e
ok
> const t N -> t
ok
> const t f(e) -> e
ok
> axiom t ap : p
ok
> axiom t imp_i : {| ?p |- ?q} |- ?p => ?q
ok
> axiom t all_i : {x:?T | |- ?P[x]} |- forall{x:?T. ?P[x]}
ok
> rule t r : p => p
ok
> proof r a
ok
> box r a b in root : |
ok
> proof r b
ok
> box r b b in root : |
ok
> box r b c in b : |
ok
> line r b l in c : p
ok
> cite r b l : rule ap
ok
> proof r c
ok
> box r c b in root : x:N |
ok
> box r c c in b : y:N, x:nope | ?m
ok
> proof r d
ok
> box r d b in root : x:p | ?m
ok
> proof r e
ok
> box r e b in root : x:sub{z:N. z = y}, y:N |
ok
> proof r f
ok
> box r f b in root : x:N | f(x), N
ok
> line r f l in b : p
ok
> proof r g
ok
> box r g b in root : x:N | f(x), ?m
ok
> proof r h
ok
> box r h b in root : x:?T |
ok
> proof r i
ok
> line r i k in root : p
ok
> cite r i k : rule ap
ok
> box r i b in root : | p
ok
> line r i l in b : p
ok
> cite r i l : same k
ok
> proof r j
ok
> box r j b in root : | p
ok
> line r j l in b : p
ok
> box r j c in b : | N
ok
> proof r k
ok
> box r k b in root : | p
ok
> line r k l in b : p
ok
> cite r k l : same b#1
ok
> line r k m in root : p
ok
> cite r k m : rule ap
ok
> proof r l
ok
> box r l b in root : x:N |
ok
> line r l k in b : p
ok
> cite r l k : rule ap
ok
> line r l l in root : p => p
ok
> cite r l l : rule imp_i from b with ?p := p; ?q := p
ok
> proof r m
ok
> box r m b in root : | p
ok
> box r m c in root : | p
ok
> line r m l in c : p
ok
> cite r m l : same c#1
ok
> line r m k in root : p => p
ok
> cite r m k : rule imp_i from b with ?p := p; ?q := p
ok
> proof r n
ok
> box r n b in root : x:N | f(x)
ok
> line r n k in b : f(x)
ok
> cite r n k : same b#2
ok
> line r n l in root : forall{x:N. f(x)}
ok
> cite r n l : rule all_i from b with ?T := N; ?P[x] := f(x)
ok
> show rule r
rule t r incomplete : p => p
proof a fault b unfinished
proof b fault b unfinished
proof c fault c shadowed-variable
proof d fault b ill-formed-box
proof e fault b ill-formed-box
proof f fault b ill-formed-box
proof g fault b foreign-meta
proof h fault b foreign-meta
proof i fault root unfinished
proof j fault l no-justification
proof k fault root conclusion-differs
proof l fault l hypothesis-differs
proof m fault b unfinished
proof n fault l hypothesis-differs
end
";

/// How far variables reach: boxes beside each other may share them, and types may speak of the variables before them.
const SCOPES: &[u8] = b"\
> theory t
ok
> const t p -> e
ok
> const t N -> t
ok
> const t V(e) -> t
ok
> const t f(e) -> e
ok
> axiom t f_all : ?x : N |- f(?x)
ok
> axiom t all_i : {x:?T | |- ?P[x]} |- forall{x:?T. ?P[x]}
ok
> axiom t both : {x:N, y:V(x) | f(x) |- ?P[x, y]} |- forall{x:N. forall{y:V(x). ?P[x, y]}}
ok
> rule t r : forall{a:N. f(a)}
ok
> proof r m
ok
> box r m b in root : x:N |
ok
> line r m l in b : f(x)
ok
> cite r m l : rule f_all from b#1 with ?x := x
ok
> box r m c in root : x:N |
ok
> line r m k in c : f(x)
ok
> cite r m k : rule f_all from c#1 with ?x := x
ok
> line r m j in root : forall{x:N. f(x)}
ok
> cite r m j : rule all_i from b with ?T := N; ?P[v] := f(v)
ok
> show rule r
rule t r established : forall{a:N. f(a)}
proof m checks
end
> line r m i in root : f(x)
ok
> cite r m i : same l
ok
> show rule r
rule t r incomplete : forall{a:N. f(a)}
proof m fault i ill-formed-line
end
> rule t s : forall{x:N. forall{y:V(x). f(x)}}
ok
> proof s m
ok
> box s m b in root : u:N, w:V(u) | f(u)
ok
> line s m l in b : f(u)
ok
> cite s m l : same b#3
ok
> line s m k in root : forall{y:N. forall{x:V(y). f(y)}}
ok
> cite s m k : rule both from b with ?P[x, y] := f(x)
ok
> show rule s
rule t s established : forall{x:N. forall{y:V(x). f(x)}}
proof m checks
end
> cite s m k : rule both from b with ?P[y, x] := f(x)
ok
> show rule s
rule t s incomplete : forall{x:N. forall{y:V(x). f(x)}}
proof m fault k hypothesis-differs
end
> rule t u : forall{x:N. forall{y:V(x). f(x)}}
ok
> proof u m
ok
> box u m b in root : x:N |
ok
> box u m c in b : y:V(x) |
ok
> box u m d in c : z:V(y) | f(z)
ok
> line u m i in d : y : V(x)
ok
> cite u m i : same c#1
ok
> line u m j in d : f(x)
ok
> cite u m j : rule f_all from b#1 with ?x := x
ok
> line u m k in c : f(x)
ok
> cite u m k : rule f_all from b#1 with ?x := x
ok
> line u m l in b : forall{y:V(x). f(x)}
ok
> cite u m l : rule all_i from c with ?T := V(x); ?P[y] := f(x)
ok
> line u m n in root : forall{x:N. forall{y:V(x). f(x)}}
ok
> cite u m n : rule all_i from b with ?T := N; ?P[x] := forall{y:V(x). f(x)}
ok
> show proof u m
proof u m checks
box b : x:N |
  box c : y:V(x) |
    box d : z:V(y) | f(z)
      i : y : V(x) by same c#1
      j : f(x) by rule f_all from b#1 with ?x := x
    k : f(x) by rule f_all from b#1 with ?x := x
  l : forall{y:V(x). f(x)} by rule all_i from c with ?T := V(x); ?P[y] := f(x)
n : forall{x:N. forall{y:V(x). f(x)}} by rule all_i from b with ?T := N; ?P[x] := forall{y:V(x). f(x)}
end
";

/// A line that holds by a hypothesis, and each way in which it doesn't.
const HYPOTHESES: &[u8] = b"\
> theory t
ok
> const t N -> t
ok
> const t V(e) -> t
ok
> const t c -> e
ok
> const t d -> e
ok
> const t f(e) -> e
ok
> const t g(e, e) -> e
ok
> axiom t c_N : c : N
ok
> axiom t d_V : d : V(c)
ok
> axiom t c_f : f(c)
ok
> rule t r : {x:N, y:V(x) | f(x) |- g(x, y)}; f(d) |- g(c, d)
ok
> proof r m
ok
> line r m i in root : c : N
ok
> cite r m i : rule c_N
ok
> line r m j in root : d : V(c)
ok
> cite r m j : rule d_V
ok
> line r m k in root : f(c)
ok
> cite r m k : rule c_f
ok
> line r m l in root : g(c, d)
ok
> cite r m l : hyp #1 with c, d from i, j, k
ok
> show rule r
rule t r established : {x:N, y:V(x) | f(x) |- g(x, y)}; f(d) |- g(c, d)
proof m checks
end
> cite r m l : hyp #1 with c, d from i, j, l
ok
> show rule r
rule t r incomplete : {x:N, y:V(x) | f(x) |- g(x, y)}; f(d) |- g(c, d)
proof m fault l not-accessible
end
> cite r m l : hyp #3 with c, d from i, j, nope
ok
> show rule r
rule t r incomplete : {x:N, y:V(x) | f(x) |- g(x, y)}; f(d) |- g(c, d)
proof m fault l not-accessible
end
> cite r m l : hyp #3 with c, N
ok
> show rule r
rule t r incomplete : {x:N, y:V(x) | f(x) |- g(x, y)}; f(d) |- g(c, d)
proof m fault l absent
end
> cite r m l : hyp #1
ok
> show rule r
rule t r incomplete : {x:N, y:V(x) | f(x) |- g(x, y)}; f(d) |- g(c, d)
proof m fault l wrong-count
end
> cite r m l : hyp #1 with N from i, j, k
ok
> show rule r
rule t r incomplete : {x:N, y:V(x) | f(x) |- g(x, y)}; f(d) |- g(c, d)
proof m fault l wrong-count
end
> cite r m l : hyp #1 with c, N from i, j
ok
> show rule r
rule t r incomplete : {x:N, y:V(x) | f(x) |- g(x, y)}; f(d) |- g(c, d)
proof m fault l wrong-count
end
> cite r m l : hyp #1 with c, N from k, k, k
ok
> show rule r
rule t r incomplete : {x:N, y:V(x) | f(x) |- g(x, y)}; f(d) |- g(c, d)
proof m fault l ill-formed-instance
end
> cite r m l : hyp #1 with c, x from i, j, k
ok
> show rule r
rule t r incomplete : {x:N, y:V(x) | f(x) |- g(x, y)}; f(d) |- g(c, d)
proof m fault l ill-formed-instance
end
> cite r m l : hyp #1 with c, ?y from i, j, k
ok
> show rule r
rule t r incomplete : {x:N, y:V(x) | f(x) |- g(x, y)}; f(d) |- g(c, d)
proof m fault l ill-formed-instance
end
> cite r m l : hyp #1 with c, d from k, j, i
ok
> show rule r
rule t r incomplete : {x:N, y:V(x) | f(x) |- g(x, y)}; f(d) |- g(c, d)
proof m fault l hypothesis-differs
end
> cite r m l : hyp #1 with d, c from i, j, k
ok
> show rule r
rule t r incomplete : {x:N, y:V(x) | f(x) |- g(x, y)}; f(d) |- g(c, d)
proof m fault l hypothesis-differs
end
> cite r m l : hyp #1 with c, d from #1, j, k
ok
> show rule r
rule t r incomplete : {x:N, y:V(x) | f(x) |- g(x, y)}; f(d) |- g(c, d)
proof m fault l hypothesis-differs
end
> cite r m l : hyp #2
ok
> show rule r
rule t r incomplete : {x:N, y:V(x) | f(x) |- g(x, y)}; f(d) |- g(c, d)
proof m fault l conclusion-differs
end
> cite r m l : hyp #2 with c
ok
> show rule r
rule t r incomplete : {x:N, y:V(x) | f(x) |- g(x, y)}; f(d) |- g(c, d)
proof m fault l wrong-count
end
> cite r m l : hyp #2 from k
ok
> show rule r
rule t r incomplete : {x:N, y:V(x) | f(x) |- g(x, y)}; f(d) |- g(c, d)
proof m fault l wrong-count
end
> line r m n in root : f(d)
ok
> cite r m n : hyp #1 with c, d from i, j, k
ok
> cite r m l : hyp #1 with c, d from i, j, k
ok
> show rule r
rule t r incomplete : {x:N, y:V(x) | f(x) |- g(x, y)}; f(d) |- g(c, d)
proof m fault n conclusion-differs
end
> cite r m n : hyp #2
ok
> show rule r
rule t r incomplete : {x:N, y:V(x) | f(x) |- g(x, y)}; f(d) |- g(c, d)
proof m fault root conclusion-differs
end
> rule t s : {| |- f(d)} |- f(d)
ok
> proof s m
ok
> line s m l in root : f(d)
ok
> cite s m l : hyp #1
ok
> show rule s
rule t s established : {| |- f(d)} |- f(d)
proof m checks
end
> cite s m l : same #1
ok
> show rule s
rule t s incomplete : {| |- f(d)} |- f(d)
proof m fault l hypothesis-differs
end
";

// Transcripts of pages, written by hand from the grammar: lines behind `> `, each with its reply below.

/// All of them.
pub(super) fn pages() -> [&'static [u8]; 3] {
    [CANONICAL_TEXT, STATUSES, CAUSES]
}

/// What is kept is told in canonical text, which reads back.
const CANONICAL_TEXT: &[u8] = b"\
> theory t
ok
> axiom t a:((p)and(q))and(r)
ok
> show rule a
axiom t a ill-formed : p and q and r
end
> axiom t b : p and (q and r)
ok
> show  rule\tb
axiom t b ill-formed : p and (q and r)
end
> axiom t c : imp(p, (not p)=q) <=> p
ok
> show rule c
axiom t c ill-formed : p => (not p) = q <=> p
end
> axiom t d : p(x);q |- ?m [p,q]
ok
> show rule d
axiom t d ill-formed : p(x); q |- ?m[p, q]
end
> axiom t e : p => (q => r) => (s or t or u)
ok
> show rule e
axiom t e ill-formed : p => (q => r) => s or t or u
end
> axiom t f : (p => q) => r; s or (t or u); (p <=> q) <=> r |- not(not(p and q)or r)
ok
> show rule f
axiom t f ill-formed : (p => q) => r; s or (t or u); (p <=> q) <=> r |- not (not (p and q) or r)
end
> axiom t g : imp(p); imp(p, q, r); imp; eq(a, eq(b, c)); iff(iff(p, q), r) |- typing(typing(a, T), U)
ok
> show rule g
axiom t g ill-formed : imp(p); imp(p, q, r); imp; a = (b = c); (p <=> q) <=> r |- (a : T) : U
end
> axiom t h:forall{x:?T.?P[x]and x:T};?Q[exists{y:(N). y=x}]|-(?P)
ok
> show rule h
axiom t h ill-formed : forall{x:?T. ?P[x] and x : T}; ?Q[exists{y:N. y = x}] |- ?P
end
> axiom t i : not true = a.b.c(x) and (p : T) = q
ok
> show rule i
axiom t i ill-formed : not true = a.b.c(x) and (p : T) = q
end
> show
refused syntax 5
> show rule
refused syntax 10
> show theory t
refused syntax 6
> show rule r s
refused syntax 13
> show rule nope
refused unknown nope
> show rule a.b
refused unknown a.b
";

/// A rule of each status, and proofs in byte order of their names.
const STATUSES: &[u8] = b"\
> theory t
ok
> const t p -> e
ok
> axiom t ax : p
ok
> show rule ax
axiom t ax established : p
end
> rule t bad : q
ok
> show rule bad
rule t bad ill-formed : q
end
> rule t goal : p
ok
> show rule goal
rule t goal unproved : p
end
> rule t open : p
ok
> proof goal n2
ok
> proof goal n10
ok
> show rule goal
rule t goal incomplete : p
proof n10 fault root unfinished
proof n2 fault root unfinished
end
> line goal n2 l in root : p
ok
> cite goal n2 l : rule open
ok
> show rule goal
rule t goal complete : p
proof n10 fault root unfinished
proof n2 checks
end
> proof goal n1
ok
> line goal n1 l in root : p
ok
> cite goal n1 l : rule ax
ok
> show rule goal
rule t goal established : p
proof n1 checks
proof n10 fault root unfinished
proof n2 checks
end
> proof ax m
ok
> line ax m l in root : p
ok
> show rule ax
axiom t ax established : p
proof m fault l no-justification
end
> proof later m
ok
> line later m l in root : p
ok
> cite later m l : rule ax
ok
> show rule later
refused unknown later
> rule t later:(p)
ok
> show rule later
rule t later established : p
proof m checks
end
";

/// Each cause that a proof of lines can have.
const CAUSES: &[u8] = b"\
> theory t
ok
> const t p -> e
ok
> const t q -> e
ok
> const t N -> t
ok
> axiom t both : ?a; ?b |- ?a and ?b
ok
> axiom t left : ?a and ?b |- ?a
ok
> axiom t of : ?x : ?T |- ?P[?x]
ok
> rule t r : p and q |- p
ok
> proof r m
ok
> line r m l in root : N
ok
> show rule r
rule t r incomplete : p and q |- p
proof m fault l no-justification
end
> cite r m l : rule nope from k
ok
> show rule r
rule t r incomplete : p and q |- p
proof m fault l ill-formed-line
end
> line r m k in root before l : ?a
ok
> cite r m k : rule both
ok
> show rule r
rule t r incomplete : p and q |- p
proof m fault k foreign-meta
end
> proof r n
ok
> line r n l in root : p
ok
> cite r n l : rule nope from k
ok
> proof r o
ok
> line r o l in root : p
ok
> cite r o l : rule nope from #1
ok
> proof r p
ok
> line r p l in root : p
ok
> cite r p l : rule left
ok
> proof r q
ok
> line r q l in root : p
ok
> cite r q l : rule left from #1 with ?a := p
ok
> proof r s
ok
> line r s l in root : p
ok
> cite r s l : rule left from #1 with ?a := p; ?b := p
ok
> proof r t
ok
> line r t l in root : q
ok
> cite r t l : rule left from #1 with ?a := p; ?b := q
ok
> proof r u
ok
> line r u k in root : p
ok
> cite r u k : rule left from #1 with ?a := p; ?b := q
ok
> line r u l in root : p and p
ok
> cite r u l : rule both from k, k with ?a := p; ?b := p
ok
> proof r v
ok
> line r v l in root : p
ok
> cite r v l : rule left from #2 with ?a := p; ?b := q
ok
> theory u
ok
> axiom u far : p
ok
> proof r w
ok
> line r w l in root : p
ok
> cite r w l : rule far
ok
> proof r x
ok
> line r x l in root : p
ok
> cite r x l : rule left from #1 with ?a := p; ?b := q
ok
> show rule r
rule t r established : p and q |- p
proof m fault k foreign-meta
proof n fault l not-accessible
proof o fault l absent
proof p fault l wrong-count
proof q fault l ill-formed-instance
proof s fault l hypothesis-differs
proof t fault l conclusion-differs
proof u fault root conclusion-differs
proof v fault l not-accessible
proof w fault l not-visible
proof x checks
end
";

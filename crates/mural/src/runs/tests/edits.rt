// Transcripts of edits and drops, with each reason to refuse one, written by hand: lines behind `> `, each with its reply below.

/// All of them.
pub(super) fn edits() -> [&'static [u8]; 6] {
    [THEORIES, CONSTANTS, RULES, ITEMS, CIRCLES, DEFINITIONS]
}

/// Theories and their parents.
const THEORIES: &[u8] = b"\
> theory a
ok
> theory a
refused taken a
> theory base
refused builtin base
> theory b
ok
> theory c
ok
> parent nope a
refused unknown nope
> parent a b
ok
> parent a b
refused taken b
> parent base b
refused builtin base
> parent a later.d
ok
> parent b c
ok
> parent c a
refused circle a
> parent c later.d
ok
> parent c c
refused circle c
> unparent nope b
refused unknown nope
> unparent a c
refused unknown c
> unparent base a
refused unknown a
> parent base a
refused builtin base
> const c x -> e
ok
> axiom a ax : x
ok
> status ax
ax axiom established
> unparent b c
ok
> unparent b c
refused unknown c
> status ax
ax axiom ill-formed
> parent b c
ok
> status ax
ax axiom established
> parent c d
ok
> theory d
ok
> parent d e
ok
> parent d b
refused circle b
> parent e d
refused unknown e
> theory e
ok
> parent e a
refused circle a
> drop unit nope
refused unknown nope
> drop unit base
refused builtin base
> drop unit c
refused not-empty c
> drop unit a
refused not-empty a
> drop unit b
ok
> drop unit b
refused unknown b
> status ax
ax axiom ill-formed
> parent c a
ok
> theory b
ok
> parent b c
refused circle a
> drop rule ax
ok
> drop unit a
ok
> parent b c
ok
";

/// Constants and their definitions.
const CONSTANTS: &[u8] = b"\
> theory a
ok
> const nope true -> e
refused unknown nope
> const a true -> e
refused builtin true
> const base x -> e
refused builtin base
> const base true -> e
refused builtin base
> const a x -> e
ok
> const a x(e) -> t
refused taken x
> const base x -> e
refused taken x
> alter const nope -> e
refused unknown nope
> alter const true(e) -> e
refused builtin true
> axiom a f : x(true)
ok
> status f
f axiom ill-formed
> alter const x(e) -> e
ok
> status f
f axiom established
> define nope = true
refused unknown nope
> define nope(v, v) = v
refused unknown nope
> define true(v, v) = v
refused taken v
> define true = false
refused builtin true
> define x(v, w, v) = v
refused taken v
> define x(v) = v
ok
> define x(v) = not v
ok
> undefine nope
refused unknown nope
> undefine true
refused builtin true
> const a y(e) -> e
ok
> const a z(e) -> e
ok
> undefine y
refused unknown y
> define y(v) = x(v)
ok
> define x(v) = v and z(v)
ok
> define z(v) = y(v)
refused circle x
> define z(v) = z(v)
refused circle z
> undefine z
refused unknown z
> define z(x) = x
ok
> define z(v) = later(v)
ok
> const a later(e) -> e
ok
> define later(v) = y(v)
refused circle later
> define later(v) = v
ok
> drop const nope
refused unknown nope
> drop const true
refused builtin true
> drop const z
refused not-empty z
> undefine z
ok
> drop const z
ok
> drop const z
refused unknown z
> const a z(e) -> e
ok
> define z(v) = y(v)
refused circle x
> alter const x -> t
ok
> define x = z(true)
ok
> drop unit a
refused not-empty a
";

/// Axioms and rules.
const RULES: &[u8] = b"\
> theory a
ok
> theory b
ok
> const b p -> e
ok
> axiom nope r : p
refused unknown nope
> axiom base r : p
refused builtin base
> axiom b r : p
ok
> axiom base r : p
refused taken r
> rule nope r : p
refused unknown nope
> rule a r : p
refused taken r
> rule a s : {x:p, x:p | |- p} |- p
refused taken x
> rule base s : {x:p, y:p, y:p, x:p | |- p} |- p
refused taken y
> rule base s : p
refused builtin base
> rule a s : p
ok
> alter rule nope : p
refused unknown nope
> alter rule nope : {x:p, x:p | |- p} |- p
refused unknown nope
> alter rule s : {x:p, x:p | |- p} |- p
refused taken x
> show rule s
rule a s ill-formed : p
end
> alter rule s : true
ok
> show rule s
rule a s unproved : true
end
> alter rule r : not p
ok
> show rule r
axiom b r established : not p
end
> drop rule nope
refused unknown nope
> proof s m
ok
> drop unit a
refused not-empty a
> drop rule s
ok
> drop rule s
refused unknown s
> drop unit a
ok
> proof s m
refused taken m
> theory a
ok
> rule a s : true
ok
> status s
s rule incomplete
> drop proof s m
ok
> status s
s rule unproved
> drop proof s m
refused unknown m
> drop proof nope n
refused unknown n
";

/// Items of a proof.
const ITEMS: &[u8] = b"\
> theory a
ok
> const a p -> e
ok
> axiom a hold : p
ok
> rule a r : p
ok
> line r m l in root : p
refused unknown m
> box r m b in root : |
refused unknown m
> alter line r m l : p
refused unknown m
> alter box r m l : |
refused unknown m
> move r m l to root
refused unknown m
> cite r m l : rule hold
refused unknown m
> unjustify r m l
refused unknown m
> drop item r m l
refused unknown m
> proof r m
ok
> proof r m
refused taken m
> line r m l in nope : p
refused unknown nope
> line r m l in root before nope : p
refused unknown nope
> line r m l in nope before none : p
refused unknown nope
> line r m root in nope : p
refused unknown nope
> line r m root in root : p
refused taken root
> line r m l in root : p
ok
> line r m l in root : p
refused taken l
> line r m k in root before l : not p
ok
> box r m l in root : x:p, x:p |
refused taken l
> box r m b in root before k : x:p, y:p, x:p |
refused taken x
> box r m b in root before k : x:p | x
ok
> line r m in_b in b : x
ok
> line r m k2 in b before k : p
refused unknown k
> box r m c in b before in_b : |
ok
> line r m in_c in c : p
ok
> line r m deep in l : p
refused unknown l
> alter line r m nope : p
refused unknown nope
> alter line r m b : p
refused unknown b
> alter line r m k : p and p
ok
> alter box r m l : |
refused unknown l
> alter box r m nope : x:p, x:p |
refused unknown nope
> alter box r m b : x:p, x:p |
refused taken x
> alter box r m b : | p
ok
> cite r m nope : rule hold
refused unknown nope
> cite r m b : rule hold
refused unknown b
> cite r m l : rule hold with ?m := p; ?m := p
refused taken ?m
> cite r m l : rule hold with ?m[x, y, x] := p
refused taken x
> cite r m l : rule hold with ?m[x, x] := p; ?n := p; ?m := p
refused taken ?m
> cite r m l : rule hold
ok
> unjustify r m nope
refused unknown nope
> unjustify r m b
refused unknown b
> unjustify r m k
refused unknown k
> unjustify r m l
ok
> unjustify r m l
refused unknown l
> cite r m l : rule hold
ok
> show proof r m
proof r m fault in_c no-justification
box b : | p
  box c : |
    in_c : p by nothing
  in_b : x by nothing
k : p and p by nothing
l : p by rule hold
end
> move r m nope to root
refused unknown nope
> move r m b to c
refused unknown c
> move r m b to b
refused unknown b
> move r m c to root before c
refused unknown c
> move r m c to nope
refused unknown nope
> move r m c to root before in_b
refused unknown in_b
> move r m c to root before l
ok
> move r m k to c before in_c
ok
> show proof r m
proof r m fault in_b no-justification
box b : | p
  in_b : x by nothing
box c : |
  k : p and p by nothing
  in_c : p by nothing
l : p by rule hold
end
> drop item r m nope
refused unknown nope
> drop item r m c
ok
> line r m k in root before l : p
ok
> drop item r m b
ok
> drop item r m k
ok
> show proof r m
proof r m checks
l : p by rule hold
end
> status r
r rule established
";

/// Circles of citations.
const CIRCLES: &[u8] = b"\
> theory a
ok
> const a p -> e
ok
> axiom a hold : p
ok
> rule a r : p
ok
> rule a s : p
ok
> proof r m
ok
> line r m l in root : p
ok
> cite r m l : rule r
refused circle r
> cite r m l : rule s
ok
> proof s m
ok
> line s m l in root : p
ok
> cite s m l : rule hold
ok
> status r
r rule established
> proof s n
ok
> line s n l in root : p
ok
> cite s n l : rule later
ok
> proof later m
ok
> line later m l in root : p
ok
> cite later m l : rule r
refused circle later
> cite later m l : rule nope with ?m := p; ?m := p
refused taken ?m
> drop rule s
ok
> cite later m l : rule r
refused circle later
> status r
r rule incomplete
> drop proof s n
ok
> cite later m l : rule r
ok
> cite s m l : rule later
refused circle later
> rule a s : p
ok
> status r
r rule established
> alter rule s : not p
ok
> status r
r rule incomplete
> status s
s rule incomplete
> drop item r m l
ok
> cite s m l : rule later
ok
> line r m l in root : p
ok
> cite r m l : rule s
refused circle later
";

/// Lines that hold by a definition, which is unfolded as it stands.
const DEFINITIONS: &[u8] = b"\
> theory low
ok
> theory mid
ok
> theory top
ok
> parent mid low
ok
> parent top mid
ok
> const low p -> e
ok
> const low twice(e) -> e
ok
> define twice(x) = x and x
ok
> rule top r : twice(p) |- p and p
ok
> proof r m
ok
> line r m l in root : p and p
ok
> cite r m l : def twice on #1
ok
> status r
r rule established
> define twice(x) = x or x
ok
> show rule r
rule top r incomplete : twice(p) |- p and p
proof m fault l conclusion-differs
end
> define twice(x) = x and q
ok
> show rule r
rule top r incomplete : twice(p) |- p and p
proof m fault l ill-formed-definition
end
> undefine twice
ok
> show rule r
rule top r incomplete : twice(p) |- p and p
proof m fault l absent
end
> define twice(x) = x and x
ok
> status r
r rule established
> unparent mid low
ok
> status r
r rule ill-formed
> parent mid low
ok
> alter const twice -> e
ok
> status r
r rule ill-formed
> alter const twice(e) -> e
ok
> status r
r rule established
";

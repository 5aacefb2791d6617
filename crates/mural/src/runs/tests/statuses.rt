// Transcripts of statuses that fall and rise again, written by hand: lines behind `> `, each with its reply below.

/// All of them.
pub(super) fn statuses() -> [&'static [u8]; 4] {
    [EDITS, DERIVATIONS, STATEMENTS, HISTORIES]
}

/// A proof is edited, and the edit is taken back.
const EDITS: &[u8] = b"\
> theory t
ok
> const t p -> e
ok
> const t q -> e
ok
> axiom t x : p
ok
> rule t a : p
ok
> rule t b : p
ok
> rule t c : p
ok
> proof a m
ok
> line a m l in root : p
ok
> cite a m l : rule x
ok
> proof b m
ok
> line b m l in root : p
ok
> cite b m l : rule a
ok
> proof c m
ok
> line c m l in root : p
ok
> cite c m l : rule b
ok
> show unit t
theory t
const p -> e
const q -> e
rule a established : p
rule b established : p
rule c established : p
axiom x established : p
end
> alter line a m l : q
ok
> show unit t
theory t
const p -> e
const q -> e
rule a incomplete : p
rule b complete : p
rule c complete : p
axiom x established : p
end
> alter line a m l : p
ok
> status c
c rule established
> unjustify b m l
ok
> show unit t
theory t
const p -> e
const q -> e
rule a established : p
rule b incomplete : p
rule c complete : p
axiom x established : p
end
> cite b m l : rule a
ok
> status c
c rule established
> box a m k in root before l : | q
ok
> status a
a rule incomplete
> status c
c rule complete
> line a m i in k : q
ok
> cite a m i : same k#1
ok
> status c
c rule established
> alter box a m k : y:bool | y, q
ok
> status c
c rule complete
> cite a m i : same k#3
ok
> status c
c rule established
> move a m l to k before i
ok
> show rule a
rule t a incomplete : p
proof m fault root unfinished
end
> status c
c rule complete
> move a m l to root
ok
> status c
c rule established
> drop proof a m
ok
> show unit t
theory t
const p -> e
const q -> e
rule a unproved : p
rule b complete : p
rule c complete : p
axiom x established : p
end
> proof a n
ok
> line a n l in root : p
ok
> cite a n l : rule x
ok
> status c
c rule established
";

/// A rule is established by a derivation alone: right proofs all the way down to axioms.
const DERIVATIONS: &[u8] = b"\
> theory s
ok
> theory low
ok
> theory t
ok
> parent t s
ok
> parent t low
ok
> const s p -> e
ok
> axiom s x : p
ok
> rule t u : p
ok
> rule t v : p
ok
> rule t w : p
ok
> proof v m
ok
> line v m l in root : p
ok
> cite v m l : rule u
ok
> proof w m
ok
> line w m l in root : p
ok
> cite w m l : rule v
ok
> show unit t
theory t
parent low
parent s
rule u unproved : p
rule v complete : p
rule w complete : p
end
> proof v n
ok
> line v n l in root : not p
ok
> cite v n l : rule x
ok
> status v
v rule complete
> alter line v n l : p
ok
> show rule v
rule t v established : p
proof m checks
proof n checks
end
> status w
w rule established
> line v n k in root before l : p
ok
> cite v n k : rule u
ok
> show rule v
rule t v complete : p
proof m checks
proof n checks
end
> proof u m
ok
> line u m l in root : p
ok
> cite u m l : rule w
refused circle u
> status w
w rule complete
> cite u m l : rule x
ok
> show unit t
theory t
parent low
parent s
rule u established : p
rule v established : p
rule w established : p
end
> axiom low y : p
ok
> cite u m l : rule y
ok
> show rule u
rule t u complete : p
proof m checks
end
> status w
w rule complete
> show unit low
theory low
axiom y ill-formed : p
end
> parent low s
ok
> show unit low
theory low
parent s
axiom y established : p
end
> show unit t
theory t
parent low
parent s
rule u established : p
rule v established : p
rule w established : p
end
> unparent low s
ok
> status w
w rule complete
> drop rule y
ok
> show rule u
rule t u incomplete : p
proof m fault l absent
end
> status w
w rule complete
> axiom t y : p
ok
> status w
w rule established
";

/// A rule is altered or dropped, and stated as it was.
const STATEMENTS: &[u8] = b"\
> theory t
ok
> const t p -> e
ok
> axiom t and_e1 : ?p and ?q |- ?p
ok
> axiom t and_e2 : ?p and ?q |- ?q
ok
> axiom t and_i : ?p; ?q |- ?p and ?q
ok
> rule t swap : ?p and ?q |- ?q and ?p
ok
> proof swap m
ok
> line swap m l1 in root : ?q
ok
> line swap m l2 in root : ?p
ok
> line swap m l3 in root : ?q and ?p
ok
> cite swap m l1 : rule and_e2 from #1 with ?p := ?p; ?q := ?q
ok
> cite swap m l2 : rule and_e1 from #1 with ?p := ?p; ?q := ?q
ok
> cite swap m l3 : rule and_i from l1, l2 with ?p := ?q; ?q := ?p
ok
> rule t again : p and forall{x:bool. x} |- forall{y:bool. y} and p
ok
> proof again m
ok
> line again m l in root : forall{z:bool. z} and p
ok
> cite again m l : rule swap from #1 with ?p := p; ?q := forall{x:bool. x}
ok
> show unit t
theory t
const p -> e
rule again established : p and forall{x:bool. x} |- forall{y:bool. y} and p
axiom and_e1 established : ?p and ?q |- ?p
axiom and_e2 established : ?p and ?q |- ?q
axiom and_i established : ?p; ?q |- ?p and ?q
rule swap established : ?p and ?q |- ?q and ?p
end
> alter rule and_e1 : ?p and ?q |- ?q
ok
> show rule swap
rule t swap incomplete : ?p and ?q |- ?q and ?p
proof m fault l2 conclusion-differs
end
> status again
again rule complete
> alter rule and_e1 : ?p and ?q |- ?p
ok
> status again
again rule established
> alter rule swap : ?p and ?q |- ?p
ok
> show rule swap
rule t swap incomplete : ?p and ?q |- ?p
proof m fault root conclusion-differs
end
> show rule again
rule t again incomplete : p and forall{x:bool. x} |- forall{y:bool. y} and p
proof m fault l conclusion-differs
end
> alter rule swap : ?a and ?b |- ?b and ?a
ok
> show rule swap
rule t swap incomplete : ?a and ?b |- ?b and ?a
proof m fault l1 foreign-meta
end
> show rule again
rule t again incomplete : p and forall{x:bool. x} |- forall{y:bool. y} and p
proof m fault l ill-formed-instance
end
> alter rule swap : ?p and ?q |- ?q and ?p
ok
> status again
again rule established
> alter rule again : p and forall{z:bool. z} |- forall{x:bool. x} and p
ok
> status again
again rule established
> drop rule swap
ok
> status swap
refused unknown swap
> show proof swap m
proof swap m fault root no-rule
l1 : ?q by rule and_e2 from #1 with ?p := ?p; ?q := ?q
l2 : ?p by rule and_e1 from #1 with ?p := ?p; ?q := ?q
l3 : ?q and ?p by rule and_i from l1, l2 with ?p := ?q; ?q := ?p
end
> show rule again
rule t again incomplete : p and forall{z:bool. z} |- forall{x:bool. x} and p
proof m fault l absent
end
> axiom t swap : ?p and ?q |- ?q and ?p
ok
> status again
again rule established
> drop rule swap
ok
> rule t swap : ?p and ?q |- ?q and ?p
ok
> show unit t
theory t
const p -> e
rule again established : p and forall{z:bool. z} |- forall{x:bool. x} and p
axiom and_e1 established : ?p and ?q |- ?p
axiom and_e2 established : ?p and ?q |- ?q
axiom and_i established : ?p; ?q |- ?p and ?q
rule swap established : ?p and ?q |- ?q and ?p
end
";

/// Pages tell the store and not how it came about: the same ones come of a development that is straight and of one with detours.
const HISTORIES: &[u8] = b"\
> theory low
ok
> theory top
ok
> parent top low
ok
> const low p -> e
ok
> const low d(e) -> e
ok
> define d(x) = x and x
ok
> axiom low both : p and p
ok
> rule top goal : d(p)
ok
> proof goal m
ok
> line goal m one in root : p and p
ok
> cite goal m one : rule both
ok
> line goal m two in root : d(p)
ok
> cite goal m two : def d on one
ok
> show unit low
theory low
const d(e) -> e
define d(x) = x and x
const p -> e
axiom both established : p and p
end
> show unit top
theory top
parent low
rule goal established : d(p)
end
> show proof goal m
proof goal m checks
one : p and p by rule both
two : d(p) by def d on one
end
> drop rule goal
ok
> drop rule both
ok
> drop proof goal m
ok
> undefine d
ok
> drop const d
ok
> drop const p
ok
> drop unit low
ok
> drop unit top
ok
> show unit low
refused unknown low
> show unit top
refused unknown top
> proof goal m
ok
> line goal m two in root : p
ok
> box goal m b in root before two : x:bool | x
ok
> line goal m one in b : p and p
ok
> cite goal m two : same one
ok
> cite goal m one : rule goal
refused circle goal
> cite goal m one : rule both
ok
> theory top
ok
> parent top nowhere
ok
> parent top low
ok
> rule top goal : p
ok
> show rule goal
rule top goal ill-formed : p
proof m fault one ill-formed-line
end
> theory low
ok
> const low d -> t
ok
> const low p(e) -> e
ok
> axiom low both : not p
ok
> define d(z) = p(z)
ok
> define p(x) = d(x)
refused circle d
> move goal m one to root before two
ok
> drop item goal m b
ok
> alter line goal m two : d(p)
ok
> cite goal m two : def d on one
ok
> unparent top nowhere
ok
> alter rule goal : d(p)
ok
> alter rule both : p and p
ok
> alter const d(e) -> e
ok
> alter const p -> e
ok
> define d(x) = x and x
ok
> show unit low
theory low
const d(e) -> e
define d(x) = x and x
const p -> e
axiom both established : p and p
end
> show unit top
theory top
parent low
rule goal established : d(p)
end
> show proof goal m
proof goal m checks
one : p and p by rule both
two : d(p) by def d on one
end
";

pub(crate) const COMMANDS: &[u8] = b"\
# A rule with three proofs, of which one checks, one is begun and one takes the wrong side.
theory prop
const prop p -> e
const prop q -> e
axiom prop and_left : ?p and ?q |- ?p
axiom prop and_both : ?p; ?q |- ?p and ?q
axiom prop neither : not (p or q) and (not p) = q
rule prop first : p and q |- p
show rule neither
show rule first
proof first right
line first right l in root : p
cite first right l : rule and_left from #1 with ?p := p; ?q := q
proof first begun
line first begun l in root : p
proof first wrong
line first wrong l in root : q
cite first wrong l : rule and_left from #1 with ?p := p; ?q := q
show rule first

# A rule that is cited but not there, and one whose claim is not well formed.
rule prop second : imp(p, imp(q, and_then(p, q)))
show rule second
rule prop third : p => q => p
proof third m
line third m l in root : p => (q => p)
cite third m l : rule nowhere
show rule third
";

pub(crate) const REPLIES: &[u8] = b"\
ok
ok
ok
ok
ok
ok
ok
axiom prop neither established : not (p or q) and (not p) = q
end
rule prop first unproved : p and q |- p
end
ok
ok
ok
ok
ok
ok
ok
ok
rule prop first established : p and q |- p
proof begun fault l no-justification
proof right checks
proof wrong fault l conclusion-differs
end
ok
rule prop second ill-formed : p => q => and_then(p, q)
end
ok
ok
ok
ok
rule prop third incomplete : p => q => p
proof m fault l absent
end
";

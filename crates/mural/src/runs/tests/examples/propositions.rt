pub(crate) const COMMANDS: &[u8] = b"\
# A theory of propositions, and a rule that is derived in it.
theory prop
const prop conj(e, e) -> e
axiom prop conj_left : conj(?p, ?q) |- ?p
axiom prop conj_right : conj(?p, ?q) |- ?q
axiom prop conj_intro : ?p; ?q |- conj(?p, ?q)
rule prop conj_swap : conj(?p, ?q) |- conj(?q, ?p)

# The proof is begun at its end. It is not finished yet.
proof conj_swap m
line conj_swap m both in root : conj(?q, ?p)
cite conj_swap m both : rule conj_intro from first, second with ?p := ?q; ?q := ?p
status conj_swap

# What the last line stands on comes before it.
line conj_swap m first in root before both : ?q
line conj_swap m second in root before both : ?p
cite conj_swap m first : rule conj_right from #1 with ?p := ?p; ?q := ?q
cite conj_swap m second : rule conj_left from #1 with ?p := ?p; ?q := ?q
status conj_swap
";

pub(crate) const REPLIES: &[u8] = b"\
ok
ok
ok
ok
ok
ok
ok
ok
ok
conj_swap rule incomplete
ok
ok
ok
ok
conj_swap rule established
";

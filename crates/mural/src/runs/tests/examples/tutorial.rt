pub(crate) const COMMANDS: &[u8] = b"\
theory prop
const prop p -> e
const prop q -> e
const prop conj(e, e) -> e
axiom prop both : ?a; ?b |- conj(?a, ?b)
axiom prop p_holds : p
axiom prop if_p_then_q : p |- q
rule prop goal : conj(p, q)
status goal
proof goal m
line goal m end in root : conj(p, q)
cite goal m end : rule both from one, two with ?a := p; ?b := q
status goal
line goal m one in root before end : p
line goal m two in root before end : q
cite goal m one : rule p_holds
cite goal m two : rule step from one
show rule goal
cite goal m two : rule if_p_then_q from one
status goal
rule prop later : q
rule prop again : q
proof again m
line again m end in root : q
cite again m end : rule later
status again
show unit prop
proof later m
line later m end in root : q
cite later m end : rule again
status later
cite later m end : rule if_p_then_q form p_holds
axiom prop if_intro : {| ?a |- ?b} |- ?a => ?b
rule prop if_p_then_both : p => conj(p, q)
proof if_p_then_both m
box if_p_then_both m b in root : | p
line if_p_then_both m one in b : q
cite if_p_then_both m one : rule if_p_then_q from b#1
line if_p_then_both m two in b : conj(p, q)
cite if_p_then_both m two : rule both from b#1, one with ?a := p; ?b := q
line if_p_then_both m last in root : p => conj(p, q)
cite if_p_then_both m last : rule if_intro from two with ?a := p; ?b := conj(p, q)
show proof if_p_then_both m
cite if_p_then_both m last : rule if_intro from b with ?a := p; ?b := conj(p, q)
status if_p_then_both
";

pub(crate) const REPLIES: &[u8] = b"\
ok
ok
ok
ok
ok
ok
ok
ok
goal rule unproved
ok
ok
ok
goal rule incomplete
ok
ok
ok
ok
rule prop goal incomplete : conj(p, q)
proof m fault two absent
end
ok
goal rule established
ok
ok
ok
ok
ok
again rule complete
theory prop
const conj(e, e) -> e
const p -> e
const q -> e
rule again complete : q
axiom both established : ?a; ?b |- conj(?a, ?b)
rule goal established : conj(p, q)
axiom if_p_then_q established : p |- q
rule later unproved : q
axiom p_holds established : p
end
ok
ok
refused circle again
later rule incomplete
refused syntax 37
ok
ok
ok
ok
ok
ok
ok
ok
ok
ok
proof if_p_then_both m fault last not-accessible
box b : | p
  one : q by rule if_p_then_q from b#1
  two : conj(p, q) by rule both from b#1, one with ?a := p; ?b := q
last : p => conj(p, q) by rule if_intro from two with ?a := p; ?b := conj(p, q)
end
ok
if_p_then_both rule established
";

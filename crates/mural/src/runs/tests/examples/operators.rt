pub(crate) const COMMANDS: &[u8] = b"\
# A type, operators, a binder, and metavariables with arguments.
theory nat
const nat N -> t
const nat zero -> e
const nat le(e, e) -> e
axiom nat all_elim : forall{x:?T. ?P[x]}; ?a : ?T |- ?P[?a]
axiom nat zero_N : zero : N
axiom nat least : forall{x:N. le(zero, x)}
rule nat le_zero : le(zero, zero)

# The variable that is bound may have another name in the proof.
proof le_zero m
line le_zero m all in root : forall{y:N. le(zero, y)}
cite le_zero m all : rule least
line le_zero m is in root : zero : N
cite le_zero m is : rule zero_N
line le_zero m end in root : le(zero, zero)
cite le_zero m end : rule all_elim from all, is with ?T := N; ?P[v] := le(zero, v); ?a := zero
status le_zero

# An equation is no operand of another one, but in parentheses.
axiom nat twice : zero = zero = zero
axiom nat twice : (zero = zero) = zero
";

pub(crate) const REPLIES: &[u8] = b"\
ok
ok
ok
ok
ok
ok
ok
ok
ok
ok
ok
ok
ok
ok
ok
le_zero rule established
refused syntax 31
ok
";

pub(crate) const COMMANDS: &[u8] = b"\
# Numbers, with a rule of induction whose second hypothesis is a sequent.
theory nat
const nat N -> t
const nat zero -> e
const nat suc(e) -> e
axiom nat zero_N : zero : N
axiom nat suc_N : ?n : N |- suc(?n) : N
axiom nat induction : ?P[zero]; {n:N | ?P[n] |- ?P[suc(n)]} |- forall{n:N. ?P[n]}
axiom nat imp_i : {| ?p |- ?q} |- ?p => ?q
axiom nat all_i : {x:?T | |- ?P[x]} |- forall{x:?T. ?P[x]}

# What was said before may be said again.
rule nat again : ?p |- ?p
proof again first
line again first l in root : ?p
cite again first l : hyp #1
proof again second
line again second l in root : ?p
cite again second l : same #1
show rule again

# A sequent is used with a term for its variable: first its typing is wanted, then the premise at that term.
rule nat two_steps : ?P[zero]; {n:N | ?P[n] |- ?P[suc(n)]} |- ?P[suc(suc(zero))]
proof two_steps m
line two_steps m start in root : ?P[zero]
cite two_steps m start : hyp #1
line two_steps m zero_is in root : zero : N
cite two_steps m zero_is : rule zero_N
line two_steps m one in root : ?P[suc(zero)]
cite two_steps m one : hyp #2 with zero from start
line two_steps m one_is in root : suc(zero) : N
cite two_steps m one_is : rule suc_N from zero_is with ?n := zero
line two_steps m two in root : ?P[suc(suc(zero))]
cite two_steps m two : hyp #2 with suc(zero) from one_is, one
show proof two_steps m
cite two_steps m one : hyp #2 with zero from zero_is, start
status two_steps

# A sequent is used in a box with the box's own variable.
rule nat step : {n:N | ?P[n] |- ?P[suc(n)]} |- forall{n:N. ?P[n] => ?P[suc(n)]}
proof step m
box step m b in root : n:N |
box step m c in b : | ?P[n]
line step m l1 in c : ?P[suc(n)]
cite step m l1 : hyp #1 with n from b#1, c#1
line step m l2 in b : ?P[n] => ?P[suc(n)]
cite step m l2 : rule imp_i from c with ?p := ?P[n]; ?q := ?P[suc(n)]
line step m l3 in root : forall{n:N. ?P[n] => ?P[suc(n)]}
cite step m l3 : rule all_i from b with ?T := N; ?P[v] := ?P[v] => ?P[suc(v)]
status step

# A sequent hypothesis is given, whole, for the sequent of another rule.
rule nat all_steps : ?P[zero]; {k:N | ?P[k] |- ?P[suc(k)]} |- forall{k:N. ?P[k]}
proof all_steps m
line all_steps m l in root : forall{k:N. ?P[k]}
cite all_steps m l : rule induction from #1, #2 with ?P[v] := ?P[v]
status all_steps
";

pub(crate) const REPLIES: &[u8] = b"\
ok
ok
ok
ok
ok
ok
ok
ok
ok
ok
ok
ok
ok
ok
ok
ok
rule nat again established : ?p |- ?p
proof first checks
proof second checks
end
ok
ok
ok
ok
ok
ok
ok
ok
ok
ok
ok
ok
proof two_steps m fault one wrong-count
start : ?P[zero] by hyp #1
zero_is : zero : N by rule zero_N
one : ?P[suc(zero)] by hyp #2 with zero from start
one_is : suc(zero) : N by rule suc_N from zero_is with ?n := zero
two : ?P[suc(suc(zero))] by hyp #2 with suc(zero) from one_is, one
end
ok
two_steps rule established
ok
ok
ok
ok
ok
ok
ok
ok
ok
ok
step rule established
ok
ok
ok
ok
all_steps rule established
";

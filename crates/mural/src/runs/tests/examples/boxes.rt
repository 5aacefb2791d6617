pub(crate) const COMMANDS: &[u8] = b"\
# First-order logic by natural deduction.
theory logic
axiom logic and_i : ?p; ?q |- ?p and ?q
axiom logic and_e1 : ?p and ?q |- ?p
axiom logic and_e2 : ?p and ?q |- ?q
axiom logic or_i1 : ?p |- ?p or ?q
axiom logic or_i2 : ?q |- ?p or ?q
axiom logic or_e : ?p or ?q; {| ?p |- ?r}; {| ?q |- ?r} |- ?r
axiom logic imp_i : {| ?p |- ?q} |- ?p => ?q
axiom logic imp_e : ?p => ?q; ?p |- ?q
axiom logic iff_i : {| ?p |- ?q}; {| ?q |- ?p} |- ?p <=> ?q
axiom logic not_i : {| ?p |- false} |- not ?p
axiom logic not_e : not ?p; ?p |- false
axiom logic raa : {| not ?p |- false} |- ?p
axiom logic all_i : {x:?T | |- ?P[x]} |- forall{x:?T. ?P[x]}
axiom logic all_e : forall{x:?T. ?P[x]}; ?a : ?T |- ?P[?a]
axiom logic ex_i : ?a : ?T; ?P[?a] |- exists{x:?T. ?P[x]}
axiom logic ex_e : exists{x:?T. ?P[x]}; {x:?T | ?P[x] |- ?r} |- ?r

# An implication is introduced by a box that assumes its left side.
rule logic imp_self : ?p => ?p
proof imp_self m
box imp_self m b in root : | ?p
line imp_self m l1 in b : ?p
cite imp_self m l1 : same b#1
line imp_self m l2 in root : ?p => ?p
cite imp_self m l2 : rule imp_i from b with ?p := ?p; ?q := ?p

rule logic imp_trans : ?p => ?q; ?q => ?r |- ?p => ?r
proof imp_trans m
box imp_trans m b in root : | ?p
line imp_trans m l1 in b : ?q
cite imp_trans m l1 : rule imp_e from #1, b#1 with ?p := ?p; ?q := ?q
line imp_trans m l2 in b : ?r
cite imp_trans m l2 : rule imp_e from #2, l1 with ?p := ?q; ?q := ?r
line imp_trans m l3 in root : ?p => ?r
cite imp_trans m l3 : rule imp_i from b with ?p := ?p; ?q := ?r

rule logic and_swap : ?p and ?q => ?q and ?p
proof and_swap m
box and_swap m b in root : | ?p and ?q
line and_swap m l1 in b : ?q
cite and_swap m l1 : rule and_e2 from b#1 with ?p := ?p; ?q := ?q
line and_swap m l2 in b : ?p
cite and_swap m l2 : rule and_e1 from b#1 with ?p := ?p; ?q := ?q
line and_swap m l3 in b : ?q and ?p
cite and_swap m l3 : rule and_i from l1, l2 with ?p := ?q; ?q := ?p
line and_swap m l4 in root : ?p and ?q => ?q and ?p
cite and_swap m l4 : rule imp_i from b with ?p := ?p and ?q; ?q := ?q and ?p

# A box in a box: what the outer one assumes may be cited in the inner one.
rule logic curry : ?p and ?q => ?r |- ?p => ?q => ?r
proof curry m
box curry m b in root : | ?p
box curry m c in b : | ?q
line curry m l1 in c : ?p and ?q
cite curry m l1 : rule and_i from b#1, c#1 with ?p := ?p; ?q := ?q
line curry m l2 in c : ?r
cite curry m l2 : rule imp_e from #1, l1 with ?p := ?p and ?q; ?q := ?r
line curry m l3 in b : ?q => ?r
cite curry m l3 : rule imp_i from c with ?p := ?q; ?q := ?r
line curry m l4 in root : ?p => ?q => ?r
cite curry m l4 : rule imp_i from b with ?p := ?p; ?q := ?q => ?r

# Two boxes for two cases.
rule logic or_swap : ?p or ?q |- ?q or ?p
proof or_swap m
box or_swap m left in root : | ?p
line or_swap m l1 in left : ?q or ?p
cite or_swap m l1 : rule or_i2 from left#1 with ?p := ?q; ?q := ?p
box or_swap m right in root : | ?q
line or_swap m l2 in right : ?q or ?p
cite or_swap m l2 : rule or_i1 from right#1 with ?p := ?q; ?q := ?p
line or_swap m l3 in root : ?q or ?p
cite or_swap m l3 : rule or_e from #1, left, right with ?p := ?p; ?q := ?q; ?r := ?q or ?p

# Boxes that lead to a contradiction.
rule logic not_not_e : not not ?p |- ?p
proof not_not_e m
box not_not_e m b in root : | not ?p
line not_not_e m l1 in b : false
cite not_not_e m l1 : rule not_e from #1, b#1 with ?p := not ?p
line not_not_e m l2 in root : ?p
cite not_not_e m l2 : rule raa from b with ?p := ?p

rule logic not_not : not not ?p <=> ?p
proof not_not m
box not_not m b in root : | not not ?p
line not_not m l1 in b : ?p
cite not_not m l1 : rule not_not_e from b#1 with ?p := ?p
box not_not m c in root : | ?p
box not_not m d in c : | not ?p
line not_not m l2 in d : false
cite not_not m l2 : rule not_e from d#1, c#1 with ?p := ?p
line not_not m l3 in c : not not ?p
cite not_not m l3 : rule not_i from d with ?p := not ?p
line not_not m l4 in root : not not ?p <=> ?p
cite not_not m l4 : rule iff_i from b, c with ?p := not not ?p; ?q := ?p

rule logic contrapositive : ?p => ?q |- not ?q => not ?p
proof contrapositive m
box contrapositive m b in root : | not ?q
box contrapositive m c in b : | ?p
line contrapositive m l1 in c : ?q
cite contrapositive m l1 : rule imp_e from #1, c#1 with ?p := ?p; ?q := ?q
line contrapositive m l2 in c : false
cite contrapositive m l2 : rule not_e from b#1, l1 with ?p := ?q
line contrapositive m l3 in b : not ?p
cite contrapositive m l3 : rule not_i from c with ?p := ?p
line contrapositive m l4 in root : not ?q => not ?p
cite contrapositive m l4 : rule imp_i from b with ?p := not ?q; ?q := not ?p

rule logic excluded_middle : ?p or not ?p
proof excluded_middle m
box excluded_middle m b in root : | not (?p or not ?p)
box excluded_middle m c in b : | ?p
line excluded_middle m l1 in c : ?p or not ?p
cite excluded_middle m l1 : rule or_i1 from c#1 with ?p := ?p; ?q := not ?p
line excluded_middle m l2 in c : false
cite excluded_middle m l2 : rule not_e from b#1, l1 with ?p := ?p or not ?p
line excluded_middle m l3 in b : not ?p
cite excluded_middle m l3 : rule not_i from c with ?p := ?p
line excluded_middle m l4 in b : ?p or not ?p
cite excluded_middle m l4 : rule or_i2 from l3 with ?p := ?p; ?q := not ?p
line excluded_middle m l5 in b : false
cite excluded_middle m l5 : rule not_e from b#1, l4 with ?p := ?p or not ?p
line excluded_middle m l6 in root : ?p or not ?p
cite excluded_middle m l6 : rule raa from b with ?p := ?p or not ?p

# A box with a variable: its first assumption is the typing of the variable.
rule logic all_imp : forall{x:?T. ?P[x] => ?Q[x]}; forall{x:?T. ?P[x]} |- forall{x:?T. ?Q[x]}
proof all_imp m
box all_imp m b in root : x:?T |
line all_imp m l1 in b : ?P[x] => ?Q[x]
cite all_imp m l1 : rule all_e from #1, b#1 with ?T := ?T; ?P[v] := ?P[v] => ?Q[v]; ?a := x
line all_imp m l2 in b : ?P[x]
cite all_imp m l2 : rule all_e from #2, b#1 with ?T := ?T; ?P[v] := ?P[v]; ?a := x
line all_imp m l3 in b : ?Q[x]
cite all_imp m l3 : rule imp_e from l1, l2 with ?p := ?P[x]; ?q := ?Q[x]
line all_imp m l4 in root : forall{x:?T. ?Q[x]}
cite all_imp m l4 : rule all_i from b with ?T := ?T; ?P[v] := ?Q[v]

rule logic ex_imp : exists{x:?T. ?P[x]}; forall{x:?T. ?P[x] => ?Q[x]} |- exists{x:?T. ?Q[x]}
proof ex_imp m
box ex_imp m b in root : x:?T | ?P[x]
line ex_imp m l1 in b : ?P[x] => ?Q[x]
cite ex_imp m l1 : rule all_e from #2, b#1 with ?T := ?T; ?P[v] := ?P[v] => ?Q[v]; ?a := x
line ex_imp m l2 in b : ?Q[x]
cite ex_imp m l2 : rule imp_e from l1, b#2 with ?p := ?P[x]; ?q := ?Q[x]
line ex_imp m l3 in b : exists{y:?T. ?Q[y]}
cite ex_imp m l3 : rule ex_i from b#1, l2 with ?a := x; ?T := ?T; ?P[v] := ?Q[v]
line ex_imp m l4 in root : exists{x:?T. ?Q[x]}
cite ex_imp m l4 : rule ex_e from #1, b with ?T := ?T; ?P[v] := ?P[v]; ?r := exists{x:?T. ?Q[x]}

rule logic exchange : exists{x:?S. forall{y:?T. ?R[x, y]}} |- forall{y:?T. exists{x:?S. ?R[x, y]}}
proof exchange m
box exchange m b in root : y:?T |
box exchange m c in b : x:?S | forall{z:?T. ?R[x, z]}
line exchange m l1 in c : ?R[x, y]
cite exchange m l1 : rule all_e from c#2, b#1 with ?T := ?T; ?P[v] := ?R[x, v]; ?a := y
line exchange m l2 in c : exists{z:?S. ?R[z, y]}
cite exchange m l2 : rule ex_i from c#1, l1 with ?a := x; ?T := ?S; ?P[v] := ?R[v, y]
line exchange m l3 in b : exists{z:?S. ?R[z, y]}
cite exchange m l3 : rule ex_e from #1, c with ?T := ?S; ?P[v] := forall{z:?T. ?R[v, z]}; ?r := exists{z:?S. ?R[z, y]}
line exchange m l4 in root : forall{y:?T. exists{x:?S. ?R[x, y]}}
cite exchange m l4 : rule all_i from b with ?T := ?T; ?P[v] := exists{x:?S. ?R[x, v]}

show proof excluded_middle m
show proof exchange m
status imp_self
status imp_trans
status and_swap
status curry
status or_swap
status not_not_e
status not_not
status contrapositive
status excluded_middle
status all_imp
status ex_imp
status exchange
";

pub(crate) const REPLIES: &[u8] = b"\
ok
ok
ok
ok
ok
ok
ok
ok
ok
ok
ok
ok
ok
ok
ok
ok
ok
ok
ok
ok
ok
ok
ok
ok
ok
ok
ok
ok
ok
ok
ok
ok
ok
ok
ok
ok
ok
ok
ok
ok
ok
ok
ok
ok
ok
ok
ok
ok
ok
ok
ok
ok
ok
ok
ok
ok
ok
ok
ok
ok
ok
ok
ok
ok
ok
ok
ok
ok
ok
ok
ok
ok
ok
ok
ok
ok
ok
ok
ok
ok
ok
ok
ok
ok
ok
ok
ok
ok
ok
ok
ok
ok
ok
ok
ok
ok
ok
ok
ok
ok
ok
ok
ok
ok
ok
ok
ok
ok
ok
ok
ok
ok
ok
ok
ok
ok
ok
ok
ok
ok
ok
ok
ok
ok
ok
ok
ok
ok
ok
ok
ok
ok
ok
ok
ok
ok
ok
ok
ok
ok
ok
ok
ok
ok
ok
ok
ok
ok
proof excluded_middle m checks
box b : | not (?p or not ?p)
  box c : | ?p
    l1 : ?p or not ?p by rule or_i1 from c#1 with ?p := ?p; ?q := not ?p
    l2 : false by rule not_e from b#1, l1 with ?p := ?p or not ?p
  l3 : not ?p by rule not_i from c with ?p := ?p
  l4 : ?p or not ?p by rule or_i2 from l3 with ?p := ?p; ?q := not ?p
  l5 : false by rule not_e from b#1, l4 with ?p := ?p or not ?p
l6 : ?p or not ?p by rule raa from b with ?p := ?p or not ?p
end
proof exchange m checks
box b : y:?T |
  box c : x:?S | forall{z:?T. ?R[x, z]}
    l1 : ?R[x, y] by rule all_e from c#2, b#1 with ?T := ?T; ?P[v] := ?R[x, v]; ?a := y
    l2 : exists{z:?S. ?R[z, y]} by rule ex_i from c#1, l1 with ?a := x; ?T := ?S; ?P[v] := ?R[v, y]
  l3 : exists{z:?S. ?R[z, y]} by rule ex_e from #1, c with ?T := ?S; ?P[v] := forall{z:?T. ?R[v, z]}; ?r := exists{z:?S. ?R[z, y]}
l4 : forall{y:?T. exists{x:?S. ?R[x, y]}} by rule all_i from b with ?T := ?T; ?P[v] := exists{x:?S. ?R[x, v]}
end
imp_self rule established
imp_trans rule established
and_swap rule established
curry rule established
or_swap rule established
not_not_e rule established
not_not rule established
contrapositive rule established
excluded_middle rule established
all_imp rule established
ex_imp rule established
exchange rule established
";

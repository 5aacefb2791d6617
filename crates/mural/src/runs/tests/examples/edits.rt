pub(crate) const COMMANDS: &[u8] = b"\
# A proof that is begun badly: the box assumes too little, and a line stands outside it.
theory logic
axiom logic and_i : ?p; ?q |- ?p and ?q
axiom logic and_e1 : ?p and ?q |- ?p
axiom logic and_e2 : ?p and ?q |- ?q
axiom logic imp_i : {| ?p |- ?q} |- ?p => ?q
rule logic swap : ?p and ?q => ?q and ?p
proof swap m
box swap m b in root : | ?p
line swap m l1 in b : ?p
cite swap m l1 : rule and_e1 from b#1 with ?p := ?p; ?q := ?q
line swap m l2 in root : ?p
cite swap m l2 : rule and_e2 from b#1 with ?p := ?p; ?q := ?q
line swap m l3 in b : ?q and ?p
cite swap m l3 : rule and_i from l2, l1 with ?p := ?q; ?q := ?p
line swap m l4 in root : ?p and ?q => ?q and ?p
cite swap m l4 : rule imp_i from b with ?p := ?p and ?q; ?q := ?q and ?p
show proof swap m

# It is mended bit by bit.
alter box swap m b : | ?p and ?q
show rule swap
move swap m l2 to b before l3
show rule swap
alter line swap m l2 : ?q
show proof swap m
status swap

# A reason is taken back, and given again.
unjustify swap m l3
show rule swap
cite swap m l3 : rule and_i from l2, l1 with ?p := ?q; ?q := ?p
status swap

# A box goes with all that stands in it.
box swap m c in root before l4 : x:bool |
box swap m d in c : | x
line swap m l5 in d : x
move swap m d to root before c
show proof swap m
move swap m d to c
drop item swap m c
show rule swap

# Nothing is moved into itself or before itself, and what is named must be there.
box swap m c in root before b : |
box swap m d in c : |
move swap m c to c
move swap m c to d
move swap m l4 to root before l4
move swap m l4 to l1
move swap m l9 to b
move swap m l4 to b before c
alter line swap m b : ?p
alter line swap m l9 : ?p
alter box swap m l1 : |
alter box swap m c : x:bool, x:bool |
unjustify swap m b
unjustify swap n l1
drop item swap m l5
line swap m l1 in c : ?p
line swap m root in c : ?p
unjustify swap m l4
unjustify swap m l4
drop proof swap n
proof swap m
cite swap m l4 : rule imp_i from b with ?p := ?p and ?q; ?q := ?q and ?p
drop item swap m c

# A citation that would close a circle may be stored once the other one is gone.
rule logic here : ?p |- ?p
rule logic there : ?p |- ?p
proof here m
line here m l in root : ?p
cite here m l : rule there from #1 with ?p := ?p
proof there m
line there m l in root : ?p
cite there m l : rule here from #1 with ?p := ?p
unjustify here m l
cite there m l : rule here from #1 with ?p := ?p
cite here m l : rule there from #1 with ?p := ?p
drop item there m l
cite here m l : rule there from #1 with ?p := ?p
drop proof here m
status here

# A rule may go, and its proofs stay.
drop rule and_e2
show rule swap
axiom logic and_e2 : ?p and ?q |- ?q
drop rule swap
status swap
drop rule swap
show proof swap m
rule logic swap : ?p => ?p
show rule swap
alter rule swap : ?p and ?q => ?q and ?p
show rule swap
drop proof swap m
show rule swap
";

pub(crate) const REPLIES: &[u8] = b"\
ok
ok
ok
ok
ok
ok
ok
ok
ok
ok
ok
ok
ok
ok
ok
ok
proof swap m fault l1 hypothesis-differs
box b : | ?p
  l1 : ?p by rule and_e1 from b#1 with ?p := ?p; ?q := ?q
  l3 : ?q and ?p by rule and_i from l2, l1 with ?p := ?q; ?q := ?p
l2 : ?p by rule and_e2 from b#1 with ?p := ?p; ?q := ?q
l4 : ?p and ?q => ?q and ?p by rule imp_i from b with ?p := ?p and ?q; ?q := ?q and ?p
end
ok
rule logic swap incomplete : ?p and ?q => ?q and ?p
proof m fault l3 not-accessible
end
ok
rule logic swap incomplete : ?p and ?q => ?q and ?p
proof m fault l2 conclusion-differs
end
ok
proof swap m checks
box b : | ?p and ?q
  l1 : ?p by rule and_e1 from b#1 with ?p := ?p; ?q := ?q
  l2 : ?q by rule and_e2 from b#1 with ?p := ?p; ?q := ?q
  l3 : ?q and ?p by rule and_i from l2, l1 with ?p := ?q; ?q := ?p
l4 : ?p and ?q => ?q and ?p by rule imp_i from b with ?p := ?p and ?q; ?q := ?q and ?p
end
swap rule established
ok
rule logic swap incomplete : ?p and ?q => ?q and ?p
proof m fault l3 no-justification
end
ok
swap rule established
ok
ok
ok
ok
proof swap m fault d ill-formed-box
box b : | ?p and ?q
  l1 : ?p by rule and_e1 from b#1 with ?p := ?p; ?q := ?q
  l2 : ?q by rule and_e2 from b#1 with ?p := ?p; ?q := ?q
  l3 : ?q and ?p by rule and_i from l2, l1 with ?p := ?q; ?q := ?p
box d : | x
  l5 : x by nothing
box c : x:bool |
l4 : ?p and ?q => ?q and ?p by rule imp_i from b with ?p := ?p and ?q; ?q := ?q and ?p
end
ok
ok
rule logic swap established : ?p and ?q => ?q and ?p
proof m checks
end
ok
ok
refused unknown c
refused unknown d
refused unknown l4
refused unknown l1
refused unknown l9
refused unknown c
refused unknown b
refused unknown l9
refused unknown l1
refused taken x
refused unknown b
refused unknown n
refused unknown l5
refused taken l1
refused taken root
ok
refused unknown l4
refused unknown n
refused taken m
ok
ok
ok
ok
ok
ok
ok
ok
ok
refused circle here
ok
ok
refused circle here
ok
ok
ok
here rule unproved
ok
rule logic swap incomplete : ?p and ?q => ?q and ?p
proof m fault l2 absent
end
ok
ok
refused unknown swap
refused unknown swap
proof swap m fault root no-rule
box b : | ?p and ?q
  l1 : ?p by rule and_e1 from b#1 with ?p := ?p; ?q := ?q
  l2 : ?q by rule and_e2 from b#1 with ?p := ?p; ?q := ?q
  l3 : ?q and ?p by rule and_i from l2, l1 with ?p := ?q; ?q := ?p
l4 : ?p and ?q => ?q and ?p by rule imp_i from b with ?p := ?p and ?q; ?q := ?q and ?p
end
ok
rule logic swap incomplete : ?p => ?p
proof m fault b foreign-meta
end
ok
rule logic swap established : ?p and ?q => ?q and ?p
proof m checks
end
ok
rule logic swap unproved : ?p and ?q => ?q and ?p
end
";

// The worked examples of the whole program, as transcripts: lines behind `> `, each with its reply below.

/// All of them.
pub(super) fn worked() -> [&'static [u8]; 4] {
    [SWAP, CIRCLES, CHAIN, REFUSALS]
}

/// The conjuncts of a conjunction change places: the proof is entered from its end, what it cites is altered and altered
/// back, and its rule is dropped and stated again.
const SWAP: &[u8] = b"\
> theory prop
ok
> axiom prop and_e1 : ?p and ?q |- ?p
ok
> axiom prop and_e2 : ?p and ?q |- ?q
ok
> axiom prop and_i : ?p; ?q |- ?p and ?q
ok
> rule prop and_swap : ?p and ?q |- ?q and ?p
ok
> proof and_swap m
ok
> line and_swap m l3 in root : ?q and ?p
ok
> cite and_swap m l3 : rule and_i from l1, l2 with ?p := ?q; ?q := ?p
ok
> status and_swap
and_swap rule incomplete
> line and_swap m l1 in root before l3 : ?q
ok
> line and_swap m l2 in root before l3 : ?p
ok
> cite and_swap m l1 : rule and_e2 from #1 with ?p := ?p; ?q := ?q
ok
> cite and_swap m l2 : rule and_e1 from #1 with ?p := ?p; ?q := ?q
ok
> status and_swap
and_swap rule established
> show proof and_swap m
proof and_swap m checks
l1 : ?q by rule and_e2 from #1 with ?p := ?p; ?q := ?q
l2 : ?p by rule and_e1 from #1 with ?p := ?p; ?q := ?q
l3 : ?q and ?p by rule and_i from l1, l2 with ?p := ?q; ?q := ?p
end
> alter rule and_e1 : ?p and ?q |- ?q
ok
> show rule and_swap
rule prop and_swap incomplete : ?p and ?q |- ?q and ?p
proof m fault l2 conclusion-differs
end
> alter rule and_e1 : ?p and ?q |- ?p
ok
> status and_swap
and_swap rule established
> drop rule and_swap
ok
> status and_swap
refused unknown and_swap
> show proof and_swap m
proof and_swap m fault root no-rule
l1 : ?q by rule and_e2 from #1 with ?p := ?p; ?q := ?q
l2 : ?p by rule and_e1 from #1 with ?p := ?p; ?q := ?q
l3 : ?q and ?p by rule and_i from l1, l2 with ?p := ?q; ?q := ?p
end
> rule prop and_swap : ?p and ?q |- ?q and ?p
ok
> status and_swap
and_swap rule established
";

/// Two rules that would lead back to themselves.
const CIRCLES: &[u8] = b"\
> theory t
ok
> const t p -> e
ok
> rule t a : p
ok
> rule t b : p
ok
> proof a m
ok
> line a m l in root : p
ok
> proof b m
ok
> line b m l in root : p
ok
> cite a m l : rule b
ok
> cite b m l : rule a
refused circle a
> cite b m l : rule b
refused circle b
> status a
a rule complete
> status b
b rule incomplete
";

/// What rests on an axiom falls with it and rises again.
const CHAIN: &[u8] = b"\
> theory t
ok
> const t p -> e
ok
> axiom t x : p
ok
> rule t a : p
ok
> rule t b : p
ok
> rule t c : p
ok
> proof a m
ok
> line a m l in root : p
ok
> cite a m l : rule x
ok
> proof b m
ok
> line b m l in root : p
ok
> cite b m l : rule a
ok
> proof b s
ok
> line b s l in root : p
ok
> cite b s l : rule c
ok
> status a
a rule established
> status b
b rule established
> drop rule x
ok
> status a
a rule incomplete
> status b
b rule complete
> show rule a
rule t a incomplete : p
proof m fault l absent
end
> show rule b
rule t b complete : p
proof m checks
proof s checks
end
> axiom t x : p
ok
> status a
a rule established
> status b
b rule established
";

/// Commands that are refused, one for each cause, and lines without a reply. Each leaves the store as it was.
const REFUSALS: &[u8] = b"\
> theory prop
ok
> const prop p -> e
ok
> axiom prop ap : p
ok
> status ap
ap axiom established
> theory
refused syntax 7
> const prop p -> z
refused syntax 17
> rule prop a.b : p
refused syntax 11
> theory aaaaaaaaaaaaaaaaaaaaaaaaaaaaaaaaaaaaaaaaaaaaaaaaaaaaaaaaaaaaaaaaa
refused limit name
> const nope q -> e
refused unknown nope
> theory prop
refused taken prop
> define p(x, x) = p
refused taken x
> const prop and -> e
refused builtin and
> drop unit prop
refused not-empty prop
> parent prop prop
refused circle prop
> status ap
ap axiom established
> \x20\x20\t\x20
> status ap
ap axiom established
> # \xc3\xbcmlaut
> status ap
ap axiom established
>\x20
> status ap
ap axiom established
";

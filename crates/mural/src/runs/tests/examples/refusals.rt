pub(crate) const COMMANDS: &[u8] = b"\
# A theory with two constants, an axiom, and two rules with a proof each.
theory prop
const prop p -> e
const prop holds(e) -> e
axiom prop good : p
axiom prop bad : q
rule prop a : p
rule prop b : p
proof a m
line a m l in root : p
proof b m
line b m l in root : p
cite a m l : rule b
status good
status bad
status a
status b

# What is no command is refused with the column from which it is none.
theory
theory prop.more
const prop q -> z
axiom prop ugly : p q
line a m k in root before : p

# The base theory stays as it is.
theory base
const prop true -> e

# What must be there, and what must not.
theory prop
const nope q -> e
const prop p -> e
axiom prop good : true
proof a m
line a m l in root : p
line a m k in box : p
line a m k in root before x : p
cite a m k : rule good
status nope

# A citation that would close a circle.
cite b m l : rule a
";

pub(crate) const REPLIES: &[u8] = b"\
ok
ok
ok
ok
ok
ok
ok
ok
ok
ok
ok
ok
good axiom established
bad axiom ill-formed
a rule complete
b rule incomplete
refused syntax 7
refused syntax 8
refused syntax 17
refused syntax 21
refused syntax 27
refused builtin base
refused builtin true
refused taken prop
refused unknown nope
refused taken p
refused taken good
refused taken m
refused taken l
refused unknown box
refused unknown x
refused unknown k
refused unknown nope
refused circle a
";

pub(crate) const COMMANDS: &[u8] = b"\
# Monoids have what semigroups have, and a unit. What stands in a parent is seen.
theory semigroup
const semigroup op(e, e) -> e
axiom semigroup op_assoc : op(op(?a, ?b), ?c) = op(?a, op(?b, ?c))
theory monoid
const monoid unit -> e
axiom monoid unit_left : op(unit, ?a) = ?a
status unit_left
parent monoid semigroup
status unit_left

# A definition is unfolded in a proof. A parent's parent is seen too.
theory powers
parent powers monoid
const powers double(e) -> e
define double(x) = op(x, x)
rule powers double_unit : double(unit) = unit
proof double_unit m
line double_unit m once in root : op(unit, unit) = unit
cite double_unit m once : rule unit_left with ?a := unit
line double_unit m last in root : double(unit) = unit
cite double_unit m last : def double on once
show rule double_unit

# A definition may be altered, and so may a constant. What stands on it changes its status.
define double(x) = op(x, op(x, x))
show rule double_unit
define double(x) = op(x)
show rule double_unit
undefine double
show rule double_unit
alter const double(e, e) -> e
status double_unit
alter const double(e) -> e
define double(x) = op(x, x)
status double_unit

# Nothing leads back to itself: no theory by its parents, no constant by its definition.
parent monoid powers
parent semigroup powers
parent semigroup semigroup
const powers triple(e) -> e
define triple(x) = op(x, double(x))
define double(x) = triple(x)
define unit = unit

# What must be there, and what must not.
parent nowhere monoid
parent monoid semigroup
unparent monoid powers
alter const half(e) -> e
define half(x) = x
define triple(x, x) = op(x, x)
undefine unit
alter rule half : unit = unit
axiom powers odd : {x:bool, x:bool | |- ?P[x]} |- ?P[true]

# The base theory stays as it is.
theory base
parent base monoid
const base zero -> e
const monoid true -> e
axiom base zero : true
alter const and(e) -> e
define not(x) = x
undefine not
drop const eq
drop unit base

# An axiom stays one, in its theory, when its claim is altered. What cites it is checked anew.
alter rule unit_left : op(?a, ?b) = ?a
show rule unit_left
status double_unit
alter rule unit_left : op(unit, ?a) = ?a
status double_unit

# What holds something is not dropped.
drop const double
undefine double
drop const double
status double_unit
drop unit powers
undefine triple
drop const triple
drop rule double_unit
drop unit powers
drop unit powers
drop rule double_unit
drop const double

# A parent that is dropped is a parent still, and is seen again when it is back.
drop rule op_assoc
drop const op
drop unit semigroup
status unit_left
theory semigroup
const semigroup op(e, e) -> e
status unit_left
unparent monoid semigroup
status unit_left
";

pub(crate) const REPLIES: &[u8] = b"\
ok
ok
ok
ok
ok
ok
unit_left axiom ill-formed
ok
unit_left axiom established
ok
ok
ok
ok
ok
ok
ok
ok
ok
ok
rule powers double_unit established : double(unit) = unit
proof m checks
end
ok
rule powers double_unit incomplete : double(unit) = unit
proof m fault last conclusion-differs
end
ok
rule powers double_unit incomplete : double(unit) = unit
proof m fault last ill-formed-definition
end
ok
rule powers double_unit incomplete : double(unit) = unit
proof m fault last absent
end
ok
double_unit rule ill-formed
ok
ok
double_unit rule established
refused circle monoid
refused circle monoid
refused circle semigroup
ok
ok
refused circle double
refused circle unit
refused unknown nowhere
refused taken semigroup
refused unknown powers
refused unknown half
refused unknown half
refused taken x
refused unknown unit
refused unknown half
refused taken x
refused builtin base
refused builtin base
refused builtin base
refused builtin true
refused builtin base
refused builtin and
refused builtin not
refused builtin not
refused builtin eq
refused builtin base
ok
axiom monoid unit_left established : op(?a, ?b) = ?a
end
double_unit rule incomplete
ok
double_unit rule established
refused not-empty double
ok
ok
double_unit rule ill-formed
refused not-empty powers
ok
ok
ok
ok
refused unknown powers
refused unknown double_unit
refused unknown double
ok
ok
ok
unit_left axiom ill-formed
ok
ok
unit_left axiom established
ok
unit_left axiom ill-formed
";

pub(crate) const COMMANDS: &[u8] = b"\
# A theory of monoids, on one of semigroups.
theory semigroup
const semigroup op(e, e) -> e
axiom semigroup op_assoc : op(op(?a, ?b), ?c) = op(?a, op(?b, ?c))
theory monoid
parent monoid semigroup
const monoid unit -> e
axiom monoid unit_left : op(unit, ?a) = ?a
show unit semigroup
show unit monoid

# What is new in it has its place by its name. A rule that cites one without a proof is complete.
const monoid square(e) -> e
define square(x) = op(x, x)
rule monoid unit_once : op(unit, unit) = unit
rule monoid square_unit : square(unit) = unit
proof square_unit m
line square_unit m once in root : op(unit, unit) = unit
cite square_unit m once : rule unit_once
line square_unit m last in root : square(unit) = unit
cite square_unit m last : def square on once
show unit monoid

# The statuses are those of the moment.
proof unit_once m
line unit_once m l in root : op(unit, unit) = unit
cite unit_once m l : rule unit_left with ?a := unit
show unit monoid
unparent monoid semigroup
show unit monoid

# A theory that isn't there, and the one that always is.
show unit group
show unit base
";

pub(crate) const REPLIES: &[u8] = b"\
ok
ok
ok
ok
ok
ok
ok
theory semigroup
const op(e, e) -> e
axiom op_assoc established : op(op(?a, ?b), ?c) = op(?a, op(?b, ?c))
end
theory monoid
parent semigroup
const unit -> e
axiom unit_left established : op(unit, ?a) = ?a
end
ok
ok
ok
ok
ok
ok
ok
ok
ok
theory monoid
parent semigroup
const square(e) -> e
define square(x) = op(x, x)
const unit -> e
rule square_unit complete : square(unit) = unit
axiom unit_left established : op(unit, ?a) = ?a
rule unit_once unproved : op(unit, unit) = unit
end
ok
ok
ok
theory monoid
parent semigroup
const square(e) -> e
define square(x) = op(x, x)
const unit -> e
rule square_unit established : square(unit) = unit
axiom unit_left established : op(unit, ?a) = ?a
rule unit_once established : op(unit, unit) = unit
end
ok
theory monoid
const square(e) -> e
define square(x) = op(x, x)
const unit -> e
rule square_unit incomplete : square(unit) = unit
axiom unit_left ill-formed : op(unit, ?a) = ?a
rule unit_once ill-formed : op(unit, unit) = unit
end
refused unknown group
theory base
const and(e, e) -> e
const bool -> t
const eq(e, e) -> e
const exists{e} -> e
const false -> e
const forall{e} -> e
const iff(e, e) -> e
const imp(e, e) -> e
const not(e) -> e
const or(e, e) -> e
const sub{e} -> t
const true -> e
const typing(e, t) -> e
end
";

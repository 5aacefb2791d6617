pub(crate) const COMMANDS: &[u8] = b"\
theory prop
const prop p -> e
axiom prop ap : p
status ap
";

pub(crate) const REPLIES: &[u8] = b"\
ok
ok
ok
ap axiom established
";

// The examples of the documents and what they print, as tools/examples writes them here.

pub(super) mod boxes;
pub(super) mod edits;
pub(super) mod first;
pub(super) mod hypotheses;
pub(super) mod operators;
pub(super) mod pages;
pub(super) mod propositions;
pub(super) mod refusals;
pub(super) mod theories;
pub(super) mod tutorial;
pub(super) mod units;

/// Each example with its replies.
pub(super) fn examples() -> [(&'static [u8], &'static [u8]); 11] {
    [
        (boxes::COMMANDS, boxes::REPLIES),
        (edits::COMMANDS, edits::REPLIES),
        (first::COMMANDS, first::REPLIES),
        (hypotheses::COMMANDS, hypotheses::REPLIES),
        (operators::COMMANDS, operators::REPLIES),
        (pages::COMMANDS, pages::REPLIES),
        (propositions::COMMANDS, propositions::REPLIES),
        (refusals::COMMANDS, refusals::REPLIES),
        (theories::COMMANDS, theories::REPLIES),
        (tutorial::COMMANDS, tutorial::REPLIES),
        (units::COMMANDS, units::REPLIES),
    ]
}

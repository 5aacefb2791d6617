use mu_tree::{Bytes, Refusal};

/// The reply to a command.
#[derive(Debug, Drop)]
pub enum Reply {
    /// A change was carried out.
    Changed {
        /// The canonical text of the command, without a line feed.
        line: Bytes,
    },
    /// What a query asked for.
    Page {
        /// Whole lines.
        text: Bytes,
    },
    /// Nothing was changed.
    Refused(Refusal),
}

//! How a search for a node ends.

/// What a search comes to.
#[derive(Clone, Copy, PartialEq, Eq)]
pub enum Finding {
    /// A node that is sought.
    Found,
    /// No node that is met is sought, and each has had its turn.
    Missing,
    /// None of as many nodes as are asked for is sought.
    OpenEnded,
    /// Whether a node is sought, or the next edge, can't be decided.
    Untold,
}

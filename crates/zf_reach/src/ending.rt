//! How an exploration ends.

/// Why nothing further is written.
#[derive(Clone, Copy, PartialEq, Eq)]
pub enum Ending {
    /// Each node that is met has had its turn.
    Ended,
    /// As many nodes are met as are asked for.
    Paused,
    /// The search for an edge leaves the bounds.
    Broken,
}

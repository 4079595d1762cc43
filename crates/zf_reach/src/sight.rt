//! What is seen of a node.

/// Whether a node is sought.
#[derive(Clone, Copy, PartialEq, Eq)]
pub enum Sight {
    Sought,
    Other,
    /// It can't be decided.
    Untold,
}

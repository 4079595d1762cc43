//! How a binding is laid out.

/// How a binding is laid out.
#[derive(Clone, Copy, PartialEq, Eq)]
pub enum Layout {
    /// On one line, with commas.
    Line,
    /// Each component on a line of its own.
    Column,
    /// As an object of JSON.
    Object,
}

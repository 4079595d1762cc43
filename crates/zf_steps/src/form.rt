//! The form in which an exploration is written.

/// The form in which an exploration is written.
#[derive(Clone, Copy, PartialEq, Eq)]
pub enum Form {
    /// A line for each state and each step.
    Lines,
    /// A graph for Graphviz.
    Graph,
    /// An object of JSON for each state and each step.
    Objects,
}

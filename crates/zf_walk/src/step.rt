//! What a step of a walk finds.

/// What a step found.
#[derive(Clone, Copy, Debug, PartialEq, Eq)]
pub enum Step {
    /// A row of which every conjunct is True.
    Holds,
    /// A row of which no conjunct is False and one is Out.
    Breaks,
    End,
}

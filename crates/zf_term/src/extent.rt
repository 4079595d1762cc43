//! Infinite sets, and how a term contains them.

/// A set that no search goes through.
#[derive(Clone, Copy, PartialEq, Eq)]
pub enum Infinite {
    /// `\num`
    Num,
    /// `\nat`
    Nat,
    /// `\nat_1`
    Nat1,
}

/// How a term contains infinite sets.
#[derive(Clone, Copy)]
pub enum Extent {
    /// The term is one of them.
    Infinite(Infinite),
    /// One stands in it where none may.
    Open,
    /// Each stands in it where one may.
    Closed,
}

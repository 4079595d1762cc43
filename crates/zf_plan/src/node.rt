//! Nodes of trees.

/// A leaf by its place, or a connective over earlier nodes by theirs.
#[derive(Clone, Copy, Debug)]
pub enum Node {
    Leaf(usize),
    Not(usize),
    And(usize, usize),
    Or(usize, usize),
}

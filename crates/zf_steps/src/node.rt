//! What an exploration of a specification meets, and what its steps are labelled by.
use zf_value::{Items, Value};

/// A node of the graph of a specification.
#[derive(PartialEq, Eq, Hash, Drop)]
pub enum Node {
    /// What is before the initial states.
    Root,
    /// A state, by the values of its components.
    State(Items<Value>),
}

/// What a step is labelled by.
#[derive(Drop)]
pub struct Label {
    /// The number of the operation, from 0.
    pub operation: usize,
    /// The values of its components that are neither of the state before nor of the state after.
    pub values: Items<Value>,
}

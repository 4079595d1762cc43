//! Why a schema has no binding.

use crate::told::Told;

/// Why a schema has no binding.
#[derive(Drop)]
pub enum Cause {
    /// Of each component, whether its range is empty.
    Empty(Vec<bool>),
    /// The conjuncts that rule out everything alone. No range is empty.
    Alone(Vec<Told>),
    /// A minimal set of conjuncts that can't hold together. No range is empty, and no conjunct rules out everything alone.
    Together(Vec<Told>),
}

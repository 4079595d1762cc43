//! Resolved terms and conjuncts, with their names renamed, or their components numbered anew.
#![tactic(auto)]

pub mod conjunct;
mod moving;
mod renaming;

pub use moving::copy;
pub use renaming::{Naming, renamed, renamed_part, renamed_range};

//! The nodes and the height of terms, conjuncts and declared sets, counted no further than a limit; the last of the names of a term that are asked for.
#![tactic(auto)]

pub mod conjunct;
mod last;
mod sets;
pub mod terms;

pub use last::{Places, last_of, last_of_part, number_of};
pub use sets::{room_after_nodes, room_after_sets};

//! The search over the rows of some ranges that passes over what holds no event: conjuncts are trees over leaves, and a tree that the first values settle as False ends the rows that begin with them, and of a component only those values are tried that the trees leave.
#![tactic(auto)]

mod blame;
mod choice;
mod choosing;
mod evaluating;
mod forest;
mod guide;
mod keys;
mod known;
pub mod laws;
mod marks;
mod memo;
mod moves;
mod node;
mod place;
mod plan;
mod problem;
mod search;
mod sieve;
mod steps;
mod walk;

pub use forest::Forest;
pub use guide::{Guide, Means};
pub use search::Search;
pub use walk::Walk;

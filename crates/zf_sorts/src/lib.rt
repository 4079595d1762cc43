//! Sorts of operands: what the rules of typing make of them, and what is wrong where they make nothing.
#![tactic(auto)]

mod disagreement;
mod fault;
mod hint;
mod rules;
mod sort;

pub use disagreement::disagreeing;
pub use fault::{Hint, Offence, Refusal, TypeFault, misplaced, refused};
pub use hint::refused_name;
pub use rules::{apply, combine, constant_sort};
pub use sort::Sort;

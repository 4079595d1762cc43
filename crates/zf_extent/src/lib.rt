//! Infinite sets in terms: which terms are one, and which names offend.
#![tactic(auto)]

mod conjunct;
pub mod infinite;
mod offender;

pub use conjunct::offending_after;
pub use infinite::{direct, extent_of, offending_within_after};
pub use offender::Offender;

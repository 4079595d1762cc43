//! Outcomes and truths: what symbols, relations, connectives and quantifiers make of those of their parts.
#![tactic(auto)]

pub mod connected;
mod described;
mod found;
mod gathered;
pub mod relation;
mod symbols;
mod tally;

pub use described::{Described, interval_between, membership, power_of, product_of};
pub use found::Found;
pub use gathered::{Gathered, Lack};
pub use symbols::{on_both, on_one, on_several};
pub use tally::Tally;

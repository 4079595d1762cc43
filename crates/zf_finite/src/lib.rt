//! Which schemas are finite: Ok, or the first that makes one infinite.
#![tactic(auto)]

mod finiteness;
pub mod laws;
mod not_finite;

pub use finiteness::{bounds, finite, first_plain, is_bounded};
pub use not_finite::NotFinite;

//! The checker: what a text defines, and its faults; and laws of what is defined.
#![tactic(auto)]

mod checker;
pub mod laws;
pub mod listing;

pub use checker::{Checked, check_spec};

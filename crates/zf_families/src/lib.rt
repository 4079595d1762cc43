//! The sets of sets of the toolkit: power sets, products, relations, functions and injections. Each is found out of bounds by its size, before it is built.
#![tactic(auto)]

mod arrow;
mod count;
pub mod cross;
mod members;
pub mod power;
mod rows;

pub use arrow::{are_arrows_out, arrows, is_arrow};

//! The texts of values and of rows, as lines and as objects: no two rows of one schema have one.
#![tactic(auto)]

pub mod laws;
mod printed;
mod spelling;

pub use printed::{append_name, append_row, append_value};
pub use spelling::{Spelling, spellings_of};

//! What a name stands for, and how components are numbered anew.
#![tactic(auto)]

mod reference;

pub use reference::{Reference, place_in};

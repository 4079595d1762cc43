//! Laws of searches: what a search for bindings is to find is there.
#![tactic(auto)]

pub mod laws;

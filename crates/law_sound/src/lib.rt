//! Laws over what is checked, meant and searched: outcomes and rows have the types that the checker gives.
#![tactic(auto)]

pub mod laws;

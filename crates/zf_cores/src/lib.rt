//! Minimal sets of which nothing is possible: each member is left out in turn, and stays out where still nothing is possible.
#![tactic(auto)]

mod trial;
mod trimming;

pub use trial::Trial;
pub use trimming::minimal;

//! Laws of meaning: every expression has an outcome, every predicate a truth, every type a carrier.
#![tactic(auto)]

pub mod laws;

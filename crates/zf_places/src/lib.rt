//! What stands at places of a row of values, or of a list of components.
#![tactic(auto)]

mod places;

pub use places::{schema_at, values_at, values_of};

//! The search for the bindings of a schema that counts no tests, over trees of the parts of its conjuncts, and how these are prepared for it.
#![tactic(auto)]

mod hopeless;
mod instances;
pub mod laws;
mod lifting;
mod planting;

pub use instances::Instances;

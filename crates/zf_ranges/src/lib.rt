//! The ranges of a schema's components: the values of their declared sets, or of them the one that is held.
#![tactic(auto)]

mod bounding;
pub mod component;
mod filters;
mod kept;
mod lack;
mod leaves;
mod members;
mod of_type;
mod ranges;
mod sharing;
mod start_fault;
mod weight;

pub use start_fault::StartFault;
pub use weight::rows_weight;

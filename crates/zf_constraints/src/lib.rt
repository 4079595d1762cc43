//! What a schema says of its components: that they are members of their declared sets, and its conjuncts.
#![tactic(auto)]

mod batches;
mod domains;

pub use batches::constraints;
pub use domains::enrich;

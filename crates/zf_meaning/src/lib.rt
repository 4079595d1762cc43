//! What terms mean: environments, the outcomes of expressions and the truths of predicates in a row, and carriers of types.
#![tactic(auto)]

mod carrier;
mod env;
mod evaluate;
mod global_outcome;
pub mod laws;
mod needs;
mod number_set;
mod row;
mod rows;
mod sizes;
mod value;

pub use carrier::{carrier_of, number_named};
pub use env::Env;
pub use number_set::infinite_in;
pub use row::Row;
pub use sizes::{Size, SizeFault, given_names};
pub use value::{described_in, truth_of, value_behind, value_of};

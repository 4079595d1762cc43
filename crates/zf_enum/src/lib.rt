//! The bindings of a schema in an environment: what a search over the rows of the ranges of its components does, and one that counts its tests.
#![tactic(auto)]

mod bindings;
mod candidates;
mod conjuncts;
mod due;
mod fixing;
mod interval;
mod keys;
pub mod laws;
mod property;
mod search;
mod shown;
mod spread;
mod start;
mod sums;

pub use bindings::Bindings;
pub use conjuncts::Conjuncts;
pub use due::last_up_to;
pub use fixing::{Relating, relation_of};
pub use keys::Repeated;
pub use property::{Property, property_of};
pub use search::{Located, Passing, Ranged, Search};
pub use spread::is_there;
pub use start::resolved;
pub use sums::compares;

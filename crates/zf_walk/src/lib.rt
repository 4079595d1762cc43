//! What a search over the rows of some ranges is to find, and how many tests a walk makes that finds it; what searches ask of rows and of conjuncts, and which truths they keep.
#![tactic(auto)]

mod entry;
mod judge;
pub mod laws;
mod picked;
mod range;
mod reach;
mod row;
mod seen;
mod step;
mod table;
mod tables;

pub use judge::{Judge, Truth};
pub use picked::{Picked, pick};
pub use range::Range;
pub use reach::is_reached;
pub use row::Row;
pub use seen::{Seen, has_bit, with_bit};
pub use step::Step;
pub use tables::Tables;

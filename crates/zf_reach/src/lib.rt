//! What can be reached: the states and steps of a machine, breadth first, each written before anything further is searched for; and a search for one.
#![tactic(auto)]

mod ending;
mod exploring;
mod finding;
pub mod laws;
mod machine;
mod run;
mod search;
mod seeking;
mod sight;
mod trail;

pub use ending::Ending;
pub use exploring::explore;
pub use finding::Finding;
pub use machine::{Beginning, Found, Machine};
pub use seeking::seek;
pub use sight::Sight;

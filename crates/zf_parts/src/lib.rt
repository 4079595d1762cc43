//! What parts bindings have: their values at some places, each once.
#![tactic(auto)]

mod asked;
mod collecting;
mod fronts;
mod last;
pub mod laws;
mod listing;
mod marks;
mod meeting;
mod page;
mod part_row;
mod showing;
mod weights;
mod words;

pub use asked::Parts;
pub use fronts::{are_first, show_fronts};
pub use showing::show_parts;

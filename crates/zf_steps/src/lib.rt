//! What a specification can reach: the graph of its states and steps, and the searches for the steps of a state.
#![tactic(auto)]

mod cursor;
mod exploring;
mod finder;
mod flat;
mod flat_seeking;
mod form;
mod given;
mod labels;
pub mod laws;
mod layout;
mod lines;
mod machine;
mod node;
mod objects;
mod renewed;
mod results;
mod rows;
mod seeking;
mod shape;
mod statements;
mod stepped;
mod system;

pub use cursor::{Cursor, Part};
pub use exploring::explore_by;
pub use finder::Finder;
pub use flat::explore_flat;
pub use flat_seeking::seek_flat;
pub use form::Form;
pub use given::{Schematic, Surrounding};
pub use layout::Layout;
pub use node::{Label, Node};
pub use renewed::{Renewed, searches_of};
pub use seeking::seek_by;
pub use shape::{
    States, init_in, init_lacks, operation_in, sought_lacks, step_lacks, test_in, with_strokes,
};
pub use stepped::Stepped;
pub use system::{Operation, System};

//! The machine that schemas make in an environment.
#![tactic(auto)]

mod exploring;
mod making;
mod schemas;
mod seeking;
mod shape;

pub use exploring::{Specification, explore_schemas};
pub use making::machine_of;
pub use schemas::{Named, Schemas};
pub use seeking::seek_schemas;
pub use shape::{Lack, lack_of};

//! Predicates that are tested again and again: what their closed parts come to is worked out once.
#![tactic(auto)]

mod liftable;
mod lifted;
mod lifting;
mod unlifted;

pub use liftable::{is_asked, is_liftable, rows_of};
pub use lifted::{Lifted, lift};

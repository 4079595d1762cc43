//! The schema calculus: schemas that are joined, decorated and constrained, within the limits.
#![tactic(auto)]

mod components;
mod disjunction;
mod growing;
mod limits;
mod marking;
mod room;
mod spare;
mod stop;

pub use disjunction::disjoin;
pub use growing::Growing;
pub use limits::{COMPONENTS_MAX, CONJUNCTS_MAX};
pub use marking::{decorate_own, marked};
pub use spare::Spare;
pub use stop::Stop;

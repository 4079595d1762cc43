//! What is answered of one source: its faults, why a schema has no binding, why a request is refused; and the search for the bindings of a schema.
#![tactic(auto)]

mod asked;
pub mod begin;
mod bounds;
mod check;
mod endings;
mod held;
mod inquiry;
mod named;
mod numbers;
mod objects;
mod only;
mod parts;
mod reading;
mod reasons;
mod stated;
mod stop;
mod subject;
mod telling;
mod why;

pub use asked::{Asked, check_finite, env_in, find_schema, schema_named};
pub use bounds::{Bounds, Chosen, bounds_in};
pub use check::{checked, load};
pub use inquiry::Inquiry;
pub use numbers::greatest_number;
pub use reading::read_source;
pub use stop::Stop;
pub use subject::Subject;
pub use telling::{tell, write_whole};
pub use why::why_source;

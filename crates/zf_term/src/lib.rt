//! Types, resolved terms, and what a text defines.
#![tactic(auto)]

mod conjunct;
mod extent;
mod fault;
mod globals;
pub mod laws;
mod likeness;
mod measured;
mod named;
mod resolved;
mod schema;
mod spelling;
pub mod type_text;
mod ztype;

pub use conjunct::{Batch, Batches, Conjunct, Places, Sides};
pub use extent::{Extent, Infinite};
pub use fault::{Clash, Limit, TypeFaultKind};
pub use globals::{Entry, Globals};
pub use likeness::is_like;
pub use measured::{Left, Measured};
pub use named::{component_of, global_of};
pub use resolved::{Links, Part, Range, Resolved, ResolvedLink, Terms};
pub use schema::{Component, Domain, Domains, Flat, Side};
pub use spelling::is_same;
pub use ztype::{ZType, pair_type, product_type, set_type};

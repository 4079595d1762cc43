//! What a term is by the typing rules, and what its names stand for.
#![tactic(auto)]

mod binding;
mod conjuncts;
mod index;
pub mod judge;
pub mod laws;
mod like;
mod locals;
mod scope;
mod spelling;
pub mod variable;

pub use conjuncts::push_conjuncts;
pub use judge::Judged;
pub use like::global_like;
pub use locals::Locals;
pub use scope::Scope;

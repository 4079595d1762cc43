//! The reading back of lines: what is printed is read as what it was printed of.
#![tactic(auto)]

mod elements;
mod expected;
mod fault;
mod held;
pub mod laws;
mod read;
mod words;

pub use expected::Expected;
pub use fault::AfterFault;
pub use held::read_held;
pub use read::read_binding;

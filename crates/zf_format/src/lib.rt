//! The formats of answers: lines, or objects of JSON; strings of JSON.
#![tactic(auto)]

mod format;
pub mod laws;
mod strings;

pub use format::Format;
pub use strings::append_string;

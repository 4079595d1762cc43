//! From bytes to trees: `read_spec` gives the tree that reads the tokens of a source.
#![tactic(auto)]

mod about;
mod brackets;
mod commands;
mod left_out;
mod reading;
mod unread;

pub use commands::command_named;
pub use left_out::LeftOut;
pub use reading::{parse, read_spec};
pub use unread::{About, Unread};

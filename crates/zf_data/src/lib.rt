//! Lists, boxes and texts that contracts see as what they hold, so that a tree of them is plain data.
#![tactic(auto)]

pub mod arena;
mod items;
mod text;
mod word;

pub use items::Items;
pub use text::Text;
pub use word::Word;

//! The rules of the grammar, from symbols to trees: `all` reads the boxes of a text, `only` one box.
#![tactic(auto)]

pub mod boxes;
mod cursor;
mod decls;
mod items;
mod names;
mod paragraphs;
mod role;
mod schemas;
mod tall;
mod terms;

pub use cursor::Cursor;

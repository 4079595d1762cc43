//! What schema expressions and paragraphs define.
#![tactic(auto)]

mod expression;
mod paragraph;
mod reference;
mod stop;
mod text;

pub use expression::schema_of_expression;
pub use paragraph::{define, define_box};
pub use text::text_of;

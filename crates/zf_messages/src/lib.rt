//! The messages of faults and of refusals, with what they are about, and how they are written; the lines of a source.
#![tactic(auto)]

mod aside;
mod causes;
mod details;
mod message;
mod missing;
mod places;
mod report;
pub mod texts;
mod undeclared;
mod writing;

pub use aside::{Aside, Asides};
pub use details::{
    Beside, add_line_range, not_finite_message, text_fault_message, type_fault_message,
};
pub use message::{At, Detail, Message, add_detail};
pub use missing::{no_schema_message, no_size_message};
pub use places::{Known, line_of, quoted, slice};
pub use report::Report;
pub use undeclared::side_without;
pub use writing::{
    append_detail_lines, append_detail_members, append_member, append_place, append_place_members,
    messages_text,
};

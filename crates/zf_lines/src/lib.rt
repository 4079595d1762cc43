//! The lines of a search for bindings, each written before the next is looked for.
#![tactic(auto)]

mod column;
mod counted;
mod ending;
mod fault;
mod limit;
mod printed;
pub mod show;
mod style;
mod texts;
mod writing;

pub use counted::Counted;
pub use fault::{RunFault, Status};
pub use limit::{is_spent, one_less};
pub use printed::Printed;
pub use style::Style;
pub use texts::{
    append_end_line, append_more_line, append_out_line, append_row_line, append_tests_line,
};
pub use writing::write_text;

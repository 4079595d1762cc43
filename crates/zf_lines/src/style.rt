//! In which style the rows of a search are written.

use std::alloc::Global;
use zf_format::Format;
use zf_print::Spelling;

/// In which style the rows of a search are written.
#[derive(Clone, Copy)]
pub struct Style<'s> {
    pub alloc: Global,
    pub format: Format,
    /// How elements are spelled.
    pub elements: &'s [Spelling],
}

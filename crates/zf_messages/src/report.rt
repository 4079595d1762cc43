//! How faults are reported.

/// The source that has the faults, the name of its file, and whether it is asked what they are about.
#[derive(Clone, Copy)]
pub struct Report<'a> {
    pub source: &'a [u8],
    pub file: &'a [u8],
    pub details: bool,
}

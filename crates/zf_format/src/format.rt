//! How an answer is written.

/// How an answer is written.
#[derive(Clone, Copy, PartialEq, Eq)]
pub enum Format {
    /// As lines for readers.
    Lines,
    /// Each line as an object of JSON.
    Objects,
}

//! Parts of a source.
ghost use Rattle.std.specs.Prelude.{◌≡◌};

/// A part of a source: the place of its first byte, and the place after its last one, from 0.
#[derive(Clone, Copy, Debug, PartialEq, Eq)]
pub struct Span {
    pub start: u32,
    pub stop: u32,
}

impl Span {
    /// From where this part begins to where the other ends.
    pub fn to(self, last: Span) -> Span
        ensures { result ≡ record { start = self.start; stop = last.stop } }
    {
        Span {
            start: self.start,
            stop: last.stop,
        }
    }
}

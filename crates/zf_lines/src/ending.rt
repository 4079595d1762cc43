//! How the lines of a search end.
ghost use Rattle.std.specs.Prelude.{◌≡◌};
ghost use Rattle.zf_lines.specs.{ending_status};

use crate::fault::Status;

/// Why no further binding is written.
#[derive(Clone, Copy, PartialEq, Eq)]
pub enum Ending {
    /// The limit is reached.
    More,
    /// The next binding leaves the bounds.
    Out,
    /// No binding is left.
    End,
}

impl Ending {
    pub fn status(self) -> Status
        ensures { result ≡ ending_status self }
    {
        match self {
            Ending::More => Status::Done,
            Ending::Out => Status::PastBounds,
            Ending::End => Status::Done,
        }
    }
}

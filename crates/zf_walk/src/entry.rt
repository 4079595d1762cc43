//! What is known of a truth, in a byte.
ghost use Rattle.std.specs.Prelude.{◌≡◌, Some};
ghost use Rattle.zf_walk.specs.{told};

use crate::judge::Truth;

/// A truth, or that it is not known.
#[derive(Clone, Copy)]
pub enum Entry {
    True,
    False,
    Out,
    Unknown,
}

impl Entry {
    pub fn of(truth: Truth) -> Entry
        ensures { told result ≡ Some truth }
    {
        match truth {
            Truth::True => Entry::True,
            Truth::False => Entry::False,
            Truth::Out => Entry::Out,
        }
    }

    pub fn truth(self) -> Option<Truth>
        ensures { result ≡ told self }
    {
        match self {
            Entry::Unknown => None,
            Entry::True => Some(Truth::True),
            Entry::False => Some(Truth::False),
            Entry::Out => Some(Truth::Out),
        }
    }
}

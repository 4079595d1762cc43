//! What comes of a fault.

/// How many faults come of one, and the lines of the first and the last of them.
#[derive(Clone, Copy)]
pub struct Causes {
    pub count: u64,
    pub first: u64,
    pub last: u64,
}

impl Causes {
    /// Of no fault.
    pub fn none() -> Causes {
        Causes {
            count: 0,
            first: 0,
            last: 0,
        }
    }

    /// With a further one on a line that is not before theirs.
    pub fn with(self, line: u64) -> Causes {
        Causes {
            count: self.count.saturating_add(1),
            first: if self.count == 0 { line } else { self.first },
            last: line,
        }
    }
}

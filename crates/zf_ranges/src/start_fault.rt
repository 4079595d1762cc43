//! Why no search can be started.
ghost use Rattle.std.specs.Prelude.{◌≡◌};
ghost use Rattle.zf_ranges.specs.declared.start_fault.StartFault.TheVariants.{OutOfMemory};

use std::alloc::{AllocError, AllocFailed};

/// Why no search can be started.
#[derive(Clone, Copy, Debug, PartialEq, Eq)]
pub enum StartFault {
    /// The component at this place is the first that has a declared set that is out.
    DeclaredOut(usize),
    OutOfMemory,
}

impl From<AllocError> for StartFault {
    ghost from_gives = { λ _ fault. fault ≡ OutOfMemory };

    fn from(_error: AllocError) -> StartFault {
        StartFault::OutOfMemory
    }
}

impl<T: Drop> From<AllocFailed<T>> for StartFault {
    ghost from_gives = { λ _ fault. fault ≡ OutOfMemory };

    fn from(_error: AllocFailed<T>) -> StartFault {
        StartFault::OutOfMemory
    }
}

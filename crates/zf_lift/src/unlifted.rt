//! Why a predicate stays as it is.
ghost use Rattle.std.specs.Prelude.{◌≡◌};
ghost use Rattle.zf_lift.specs.declared.unlifted.Unlifted.TheVariants.{OutOfMemory};

use std::alloc::{AllocError, AllocFailed};

/// Why a predicate stays as it is.
#[derive(Drop)]
pub(crate) enum Unlifted {
    /// It names something that has no outcome.
    Foreign,
    OutOfMemory,
}

impl From<AllocError> for Unlifted {
    ghost from_gives = { λ _ why. why ≡ OutOfMemory };

    fn from(_error: AllocError) -> Unlifted {
        Unlifted::OutOfMemory
    }
}

impl<T: Drop> From<AllocFailed<T>> for Unlifted {
    ghost from_gives = { λ _ why. why ≡ OutOfMemory };

    fn from(_error: AllocFailed<T>) -> Unlifted {
        Unlifted::OutOfMemory
    }
}

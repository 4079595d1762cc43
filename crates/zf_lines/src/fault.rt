//! How a run ends: its statuses and its faults.
ghost use Rattle.std.specs.Prelude.{◌≡◌};
ghost use Rattle.zf_lines.specs.FaultViews as spec;
ghost use Rattle.zf_lines.specs.declared.fault.RunFault.TheVariants.{OutOfMemory};

use std::alloc::{AllocError, AllocFailed};
use thiserror::Error;

/// The status of a run that answered.
#[derive(Clone, Copy, PartialEq, Eq)]
pub enum Status {
    /// The answer is whole.
    Done,
    /// A fault in the specification, or a schema that is not finite.
    BadSpec,
    /// There is no such schema, the sizes do not fit the given sets, or the named line is that of no binding.
    BadRequest,
    /// A binding or a declared set leaves the bounds.
    PastBounds,
}

impl Status {
    /// The status that a process ends with.
    pub fn number(self) -> u8
        ensures { result ≡ spec.number self }
    {
        match self {
            Status::Done => 0,
            Status::BadSpec => 1,
            Status::BadRequest => 2,
            Status::PastBounds => 3,
        }
    }
}

/// Why a run did not answer.
#[derive(Clone, Copy, Debug, PartialEq, Eq, Error)]
pub enum RunFault {
    #[error("read failed")]
    ReadFailed,
    #[error("write failed")]
    WriteFailed,
    #[error("out of memory")]
    OutOfMemory,
}

impl From<AllocError> for RunFault {
    ghost from_gives = { λ _ fault. fault ≡ OutOfMemory };

    fn from(_error: AllocError) -> RunFault {
        RunFault::OutOfMemory
    }
}

impl<T: Drop> From<AllocFailed<T>> for RunFault {
    ghost from_gives = { λ _ fault. fault ≡ OutOfMemory };

    fn from(_error: AllocFailed<T>) -> RunFault {
        RunFault::OutOfMemory
    }
}

//! Why a line is not read.
ghost use Rattle.std.specs.Prelude.{◌≡◌};
ghost use Rattle.zf_read.specs.declared.fault.AfterFault.TheVariants.{OutOfMemory};

use crate::expected::Expected;
use std::alloc::{AllocError, AllocFailed};
use thiserror::Error;

/// Why a line is not read.
#[derive(Debug, Drop, Error)]
pub enum AfterFault {
    /// The first item that does not fit, by the place of its first byte, or the text's length where it ends too early; and
    /// what was expected there.
    #[error("not a binding")]
    NotABinding(usize, Expected),
    #[error("out of memory")]
    OutOfMemory,
}

impl From<AllocError> for AfterFault {
    ghost from_gives = { λ _ fault. fault ≡ OutOfMemory };

    fn from(_error: AllocError) -> AfterFault {
        AfterFault::OutOfMemory
    }
}

impl<T: Drop> From<AllocFailed<T>> for AfterFault {
    ghost from_gives = { λ _ fault. fault ≡ OutOfMemory };

    fn from(_error: AllocFailed<T>) -> AfterFault {
        AfterFault::OutOfMemory
    }
}

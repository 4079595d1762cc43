//! Why there is no next schema.
ghost use Rattle.std.specs.Prelude.{◌≡◌};
ghost use Rattle.zf_calculus.specs.declared.stop.Stop.TheVariants.{OutOfMemory};

use std::alloc::{AllocError, AllocFailed};
use zf_term::{Clash, Limit};

/// Why there is no next schema.
#[derive(Drop)]
pub enum Stop<'a> {
    /// A component gets two types.
    Clash(Clash<'a>),
    /// A limit is passed.
    TooLarge(Limit),
    OutOfMemory,
}

impl<'a> From<AllocError> for Stop<'a> {
    ghost from_gives = { λ _ stop. stop ≡ OutOfMemory };

    fn from(_error: AllocError) -> Stop<'a> {
        Stop::OutOfMemory
    }
}

impl<'a, T: Drop> From<AllocFailed<T>> for Stop<'a> {
    ghost from_gives = { λ _ stop. stop ≡ OutOfMemory };

    fn from(_error: AllocFailed<T>) -> Stop<'a> {
        Stop::OutOfMemory
    }
}

//! Why values can't be listed.
ghost use Rattle.std.specs.Prelude.{◌≡◌};
ghost use Rattle.zf_ranges.specs.declared.lack.Lack.TheVariants.{OutOfMemory};

use std::alloc::AllocError;

/// Why values can't be listed.
#[derive(Drop)]
pub(crate) enum Lack {
    /// A declared set is out.
    Out,
    OutOfMemory,
}

impl From<AllocError> for Lack {
    ghost from_gives = { λ _ lack. lack ≡ OutOfMemory };

    fn from(_error: AllocError) -> Lack {
        Lack::OutOfMemory
    }
}

//! What holds of every schema.
ghost use Rattle.zf_finite.specs.{FiniteWithoutCause};

/// A schema is finite exactly where nothing makes it infinite.
pub fn finite_without_cause()
    ensures { FiniteWithoutCause }
{}

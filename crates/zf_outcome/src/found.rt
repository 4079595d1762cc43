//! Outcomes of which nothing is copied.
ghost use Rattle.std.specs.Prelude.{◌≡◌, IfOk};
ghost use Rattle.zf_outcome.specs.{found_of, found_outcome};

use std::alloc::{AllocError, Global};
use zf_value::{Lent, Outcome, Value};

/// An outcome whose value may stand elsewhere.
#[derive(Drop)]
pub enum Found<'v> {
    Is(Lent<'v>),
    Undefined,
    Out,
}

impl<'v> Found<'v> {
    /// A value that stands elsewhere, if there is one.
    pub fn lent(value: Option<&'v Value>) -> Found<'v>
        ensures { found_outcome result ≡ found_of value.entry }
    {
        match value {
            Some(value) => Found::Is(Lent::lent(value)),
            None => Found::Undefined,
        }
    }

    pub fn own(outcome: Outcome) -> Found<'v>
        ensures { found_outcome result ≡ outcome }
    {
        match outcome {
            Outcome::Is(value) => Found::Is(Lent::own(value)),
            Outcome::Undefined => Found::Undefined,
            Outcome::Out => Found::Out,
        }
    }

    /// An outcome that stands elsewhere.
    pub fn seen(outcome: &'v Outcome) -> Found<'v>
        ensures { found_outcome result ≡ outcome.now }
    {
        match outcome {
            Outcome::Is(value) => Found::Is(Lent::lent(value)),
            Outcome::Undefined => Found::Undefined,
            Outcome::Out => Found::Out,
        }
    }

    /// The outcome, whose value is copied where it is lent.
    pub fn into_outcome(self, alloc: Global) -> Result<Outcome, AllocError>
        ensures { IfOk result (λ o. o ≡ found_outcome self.entry) }
    {
        match self {
            Found::Is(value) => Ok(Outcome::Is(value.into_value(alloc)?)),
            Found::Undefined => Ok(Outcome::Undefined),
            Found::Out => Ok(Outcome::Out),
        }
    }
}

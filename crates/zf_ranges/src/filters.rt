//! Declared sets that only filter.
ghost use Rattle.std.specs.Prelude.{◌↔◌, IsTrue};
ghost use Rattle.zf_ranges.specs.Prelude.{IsFrom};

use crate::kept::Test;
use zf_term::Infinite;
use zf_value::Value;

/// Whether a value is in an infinite set.
#[derive(Drop)]
pub(crate) struct InNumbers {
    pub(crate) set: Infinite,
}

impl Test for InNumbers {
    ghost use Rattle.zf_outcome.specs.Symbols.{IsIn};

    ghost passes = { λ t v. IsIn t.set v };

    ghost ready = { λ t. Unit {0} };

    fn admits(&self, value: &Value) -> bool {
        match value.number() {
            Some(n) => is_from(self.set, n),
            None => false,
        }
    }
}

fn is_from(set: Infinite, n: i64) -> bool
    ensures { IsTrue result ↔ IsFrom set n }
{
    match set {
        Infinite::Num => true,
        Infinite::Nat => n >= 0,
        Infinite::Nat1 => n >= 1,
    }
}

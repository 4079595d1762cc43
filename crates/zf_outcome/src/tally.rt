//! Which truths a quantifier has met.
ghost use Rattle.std.specs.Prelude.{◌≡◌};
ghost use Rattle.zf_outcome.specs.Tallies as spec;

use zf_tree::Quantifier;
use zf_value::Truth;

/// Which truths rows have: whether one is true, whether a second is, whether one is false, whether one is out.
#[derive(Clone, Copy)]
pub struct Tally {
    pub has_true: bool,
    pub has_two: bool,
    pub has_false: bool,
    pub has_out: bool,
}

impl Tally {
    ghost use Rattle.zf_outcome.specs.Tallies as spec;

    /// Of no rows.
    pub fn none() -> Tally
        ensures { result ≡ spec.none }
    {
        Tally {
            has_true: false,
            has_two: false,
            has_false: false,
            has_out: false,
        }
    }

    /// Of one row more.
    pub fn with(self, truth: Truth) -> Tally
        ensures { result ≡ spec.with self truth }
    {
        match truth {
            Truth::True => Tally {
                has_true: true,
                has_two: self.has_true,
                ..self
            },
            Truth::False => Tally {
                has_false: true,
                ..self
            },
            Truth::Out => Tally {
                has_out: true,
                ..self
            },
        }
    }

    /// Whether no further row changes what the quantifier tells.
    pub fn is_settled(self, quantifier: Quantifier) -> bool
        ensures { result ≡ spec.is_settled quantifier self }
    {
        match quantifier {
            Quantifier::ForAll => self.has_false,
            Quantifier::Exists => self.has_true,
            Quantifier::ExistsOne => self.has_two,
        }
    }

    /// What the quantifier tells.
    pub fn truth(self, quantifier: Quantifier) -> Truth
        ensures { result ≡ spec.truth_by quantifier self }
    {
        if self.is_settled(quantifier) {
            return when_settled(quantifier);
        }
        if self.has_out {
            return Truth::Out;
        }
        when_over(quantifier, self.has_true)
    }
}

/// What a quantifier tells once no further row counts.
fn when_settled(quantifier: Quantifier) -> Truth
    ensures { result ≡ spec.when_settled quantifier }
{
    match quantifier {
        Quantifier::ForAll => Truth::False,
        Quantifier::Exists => Truth::True,
        Quantifier::ExistsOne => Truth::False,
    }
}

/// What a quantifier tells of all rows, where none of them settled it and none is out.
fn when_over(quantifier: Quantifier, has_true: bool) -> Truth
    ensures { result ≡ spec.when_over quantifier has_true }
{
    match quantifier {
        Quantifier::ForAll => Truth::True,
        Quantifier::Exists => Truth::False,
        Quantifier::ExistsOne => { if has_true { Truth::True } else { Truth::False } }
    }
}

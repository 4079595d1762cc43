//! What holds of every term.
ghost use Rattle.zf_typing.specs.{NoOffence, OneSort};

/// In a scope a term is an expression of one type at most, a predicate or a schema's name, and no two of these.
#[tactic(auto, using(crate::proofs::OneSort::one_sort))]
pub fn one_sort()
    ensures { OneSort }
{}

/// A term that is well typed for its place has no offence there.
#[tactic(auto, using(crate::proofs::NoOffence::no_offence))]
pub fn no_offence()
    ensures { NoOffence }
{}

//! The sets of numbers, where numbers end or have no end.
ghost use Rattle.std.specs.Prelude.{◌≡◌, IfOk, Some};
ghost use Rattle.zf_meaning.specs.Prelude.{resolved_of, Describes};
ghost use Rattle.zf_meaning.specs.{environment_of, IsNumberSet};
ghost use Rattle.zf_meaning.specs.NumberSets as spec;

use crate::env::Env;
use std::alloc::AllocError;
use zf_extent::direct;
use zf_outcome::{Described, Found};
use zf_term::{Infinite, Resolved};
use zf_value::{Outcome, interval};

/// The set of its numbers, built.
pub(crate) fn built_numbers(env: &Env<'_, '_>, set: Infinite) -> Result<Outcome, AllocError>
    ensures { IfOk result (IsNumberSet (environment_of env.now).numbers set) }
{
    match env.numbers() {
        Some(greatest) => interval(env.allocator(), least(set, greatest), i64::from(greatest)),
        None => Ok(Outcome::Out),
    }
}

/// The set of its numbers, given by the least and the greatest.
pub(crate) fn described_numbers<'v>(env: &Env<'_, '_>, set: Infinite) -> Described<'v>
    ensures { Describes (IsNumberSet (environment_of env.now).numbers set) result }
{
    match env.numbers() {
        Some(greatest) => Described::Interval(least(set, greatest), i64::from(greatest)),
        None => Described::Plain(Found::Out),
    }
}

/// The infinite set that the term is, within brackets or without; none where numbers end.
pub fn infinite_in<'a>(term: &Resolved<'a>, env: &Env<'_, 'a>) -> Option<Infinite>
    ensures { result ≡ spec.infinite_in (environment_of env.now) (resolved_of term.now) }
{
    unended(direct(term, env.globals())?, env)
}

/// The set, if it is infinite.
fn unended(set: Infinite, env: &Env<'_, '_>) -> Option<Infinite>
    ensures { result ≡ spec.unended (Some set) (environment_of env.now).numbers }
{
    match env.numbers() {
        Some(_) => None,
        None => Some(set),
    }
}

/// Its least number.
fn least(set: Infinite, greatest: u16) -> i64
    ensures { result ≡ spec.least set greatest }
{
    match set {
        Infinite::Num => -i64::from(greatest),
        Infinite::Nat => 0,
        Infinite::Nat1 => 1,
    }
}

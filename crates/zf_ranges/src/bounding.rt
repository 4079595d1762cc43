//! Which of several declared sets bounds, and which of those is likely to be the smallest.
ghost use Rattle.std.specs.Prelude.{◌≡◌, true, map, IfOk, IfSome};
ghost use Rattle.zf_ranges.specs.Prelude.{globals_of, set_of, sets_of, environment_of};
ghost use Rattle.zf_finite.specs.Finite as spec;
ghost use Rattle.zf_ranges.specs.{BoundsAt};

use crate::weight::weight;
use std::alloc::AllocError;
use zf_finite::bounds;
use zf_meaning::Env;
use zf_term::{Domain, Globals};

/// The place of the lightest declared set that bounds, or their number where none does. Which one it is makes a difference to time alone.
pub(crate) fn lightest_bounding<'a>(
    domains: &[Domain<'a>],
    env: &Env<'_, 'a>,
) -> Result<usize, AllocError>
    ensures { spec.one_bounds (environment_of env.now).numbers (environment_of env.now).globals (sets_of (map set_of domains.now)) ≡ true → IfOk result (BoundsAt (environment_of env.now).numbers (environment_of env.now).globals domains.now) }
{
    let first = first_bounding(env.numbers(), domains, env.globals());
    if domains.len() < 2 {
        return Ok(first);
    }
    lightest(domains, first, env)
}

/// The place of the lightest declared set that bounds, or this one where the weight of none is known.
fn lightest<'a>(
    domains: &[Domain<'a>],
    first: usize,
    env: &Env<'_, 'a>,
) -> Result<usize, AllocError>
    ensures { BoundsAt (environment_of env.now).numbers (environment_of env.now).globals domains.now first → IfOk result (BoundsAt (environment_of env.now).numbers (environment_of env.now).globals domains.now) }
{
    let mut best = first;
    let mut least = usize::MAX;
    for place in 0..domains.len() {
        if let Some(next) = bounding_weight(&domains[place], env)? {
            if next < least {
                best = place;
                least = next;
            }
        }
    }
    Ok(best)
}

/// The weight of a declared set, if it bounds.
fn bounding_weight<'a>(domain: &Domain<'a>, env: &Env<'_, 'a>) -> Result<Option<usize>, AllocError>
    ensures { IfOk result (λ found. IfSome found (λ n. spec.bounds (environment_of env.now).numbers (environment_of env.now).globals (set_of domain.now) ≡ true)) }
{
    if bounds(env.numbers(), domain, env.globals()) {
        return Ok(Some(weight(domain, env)?));
    }
    Ok(None)
}

/// The place of the first declared set that bounds, or their number where none does.
pub(crate) fn first_bounding<'a>(
    numbers: Option<u16>,
    domains: &[Domain<'a>],
    globals: &Globals<'a>,
) -> usize
    ensures { spec.one_bounds numbers (globals_of globals.now) (sets_of (map set_of domains.now)) ≡ true → BoundsAt numbers (globals_of globals.now) domains.now result }
{
    for place in 0..domains.len() {
        if bounds(numbers, &domains[place], globals) {
            return place;
        }
    }
    domains.len()
}

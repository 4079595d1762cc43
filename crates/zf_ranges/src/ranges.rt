//! The values that are members of declared sets.
ghost use Rattle.std.specs.Prelude.{◌≡◌, ◌<◌, true, IfOk, IfErr, map, option_map};
ghost use Rattle.zf_ranges.specs.Prelude.{set_of, sets_of, environment_of, IsAscending};
ghost use Rattle.zf_finite.specs.Finite as spec;
ghost use Rattle.zf_ranges.specs.{IsAllOf, IsAllOfEach, IsAllWith, IsOneOut, IsSetOut, Narrows, NarrowsAll, Tells};

use crate::bounding::lightest_bounding;
use crate::lack::Lack;
use crate::leaves::{among_carrier, among_plain, of_carrier, of_plain};
use crate::members::{alone, copied, merged};
use std::alloc::Global;
use zf_meaning::Env;
use zf_term::Domain;
use zf_value::Value;

/// The values that are members of each of the declared sets, of which one bounds; the one that is held alone, if one is.
pub(crate) fn values_with<'a>(
    alloc: Global,
    domains: &[Domain<'a>],
    held: Option<&Value>,
    env: &Env<'_, 'a>,
) -> Result<Vec<Value>, Lack>
    requires { spec.one_bounds (environment_of env.now).numbers (environment_of env.now).globals (sets_of (map set_of domains.now)) ≡ true }
    ensures is { IfOk result (λ xs. IsAllWith (environment_of env.now) (sets_of (map set_of domains.now)) (option_map (λ k. k.now) held.entry) xs.items) }
    ensures out { IfErr result (λ lack. Tells lack (IsOneOut (environment_of env.now) (sets_of (map set_of domains.now)))) }
{
    match held {
        Some(value) => narrowed(alloc, domains, alone(alloc, value)?, env),
        None => range(alloc, domains, env),
    }
}

/// The values that are members of each of the declared sets, of which one bounds; none where none does.
#[cycle(listing)]
fn range<'a>(alloc: Global, domains: &[Domain<'a>], env: &Env<'_, 'a>) -> Result<Vec<Value>, Lack>
    ensures is { spec.one_bounds (environment_of env.now).numbers (environment_of env.now).globals (sets_of (map set_of domains.now)) ≡ true → IfOk result (λ xs. IsAllOfEach (environment_of env.now) (sets_of (map set_of domains.now)) xs.items) }
    ensures ascending { IfOk result (λ xs. IsAscending xs.items) }
    ensures out { spec.one_bounds (environment_of env.now).numbers (environment_of env.now).globals (sets_of (map set_of domains.now)) ≡ true → IfErr result (λ lack. Tells lack (IsOneOut (environment_of env.now) (sets_of (map set_of domains.now)))) }
{
    let place = lightest_bounding(domains, env)?;
    if place >= domains.len() {
        return Ok(Vec::new(alloc));
    }
    let found = values(alloc, &domains[place], env)?;
    let found = narrowed(alloc, &domains[..place], found, env)?;
    let found = narrowed(alloc, &domains[place + 1..], found, env)?;
    Ok(found)
}

/// The values that are members of a declared set that bounds.
#[cycle(listing)]
#[tactic(auto, using(zf_term::proofs::SetsSeen::seen))]
fn values<'a>(alloc: Global, domain: &Domain<'a>, env: &Env<'_, 'a>) -> Result<Vec<Value>, Lack>
    ensures is { spec.bounds (environment_of env.now).numbers (environment_of env.now).globals (set_of domain.now) ≡ true → IfOk result (λ xs. IsAllOf (environment_of env.now) (set_of domain.now) xs.items) }
    ensures ascending { IfOk result (λ xs. IsAscending xs.items) }
    ensures out { spec.bounds (environment_of env.now).numbers (environment_of env.now).globals (set_of domain.now) ≡ true → IfErr result (λ lack. Tells lack (IsSetOut (environment_of env.now) (set_of domain.now))) }
{
    match domain {
        Domain::Plain(set) => of_plain(alloc, set.get(), env),
        Domain::Carrier(ztype) => of_carrier(alloc, ztype, env),
        Domain::Either(left, right) => {
            let left = range(alloc, left.get().as_slice(), env)?;
            let right = range(alloc, right.get().as_slice(), env)?;
            Ok(merged(left, right)?)
        }
    }
}

/// Those of the values that are members of each of the declared sets.
#[cycle(narrowing)]
fn narrowed<'a>(
    alloc: Global,
    domains: &[Domain<'a>],
    values: Vec<Value>,
    env: &Env<'_, 'a>,
) -> Result<Vec<Value>, Lack>
    requires { IsAscending values.items }
    ensures is { IfOk result (λ xs. NarrowsAll (environment_of env.now) (sets_of (map set_of domains.now)) values.items xs.items) }
    ensures out { IfErr result (λ lack. Tells lack (IsOneOut (environment_of env.now) (sets_of (map set_of domains.now)))) }
{
    let mut found = values;
    for domain in domains {
        found = narrowed_by(alloc, domain, found, env)?;
    }
    Ok(found)
}

/// Those of the values that are members of the declared set.
#[cycle(narrowing)]
#[tactic(auto, using(zf_term::proofs::SetsSeen::seen))]
fn narrowed_by<'a>(
    alloc: Global,
    domain: &Domain<'a>,
    values: Vec<Value>,
    env: &Env<'_, 'a>,
) -> Result<Vec<Value>, Lack>
    requires { IsAscending values.items }
    ensures is { IfOk result (λ xs. Narrows (environment_of env.now) (set_of domain.now) values.items xs.items) }
    ensures out { IfErr result (λ lack. Tells lack (IsSetOut (environment_of env.now) (set_of domain.now))) }
{
    match domain {
        Domain::Plain(set) => among_plain(alloc, &values, set.get(), env),
        Domain::Carrier(ztype) => among_carrier(alloc, &values, ztype, env),
        Domain::Either(left, right) => {
            let others = copied(alloc, &values)?;
            let left = narrowed(alloc, left.get().as_slice(), values, env)?;
            let right = narrowed(alloc, right.get().as_slice(), others, env)?;
            Ok(merged(left, right)?)
        }
    }
}

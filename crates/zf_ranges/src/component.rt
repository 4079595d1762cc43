//! The ranges of components.
ghost use Rattle.std.specs.Prelude.{◌≡◌, true, IsTrue, IfOk, IfErr, map, option_map};
ghost use Rattle.zf_ranges.specs.Prelude.{AllByRecursion, comp_of, sets_of, one_bounds, environment_of};
ghost use Rattle.zf_ranges.specs.{AreAllRanges, AreHeldRanges, held_at, IsAllWith, IsHeldRange, IsNoneOut, IsOneOut, IsOneRange, IsOutBy, RefusesStart, Tells};

use crate::lack::Lack;
use crate::ranges::values_with;
use crate::sharing::shared;
use crate::start_fault::StartFault;
use std::alloc::{AllocError, Global};
use zf_meaning::Env;
use zf_term::Component;
use zf_value::Value;
use zf_walk::Range;

/// The range of each component, where these values are held.
pub fn ranges<'a>(
    alloc: Global,
    components: &[Component<'a>],
    held: &[Option<Value>],
    env: &Env<'_, 'a>,
) -> Result<Vec<Range<Value>>, StartFault>
    requires { AllByRecursion (λ c. IsTrue (one_bounds (environment_of env.now).numbers (environment_of env.now).globals (sets_of c.sets))) (map comp_of components.now) }
    ensures is { IfOk result (λ rs. AreAllRanges (environment_of env.now) (map comp_of components.now) held.now rs.items) }
    ensures refused { IfErr result (RefusesStart (environment_of env.now) (map comp_of components.now)) }
{
    let mut ranges = Vec::with_capacity(alloc, components.len())?;
    for place in 0..components.len() {
        let of_this = value_held(held, place);
        let range = range_at(alloc, &components[place], place, of_this, env)?;
        ranges.push(shared(alloc, range, &ranges))?;
    }
    Ok(ranges)
}

/// Of each component of which a value is held the range, and nothing of the others.
pub fn held_ranges<'a>(
    alloc: Global,
    components: &[Component<'a>],
    held: &[Option<Value>],
    env: &Env<'_, 'a>,
) -> Result<Vec<Option<Range<Value>>>, AllocError>
    requires bounded { AllByRecursion (λ c. IsTrue (one_bounds (environment_of env.now).numbers (environment_of env.now).globals (sets_of c.sets))) (map comp_of components.now) }
    requires none_out { IsNoneOut (environment_of env.now) (map comp_of components.now) }
    ensures { IfOk result (λ rs. AreHeldRanges (environment_of env.now) (map comp_of components.now) held.now rs.items) }
{
    let mut ranges = Vec::with_capacity(alloc, components.len())?;
    for place in 0..components.len() {
        let of_this = value_held(held, place);
        ranges.push(held_range(alloc, &components[place], place, of_this, env)?)?;
    }
    Ok(ranges)
}

/// The range of the component at this place, if a value of it is held.
fn held_range<'a>(
    alloc: Global,
    component: &Component<'a>,
    place: usize,
    held: Option<&Value>,
    env: &Env<'_, 'a>,
) -> Result<Option<Range<Value>>, AllocError>
    requires bounded { IsTrue (one_bounds (environment_of env.now).numbers (environment_of env.now).globals (sets_of (comp_of component.now).sets)) }
    requires not_out { IsOneOut (environment_of env.now) (sets_of (comp_of component.now).sets) → ⊥ }
    ensures { IfOk result (IsHeldRange (environment_of env.now) (comp_of component.now) (option_map (λ k. k.now) held.entry)) }
{
    let Some(value) = held else {
        return Ok(None);
    };
    match range_at(alloc, component, place, Some(value), env) {
        Ok(range) => Ok(Some(range)),
        Err(StartFault::DeclaredOut(_)) => unreachable!(),
        Err(StartFault::OutOfMemory) => Err(AllocError),
    }
}

/// What is held of the component at this place.
fn value_held(held: &[Option<Value>], place: usize) -> Option<&Value>
    ensures { option_map (λ k. k.now) result ≡ held_at place held.now }
{
    match held.get(place) {
        Some(value) => value.as_ref(),
        None => None,
    }
}

/// The range of the component at this place.
fn range_at<'a>(
    alloc: Global,
    component: &Component<'a>,
    place: usize,
    held: Option<&Value>,
    env: &Env<'_, 'a>,
) -> Result<Range<Value>, StartFault>
    requires { IsTrue (one_bounds (environment_of env.now).numbers (environment_of env.now).globals (sets_of (comp_of component.now).sets)) }
    ensures is { IfOk result (IsOneRange (environment_of env.now) (comp_of component.now) (option_map (λ k. k.now) held.entry)) }
    ensures refused { IfErr result (IsOutBy (environment_of env.now) (comp_of component.now) place) }
{
    match values_of(alloc, component, held, env) {
        Ok(values) => Ok(Range { values }),
        Err(Lack::Out) => Err(StartFault::DeclaredOut(place)),
        Err(Lack::OutOfMemory) => Err(StartFault::OutOfMemory),
    }
}

/// The values in the range of a component.
fn values_of<'a>(
    alloc: Global,
    component: &Component<'a>,
    held: Option<&Value>,
    env: &Env<'_, 'a>,
) -> Result<Vec<Value>, Lack>
    requires { one_bounds (environment_of env.now).numbers (environment_of env.now).globals (sets_of (comp_of component.now).sets) ≡ true }
    ensures is { IfOk result (λ xs. IsAllWith (environment_of env.now) (sets_of (comp_of component.now).sets) (option_map (λ k. k.now) held.entry) xs.items) }
    ensures out { IfErr result (λ lack. Tells lack (IsOneOut (environment_of env.now) (sets_of (comp_of component.now).sets))) }
{
    let domains = component.domains.get().flat()?;
    values_with(alloc, domains.as_slice(), held, env)
}

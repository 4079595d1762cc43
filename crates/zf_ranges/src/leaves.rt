//! The values of a declared set that is no disjunction.
ghost use Rattle.std.specs.Prelude.{◌≡◌, true, IfOk, IfErr};
ghost use Rattle.zf_ranges.specs.Prelude.{carrier, plain, resolved_of, type_of, IsAscending, environment_of, globally, HasOutcome};
ghost use Rattle.zf_finite.specs.Finite as spec;
ghost use Rattle.zf_ranges.specs.DeclaredSets as sets;
ghost use Rattle.zf_ranges.specs.{IsAllOf, IsSetOut, Narrows, Tells};

use crate::filters::InNumbers;
use crate::kept::kept;
use crate::lack::Lack;
use crate::members::{members_among, members_of};
use crate::of_type::OfType;
use std::alloc::{AllocError, Global};
use zf_meaning::{Env, carrier_of, described_in, infinite_in, value_of};
use zf_outcome::Described;
use zf_term::{Resolved, ZType};
use zf_value::{Outcome, Value};

/// The members of a set that a declaration names, which is no infinite one.
pub(crate) fn of_plain<'a>(
    alloc: Global,
    set: &Resolved<'a>,
    env: &Env<'_, 'a>,
) -> Result<Vec<Value>, Lack>
    ensures is { spec.bounds (environment_of env.now).numbers (environment_of env.now).globals (plain (resolved_of set.now)) ≡ true → IfOk result (λ xs. IsAllOf (environment_of env.now) (plain (resolved_of set.now)) xs.items) }
    ensures ascending { IfOk result (λ xs. IsAscending xs.items) }
    ensures out { spec.bounds (environment_of env.now).numbers (environment_of env.now).globals (plain (resolved_of set.now)) ≡ true → IfErr result (λ lack. Tells lack (IsSetOut (environment_of env.now) (plain (resolved_of set.now)))) }
{
    let outcome = outcome_of(set, env)?;
    members_of(alloc, outcome)
}

/// The outcome of the set that a declaration names. No component is in scope there.
fn outcome_of<'a>(set: &Resolved<'a>, env: &Env<'_, 'a>) -> Result<Outcome, AllocError>
    ensures { IfOk result (HasOutcome (globally (environment_of env.now)) (resolved_of set.now)) }
{
    let none: &[Value] = &[];
    value_of(set, &none, env)
}

/// The members of the carrier of a type without endless numbers.
pub(crate) fn of_carrier<'a>(
    alloc: Global,
    ztype: &ZType<'a>,
    env: &Env<'_, 'a>,
) -> Result<Vec<Value>, Lack>
    ensures is { spec.bounds (environment_of env.now).numbers (environment_of env.now).globals (carrier (type_of ztype.now)) ≡ true → IfOk result (λ xs. IsAllOf (environment_of env.now) (carrier (type_of ztype.now)) xs.items) }
    ensures ascending { IfOk result (λ xs. IsAscending xs.items) }
    ensures out { spec.bounds (environment_of env.now).numbers (environment_of env.now).globals (carrier (type_of ztype.now)) ≡ true → IfErr result (λ lack. Tells lack (IsSetOut (environment_of env.now) (carrier (type_of ztype.now)))) }
{
    let outcome = carrier_of(ztype, env)?;
    members_of(alloc, outcome)
}

/// Those of the values that are members of the set that a declaration names.
pub(crate) fn among_plain<'a>(
    alloc: Global,
    values: &[Value],
    set: &Resolved<'a>,
    env: &Env<'_, 'a>,
) -> Result<Vec<Value>, Lack>
    requires { IsAscending values.now }
    ensures is { IfOk result (λ xs. Narrows (environment_of env.now) (plain (resolved_of set.now)) values.now xs.items) }
    ensures out { IfErr result (λ lack. Tells lack (IsSetOut (environment_of env.now) (plain (resolved_of set.now)))) }
{
    if let Some(infinite) = infinite_in(set, env) {
        let test = InNumbers { set: infinite };
        return Ok(kept(alloc, values, &test)?);
    }
    let none: &[Value] = &[];
    let described = described_in(set, &none, env)?;
    members_among(alloc, values, &described)
}

/// Those of the values that are members of the carrier of the type, or, where endless numbers are parts of them, are of the type.
pub(crate) fn among_carrier<'a>(
    alloc: Global,
    values: &[Value],
    ztype: &ZType<'a>,
    env: &Env<'_, 'a>,
) -> Result<Vec<Value>, Lack>
    requires { IsAscending values.now }
    ensures is { IfOk result (λ xs. Narrows (environment_of env.now) (carrier (type_of ztype.now)) values.now xs.items) }
    ensures out { IfErr result (λ lack. Tells lack (IsSetOut (environment_of env.now) (carrier (type_of ztype.now)))) }
{
    if has_endless(ztype, env) {
        let test = OfType { ztype, env };
        return Ok(kept(alloc, values, &test)?);
    }
    let carrier = Described::of(carrier_of(ztype, env)?);
    members_among(alloc, values, &carrier)
}

/// Whether numbers without an end are parts of the type.
fn has_endless(ztype: &ZType<'_>, env: &Env<'_, '_>) -> bool
    ensures { result ≡ sets.has_endless (environment_of env.now).numbers (type_of ztype.now) }
{
    match env.numbers() {
        Some(_) => false,
        None => ztype.has_numbers(),
    }
}

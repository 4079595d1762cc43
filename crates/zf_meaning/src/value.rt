//! What terms mean in a row.
ghost use Rattle.std.specs.Prelude.{◌≡◌, [], IfOk, IfSome, length};
ghost use Rattle.zf_meaning.specs.Prelude.{resolved_of, Describes};
ghost use Rattle.zf_meaning.specs.{environment_of, HasOutcome, in_row, IsBehind, IsTruth, need};

use crate::env::Env;
use crate::evaluate::memberships::described;
use crate::evaluate::numeric::compared_in;
use crate::evaluate::{outcome, truth};
use crate::needs::last_local;
use crate::row::Row;
use std::alloc::{AllocError, Global};
use zf_outcome::Described;
use zf_term::Resolved;
use zf_value::{Form, Outcome, Truth, Value};

/// The outcome of an expression in a row.
pub fn value_of<'a, R: Row>(
    term: &Resolved<'a>,
    row: &R,
    env: &Env<'_, 'a>,
) -> Result<Outcome, AllocError>
    ensures { IfOk result (HasOutcome (in_row (environment_of env.now) (R.values row.now)) (resolved_of term.now)) }
{
    let none = no_variables();
    let found = outcome(term, &*row, none, &*env)?;
    found.into_outcome(env.allocator())
}

/// The outcome of an expression in a row after so many bound variables, whatever these are. None if it names one of them.
pub fn value_behind<'a, R: Row>(
    term: &Resolved<'a>,
    row: &R,
    variables: usize,
    env: &Env<'_, 'a>,
) -> Result<Option<Outcome>, AllocError>
    ensures { IfOk result (λ found. IfSome found (IsBehind (environment_of env.now) (R.values row.now) variables (resolved_of term.now))) }
{
    if last_local(term, variables) > 0 {
        return Ok(None);
    }
    let any = Value { form: Form::Int(0) };
    let told = value_among(term, &*row, &any, variables, &*env)?;
    Ok(Some(told))
}

/// The outcome of an expression that names none of so many bound variables: that where they all have one value.
fn value_among<'v, 'a, R: Row>(
    term: &Resolved<'a>,
    row: &'v R,
    any: &'v Value,
    variables: usize,
    env: &'v Env<'_, 'a>,
) -> Result<Outcome, AllocError>
    ensures { need variables (resolved_of term.now) ≡ 0 → IfOk result (IsBehind (environment_of env.now) (R.values row.now) variables (resolved_of term.now)) }
{
    let locals = repeated(env.allocator(), any, variables)?;
    let found = outcome(term, row, &locals, env)?;
    found.into_outcome(env.allocator())
}

/// So many variables with this value.
fn repeated<'v>(
    alloc: Global,
    value: &'v Value,
    variables: usize,
) -> Result<Vec<&'v Value>, AllocError>
    ensures { IfOk result (λ locals. length locals.items ≡ variables) }
{
    let mut locals = Vec::with_capacity(alloc, variables)?;
    for _ in 0..variables {
        locals.push(value)?;
    }
    Ok(locals)
}

/// What an expression comes to in a row; a set need not be built for it.
pub fn described_in<'v, 'a, R: Row>(
    term: &Resolved<'a>,
    row: &'v R,
    env: &'v Env<'_, 'a>,
) -> Result<Described<'v>, AllocError>
    ensures { IfOk result (Describes (HasOutcome (in_row (environment_of env.now) (R.values row.now)) (resolved_of term.now))) }
{
    let none = no_variables();
    described(term, row, none, env)
}

/// The truth of a predicate in a row.
pub fn truth_of<'a, R: Row>(
    term: &Resolved<'a>,
    row: &R,
    env: &Env<'_, 'a>,
) -> Result<Truth, AllocError>
    ensures { IfOk result (IsTruth (in_row (environment_of env.now) (R.values row.now)) (resolved_of term.now)) }
{
    if let Some(told) = compared_in(term, &*row, &*env) {
        return Ok(told);
    }
    let none = no_variables();
    truth(term, &*row, none, &*env)
}

/// The bound variables outside of all quantifiers and comprehensions.
fn no_variables<'v>() -> &'v [&'v Value]
    ensures { result.now ≡ [] }
{
    &[]
}

//! The evaluator: the outcome of an expression, and the truth of a predicate.
ghost use Rattle.std.specs.Prelude.{◌≡◌, IfOk, pos, slice_get};
ghost use Rattle.zf_meaning.specs.Prelude.{resolved_of, IsEmptySet, IsNumber, found_of, found_outcome};
ghost use Rattle.zf_meaning.specs.Environments as spec;
ghost use Rattle.zf_meaning.specs.{environment_of, HasOutcome, IsConstantOutcome, IsNumberSet, IsTruth, outcome_or, scope_of, seen, value_or};
ghost use Rattle.zf_meaning.specs.Meaning as meaning;

mod binders;
mod chains;
pub(crate) mod early;
pub(crate) mod memberships;
pub(crate) mod numeric;
mod operands;
mod ranges;

use crate::env::Env;
use crate::number_set::built_numbers;
use crate::row::Row;
use binders::{comprehension, quantified};
use chains::chain;
use operands::{binary, connective, listed, not, unary};
use std::alloc::{AllocError, Global};
use zf_outcome::Found;
use zf_reference::Reference;
use zf_term::{Infinite, Resolved};
use zf_tree::Constant;
use zf_value::{Form, Lent, Outcome, Truth, Value, set};

/// The outcome of an expression.
#[cycle(meaning)]
#[tactic(auto, using(zf_term::proofs::ResolvedSeen::seen))]
pub(crate) fn outcome<'v, 'a, R: Row>(
    term: &Resolved<'a>,
    row: &'v R,
    locals: &[&'v Value],
    env: &'v Env<'_, 'a>,
) -> Result<Found<'v>, AllocError>
    ensures { IfOk result (λ o. HasOutcome (scope_of env.now (R.values row.now) locals.now) (resolved_of term.now) (found_outcome o)) }
{
    match term {
        Resolved::Name(_, reference) => Ok(named(*reference, row, locals, env)),
        Resolved::Number(_, value) => Ok(number(*value)),
        Resolved::Constant(_, constant) => constant_outcome(*constant, env),
        Resolved::EmptySet(_, _) => empty_set(env.allocator()),
        Resolved::Bracket(_, inner) => outcome(inner.get(), row, locals, env),
        Resolved::Listed(_, form, terms) => listed(terms.as_slice(), *form, row, locals, env),
        Resolved::Comprehension(_, _, _, _) => comprehension(term, row, locals, env),
        Resolved::Unary(_, op, of) => unary(of.get(), *op, row, locals, env),
        Resolved::Binary(_, _, _, _) => binary(term, row, locals, env),
        Resolved::Chain(_, _, _) => Ok(Found::Undefined),
        Resolved::Quantified(_, _, _, _, _) => Ok(Found::Undefined),
    }
}

/// The truth of a predicate.
#[cycle(meaning)]
#[tactic(auto, using(zf_term::proofs::ResolvedSeen::seen))]
pub(crate) fn truth<'v, 'a, R: Row>(
    term: &Resolved<'a>,
    row: &'v R,
    locals: &[&'v Value],
    env: &'v Env<'_, 'a>,
) -> Result<Truth, AllocError>
    ensures { IfOk result (IsTruth (scope_of env.now (R.values row.now) locals.now) (resolved_of term.now)) }
{
    match term {
        Resolved::Constant(_, constant) => Ok(constant_truth(*constant)),
        Resolved::Bracket(_, inner) => truth(inner.get(), row, locals, env),
        Resolved::Unary(_, op, of) => not(of.get(), *op, row, locals, env),
        Resolved::Binary(_, _, _, _) => connective(term, row, locals, env),
        Resolved::Chain(_, _, _) => chain(term, row, locals, env),
        Resolved::Quantified(_, _, _, _, _) => quantified(term, row, locals, env),
        Resolved::Name(_, _) => Ok(Truth::False),
        Resolved::Number(_, _) => Ok(Truth::False),
        Resolved::EmptySet(_, _) => Ok(Truth::False),
        Resolved::Listed(_, _, _) => Ok(Truth::False),
        Resolved::Comprehension(_, _, _, _) => Ok(Truth::False),
    }
}

fn named<'v, 'a, R: Row>(
    reference: Reference,
    row: &'v R,
    locals: &[&'v Value],
    env: &'v Env<'_, 'a>,
) -> Found<'v>
    ensures { found_outcome result ≡ spec.outcome_in (scope_of env.now (R.values row.now) locals.now) reference }
{
    match reference {
        Reference::Component(place) => Found::lent(component(row, place)),
        Reference::Local(place) => Found::lent(local(locals, place)),
        Reference::Global(place) => global(env, place),
    }
}

fn component<R: Row>(row: &R, place: usize) -> Option<&Value>
    ensures { found_of result ≡ value_or (slice_get (R.values row.now) place) }
{
    if place < row.len() {
        Some(row.get(place))
    } else {
        None
    }
}

fn local<'v>(locals: &[&'v Value], place: usize) -> Option<&'v Value>
    ensures { found_of result ≡ value_or (slice_get (seen locals.now) place) }
{
    if place < locals.len() {
        Some(locals[place])
    } else {
        None
    }
}

fn global<'v>(env: &'v Env<'_, '_>, place: usize) -> Found<'v>
    ensures { found_outcome result ≡ outcome_or (slice_get (environment_of env.now).outcomes place) }
{
    match env.outcome(place) {
        Some(outcome) => Found::seen(outcome),
        None => Found::Undefined,
    }
}

fn number<'v>(value: u64) -> Found<'v>
    ensures { IsNumber (pos value) (found_outcome result) }
{
    match i64::try_from(value) {
        Ok(n) => Found::Is(Lent::own(Value { form: Form::Int(n) })),
        Err(_) => Found::Out,
    }
}

fn constant_outcome<'v>(constant: Constant, env: &Env<'_, '_>) -> Result<Found<'v>, AllocError>
    ensures { IfOk result (λ o. IsConstantOutcome (environment_of env.now).numbers constant (found_outcome o)) }
{
    match constant {
        Constant::True => Ok(Found::Undefined),
        Constant::False => Ok(Found::Undefined),
        Constant::Integers => numbers(env, Infinite::Num),
        Constant::Naturals => numbers(env, Infinite::Nat),
        Constant::Positives => numbers(env, Infinite::Nat1),
    }
}

/// The set of its numbers.
fn numbers<'v>(env: &Env<'_, '_>, set: Infinite) -> Result<Found<'v>, AllocError>
    ensures { IfOk result (λ o. IsNumberSet (environment_of env.now).numbers set (found_outcome o)) }
{
    Ok(Found::own(built_numbers(env, set)?))
}

fn constant_truth(constant: Constant) -> Truth
    ensures { result ≡ meaning.constant_truth constant }
{
    match constant {
        Constant::True => Truth::True,
        Constant::False => Truth::False,
        Constant::Integers => Truth::False,
        Constant::Naturals => Truth::False,
        Constant::Positives => Truth::False,
    }
}

/// The set without members.
fn empty_set<'v>(alloc: Global) -> Result<Found<'v>, AllocError>
    ensures { IfOk result (λ o. IsEmptySet (found_outcome o)) }
{
    Ok(Found::own(set::empty_set(alloc)?))
}

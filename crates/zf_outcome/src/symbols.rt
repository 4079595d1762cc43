//! What each symbol makes of the outcomes of its operands.
ghost use Rattle.std.specs.Prelude.{◌≡◌, IfOk};
ghost use Rattle.zf_outcome.specs.Prelude.{IsCross, number_of, OnNumbers};
ghost use Rattle.zf_outcome.specs.{BinaryOutcome, found_outcome, InfixOutcome, ListedOutcome, NumbersOutcome, OnBoth, OnOne, OnSeveral, PrefixOutcome, several_of, SignOutcome, UnaryOutcome};

use crate::found::Found;
use crate::gathered::{Gathered, Lack};
use std::alloc::{AllocError, Global};
use zf_families::arrows;
use zf_families::cross::cross;
use zf_families::power::power;
use zf_tree::{Infix, Listed, Operator, Prefix, Sign, Unary};
use zf_value::set::{display, intersection, pair, set_difference, size, tuple, union};
use zf_value::{
    Lent, Outcome, Value, applied, composition, difference, domain, domain_restriction,
    domain_subtraction, image, interval, inverse, modulus, negation, overriding, product, quotient,
    range, range_restriction, range_subtraction, sum,
};

/// A symbol between two outcomes.
pub fn on_both(
    alloc: Global,
    op: Operator,
    x: &Found<'_>,
    y: &Found<'_>,
) -> Result<Outcome, AllocError>
    ensures { IfOk result (OnBoth (found_outcome x.now) (found_outcome y.now) (BinaryOutcome op)) }
{
    match (x, y) {
        (Found::Out, _) => Ok(Outcome::Out),
        (_, Found::Out) => Ok(Outcome::Out),
        (Found::Undefined, _) => Ok(Outcome::Undefined),
        (_, Found::Undefined) => Ok(Outcome::Undefined),
        (Found::Is(v), Found::Is(w)) => binary(alloc, op, v.get(), w.get()),
    }
}

/// A symbol before or after an outcome.
pub fn on_one(alloc: Global, op: Unary, x: &Found<'_>) -> Result<Outcome, AllocError>
    ensures { IfOk result (OnOne (found_outcome x.now) (UnaryOutcome op)) }
{
    match x {
        Found::Out => Ok(Outcome::Out),
        Found::Undefined => Ok(Outcome::Undefined),
        Found::Is(v) => unary(alloc, op, v.get()),
    }
}

/// What several terms make.
pub fn on_several(alloc: Global, form: Listed, gathered: Gathered) -> Result<Outcome, AllocError>
    ensures { IfOk result (OnSeveral (several_of gathered) (ListedOutcome form)) }
{
    match gathered.lack {
        Lack::Nothing => listed(alloc, form, gathered.values),
        Lack::Undefined => Ok(Outcome::Undefined),
        Lack::Out => Ok(Outcome::Out),
    }
}

fn listed(alloc: Global, form: Listed, values: Vec<Value>) -> Result<Outcome, AllocError>
    ensures { IfOk result (ListedOutcome form values.items) }
{
    match form {
        Listed::Tuple => tuple(alloc, values),
        Listed::Display => display(alloc, values),
        Listed::Product => product_of(alloc, &values),
    }
}

/// The product of the values, which are sets.
fn product_of(alloc: Global, values: &[Value]) -> Result<Outcome, AllocError>
    ensures { IfOk result (IsCross values.now) }
{
    let sets = lent(alloc, values)?;
    cross(alloc, sets.as_slice())
}

/// The values, lent.
fn lent<'v>(alloc: Global, values: &'v [Value]) -> Result<Vec<Lent<'v>>, AllocError>
    ensures { IfOk result (λ sets. sets.items ≡ values.now) }
{
    let mut sets = Vec::with_capacity(alloc, values.len())?;
    for value in values {
        sets.push(Lent::lent(value))?;
    }
    Ok(sets)
}

fn binary(alloc: Global, op: Operator, v: &Value, w: &Value) -> Result<Outcome, AllocError>
    ensures { IfOk result (BinaryOutcome op v.now w.now) }
{
    match op {
        Operator::Function(infix) => function(alloc, infix, v, w),
        Operator::Generic(kind) => arrows(alloc, kind, v, w),
        Operator::Connective(_) => Ok(Outcome::Undefined),
        Operator::Application => application(alloc, v, w),
        Operator::Image => image(alloc, v, w),
    }
}

fn unary(alloc: Global, op: Unary, v: &Value) -> Result<Outcome, AllocError>
    ensures { IfOk result (UnaryOutcome op v.now) }
{
    match op {
        Unary::Sign(Sign::Minus) => Ok(on_number(v)),
        Unary::Sign(Sign::Symbol(prefix)) => prefixed(alloc, prefix, v),
        Unary::Inverse => inverse(alloc, v),
        Unary::Not => Ok(Outcome::Undefined),
    }
}

fn prefixed(alloc: Global, op: Prefix, v: &Value) -> Result<Outcome, AllocError>
    ensures { IfOk result (PrefixOutcome op v.now) }
{
    match op {
        Prefix::Power => power(alloc, v),
        Prefix::Finset => power(alloc, v),
        Prefix::Domain => domain(alloc, v),
        Prefix::Range => range(alloc, v),
        Prefix::Size => Ok(size(v)),
    }
}

/// The opposite of a number.
fn on_number(v: &Value) -> Outcome
    ensures { SignOutcome Sign.Minus v.now result }
{
    match v.number() {
        Some(n) => negation(n),
        None => Outcome::Undefined,
    }
}

fn application(alloc: Global, f: &Value, x: &Value) -> Result<Outcome, AllocError>
    ensures { IfOk result (BinaryOutcome Operator.Application f.now x.now) }
{
    match applied(f, x) {
        Some(y) => Ok(Outcome::Is(y.copy(alloc)?)),
        None => Ok(Outcome::Undefined),
    }
}

fn function(alloc: Global, op: Infix, v: &Value, w: &Value) -> Result<Outcome, AllocError>
    ensures { IfOk result (InfixOutcome op v.now w.now) }
{
    match op {
        Infix::Maplet => pair(alloc, v.copy(alloc)?, w.copy(alloc)?),
        Infix::UpTo => on_numbers(alloc, op, v, w),
        Infix::Plus => on_numbers(alloc, op, v, w),
        Infix::Minus => on_numbers(alloc, op, v, w),
        Infix::Times => on_numbers(alloc, op, v, w),
        Infix::Div => on_numbers(alloc, op, v, w),
        Infix::Mod => on_numbers(alloc, op, v, w),
        Infix::Union => union(alloc, v, w),
        Infix::Difference => set_difference(alloc, v, w),
        Infix::Intersection => intersection(alloc, v, w),
        Infix::Composition => composition(alloc, v, w),
        Infix::Overriding => overriding(alloc, v, w),
        Infix::DomainRestriction => domain_restriction(alloc, v, w),
        Infix::RangeRestriction => range_restriction(alloc, v, w),
        Infix::DomainSubtraction => domain_subtraction(alloc, v, w),
        Infix::RangeSubtraction => range_subtraction(alloc, v, w),
    }
}

fn on_numbers(alloc: Global, op: Infix, v: &Value, w: &Value) -> Result<Outcome, AllocError>
    ensures { IfOk result (OnNumbers (number_of v.now) (number_of w.now) (NumbersOutcome op)) }
{
    match (v.number(), w.number()) {
        (Some(a), Some(b)) => arithmetic(alloc, op, a, b),
        _ => Ok(Outcome::Undefined),
    }
}

fn arithmetic(alloc: Global, op: Infix, a: i64, b: i64) -> Result<Outcome, AllocError>
    ensures { IfOk result (NumbersOutcome op a b) }
{
    match op {
        Infix::UpTo => interval(alloc, a, b),
        Infix::Plus => Ok(sum(a, b)),
        Infix::Minus => Ok(difference(a, b)),
        Infix::Times => Ok(product(a, b)),
        Infix::Div => Ok(quotient(a, b)),
        Infix::Mod => Ok(modulus(a, b)),
        _ => Ok(Outcome::Undefined),
    }
}

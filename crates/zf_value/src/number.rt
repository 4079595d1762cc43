//! The operations on numbers.
ghost use Rattle.std.specs.Prelude.{◌≡◌, ◌↔◌, pos, ◌+ℤ◌, ◌≤ℤ◌, IsTrue, IfOk, MatchOption};
ghost use Rattle.zf_value.specs.{IsBetweenNumbers, IsDifference, IsInterval, IsModulus, IsNegation, IsProduct, IsQuotient, IsRemainder, IsSum, ListsNumbers};
ghost use Rattle.zf_value.specs.declared.plain.Value.{Int};

use crate::SET_MAX;
use crate::set::set_of;
use crate::value::{Form, Outcome, Value};
use std::alloc::{AllocError, Global};

pub fn negation(a: i64) -> Outcome
    ensures { IsNegation a result }
{
    number_or_out(a.checked_neg())
}

pub fn sum(a: i64, b: i64) -> Outcome
    ensures { IsSum a b result }
{
    number_or_out(a.checked_add(b))
}

pub fn difference(a: i64, b: i64) -> Outcome
    ensures { IsDifference a b result }
{
    number_or_out(a.checked_sub(b))
}

pub fn product(a: i64, b: i64) -> Outcome
    ensures { IsProduct a b result }
{
    number_or_out(a.checked_mul(b))
}

/// `a \div b`, rounded down.
pub fn quotient(a: i64, b: i64) -> Outcome
    ensures { IsQuotient a b result }
{
    if b == 0 {
        return Outcome::Undefined;
    }
    if b == -1 {
        return negation(a);
    }
    let q = a / b;
    if !is_remainder(b, a % b) {
        return number_or_out(q.checked_sub(1));
    }
    Outcome::Is(Value { form: Form::Int(q) })
}

/// `a \mod b`, what `\div` leaves.
pub fn modulus(a: i64, b: i64) -> Outcome
    ensures { IsModulus a b result }
{
    if b == 0 {
        return Outcome::Undefined;
    }
    let r = a.wrapping_rem(b);
    if !is_remainder(b, r) {
        return Outcome::Is(Value {
            form: Form::Int(r + b),
        });
    }
    Outcome::Is(Value { form: Form::Int(r) })
}

/// Whether `from \upto to` has more members than a set may have.
pub fn is_interval_out(from: i64, to: i64) -> bool
    ensures { IsTrue result ↔ IsInterval from to Outcome.Out }
{
    is_too_wide(from, to)
}

/// Whether the value is one of the numbers from the one to the other.
pub fn is_in_interval(z: &Value, from: i64, to: i64) -> bool
    ensures { IsTrue result ↔ IsBetweenNumbers from to z.now }
{
    match z.number() {
        Some(n) => from <= n && n <= to,
        None => false,
    }
}

/// `from \upto to`.
pub fn interval(alloc: Global, from: i64, to: i64) -> Result<Outcome, AllocError>
    ensures { IfOk result (IsInterval from to) }
{
    if is_too_wide(from, to) {
        return Ok(Outcome::Out);
    }
    let members = numbers(alloc, from, to)?;
    set_of(alloc, members)
}

// ---- steps

/// Whether there are more numbers from the one to the other than a set may have.
fn is_too_wide(from: i64, to: i64) -> bool
    ensures { IsTrue result ↔ ((from +ℤ pos SET_MAX) ≤ℤ to) }
{
    match from.checked_add(SET_MAX as i64) {
        Some(past) => past <= to,
        None => false,
    }
}

/// Whether r lies between 0 and b, and is not b.
fn is_remainder(b: i64, r: i64) -> bool
    ensures { IsTrue result ↔ IsRemainder b r }
{
    if 0 < b {
        0 <= r && r < b
    } else {
        b < r && r <= 0
    }
}

/// The numbers from the one to the other.
fn numbers(alloc: Global, from: i64, to: i64) -> Result<Vec<Value>, AllocError>
    ensures { IfOk result (ListsNumbers from to) }
{
    if to < from {
        return Ok(Vec::new(alloc));
    }
    let mut members = Vec::with_capacity(alloc, to.saturating_sub(from) as usize + 1)?;
    for n in from..to {
        members.push(Value { form: Form::Int(n) })?;
    }
    members.push(Value {
        form: Form::Int(to),
    })?;
    Ok(members)
}

/// The number, or out where there is none of 64 bits.
fn number_or_out(number: Option<i64>) -> Outcome
    ensures { MatchOption number (result ≡ Outcome.Out) (λ n. result ≡ Outcome.Is (Int n)) }
{
    match number {
        Some(n) => Outcome::Is(Value { form: Form::Int(n) }),
        None => Outcome::Out,
    }
}

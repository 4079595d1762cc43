//! The operations that make tuples and sets.
ghost use Rattle.std.specs.Bool.{MatchBool};
ghost use Rattle.std.specs.Prelude.{◌≡◌, true, ◌↔◌, ◌*◌, ◌≤◌, ◌++◌, length, IsTrue, IfOk, OnOk};
ghost use Rattle.zf_value.specs.{AreAmong, AreElements, HaveSameMembers, IsAscending, IsDisplay, IsElement, IsEmptySet, IsIntersection, IsJoined, IsMember, IsPair, IsSetDifference, IsSize, IsTuple, IsUnion, members, pair};

use crate::SET_MAX;
use crate::items::Items;
use crate::part::{Keep, Part, Selection, selected};
use crate::value::{Form, Outcome, Value};
use std::alloc::{AllocError, Global};
use std::cmp::Ordering;

/// `x \mapsto y`.
pub fn pair(alloc: Global, x: Value, y: Value) -> Result<Outcome, AllocError>
    ensures { IfOk result (IsPair x y) }
{
    Ok(Outcome::Is(tuple_of_two(alloc, x, y)?))
}

pub fn tuple(alloc: Global, values: Vec<Value>) -> Result<Outcome, AllocError>
    ensures { IfOk result (IsTuple values.items) }
{
    Ok(Outcome::Is(Value {
        form: Form::Tuple(Items::of(alloc, values)?),
    }))
}

pub fn empty_set(alloc: Global) -> Result<Outcome, AllocError>
    ensures { IfOk result IsEmptySet }
{
    Ok(Outcome::Is(Value {
        form: Form::SetOf(Items::of(alloc, Vec::new(alloc))?),
    }))
}

/// The set of these values, in any order and with repeats.
pub fn display(alloc: Global, mut values: Vec<Value>) -> Result<Outcome, AllocError>
    ensures { IfOk result (IsDisplay values.items) }
{
    make_ascending(&mut values)?;
    set_of(alloc, values)
}

/// Whether these are known to have more different values than a set may have. Drops repeats where there are many.
/// What gathers values asks this after each step, so that it never holds more than a few times as many.
pub fn is_too_many(values: &mut Vec<Value>) -> Result<bool, AllocError>
    ensures members { OnOk result (HaveSameMembers values.old.items values.new.items) }
    ensures told { IfOk result (λ b. MatchBool b (IsDisplay values.new.items Outcome.Out) (length values.new.items ≤ 2 * SET_MAX)) }
{
    if values.len() <= 2 * SET_MAX {
        return Ok(false);
    }
    make_ascending(values)?;
    Ok(values.len() > SET_MAX)
}

/// The elements of the type of this number, which has so many.
pub fn elements(alloc: Global, number: u32, count: u64) -> Result<Outcome, AllocError>
    ensures { IfOk result (AreElements number count) }
{
    if count > SET_MAX as u64 {
        return Ok(Outcome::Out);
    }
    let mut members = Vec::new(alloc);
    for index in 0..count {
        members.push(Value {
            form: Form::Elem(number, index),
        })?;
    }
    set_of(alloc, members)
}

/// Whether the value is one of the elements of the type of this number, which has so many.
pub fn is_element(z: &Value, number: u32, count: u64) -> bool
    ensures { IsTrue result ↔ IsElement number count z.now }
{
    match &z.form {
        Form::Elem(n, i) => *n == number && *i < count,
        _ => false,
    }
}

pub fn is_member(z: &Value, set: &Value) -> bool
    ensures { IsTrue result ↔ IsMember z.now (members set.now) }
{
    is_found(z, set.members())
}

/// Whether each of these is a member of the set.
pub fn are_among(values: &[Value], set: &Value) -> bool
    ensures { IsTrue result ↔ AreAmong values.now (members set.now) }
{
    for z in values {
        if !is_member(z, set) {
            return false;
        }
    }
    true
}

pub fn union(alloc: Global, a: &Value, b: &Value) -> Result<Outcome, AllocError>
    ensures { IfOk result (IsUnion (members a.now) (members b.now)) }
{
    let values = merged(alloc, a.members(), b.members())?;
    set_of(alloc, values)
}

pub fn intersection(alloc: Global, a: &Value, b: &Value) -> Result<Outcome, AllocError>
    ensures { IfOk result (IsIntersection (members a.now) (members b.now)) }
{
    let kept = selected(
        alloc,
        a.members(),
        &Selection {
            test: Part::Whole,
            keep: Keep::Members,
            set: b.members(),
            given: Part::Whole,
        },
    )?;
    display(alloc, kept)
}

/// `a \setminus b`.
pub fn set_difference(alloc: Global, a: &Value, b: &Value) -> Result<Outcome, AllocError>
    ensures { IfOk result (IsSetDifference (members a.now) (members b.now)) }
{
    let kept = selected(
        alloc,
        a.members(),
        &Selection {
            test: Part::Whole,
            keep: Keep::Others,
            set: b.members(),
            given: Part::Whole,
        },
    )?;
    display(alloc, kept)
}

/// `\# a`.
pub fn size(a: &Value) -> Outcome
    ensures { IsSize (members a.now) result }
{
    match i64::try_from(a.members().len()) {
        Ok(n) => Outcome::Is(Value { form: Form::Int(n) }),
        Err(_) => Outcome::Out,
    }
}

// ---- steps

/// Half of the least room of which some is given back.
const SPARE: usize = 8;

/// Whether the value is among these.
pub(crate) fn is_found(z: &Value, values: &[Value]) -> bool
    requires { IsAscending values.now }
    ensures { IsTrue result ↔ IsMember z.now values.now }
{
    values.binary_search_by(|y| y.order(z)).is_ok()
}

/// Sorts the values, and drops repeats.
pub(crate) fn make_ascending(values: &mut Vec<Value>) -> Result<(), AllocError>
    ensures ascending { OnOk result (IsAscending values.new.items) }
    ensures members { OnOk result (HaveSameMembers values.old.items values.new.items) }
{
    if is_ascending(values.as_slice()) {
        return Ok(());
    }
    values.sort()?;
    values.dedup();
    Ok(())
}

/// Whether each value is less than the next.
fn is_ascending(values: &[Value]) -> bool
    ensures { result ≡ true → IsAscending values.now }
{
    for place in 1..values.len() {
        if !values[place - 1].order(&values[place]).is_lt() {
            return false;
        }
    }
    true
}

/// The members of both, in order.
fn merged(alloc: Global, a: &[Value], b: &[Value]) -> Result<Vec<Value>, AllocError>
    requires a { IsAscending a.now }
    requires b { IsAscending b.now }
    ensures ascending { IfOk result (λ v. IsAscending v.items) }
    ensures joined { IfOk result (λ v. IsJoined a.now b.now v.items) }
{
    let mut values = Vec::with_capacity(alloc, a.len() + b.len())?;
    let mut i = 0;
    let mut j = 0;
    while i < a.len() && j < b.len() {
        let x = &a[i];
        let y = &b[j];
        match x.order(y) {
            Ordering::Less => {
                values.push(x.copy(alloc)?)?;
                i += 1;
            }
            Ordering::Equal => {
                values.push(x.copy(alloc)?)?;
                i += 1;
                j += 1;
            }
            Ordering::Greater => {
                values.push(y.copy(alloc)?)?;
                j += 1;
            }
        }
    }
    copy_onto(alloc, &mut values, &a[i..])?;
    copy_onto(alloc, &mut values, &b[j..])?;
    Ok(values)
}

/// The set of these members.
pub(crate) fn set_of(alloc: Global, mut members: Vec<Value>) -> Result<Outcome, AllocError>
    requires { IsAscending members.items }
    ensures { IfOk result (IsDisplay members.items) }
{
    if members.len() > SET_MAX {
        return Ok(Outcome::Out);
    }
    give_room_back(&mut members);
    Ok(Outcome::Is(Value {
        form: Form::SetOf(Items::of(alloc, members)?),
    }))
}

/// Gives room back where values fill no more than half of it: what is gathered for a set may be many more values than its
/// members.
fn give_room_back(values: &mut Vec<Value>)
    ensures { values.new.items ≡ values.old.items }
{
    let half = values.capacity() / 2;
    if half >= SPARE && values.len() <= half {
        values.shrink_to_fit();
    }
}

/// Copies the values after the others.
pub(crate) fn copy_onto(
    alloc: Global,
    values: &mut Vec<Value>,
    others: &[Value],
) -> Result<(), AllocError>
    ensures { OnOk result (values.new.items ≡ values.old.items ++ others.now) }
{
    for z in others {
        values.push(z.copy(alloc)?)?;
    }
    Ok(())
}

/// The pair of these values.
pub(crate) fn tuple_of_two(alloc: Global, x: Value, y: Value) -> Result<Value, AllocError>
    ensures { IfOk result (λ v. v ≡ pair x y) }
{
    let mut values = Vec::with_capacity(alloc, 2)?;
    values.push(x)?;
    values.push(y)?;
    Ok(Value {
        form: Form::Tuple(Items::of(alloc, values)?),
    })
}

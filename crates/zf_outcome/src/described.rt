//! Sets that are tested for members without being built.
ghost use Rattle.std.specs.Prelude.{◌≡◌, ◌↔◌, ◌⊎◌, IsTrue, IfOk};
ghost use Rattle.zf_outcome.specs.Prelude.{IsCross, IsInterval, IsPower, members, number_of, OnNumbers};
ghost use Rattle.zf_extent.specs.{is_membership};
ghost use Rattle.zf_value.specs.declared.value.Outcome.TheVariants as outcome;
ghost use Rattle.zf_outcome.specs.declared.described.Described.TheVariants as form;
ghost use Rattle.zf_outcome.specs.{Describes, found_outcome, IsDescribed, IsInDescribed, IsTruthIn, IsUnbuilt, IsWithin, OnOne, OnSeveral, several_of, told_in};

use crate::found::Found;
use crate::gathered::{Gathered, Lack};
use crate::relation::atom;
use std::alloc::{AllocError, Global};
use zf_families::cross::{is_cross_out, is_in_cross};
use zf_families::power::{is_in_power, is_power_out};
use zf_families::{are_arrows_out, is_arrow};
use zf_tree::{Arrow, Relation};
use zf_value::set::is_member;
use zf_value::{Lent, Outcome, Truth, Value, is_in_interval, is_interval_out};

/// What an expression comes to; a set is described by what it is made of where it need not be built.
#[derive(Drop)]
pub enum Described<'v> {
    Plain(Found<'v>),
    /// `\power E` and `\finset E`, by the value of E.
    Power(Value),
    /// Relations, functions and injections, by the values of both sides.
    Arrows(Arrow, Value, Value),
    /// `m \upto n`
    Interval(i64, i64),
    /// `E \cross .. \cross E`, by the values of the factors.
    Product(Vec<Lent<'v>>),
}

// ---- what is described

/// `\power`, of an outcome.
pub fn power_of<'v>(alloc: Global, set: Found<'v>) -> Result<Described<'v>, AllocError>
    ensures { IfOk result (Describes (OnOne (found_outcome set.entry) (λ v. IsPower (members v)))) }
{
    match set {
        Found::Is(set) => Ok(Described::Power(set.into_value(alloc)?)),
        Found::Undefined => Ok(Described::Plain(Found::Undefined)),
        Found::Out => Ok(Described::Plain(Found::Out)),
    }
}

/// The numbers from the one to the other, if both are numbers.
pub fn interval_between<'v>(v: &Value, w: &Value) -> Described<'v>
    ensures { Describes (OnNumbers (number_of v.now) (number_of w.now) IsInterval) result }
{
    let Some(from) = v.number() else {
        return Described::Plain(Found::Undefined);
    };
    let Some(to) = w.number() else {
        return Described::Plain(Found::Undefined);
    };
    Described::Interval(from, to)
}

/// The product of the values, which are sets.
pub fn product_of<'v>(alloc: Global, gathered: Gathered) -> Result<Described<'v>, AllocError>
    ensures { IfOk result (Describes (OnSeveral (several_of gathered) IsCross)) }
{
    match gathered.lack {
        Lack::Nothing => Ok(Described::Product(owned(alloc, gathered.values)?)),
        Lack::Undefined => Ok(Described::Plain(Found::Undefined)),
        Lack::Out => Ok(Described::Plain(Found::Out)),
    }
}

fn owned<'v>(alloc: Global, values: Vec<Value>) -> Result<Vec<Lent<'v>>, AllocError>
    ensures { IfOk result (λ sets. sets.items ≡ values.items) }
{
    let mut sets = Vec::with_capacity(alloc, values.len())?;
    for value in values {
        sets.push(Lent::own(value))?;
    }
    Ok(sets)
}

// ---- what is asked of it

impl<'v> Described<'v> {
    /// What is known to come to this outcome.
    pub fn of(outcome: Outcome) -> Described<'v>
        ensures { Describes (λ o. o ≡ outcome) result }
    {
        Described::Plain(Found::own(outcome))
    }

    /// Whether it is out.
    pub fn is_out(&self) -> bool
        ensures out { IsTrue result ↔ IsDescribed self.now outcome.Out }
        ensures within { IsTrue result ⊎ IsWithin self.now }
    {
        match self {
            Described::Plain(found) => is_found_out(found),
            Described::Power(set) => is_power_out(set),
            Described::Arrows(kind, from, to) => are_arrows_out(*kind, from, to),
            Described::Interval(from, to) => is_interval_out(*from, *to),
            Described::Product(sets) => is_cross_out(sets.as_slice()),
        }
    }

    /// Whether the value is a member. What is undefined has none.
    pub fn has(&self, v: &Value) -> bool
        requires { IsWithin self.now }
        ensures { IsTrue result ↔ IsInDescribed self.now v.now }
    {
        match self {
            Described::Plain(found) => is_found_in(found, v),
            Described::Power(set) => is_in_power(v, set),
            Described::Arrows(kind, from, to) => is_arrow(*kind, v, from, to),
            Described::Interval(from, to) => is_between(v, *from, *to),
            Described::Product(sets) => is_in_cross(v, sets.as_slice()),
        }
    }
}

/// The truth of a membership in what is described.
pub fn membership(relation: Relation, x: &Found<'_>, set: &Described<'_>) -> Truth
    requires { IsTrue (is_membership relation) }
    ensures { IsTruthIn (IsDescribed set.now) relation (found_outcome x.now) result }
{
    match set {
        Described::Plain(found) => atom(relation, x, found),
        Described::Power(_) => in_unbuilt(relation, x, set),
        Described::Arrows(_, _, _) => in_unbuilt(relation, x, set),
        Described::Interval(_, _) => in_unbuilt(relation, x, set),
        Described::Product(_) => in_unbuilt(relation, x, set),
    }
}

/// The truth of a membership in a set that is not there as a value.
fn in_unbuilt(relation: Relation, x: &Found<'_>, set: &Described<'_>) -> Truth
    requires relation { IsTrue (is_membership relation) }
    requires unbuilt { IsUnbuilt set.now }
    ensures { IsTruthIn (IsDescribed set.now) relation (found_outcome x.now) result }
{
    if set.is_out() {
        return Truth::Out;
    }
    match x {
        Found::Out => Truth::Out,
        Found::Undefined => Truth::False,
        Found::Is(v) => told(relation, set.has(v.get())),
    }
}

/// The truth of a membership, by whether the value is a member.
fn told(relation: Relation, is_in: bool) -> Truth
    ensures { result ≡ told_in relation is_in }
{
    match relation {
        Relation::NotMember => if is_in { Truth::False } else { Truth::True },
        _ => if is_in { Truth::True } else { Truth::False },
    }
}

fn is_found_out(found: &Found<'_>) -> bool
    ensures { IsTrue result ↔ IsDescribed (form.Plain found.now) outcome.Out }
{
    matches!(found, Found::Out)
}

fn is_found_in(found: &Found<'_>, v: &Value) -> bool
    ensures { IsTrue result ↔ IsInDescribed (form.Plain found.now) v.now }
{
    match found {
        Found::Is(set) => is_member(v, set.get()),
        Found::Undefined => false,
        Found::Out => false,
    }
}

/// Whether the value is one of the numbers from the one to the other.
fn is_between(v: &Value, from: i64, to: i64) -> bool
    requires { IsDescribed (form.Interval from to) outcome.Out → ⊥ }
    ensures { IsTrue result ↔ IsInDescribed (form.Interval from to) v.now }
{
    is_in_interval(v, from, to)
}

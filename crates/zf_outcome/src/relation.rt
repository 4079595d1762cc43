//! What relations say of the outcomes of their sides.
ghost use Rattle.std.specs.Prelude.{◌≡◌, ◌↔◌, if◌then◌else◌, IfSome, IsTrue};
ghost use Rattle.zf_outcome.specs.Prelude.{Is, Int, AreAmong, members, pair};
ghost use Rattle.zf_outcome.specs.{AreOrdered, Compares, found_outcome, Holds, HoldsOf, IsAtom, IsFrom, IsIn, IsLink, IsTest};

use crate::found::Found;
use zf_term::Infinite;
use zf_tree::Relation;
use zf_value::set::{are_among, is_member};
use zf_value::{Form, Truth, Value, relates};

/// The truth of a link between two outcomes, where the right one may be an infinite set instead.
pub fn link(infinite: Option<Infinite>, relation: Relation, x: &Found<'_>, y: &Found<'_>) -> Truth
    ensures { IsLink infinite relation (found_outcome x.now) (found_outcome y.now) result }
{
    match infinite {
        None => atom(relation, x, y),
        Some(set) => test(set, relation, x),
    }
}

pub fn atom(relation: Relation, x: &Found<'_>, y: &Found<'_>) -> Truth
    ensures { IsAtom (found_outcome x.now) (found_outcome y.now) (Holds relation) result }
{
    match (x, y) {
        (Found::Out, _) => Truth::Out,
        (_, Found::Out) => Truth::Out,
        (Found::Undefined, _) => Truth::False,
        (_, Found::Undefined) => Truth::False,
        (Found::Is(v), Found::Is(w)) => told(holds(relation, v.get(), w.get())),
    }
}

/// The truth of a relation between two numbers.
pub fn between_numbers(relation: Relation, m: i64, n: i64) -> Truth
    ensures { IsAtom (Is (Int m)) (Is (Int n)) (Holds relation) result }
{
    let left = Value { form: Form::Int(m) };
    let right = Value { form: Form::Int(n) };
    let does = holds(relation, &left, &right);
    told(does)
}

/// The truth of a relation between two values.
pub fn between_values(relation: Relation, v: &Value, w: &Value) -> Truth
    ensures { IsAtom (Is v.now) (Is w.now) (Holds relation) result }
{
    told(holds(relation, v, w))
}

/// The truth of a membership of a pair in a set; of other relations nothing is reported.
pub fn of_pair(relation: Relation, x: &Value, y: &Value, set: &Value) -> Option<Truth>
    ensures { IfSome result (IsAtom (Is (pair x.now y.now)) (Is set.now) (Holds relation)) }
{
    match relation {
        Relation::Member => Some(told(relates(set, x, y))),
        Relation::NotMember => Some(told(!relates(set, x, y))),
        _ => None,
    }
}

fn test(set: Infinite, relation: Relation, x: &Found<'_>) -> Truth
    ensures { IsTest (found_outcome x.now) (HoldsOf set relation) result }
{
    match x {
        Found::Out => Truth::Out,
        Found::Undefined => Truth::False,
        Found::Is(v) => told(holds_of(set, relation, v.get())),
    }
}

/// The truth of what holds or doesn't.
fn told(holds: bool) -> Truth
    ensures { result ≡ (if holds then Truth.True else Truth.False) }
{
    if holds { Truth::True } else { Truth::False }
}

/// Whether the relation holds between two values.
#[inline(always)]
fn holds(relation: Relation, v: &Value, w: &Value) -> bool
    ensures { IsTrue result ↔ Holds relation v.now w.now }
{
    match relation {
        Relation::Equal => v.equals(w),
        Relation::NotEqual => !v.equals(w),
        Relation::Member => is_member(v, w),
        Relation::NotMember => !is_member(v, w),
        Relation::Subset => are_among(v.members(), w),
        Relation::ProperSubset => is_proper(v, w),
        Relation::Less => compares(relation, v, w),
        Relation::AtMost => compares(relation, v, w),
        Relation::Greater => compares(relation, v, w),
        Relation::AtLeast => compares(relation, v, w),
    }
}

fn is_proper(v: &Value, w: &Value) -> bool
    ensures { IsTrue result ↔ (AreAmong (members v.now) (members w.now) × (AreAmong (members w.now) (members v.now) → ⊥)) }
{
    are_among(v.members(), w) && !are_among(w.members(), v)
}

/// Whether both are numbers in this order.
fn compares(relation: Relation, v: &Value, w: &Value) -> bool
    ensures { IsTrue result ↔ Compares (AreOrdered relation) v.now w.now }
{
    let Some(m) = v.number() else {
        return false;
    };
    let Some(n) = w.number() else {
        return false;
    };
    are_ordered(relation, m, n)
}

fn are_ordered(relation: Relation, m: i64, n: i64) -> bool
    ensures { IsTrue result ↔ AreOrdered relation m n }
{
    match relation {
        Relation::Less => m < n,
        Relation::AtMost => m <= n,
        Relation::Greater => m > n,
        Relation::AtLeast => m >= n,
        _ => false,
    }
}

/// What a relation says of a value and an infinite set.
fn holds_of(set: Infinite, relation: Relation, v: &Value) -> bool
    ensures { IsTrue result ↔ HoldsOf set relation v.now }
{
    match relation {
        Relation::Member => is_in(set, v),
        Relation::NotMember => !is_in(set, v),
        _ => false,
    }
}

/// Whether the value is in the infinite set.
fn is_in(set: Infinite, v: &Value) -> bool
    ensures { IsTrue result ↔ IsIn set v.now }
{
    match v.number() {
        Some(n) => is_from(set, n),
        None => false,
    }
}

fn is_from(set: Infinite, n: i64) -> bool
    ensures { IsTrue result ↔ IsFrom set n }
{
    match set {
        Infinite::Num => true,
        Infinite::Nat => n >= 0,
        Infinite::Nat1 => n >= 1,
    }
}

//! The operations on relations. A relation is a set of pairs; what is no pair relates nothing.
ghost use Rattle.std.specs.Prelude.{◌≡◌, ◌↔◌, ◌≤◌, ◌∷◌, [], length, slice_range, IfOk, IsTrue, OnOk, MatchOption};
ghost use Rattle.std.specs.Cmp.Lexicographic.{slice_cmp};
ghost use Rattle.zf_value.specs.{AddsPairs, AreRelated, IsApplied, IsAscending, IsComposition, IsDomain, IsDomainRestriction, IsDomainSubtraction, IsImage, IsInverse, IsMember, IsOverriding, IsRange, IsRangeRestriction, IsRangeSubtraction, members, pair, place_beside as place, value_order};

use crate::part::{Keep, Part, Selection, parts, selected};
use crate::set::{copy_onto, display, is_too_many, make_ascending, tuple_of_two};
use crate::value::{Form, Outcome, Value};
use std::alloc::{AllocError, Global};
use std::cmp::Ordering;

/// `\dom r`.
pub fn domain(alloc: Global, r: &Value) -> Result<Outcome, AllocError>
    ensures { IfOk result (IsDomain (members r.now)) }
{
    display(alloc, parts(alloc, r.members(), Part::First)?)
}

/// `\ran r`.
pub fn range(alloc: Global, r: &Value) -> Result<Outcome, AllocError>
    ensures { IfOk result (IsRange (members r.now)) }
{
    display(alloc, parts(alloc, r.members(), Part::Second)?)
}

/// `r \inv`.
pub fn inverse(alloc: Global, r: &Value) -> Result<Outcome, AllocError>
    ensures { IfOk result (IsInverse (members r.now)) }
{
    let mut values = Vec::new(alloc);
    for z in r.members() {
        if let Some((x, y)) = z.pair() {
            values.push(pair_of(alloc, y, x)?)?;
        }
    }
    display(alloc, values)
}

/// `r \limg a \rimg`.
pub fn image(alloc: Global, r: &Value, a: &Value) -> Result<Outcome, AllocError>
    ensures { IfOk result (IsImage (members r.now) (members a.now)) }
{
    let kept = selected(
        alloc,
        r.members(),
        &Selection {
            test: Part::First,
            keep: Keep::Members,
            set: a.members(),
            given: Part::Second,
        },
    )?;
    display(alloc, kept)
}

/// `r \comp q`.
pub fn composition(alloc: Global, r: &Value, q: &Value) -> Result<Outcome, AllocError>
    ensures { IfOk result (IsComposition (members r.now) (members q.now)) }
{
    let mut values = Vec::new(alloc);
    for z in r.members() {
        if let Some((x, y)) = z.pair() {
            pair_all(alloc, &mut values, x, related(q, y))?;
            if is_too_many(&mut values)? {
                return Ok(Outcome::Out);
            }
        }
    }
    display(alloc, values)
}

/// `r \oplus q`.
pub fn overriding(alloc: Global, r: &Value, q: &Value) -> Result<Outcome, AllocError>
    ensures { IfOk result (IsOverriding (members r.now) (members q.now)) }
{
    let over = q.members();
    let mut firsts = parts(alloc, over, Part::First)?;
    make_ascending(&mut firsts)?;
    let mut values = selected(
        alloc,
        r.members(),
        &Selection {
            test: Part::First,
            keep: Keep::Others,
            set: firsts.as_slice(),
            given: Part::Whole,
        },
    )?;
    copy_onto(alloc, &mut values, over)?;
    display(alloc, values)
}

/// `a \dres r`.
pub fn domain_restriction(alloc: Global, a: &Value, r: &Value) -> Result<Outcome, AllocError>
    ensures { IfOk result (IsDomainRestriction (members a.now) (members r.now)) }
{
    let kept = selected(
        alloc,
        r.members(),
        &Selection {
            test: Part::First,
            keep: Keep::Members,
            set: a.members(),
            given: Part::Whole,
        },
    )?;
    display(alloc, kept)
}

/// `a \ndres r`.
pub fn domain_subtraction(alloc: Global, a: &Value, r: &Value) -> Result<Outcome, AllocError>
    ensures { IfOk result (IsDomainSubtraction (members a.now) (members r.now)) }
{
    let kept = selected(
        alloc,
        r.members(),
        &Selection {
            test: Part::First,
            keep: Keep::Others,
            set: a.members(),
            given: Part::Whole,
        },
    )?;
    display(alloc, kept)
}

/// `r \rres b`.
pub fn range_restriction(alloc: Global, r: &Value, b: &Value) -> Result<Outcome, AllocError>
    ensures { IfOk result (IsRangeRestriction (members r.now) (members b.now)) }
{
    let kept = selected(
        alloc,
        r.members(),
        &Selection {
            test: Part::Second,
            keep: Keep::Members,
            set: b.members(),
            given: Part::Whole,
        },
    )?;
    display(alloc, kept)
}

/// `r \nrres b`.
pub fn range_subtraction(alloc: Global, r: &Value, b: &Value) -> Result<Outcome, AllocError>
    ensures { IfOk result (IsRangeSubtraction (members r.now) (members b.now)) }
{
    let kept = selected(
        alloc,
        r.members(),
        &Selection {
            test: Part::Second,
            keep: Keep::Others,
            set: b.members(),
            given: Part::Whole,
        },
    )?;
    display(alloc, kept)
}

/// What the relation takes the value to, if that is one value alone.
pub fn applied<'a>(f: &'a Value, x: &Value) -> Option<&'a Value>
    ensures { MatchOption result (IsApplied (members f.now) x.now Outcome.Undefined) (λ y. IsApplied (members f.now) x.now (Outcome.Is y.now)) }
{
    let mut found = None;
    for z in related(f, x) {
        if let Some((_, y)) = z.pair() {
            if found.is_some() {
                return None;
            }
            found = Some(y);
        }
    }
    found
}

/// Whether the pair of the values is a member of the set.
pub fn relates(r: &Value, x: &Value, y: &Value) -> bool
    ensures { IsTrue result ↔ IsMember (pair x.now y.now) (members r.now) }
{
    is_pair_found(x, y, r.members())
}

// ---- steps

/// Whether the pair of the values is among these.
fn is_pair_found(x: &Value, y: &Value, values: &[Value]) -> bool
    requires { IsAscending values.now }
    ensures { IsTrue result ↔ IsMember (pair x.now y.now) values.now }
{
    values.binary_search_by(|z| beside_pair(z, x, y)).is_ok()
}

/// How a value compares with the pair of two.
fn beside_pair(z: &Value, x: &Value, y: &Value) -> Ordering
    ensures { result ≡ value_order z.now (pair x.now y.now) }
{
    match z.form() {
        Form::Int(_) => Ordering::Less,
        Form::Elem(_, _) => Ordering::Less,
        Form::Tuple(items) => parts_beside_pair(items.as_slice(), x, y),
        Form::SetOf(_) => Ordering::Greater,
    }
}

/// The same of a tuple of these parts.
fn parts_beside_pair(parts: &[Value], x: &Value, y: &Value) -> Ordering
    ensures { result ≡ slice_cmp value_order parts.now (x.now ∷ y.now ∷ []) }
{
    match parts {
        [] => Ordering::Less,
        [a] => a.order(x).then(Ordering::Less),
        [a, b] => a.order(x).then_with(|| b.order(y)),
        [a, b, _, ..] => a.order(x).then(b.order(y).then(Ordering::Greater)),
    }
}

/// The members that begin with the value.
fn related<'a>(r: &'a Value, x: &Value) -> &'a [Value]
    ensures { AreRelated (members r.now) x.now result.now }
{
    let pairs = r.members();
    let (start, end) = stretch(pairs, x);
    &pairs[start..end]
}

/// From where to where the members begin with the value.
fn stretch(r: &[Value], x: &Value) -> (usize, usize)
    requires { IsAscending r.now }
    ensures order { result.0 ≤ result.1 }
    ensures bound { result.1 ≤ length r.now }
    ensures related { AreRelated r.now x.now (slice_range r.now result.0 result.1) }
{
    let start = r.partition_point(|z| place_beside(x, z).is_lt());
    let mut end = start;
    while end < r.len() && place_beside(x, &r[end]).is_le() {
        end += 1;
    }
    (start, end)
}

/// Where the value stands beside the tuples that begin with x.
fn place_beside(x: &Value, z: &Value) -> Ordering
    ensures { result ≡ place x.now z.now }
{
    match z.form() {
        Form::Int(_) | Form::Elem(_, _) => Ordering::Less,
        Form::Tuple(items) => match items.as_slice() {
            [] => Ordering::Less,
            [y, ..] => y.order(x),
        },
        Form::SetOf(_) => Ordering::Greater,
    }
}

fn pair_of(alloc: Global, x: &Value, y: &Value) -> Result<Value, AllocError>
    ensures { IfOk result (λ v. v ≡ pair x.now y.now) }
{
    tuple_of_two(alloc, x.copy(alloc)?, y.copy(alloc)?)
}

/// Adds the pairs of x with the seconds of these.
fn pair_all(
    alloc: Global,
    values: &mut Vec<Value>,
    x: &Value,
    pairs: &[Value],
) -> Result<(), AllocError>
    ensures { OnOk result (AddsPairs x.now pairs.now values.old.items values.new.items) }
{
    for z in pairs {
        if let Some((_, y)) = z.pair() {
            values.push(pair_of(alloc, x, y)?)?;
        }
    }
    Ok(())
}

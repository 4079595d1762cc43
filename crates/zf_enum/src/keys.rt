//! Keys of the values of a component: what a side of an equation that names nothing else comes to with them, a number each.
ghost use Rattle.std.specs.Prelude.{◌≡◌, ◌<◌, ◌^◌, Some, IsTrue, IfOk, IfSome, slice_get, slice_index_or, []};
ghost use Rattle.zf_enum.specs.Prelude.{resolved_of, AreWithin, picked, environment_of};
ghost use Rattle.zf_value.specs.declared.plain.Value as plain;
ghost use Rattle.zf_enum.specs.{AreSides, HasKey, HasKeyWith, IsKey, IsKeyed, IsOnly, number_of};
ghost use Rattle.zf_enum.specs.Property as spec;

use crate::due::{due, uses};
use crate::fixing::{is_component, is_equality, relation_of};
use crate::shown::Shown;
use std::alloc::AllocError;
use std::hash::{FoldHasher, Hash, Hasher};
use zf_meaning::{Env, Row, value_of};
use zf_term::Resolved;
use zf_value::{Outcome, Value};
use zf_walk::{Picked, Range};

/// The sides of an equation: one that names a component, and the other.
#[derive(Clone, Copy)]
pub(crate) struct Sides<'t, 'a> {
    pub(crate) key: &'t Resolved<'a>,
    pub(crate) other: &'t Resolved<'a>,
}

/// The sides of an equation, where one is an expression of this component alone, and the other one of those before.
pub(crate) fn keyed<'t, 'a>(term: &'t Resolved<'a>, component: usize) -> Option<Sides<'t, 'a>>
    requires { spec.due (resolved_of term.now) < 2 ^ 64 }
    ensures { IfSome result (λ s. IsKeyed (resolved_of term.now) component (resolved_of s.key.now) (resolved_of s.other.now)) }
{
    let it = relation_of(term)?;
    if !is_equality(it.relation) {
        return None;
    }
    key_first(it.left, it.right, component)
}

/// The sides, the one that is an expression of this component alone first.
#[tactic(auto, using(crate::proofs::Keying::first_sides, crate::proofs::Keying::last_sides))]
fn key_first<'t, 'a>(
    left: &'t Resolved<'a>,
    right: &'t Resolved<'a>,
    component: usize,
) -> Option<Sides<'t, 'a>>
    requires left { spec.due (resolved_of left.now) < 2 ^ 64 }
    requires right { spec.due (resolved_of right.now) < 2 ^ 64 }
    ensures { IfSome result (λ s. AreSides (resolved_of left.now) (resolved_of right.now) component (resolved_of s.key.now) (resolved_of s.other.now)) }
{
    if is_only(left, component) && due(right) <= component {
        return Some(Sides {
            key: left,
            other: right,
        });
    }
    if is_only(right, component) && due(left) <= component {
        return Some(Sides {
            key: right,
            other: left,
        });
    }
    None
}

/// Whether a term names this component and no other, and is more than its name.
fn is_only(term: &Resolved<'_>, component: usize) -> bool
    requires { spec.due (resolved_of term.now) < 2 ^ 64 }
    ensures { IsTrue result → IsOnly (resolved_of term.now) component }
{
    if is_component(term, component) || !uses(term, component) {
        return false;
    }
    if due(term).saturating_sub(1) > component {
        return false;
    }
    for other in 0..component {
        if uses(term, other) {
            return false;
        }
    }
    true
}

/// As many values as are asked for, each the same.
#[derive(Drop)]
pub struct Repeated<'v> {
    pub value: &'v Value,
    pub count: usize,
}

impl<'v> Row for Repeated<'v> {
    ghost use Rattle.std.specs.Prelude.{replicate};

    ghost values = { λ r. replicate r.count r.value.now };

    fn len(&self) -> usize {
        self.count
    }

    #[tactic(auto, using(crate::proofs::Keying::get_repeated))]
    fn get(&self, place: usize) -> &Value {
        self.value
    }
}

/// The key of the value at a place of a range: that of what an expression of its component alone comes to.
pub(crate) fn key_at<'a>(
    side: &Resolved<'a>,
    ranges: &[Range<Value>],
    component: usize,
    place: usize,
    env: &Env<'_, 'a>,
) -> Result<Option<u64>, AllocError>
    requires { IsOnly (resolved_of side.now) component }
    ensures { IfOk result (λ found. IfSome found (λ n. (v : plain.Value) → slice_get (slice_index_or ranges.now component []) place ≡ Some v → HasKeyWith (environment_of env.now) (resolved_of side.now) component v n)) }
{
    let Some(count) = component.checked_add(1) else {
        return Ok(None);
    };
    if component >= ranges.len() {
        return Ok(None);
    }
    let range = &ranges[component];
    if place >= range.values.len() {
        return Ok(None);
    }
    let value = &range.values[place];
    let row = Repeated { value, count };
    let outcome = value_of(side, &row, env)?;
    Ok(key_of(&outcome))
}

/// The key of what an expression comes to in a row.
pub(crate) fn key_of_row<'a>(
    side: &Resolved<'a>,
    ranges: &[Range<Value>],
    places: &[usize],
    env: &Env<'_, 'a>,
) -> Result<Option<u64>, AllocError>
    requires { AreWithin ranges.now places.now }
    ensures { IfOk result (λ found. IfSome found (HasKey (environment_of env.now) (picked ranges.now places.now) (resolved_of side.now))) }
{
    let row = Picked::new(ranges, places);
    let shown = Shown { row: &row };
    let outcome = value_of(side, &shown, env)?;
    Ok(key_of(&outcome))
}

/// The key of an outcome that is not out.
fn key_of(outcome: &Outcome) -> Option<u64>
    ensures { IfSome result (IsKey outcome.now) }
{
    match outcome {
        Outcome::Is(value) => Some(number_of(value)),
        Outcome::Undefined => Some(0),
        Outcome::Out => None,
    }
}

/// A number of a value, which others may have too.
fn number_of(value: &Value) -> u64
    ensures { result ≡ number_of value.now }
{
    let mut hasher = FoldHasher::default();
    value.hash(&mut hasher);
    hasher.finish()
}

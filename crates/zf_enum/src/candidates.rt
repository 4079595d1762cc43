//! The places of a range at which the values of an expression stand.
ghost use Rattle.std.specs.Prelude.{◌≡◌, ◌<◌, ◌≤◌, ℕ, [], length, true, AllPairs, Some, IsTrue, IfOk, OnOk, slice_get, slice_index_or};
ghost use Rattle.zf_enum.specs.Prelude.{Less, resolved_of, IsMember, value_order, AreAscending, AreWithin, picked, StaysIn, environment_of};
ghost use Rattle.zf_value.specs.declared.plain.Value as value;
ghost use Rattle.zf_enum.specs.{AreCandidates, HasPlace, IsKept};
ghost use Rattle.zf_enum.specs.Property as spec;
ghost use Rattle.zf_enum.specs.Uses as named;

use crate::due::{due, uses};
use crate::shown::Shown;
use std::alloc::AllocError;
use zf_meaning::{Env, value_of};
use zf_ranges::rows_weight;
use zf_term::Resolved;
use zf_value::{Outcome, Value};
use zf_walk::{Picked, Range};

/// What of a range an expression leaves.
#[derive(Clone, Copy)]
pub(crate) enum Tie {
    /// The value that it comes to.
    Value,
    /// The members of that value.
    Members,
}

/// Gathers the places of the next range that an expression leaves, over all values of the components that it uses after. Answers false where it is out.
pub(crate) fn gather_candidates<'a>(
    side: &Resolved<'a>,
    tie: Tie,
    ranges: &[Range<Value>],
    places: &[usize],
    env: &Env<'_, 'a>,
    gathered: &mut Vec<usize>,
) -> Result<bool, AllocError>
    requires due { spec.due (resolved_of side.now) ≤ length ranges.now }
    requires ascending { AreAscending value_order ranges.now }
    requires within { AreWithin ranges.now places.now }
    requires deeper { length places.now < length ranges.now }
    ensures stay { StaysIn gathered.old.items gathered.new.items }
    ensures candidates { IfOk result (λ found. IsTrue found → AreCandidates tie (environment_of env.now) (resolved_of side.now) ranges.now (picked ranges.now places.now) (slice_index_or ranges.now (length places.now) []) gathered.new.items) }
{
    let next = places.len();
    let due = due(side);
    if due <= next {
        return gather_value(side, tie, ranges, places, next, env, gathered);
    }
    let mut longer = Vec::with_capacity(*gathered.allocator(), due)?;
    longer.extend_from_slice(places)?;
    gather_ahead(side, tie, ranges, &mut longer, next, due, env, gathered)
}

/// Gathers the places of the next range at which members of a set over variables stand. Answers false where the set has no value, or where the variables have so many rows that a test of each value is likely to cost less.
pub(crate) fn gather_spread<'a>(
    set: &Resolved<'a>,
    ranges: &[Range<Value>],
    places: &[usize],
    env: &Env<'_, 'a>,
    gathered: &mut Vec<usize>,
) -> Result<bool, AllocError>
    requires due { spec.due (resolved_of set.now) ≤ length ranges.now }
    requires ascending { AreAscending value_order ranges.now }
    requires within { AreWithin ranges.now places.now }
    requires deeper { length places.now < length ranges.now }
    ensures stay { StaysIn gathered.old.items gathered.new.items }
    ensures candidates { IfOk result (λ found. IsTrue found → AreCandidates Tie.Members (environment_of env.now) (resolved_of set.now) ranges.now (picked ranges.now places.now) (slice_index_or ranges.now (length places.now) []) gathered.new.items) }
{
    if !has_few_rows(set, ranges, places, env)? || !is_tried(set, ranges, places.len()) {
        return Ok(false);
    }
    gather_candidates(set, Tie::Members, ranges, places, env, gathered)
}

/// Whether the variables of a set have few rows, by how many values there are in the next range.
fn has_few_rows<'a>(
    set: &Resolved<'a>,
    ranges: &[Range<Value>],
    places: &[usize],
    env: &Env<'_, 'a>,
) -> Result<bool, AllocError>
    requires within { AreWithin ranges.now places.now }
    requires deeper { length places.now < length ranges.now }
{
    let Resolved::Comprehension(_, variables, _, _) = set else {
        return Ok(false);
    };
    let row = Picked::new(ranges, places);
    let shown = Shown { row: &row };
    let rows = rows_weight(variables.as_slice(), &shown, env)?;
    let next = &ranges[places.len()];
    Ok(rows / 4 <= next.values.len())
}

/// Whether the places that an expression leaves are gathered.
pub(crate) fn is_tried(side: &Resolved<'_>, ranges: &[Range<Value>], next: usize) -> bool
    requires next { next < length ranges.now }
    requires due { spec.due (resolved_of side.now) ≤ length ranges.now }
{
    let due = due(side);
    due <= next || is_worth_it(side, ranges, next, due)
}

/// Whether the components after that an expression uses have no more rows than the range has values. With each value that is not left out, all these rows would have to be tried.
fn is_worth_it(side: &Resolved<'_>, ranges: &[Range<Value>], next: usize, due: usize) -> bool
    requires next { next < length ranges.now }
    requires due { due ≤ length ranges.now }
{
    let mut rows: usize = 1;
    for component in next + 1..due {
        if uses(side, component) {
            let range = &ranges[component];
            rows = rows.saturating_mul(range.values.len());
        }
    }
    let range = &ranges[next];
    rows <= range.values.len()
}

/// The same from the first places on, of so many that the expression needs.
fn gather_ahead<'a>(
    side: &Resolved<'a>,
    tie: Tie,
    ranges: &[Range<Value>],
    places: &mut Vec<usize>,
    next: usize,
    due: usize,
    env: &Env<'_, 'a>,
    gathered: &mut Vec<usize>,
) -> Result<bool, AllocError>
    requires due { spec.due (resolved_of side.now) ≤ due }
    requires few { due ≤ length ranges.now }
    requires next { next < length ranges.now }
    requires ascending { AreAscending value_order ranges.now }
    requires within { AreWithin ranges.now places.old.items }
    ensures same { OnOk result (places.new.items ≡ places.old.items) }
    ensures stay { StaysIn gathered.old.items gathered.new.items }
    ensures candidates { IfOk result (λ found. IsTrue found → AreCandidates tie (environment_of env.now) (resolved_of side.now) ranges.now (picked ranges.now places.old.items) (slice_index_or ranges.now next []) gathered.new.items) }
{
    let component = places.len();
    if due <= component {
        return gather_value(side, tie, ranges, places, next, env, gathered);
    }
    let range = &ranges[component];
    let end = tried(side, component, range.values.len());
    for place in 0..end {
        places.push(place)?;
        let found = gather_ahead(side, tie, ranges, places, next, due, env, gathered)?;
        places.truncate(component);
        if !found {
            return Ok(false);
        }
    }
    Ok(true)
}

/// How many values of a component are tried: all that there are, or one where the expression doesn't use it.
fn tried(side: &Resolved<'_>, component: usize, count: usize) -> usize
    ensures within { result ≤ count }
    ensures all { named.uses (resolved_of side.now) component ≡ true → result ≡ count }
    ensures some { 0 < count → 0 < result }
{
    if uses(side, component) {
        count
    } else {
        count.min(1)
    }
}

/// The place of the expression's value, where it needs no more than these.
pub(crate) fn gather_value<'a>(
    side: &Resolved<'a>,
    tie: Tie,
    ranges: &[Range<Value>],
    places: &[usize],
    next: usize,
    env: &Env<'_, 'a>,
    gathered: &mut Vec<usize>,
) -> Result<bool, AllocError>
    requires due { spec.due (resolved_of side.now) ≤ length places.now }
    requires next { next < length ranges.now }
    requires ascending { AreAscending value_order ranges.now }
    requires within { AreWithin ranges.now places.now }
    ensures stay { StaysIn gathered.old.items gathered.new.items }
    ensures candidates { IfOk result (λ found. IsTrue found → AreCandidates tie (environment_of env.now) (resolved_of side.now) ranges.now (picked ranges.now places.now) (slice_index_or ranges.now next []) gathered.new.items) }
{
    let row = Picked::new(ranges, places);
    let shown = Shown { row: &row };
    let outcome = value_of(side, &shown, env)?;
    gather_outcome(outcome, tie, &ranges[next], gathered)
}

/// The places of a range that an outcome leaves.
fn gather_outcome(
    outcome: Outcome,
    tie: Tie,
    range: &Range<Value>,
    gathered: &mut Vec<usize>,
) -> Result<bool, AllocError>
    requires { AllPairs (λ v w. value_order v w ≡ Less) range.now }
    ensures stay { StaysIn gathered.old.items gathered.new.items }
    ensures kept { IfOk result (λ found. IsTrue found → IsKept tie outcome range.now gathered.new.items) }
{
    match outcome {
        Outcome::Is(value) => match tie {
            Tie::Value => gather_place(&value, range, gathered),
            Tie::Members => gather_members(value.members(), range, gathered),
        },
        Outcome::Undefined => match tie {
            Tie::Value => Ok(true),
            Tie::Members => Ok(false),
        },
        Outcome::Out => Ok(false),
    }
}

/// The places of these values in a range.
fn gather_members(
    values: &[Value],
    range: &Range<Value>,
    gathered: &mut Vec<usize>,
) -> Result<bool, AllocError>
    requires { AllPairs (λ v w. value_order v w ≡ Less) range.now }
    ensures stay { StaysIn gathered.old.items gathered.new.items }
    ensures kept { OnOk result ((v : value.Value) → IsMember v values.now → HasPlace v range.now gathered.new.items) }
{
    for value in values {
        gather_place(value, range, gathered)?;
    }
    Ok(true)
}

/// The place of a value in a range.
fn gather_place(
    value: &Value,
    range: &Range<Value>,
    gathered: &mut Vec<usize>,
) -> Result<bool, AllocError>
    requires { AllPairs (λ v w. value_order v w ≡ Less) range.now }
    ensures stay { StaysIn gathered.old.items gathered.new.items }
    ensures kept { OnOk result (HasPlace value.now range.now gathered.new.items) }
{
    if let Some(place) = place_of(value, range) {
        gathered.push(place)?;
    }
    Ok(true)
}

/// The place of a value in a range, if it is there.
fn place_of(value: &Value, range: &Range<Value>) -> Option<usize>
    requires { AllPairs (λ v w. value_order v w ≡ Less) range.now }
    ensures { (i : ℕ) → slice_get range.now i ≡ Some value.now → result ≡ Some i }
{
    match range.values.binary_search(value) {
        Ok(place) => Some(place),
        Err(_) => None,
    }
}

//! The rows of ranges, one after another.
ghost use Rattle.std.specs.Prelude.{◌≡◌, ◌⊎◌, ◌==◌, ◌+◌, ◌<◌, ◌≤◌, [], ◌∷◌, ◌++◌, IfOk, OnOk, MatchOption, List, length, take, slice_index_or};
ghost use Rattle.zf_meaning.specs.Prelude.{list_any};
ghost use Rattle.zf_value.specs.declared.plain.Value as value;
ghost use Rattle.zf_meaning.specs.{ahead, all_rows, AreOthers, ArePlaces, IsAt, IsFirst, IsNext, picked, row_of, rows_after, seen, Skips};
ghost use Rattle.zf_meaning.specs.declared.rows.Passing.TheVariants as passing;

use std::alloc::{AllocError, Global};
use zf_value::{Lent, Value};

/// Which rows may be passed, as one row tells.
#[derive(Drop)]
pub(crate) enum Passing<'v> {
    /// Those that begin with the same values, so many.
    Front(usize),
    /// Those that begin with the same values before a place, and have another value there than this.
    Others(usize, Lent<'v>),
}

/// A row of ranges, after the variables that are bound outside.
#[derive(Drop)]
pub(crate) struct Rows<'v> {
    lists: Vec<&'v [Value]>,
    places: Vec<usize>,
    bound: Vec<&'v Value>,
}

impl<'v> Rows<'v> {
    /// The first row, if there is one.
    pub(crate) fn first(
        alloc: Global,
        outside: &[&'v Value],
        lists: Vec<&'v [Value]>,
    ) -> Result<Option<Rows<'v>>, AllocError>
        ensures { IfOk result (λ r. MatchOption r (all_rows (seen lists.entry.items) ≡ []) (IsFirst (seen outside.now) (seen lists.entry.items))) }
    {
        if has_empty(&lists) {
            return Ok(None);
        }
        let places = vec![in alloc; 0; lists.len()]?;
        let mut bound = Vec::from_slice(alloc, outside)?;
        bind(&lists, &places, &mut bound)?;
        Ok(Some(Rows {
            lists,
            places,
            bound,
        }))
    }

    /// Whether there are so many rows that it pays to pass some.
    pub(crate) fn are_many(&self) -> bool {
        let mut rows: usize = 1;
        for list in &self.lists {
            rows = rows.saturating_mul(list.len());
        }
        rows >= 6
    }

    /// The variables that are bound.
    pub(crate) fn bound(&self) -> &[&'v Value]
        ensures { result.now ≡ self.now.bound.items }
    {
        self.bound.as_slice()
    }

    /// Goes to the next row, and passes only rows that may be. Answers how many first values it does not share all of, if there is one.
    pub(crate) fn pass(&mut self, passing: Passing<'_>) -> Result<Option<usize>, AllocError>
        requires { (outside : List value.Value) × IsAt self.old outside }
        ensures { (outside : List value.Value) → IsAt self.old outside → IfOk result (λ turned. MatchOption turned (Skips passing.entry (row_of self.old) (ahead self.old) []) (λ anew. IsNext outside passing.entry self.old self.new)) }
    {
        let outside = self.bound.len() - self.places.len();
        let Some(turned) = turn_on(&self.lists, &mut self.places, &passing) else {
            return Ok(None);
        };
        self.bound.truncate(outside);
        bind(&self.lists, &self.places, &mut self.bound)?;
        Ok(Some(turned))
    }
}

/// Whether one of the lists has no values.
fn has_empty(lists: &[&[Value]]) -> bool
    ensures { result ≡ list_any (λ xs. length xs == 0) (seen lists.now) }
{
    for list in lists {
        if list.is_empty() {
            return true;
        }
    }
    false
}

/// Turns to the next row, and passes only rows that may be. Answers how many places there are up to the one that went up.
fn turn_on(lists: &[&[Value]], places: &mut [usize], passing: &Passing<'_>) -> Option<usize>
    requires { ArePlaces (seen lists.now) places.old }
    ensures places { ArePlaces (seen lists.now) places.new }
    ensures turned { MatchOption result (Skips passing.now (picked (seen lists.now) places.old) (rows_after (seen lists.now) places.old) []) (λ anew. Skips passing.now (picked (seen lists.now) places.old) (rows_after (seen lists.now) places.old) (picked (seen lists.now) places.new ∷ rows_after (seen lists.now) places.new)) }
{
    let front = go_on(lists, places, passing);
    turn(lists, places, front)
}

/// Goes on in the list of the variable of which a value is wanted, past others. Answers how many first places decide what else is passed.
fn go_on(lists: &[&[Value]], places: &mut [usize], passing: &Passing<'_>) -> usize
    requires { ArePlaces (seen lists.now) places.old }
    ensures places { ArePlaces (seen lists.now) places.new }
    ensures skips { Skips passing.now (picked (seen lists.now) places.old) (rows_after (seen lists.now) places.old) (rows_after (seen lists.now) (take result places.new)) }
{
    match passing {
        Passing::Front(front) => *front,
        Passing::Others(place, value) => go_on_at(lists, places, *place, value.get()),
    }
}

/// The same, of a value at a place.
fn go_on_at(lists: &[&[Value]], places: &mut [usize], place: usize, wanted: &Value) -> usize
    requires { ArePlaces (seen lists.now) places.old }
    ensures places { ArePlaces (seen lists.now) places.new }
    ensures skips { Skips (passing.Others place wanted.now) (picked (seen lists.now) places.old) (rows_after (seen lists.now) places.old) (rows_after (seen lists.now) (take result places.new)) }
{
    if place >= places.len() {
        return place;
    }
    places[place] = before_wanted(lists[place], places[place], wanted);
    place + 1
}

/// The place from which on in the list the next value is the wanted one, or none is left.
fn before_wanted(list: &[Value], from: usize, wanted: &Value) -> usize
    requires { from < length list.now }
    ensures from { from ≤ result }
    ensures place { result < length list.now }
    ensures others { AreOthers list.now from result wanted.now }
{
    let mut before = from;
    for place in from + 1..list.len() {
        if list[place].equals(wanted) {
            return before;
        }
        before = place;
    }
    before
}

/// Turns to the next row after all that have the same first places, so many: the last of these that can goes up by one, and all after it begin again. Answers how many places there are up to the one that went up.
fn turn(lists: &[&[Value]], places: &mut [usize], front: usize) -> Option<usize>
    requires { ArePlaces (seen lists.now) places.old }
    ensures places { ArePlaces (seen lists.now) places.new }
    ensures turned { MatchOption result (rows_after (seen lists.now) (take front places.old) ≡ []) (λ anew. rows_after (seen lists.now) (take front places.old) ≡ picked (seen lists.now) places.new ∷ rows_after (seen lists.now) places.new) }
{
    for i in (0..places.len()).rev() {
        if let Some(next) = next_before(front, i, lists[i], places[i]) {
            places[i] = next;
            return Some(i + 1);
        }
        places[i] = 0;
    }
    None
}

/// The next place in the list, if there is one and the list stands before the front.
fn next_before(front: usize, i: usize, list: &[Value], place: usize) -> Option<usize>
    requires { place < length list.now }
    ensures { MatchOption result ((front ≤ i) ⊎ (length list.now ≤ place + 1)) (λ next. (i < front) × (place + 1 ≡ next) × (next < length list.now)) }
{
    if i < front {
        next_place(list, place)
    } else {
        None
    }
}

/// Binds the values at the places.
fn bind<'v>(
    lists: &[&'v [Value]],
    places: &[usize],
    bound: &mut Vec<&'v Value>,
) -> Result<(), AllocError>
    requires { ArePlaces (seen lists.now) places.now }
    ensures { OnOk result (seen bound.new.items ≡ seen bound.old.items ++ picked (seen lists.now) places.now) }
{
    for i in 0..places.len() {
        bound.push(value_at(lists[i], places[i]))?;
    }
    Ok(())
}

fn value_at<'v>(list: &'v [Value], place: usize) -> &'v Value
    requires { place < length list.now }
    ensures { result.now ≡ slice_index_or list.now place result.now }
{
    &list[place]
}

/// The next place in the list, if there is one.
fn next_place(list: &[Value], place: usize) -> Option<usize>
    requires { place < length list.now }
    ensures { MatchOption result (length list.now ≤ place + 1) (λ next. (place + 1 ≡ next) × (next < length list.now)) }
{
    let next = place + 1;
    if next < list.len() { Some(next) } else { None }
}

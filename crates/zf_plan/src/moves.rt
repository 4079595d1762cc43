//! The moves of a search, whatever the conjuncts say.
ghost use Rattle.std.specs.Prelude.{◌≡◌, ◌+◌, ◌-◌, ◌<◌, [], length, slice_index_or, None, false};
ghost use Rattle.zf_plan.specs.{Forgets, IsAt, Jumps, Lands, LandsNext};

use crate::blame::last_blamed;
use crate::choice::Choice;
use crate::memo::Memo;
use crate::place::Place;
use zf_walk::Range;

/// Goes to the value at place `i` of range `k`, or past the row before it where the range ends before.
fn land(place: &mut Place, k: usize, i: usize, end: usize)
    requires places { k < length place.old.places.items }
    requires stamps { k + 1 < length place.old.marks.stamps.items }
    ensures { Lands end k i place.old place.new }
{
    if i < end {
        place.places[k] = i;
        place.depth = k + 1;
        place.fresh = true;
        place.marks.renew(k + 1);
    } else {
        place.depth = k;
        place.fresh = false;
    }
}

/// Goes to the first chosen value of the next range, or past the row where there is none.
pub fn descend<V>(ranges: &[Range<V>], choices: &[Choice], place: &mut Place, memo: &mut Memo)
    requires at { IsAt ranges.now place.old }
    requires deeper { place.old.depth < length ranges.now }
    requires choices { length choices.now ≡ length ranges.now }
    ensures forgets { Forgets (place.old.depth + 1) memo.old memo.new }
    ensures lands { LandsNext (length (slice_index_or ranges.now place.old.depth [])) (slice_index_or choices.now place.old.depth None) place.old.depth 0 place.old place.new }
{
    let depth = place.depth;
    let range = &ranges[depth];
    let end = range.values.len();
    let choice = &choices[depth];
    let next = choice.next(0, end);
    memo.forget(depth + 1);
    land(place, depth, next, end);
}

/// Goes to the next chosen value of the last range, or past the row before it.
pub fn retreat<V>(ranges: &[Range<V>], choices: &[Choice], place: &mut Place, memo: &mut Memo)
    requires at { IsAt ranges.now place.old }
    requires below { 0 < place.old.depth }
    requires choices { length choices.now ≡ length ranges.now }
    ensures forgets { Forgets place.old.depth memo.old memo.new }
    ensures lands { LandsNext (length (slice_index_or ranges.now (place.old.depth - 1) [])) (slice_index_or choices.now (place.old.depth - 1) None) (place.old.depth - 1) (slice_index_or place.old.places.items (place.old.depth - 1) 0 + 1) place.old place.new }
{
    let last = place.depth - 1;
    let range = &ranges[last];
    let end = range.values.len();
    let from = place.places[last] + 1;
    let choice = &choices[last];
    let next = choice.next(from, end);
    memo.forget(last + 1);
    land(place, last, next, end);
}

/// Where a range is exhausted, goes back past the last value that its values are to be blamed on, which is to be blamed on the others. Where it is open, so is the one before it.
pub fn jump(place: &mut Place, plain: bool)
    requires { place.old.fresh ≡ false → place.old.depth < length place.old.marks.choices.items }
    ensures { Jumps plain place.old place.new }
{
    if place.fresh || place.depth == 0 {
        return;
    }
    let range = place.depth;
    let mark = place.marks.choices[range];
    if plain || mark.is_open {
        place.marks.accuse(range - 1, true, 0);
        return;
    }
    let depth = last_blamed(mark.blame, range);
    place.depth = depth;
    if depth == 0 {
        return;
    }
    let before = place.marks.choices[depth - 1];
    place
        .marks
        .accuse(depth - 1, before.is_open, before.blame | mark.blame);
}

//! Which rows come after the named one.
ghost use Rattle.std.specs.Prelude.{◌≡◌, length};
ghost use Rattle.std.specs.Option.{option_copied};
ghost use Rattle.zf_walk.specs.{AreWithin, HasLength, is_reached, picked, reaches};

use crate::picked::pick;
use crate::range::Range;
use std::cmp::Ordering;

/// Whether a row is greater than the named one of as many values, or, where `here`, is this one.
fn reaches<V: Ord>(here: bool, named: &[V], ranges: &[Range<V>], places: &[usize]) -> bool
    requires within { AreWithin ranges.now places.now }
    requires long { length named.now ≡ length places.now }
    ensures { result ≡ reaches V.cmp here named.now (picked ranges.now places.now) }
{
    for i in 0..named.len() {
        match named[i].cmp(pick(ranges, places, i)) {
            Ordering::Less => return true,
            Ordering::Greater => return false,
            Ordering::Equal => {}
        }
    }
    here
}

/// Whether a row is not less than the front of the named one, or, with all values, is greater.
pub fn is_reached<V: Ord>(after: Option<&[V]>, ranges: &[Range<V>], places: &[usize]) -> bool
    requires within { AreWithin ranges.now places.now }
    requires named { HasLength (option_copied after) (length ranges.now) }
    ensures { result ≡ is_reached V.cmp (option_copied after.entry) (length ranges.now) (picked ranges.now places.now) }
{
    match after {
        None => true,
        Some(named) => {
            let is_partial = places.len() < ranges.len();
            reaches(is_partial, &named[..places.len()], ranges, places)
        }
    }
}

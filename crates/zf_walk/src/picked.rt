//! Rows by the places of their values in ranges.
ghost use Rattle.std.specs.Prelude.{◌≡◌, ◌<◌, length, slice_get};
ghost use Rattle.zf_walk.specs.{AreWithin, picked};

use crate::range::Range;
use crate::row::Row;
use std::marker::Model;

/// The values at these places of the first ranges, without a copy.
#[derive(Drop)]
pub struct Picked<'a, V> {
    ranges: &'a [Range<V>],
    places: &'a [usize],
}

impl<'a, V> Model for Picked<'a, V> {
    ghost use Rattle.std.specs.Prelude.{List};
    ghost use Rattle.std.specs.Coded.{coded_list};
    ghost use Rattle.zf_walk.specs.Picked.{AreWithin, picked};

    ghost Value = { List V };

    ghost coded = { coded_list V.code };

    ghost view = { λ r. picked r.ranges.now r.places.now };

    ghost invariant = { λ r. AreWithin r.ranges.now r.places.now };
}

impl<'a, V> Picked<'a, V> {
    pub fn new(ranges: &'a [Range<V>], places: &'a [usize]) -> Picked<'a, V>
        requires { AreWithin ranges.now places.now }
        ensures { result ≡ picked ranges.now places.now }
    {
        Picked { ranges, places }
    }
}

impl<'a, V> Row<V> for Picked<'a, V> {
    ghost values = { λ r. r };

    fn len(&self) -> usize {
        self.places.len()
    }

    fn get(&self, i: usize) -> &V {
        pick(self.ranges, self.places, i)
    }
}

/// One value at its place.
pub fn pick<'a, V>(ranges: &'a [Range<V>], places: &[usize], i: usize) -> &'a V
    requires within { AreWithin ranges.now places.now }
    requires index { i < length places.now }
    ensures { slice_get (picked ranges.now places.now) i ≡ Some result.now }
{
    let range = &ranges[i];
    &range.values[places[i]]
}

//! A part as a row of values.
ghost use Rattle.std.specs.Prelude.{◌≡◌, ◌+◌, ◌*◌, ◌<◌, ◌≤◌, length, All, IfOk, slice_get, slice_index_or};
ghost use Rattle.zf_parts.specs.Prelude.{AreWithin, picked};
ghost use Rattle.zf_parts.specs.{counted, IsNumber, ranges_at, total};

use crate::weights::count_at;
use std::alloc::{AllocError, Global};
use std::marker::Model;
use zf_enum::Located;
use zf_meaning::Row;
use zf_value::Value;
use zf_walk::Range;

/// The values at these digits of the ranges at these places.
#[derive(Drop)]
pub struct PartRow<'r> {
    ranges: &'r [Range<Value>],
    places: &'r [usize],
    digits: Vec<usize>,
}

impl<'r> Model for PartRow<'r> {
    ghost use Rattle.std.specs.Prelude.{◌≡◌, ◌<◌, length, All};
    ghost use Rattle.zf_parts.specs.Numbers.{ranges_at};
    ghost use Rattle.std.specs.Coded.{codes};
    ghost use Rattle.zf_parts.specs.PartRows.{PartView};
    ghost use Rattle.zf_value.specs.contracts.plain.Value as plains;
    ghost use Rattle.zf_walk.specs.Picked.{AreWithin};

    ghost Value = { PartView };

    ghost coded = { Prim.hlevel (codes, plains.the_row.coded) };

    ghost view = { λ r. record { ranges = ranges_at r.ranges.now r.places.now; digits = r.digits.items } };

    ghost invariant = { λ r. All (λ p. p < length r.ranges.now) r.places.now × AreWithin (ranges_at r.ranges.now r.places.now) r.digits.items × (length r.digits.items ≡ length r.places.now) };
}

impl<'r> PartRow<'r> {
    /// The first values of all.
    pub fn new(
        alloc: Global,
        ranges: &'r [Range<Value>],
        places: &'r [usize],
    ) -> Result<PartRow<'r>, AllocError>
        requires below { All (λ p. p < length ranges.now) places.now }
        requires some { 0 < total (ranges_at ranges.now places.now) }
        ensures { IfOk result (λ row. (row.ranges ≡ ranges_at ranges.now places.now) × (counted row.ranges row.digits ≡ 0)) }
    {
        let digits = vec![in alloc; 0; places.len()]?;
        Ok(PartRow {
            ranges,
            places,
            digits,
        })
    }

    /// Goes on to the part whose number is so much greater.
    pub fn go_on(&mut self, more: usize)
        requires fits { counted self.old.ranges self.old.digits + more < total self.old.ranges }
        requires few { total self.old.ranges ≤ 134217728 }
        ensures ranges { self.new.ranges ≡ self.old.ranges }
        ensures counted { counted self.new.ranges self.new.digits ≡ counted self.old.ranges self.old.digits + more }
        ensures number { IsNumber self.new.ranges (picked self.new.ranges self.new.digits) (counted self.new.ranges self.new.digits) }
    {
        count_on(self.ranges, self.places, &mut self.digits, more)
    }
}

impl<'r> Row for PartRow<'r> {
    ghost use Rattle.zf_walk.specs.Picked.{picked};

    ghost values = { λ r. picked r.ranges r.digits };

    fn len(&self) -> usize {
        self.digits.len()
    }

    fn get(&self, i: usize) -> &Value {
        value_at(self.ranges, self.places, &self.digits, i)
    }
}

impl<'r> Located for PartRow<'r> {
    ghost ranges = { λ r. r.ranges };

    fn place(&self, i: usize) -> usize {
        digit_at(&self.digits, i)
    }
}

/// One value at its digit.
fn value_at<'r>(
    ranges: &'r [Range<Value>],
    places: &[usize],
    digits: &[usize],
    i: usize,
) -> &'r Value
    requires below { All (λ p. p < length ranges.now) places.now }
    requires within { AreWithin (ranges_at ranges.now places.now) digits.now }
    requires index { i < length digits.now }
    requires place { i < length places.now }
    ensures { slice_get (picked (ranges_at ranges.now places.now) digits.now) i ≡ Some result.now }
{
    let range = &ranges[places[i]];
    &range.values[digits[i]]
}

fn digit_at(digits: &[usize], i: usize) -> usize
    requires { i < length digits.now }
    ensures { result ≡ slice_index_or digits.now i 0 }
{
    digits[i]
}

/// Counts on by so many: mostly the last digits alone change.
fn count_on(ranges: &[Range<Value>], places: &[usize], digits: &mut Vec<usize>, more: usize)
    requires below { All (λ p. p < length ranges.now) places.now }
    requires within { AreWithin (ranges_at ranges.now places.now) digits.old.items }
    requires long { length digits.old.items ≡ length places.now }
    requires fits { counted (ranges_at ranges.now places.now) digits.old.items + more < total (ranges_at ranges.now places.now) }
    requires few { total (ranges_at ranges.now places.now) ≤ 134217728 }
    ensures within { AreWithin (ranges_at ranges.now places.now) digits.new.items }
    ensures long { length digits.new.items ≡ length places.now }
    ensures counted { counted (ranges_at ranges.now places.now) digits.new.items ≡ counted (ranges_at ranges.now places.now) digits.old.items + more }
{
    let mut left = more;
    let mut i = places.len();
    while left > 0 {
        i -= 1;
        let (digit, over) = carried(digits[i] + left, count_at(ranges, places[i]));
        digits[i] = digit;
        left = over;
    }
}

/// What a sum leaves in a digit with so many values, and what is carried over.
fn carried(sum: usize, many: usize) -> (usize, usize)
    requires { 0 < many }
    ensures sum { result.0 + result.1 * many ≡ sum }
    ensures low { result.0 < many }
{
    if sum < many {
        return (sum, 0);
    }
    let rest = sum - many;
    if rest < many {
        return (rest, 1);
    }
    (sum % many, sum / many)
}

//! Numbers of parts: the places of their values in the ranges of the components are digits. So numbers ascend as parts do.
ghost use Rattle.std.specs.Prelude.{◌≡◌, ◌<◌, length, [], All, IfOk, IfSome, slice_index_or};
ghost use Rattle.zf_parts.specs.Prelude.{values_at};
ghost use Rattle.zf_parts.specs.{AreWeights, IsNumber, ranges_at};

use std::alloc::{AllocError, Global};
use zf_enum::Located;
use zf_value::Value;
use zf_walk::Range;

/// How many parts there may be at most for each to have a number.
const MOST: usize = 134_217_728;

/// What each digit counts, and how many numbers there are.
#[derive(Drop)]
pub struct Weights {
    pub each: Vec<usize>,
    pub count: usize,
}

/// The weights of the components at these places, if there are some parts, and not too many.
pub fn weights_of(
    alloc: Global,
    ranges: &[Range<Value>],
    places: &[usize],
) -> Result<Option<Weights>, AllocError>
    ensures { IfOk result (λ found. IfSome found (AreWeights ranges.now places.now)) }
{
    let mut each = vec![in alloc; 0; places.len()]?;
    let mut count = 1;
    let mut i = places.len();
    while i > 0 {
        i -= 1;
        let place = places[i];
        if place >= ranges.len() {
            return Ok(None);
        }
        let values = count_at(ranges, place);
        if values == 0 || count > MOST / values {
            return Ok(None);
        }
        each[i] = count;
        count *= values;
    }
    Ok(Some(Weights { each, count }))
}

/// How many values a component may have.
pub fn count_at(ranges: &[Range<Value>], place: usize) -> usize
    requires { place < length ranges.now }
    ensures { result ≡ length (slice_index_or ranges.now place []) }
{
    let range = &ranges[place];
    range.values.len()
}

impl Weights {
    /// The number of the values at these places of a row.
    pub fn number_of<P: Located>(&self, places: &[usize], row: &P) -> usize
        requires weights { AreWeights (P.ranges row.now) places.now self.now }
        requires within { All (λ p. p < length (P.values row.now)) places.now }
        ensures { IsNumber (ranges_at (P.ranges row.now) places.now) (values_at places.now (P.values row.now)) result }
    {
        let mut number = 0;
        let mut i = places.len();
        while i > 0 {
            i -= 1;
            number += row.place(places[i]) * self.each[i];
        }
        number
    }
}

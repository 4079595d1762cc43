//! Ranges with the same values.
ghost use Rattle.std.specs.Prelude.{◌≡◌, IfSome, IsTrue};

use crate::members::copied;
use std::alloc::Global;
use zf_value::Value;
use zf_walk::Range;

/// How many values a range has at least that is worth to be shared.
const WORTH: usize = 64;

/// The range, which shares its values with an earlier one that has the same. So the values of a declared set take memory once, however many components it has.
pub(crate) fn shared(alloc: Global, range: Range<Value>, earlier: &[Range<Value>]) -> Range<Value>
    ensures { result ≡ range }
{
    let Some(other) = alike(&range, earlier) else {
        return range;
    };
    match copied(alloc, &other.values) {
        Ok(values) => Range { values },
        Err(_) => range,
    }
}

/// The first of some ranges that has the same values, if it is worth to look for one.
fn alike<'r>(range: &Range<Value>, earlier: &'r [Range<Value>]) -> Option<&'r Range<Value>>
    ensures { IfSome result (λ other. other.now ≡ range.now) }
{
    if range.values.len() < WORTH {
        return None;
    }
    for other in earlier {
        if are_equal(&other.values, &range.values) {
            return Some(other);
        }
    }
    None
}

/// Whether these are the same values.
fn are_equal(left: &[Value], right: &[Value]) -> bool
    ensures { IsTrue result → left.now ≡ right.now }
{
    if left.len() != right.len() {
        return false;
    }
    for place in 0..left.len() {
        if !left[place].equals(&right[place]) {
            return false;
        }
    }
    true
}

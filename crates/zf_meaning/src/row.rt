//! Rows of values that are lent.
ghost use Rattle.std.specs.Prelude.{◌≡◌, ◌<◌, Some, length, slice_get};

use zf_value::Value;

/// A list of values that are lent.
pub trait Row {
    ghost use Rattle.std.specs.Prelude.{List};
    ghost use Rattle.zf_value.specs.declared.plain.Value as value;

    /// The values.
    ghost values: { Self → List value.Value };

    fn len(&self) -> usize
        ensures { result ≡ length (values self.now) };

    fn get(&self, place: usize) -> &Value
        requires { place < length (values self.now) }
        ensures { slice_get (values self.now) place ≡ Some result.now };
}

impl Row for &[Value] {
    ghost values = { λ s. s.now };

    fn len(&self) -> usize {
        (*self).len()
    }

    fn get(&self, place: usize) -> &Value {
        &self[place]
    }
}

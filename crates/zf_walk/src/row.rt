//! Rows of values that are lent.
ghost use Rattle.std.specs.Prelude.{◌≡◌, ◌<◌, List, length, slice_get};

/// A list of values that are lent.
pub trait Row<V> {
    /// The values.
    ghost values: { Self → List V };

    fn len(&self) -> usize
        ensures { result ≡ length (values self.now) };

    fn get(&self, i: usize) -> &V
        requires { i < length (values self.now) }
        ensures { slice_get (values self.now) i ≡ Some result.now };
}

impl<V> Row<V> for &[V] {
    ghost values = { λ s. s.now };

    fn len(&self) -> usize {
        (*self).len()
    }

    fn get(&self, i: usize) -> &V {
        &self[i]
    }
}

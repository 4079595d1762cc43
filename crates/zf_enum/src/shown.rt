//! Rows of a walk, as rows of values.
use zf_meaning::Row;
use zf_value::Value;

/// The same row.
#[derive(Drop)]
pub(crate) struct Shown<'r, R> {
    pub(crate) row: &'r R,
}

impl<'r, R: zf_walk::Row<Value>> Row for Shown<'r, R> {
    ghost values = { λ s. R.values s.row.now };

    fn len(&self) -> usize {
        self.row.len()
    }

    fn get(&self, place: usize) -> &Value {
        self.row.get(place)
    }
}

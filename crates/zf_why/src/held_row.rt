//! Held values as a row.

use zf_meaning::Row;
use zf_value::Value;

/// A row with the values that are held, and another one in the place of those that are not.
#[derive(Drop)]
pub struct HeldRow<'h> {
    pub held: &'h [Option<Value>],
    pub other: &'h Value,
}

impl<'h> Row for HeldRow<'h> {
    ghost use Rattle.zf_why.specs.HeldRows.{filled};

    ghost values = { λ r. filled r.other.now r.held.now };

    fn len(&self) -> usize {
        self.held.len()
    }

    fn get(&self, place: usize) -> &Value {
        match &self.held[place] {
            Some(value) => value,
            None => self.other,
        }
    }
}

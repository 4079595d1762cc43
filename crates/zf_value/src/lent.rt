//! Values that are lent where they stand, or owned where they were made.
ghost use Rattle.std.specs.Prelude.{◌≡◌, IfOk};

use crate::held::Held;
use crate::value::Value;
use std::alloc::{AllocError, Global};
use std::marker::Model;

/// A value that may stand elsewhere.
#[derive(Drop)]
pub struct Lent<'a> {
    held: Held<'a>,
}

impl<'a> Model for Lent<'a> {
    ghost use Rattle.zf_value.specs.declared.plain.Value as value;
    ghost use Rattle.zf_value.specs.contracts.plain.Value as values;
    ghost use Rattle.zf_value.specs.Held.{held_value};

    ghost Value = { value.Value };

    ghost coded = { values.the_row.coded };

    ghost view = { λ s. held_value s.held };
}

impl<'a> Lent<'a> {
    pub fn lent(value: &'a Value) -> Lent<'a>
        ensures { result ≡ value.now }
    {
        Lent {
            held: Held::Lent(value),
        }
    }

    pub fn own(value: Value) -> Lent<'a>
        ensures { result ≡ value }
    {
        Lent {
            held: Held::Own(value),
        }
    }

    pub fn get(&self) -> &Value
        ensures { result.now ≡ self.now }
    {
        match &self.held {
            Held::Lent(value) => value,
            Held::Own(value) => value,
        }
    }

    /// The value, which is copied where it is lent.
    pub fn into_value(self, alloc: Global) -> Result<Value, AllocError>
        ensures { IfOk result (λ v. v ≡ self.entry) }
    {
        match self.held {
            Held::Lent(value) => value.copy(alloc),
            Held::Own(value) => Ok(value),
        }
    }
}

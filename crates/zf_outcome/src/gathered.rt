//! The values of several terms.
ghost use Rattle.std.specs.Prelude.{◌≡◌, [], IfOk, OnOk};
ghost use Rattle.zf_outcome.specs.{found_outcome};
ghost use Rattle.zf_outcome.specs.Gathered as spec;

use crate::found::Found;
use std::alloc::{AllocError, Global};
use zf_value::Value;

/// What stands in the way of several values.
#[derive(Clone, Copy, Debug, PartialEq, Eq)]
pub enum Lack {
    Nothing,
    /// One is undefined, and none is out.
    Undefined,
    /// One is out.
    Out,
}

/// The values of several terms, of which some may have none.
#[derive(Drop)]
pub struct Gathered {
    pub values: Vec<Value>,
    pub lack: Lack,
}

impl Gathered {
    ghost use Rattle.zf_outcome.specs.Gathered as spec;

    /// No values, with room for so many.
    pub fn with_room(alloc: Global, room: usize) -> Result<Gathered, AllocError>
        ensures values { IfOk result (λ g. g.values.items ≡ []) }
        ensures lack { IfOk result (λ g. g.lack ≡ Lack.Nothing) }
    {
        let values = Vec::with_capacity(alloc, room)?;
        Ok(Gathered {
            values,
            lack: Lack::Nothing,
        })
    }

    /// Adds the outcome of a further term.
    pub fn add(&mut self, alloc: Global, found: Found<'_>) -> Result<(), AllocError>
        ensures { OnOk result (spec.Adds self.old (found_outcome found.entry) self.new) }
    {
        match found {
            Found::Is(value) => self.values.push(value.into_value(alloc)?)?,
            Found::Undefined => self.lack = self.lack.or_undefined(),
            Found::Out => self.lack = Lack::Out,
        }
        Ok(())
    }
}

impl Lack {
    /// The lack where a further value is undefined.
    pub fn or_undefined(self) -> Lack
        ensures { result ≡ spec.or_undefined self }
    {
        match self {
            Lack::Nothing => Lack::Undefined,
            Lack::Undefined => Lack::Undefined,
            Lack::Out => Lack::Out,
        }
    }
}

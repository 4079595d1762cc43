//! Power sets.
ghost use Rattle.std.specs.Prelude.{◌↔◌, ◌⊎◌, IsTrue, IfOk};
ghost use Rattle.zf_value.specs.declared.plain.Value as plain;
ghost use Rattle.zf_value.specs.{IsPower, IsSubset, members};

use crate::count;
use crate::rows::{Fits, set_of_sets, single_layers, some_rows};
use std::alloc::{AllocError, Global};
use zf_value::set::are_among;
use zf_value::{Outcome, SET_MAX, Value};

/// `\power a`, and `\finset a`.
pub fn power(alloc: Global, a: &Value) -> Result<Outcome, AllocError>
    ensures { IfOk result (IsPower (members a.now)) }
{
    if is_power_out(a) {
        return Ok(Outcome::Out);
    }
    let layers = single_layers(alloc, a.members())?;
    let rows = some_rows(alloc, Fits::Any, layers.as_slice())?;
    set_of_sets(alloc, rows)
}

/// Whether `\power a` has more members than a set may have.
pub fn is_power_out(a: &Value) -> bool
    ensures out { IsTrue result ↔ IsPower (members a.now) Outcome.Out }
    ensures there { IsTrue result ⊎ ((v : plain.Value) × IsPower (members a.now) (Outcome.Is v)) }
{
    count::power(2, a.members().len()) > SET_MAX
}

/// Whether the value is a set of members of a.
pub fn is_in_power(v: &Value, a: &Value) -> bool
    ensures { IsTrue result ↔ IsSubset (members a.now) v.now }
{
    match v.as_set() {
        Some(xs) => are_among(xs, a),
        None => false,
    }
}

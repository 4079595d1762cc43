//! The parts that the bindings ahead of a search have, by their numbers.
ghost use Rattle.std.specs.Prelude.{◌≡◌, ◌<◌, length, cond, All, IfOk, OnOk};
ghost use Rattle.zf_parts.specs.Prelude.{option_copied, IsAtStart, schema_of, value_order, Out, True, AreAscending, SameRanges};
ghost use Rattle.zf_parts.specs.{AreAllMarked, AreWeights, Meets};

use crate::asked::Parts;
use crate::fronts::is_asked;
use crate::marks::Marks;
use crate::weights::Weights;
use std::alloc::{AllocError, Global};
use zf_enum::Search;
use zf_places::values_of;
use zf_value::{Items, Value};
use zf_walk::Step;

/// Which parts are met. From the end on none is looked at: its first binding leaves the bounds, and that is kept, or it is the end of all numbers.
#[derive(Drop)]
pub struct Met {
    pub weights: Weights,
    pub marks: Marks,
    pub end: usize,
    pub out: Option<Items<Value>>,
}

/// The parts of the bindings that are ahead.
pub fn meet_all<S: Search>(
    alloc: Global,
    parts: Parts<'_, '_>,
    weights: Weights,
    search: &mut S,
) -> Result<Met, AllocError>
    requires start { IsAtStart (schema_of parts.flat.now) (S.goal search.old) (S.stage search.old) }
    requires weights { AreWeights (S.stage search.old).ranges parts.places.now weights }
    requires ascending { AreAscending value_order (S.stage search.old).ranges }
    ensures same { OnOk result ((S.goal search.new ≡ S.goal search.old) × SameRanges (S.stage search.old) (S.stage search.new)) }
    ensures all { IfOk result (AreAllMarked (S.goal search.old).environment (schema_of parts.entry.flat.now) (S.stage search.old) parts.entry.places.now (option_copied parts.entry.after)) }
{
    let end = weights.count;
    let mut met = Met {
        weights,
        marks: Marks::new(alloc),
        end,
        out: None,
    };
    'bindings: loop {
        match search.advance()? {
            Step::Holds => meet(alloc, &mut met, parts, search, false)?,
            Step::Breaks => meet(alloc, &mut met, parts, search, true)?,
            Step::End => return Ok(met),
        }
    }
}

/// Marks the part of the binding that the last step gave, unless it is marked, is not asked for or comes after one that is out.
fn meet<S: Search>(
    alloc: Global,
    met: &mut Met,
    parts: Parts<'_, '_>,
    search: &S,
    is_out: bool,
) -> Result<(), AllocError>
    requires weights { AreWeights (S.Located.ranges search.now) parts.places.now met.old.weights }
    requires within { All (λ p. p < length (S.Row.values search.now)) parts.places.now }
    ensures weights { met.new.weights ≡ met.old.weights }
    ensures meets { OnOk result (Meets (S.Row.values search.now) (S.Located.ranges search.now) (cond is_out Out True) parts.entry.places.now (option_copied parts.entry.after) met.old met.new) }
{
    let number = met.weights.number_of(parts.places, search);
    if number >= met.end {
        return Ok(());
    }
    if met.marks.has(number) {
        return Ok(());
    }
    if !is_asked(alloc, parts, search)? {
        return Ok(());
    }
    if is_out {
        let values = values_of(alloc, search)?;
        let row = Items::of(alloc, values)?;
        met.end = number;
        met.out = Some(row);
        return Ok(());
    }
    met.marks.mark(number)
}

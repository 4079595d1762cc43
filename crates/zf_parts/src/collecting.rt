//! The parts that the bindings ahead of a search have.
ghost use Rattle.std.specs.Prelude.{◌≡◌, ◌∷◌, ◌++◌, [], List, Contains, None, Some, cond, IfOk, OnOk, MatchBool};
ghost use Rattle.zf_parts.specs.Prelude.{option_copied, IsAtStart, schema_of, value_order, Out, True, ComesAfter, Event, IsLater};
ghost use Rattle.zf_parts.specs.{AreCollected, Ascend, KeepParts};
ghost use Rattle.zf_value.specs.declared.plain.Value as value;

use crate::asked::Parts;
use std::alloc::{AllocError, Global};
use std::collections::BTreeMap;
use zf_enum::Search;
use zf_places::{values_at, values_of};
use zf_value::{Items, Value};
use zf_walk::Step;

/// Parts, each with the row of its first binding if that one leaves the bounds.
pub type Collected = BTreeMap<Items<Value>, Option<Items<Value>>>;

/// The parts of the bindings that are ahead.
pub fn collect<S: Search>(
    alloc: Global,
    parts: Parts<'_, '_>,
    search: &mut S,
) -> Result<Collected, AllocError>
    requires { IsAtStart (schema_of parts.flat.now) (S.goal search.old) (S.stage search.old) }
    ensures { IfOk result (λ m. AreCollected (S.goal search.old).environment (schema_of parts.entry.flat.now) (S.stage search.old) parts.entry.places.now (option_copied parts.entry.after) m.entries) }
{
    let mut collected = BTreeMap::new(alloc);
    'bindings: loop {
        match search.advance()? {
            Step::Holds => add(alloc, &mut collected, parts, search, false)?,
            Step::Breaks => add(alloc, &mut collected, parts, search, true)?,
            Step::End => return Ok(collected),
        }
    }
}

/// Adds the part of the binding that the last step gave, unless it is there or is not asked for.
fn add<S: Search>(
    alloc: Global,
    collected: &mut Collected,
    parts: Parts<'_, '_>,
    search: &S,
    is_out: bool,
) -> Result<(), AllocError>
    ensures { OnOk result ((events : List (Event value.Value)) → Ascend events → ((x : Event value.Value) → Contains events x → ComesAfter value_order x.row (S.values search.now))
        → KeepParts parts.entry.places.now (option_copied parts.entry.after) events collected.old.entries
        → KeepParts parts.entry.places.now (option_copied parts.entry.after) (events ++ record { row = S.values search.now; truth = cond is_out Out True } ∷ []) collected.new.entries) }
{
    let values = values_at(alloc, parts.places, search)?;
    if !is_later(parts.after, values.as_slice()) {
        return Ok(());
    }
    if collected.contains_key(&values) {
        return Ok(());
    }
    let row = row_out(alloc, search, is_out)?;
    collected.insert(values, row)?;
    Ok(())
}

/// Whether values come after the named ones, if some are named.
pub fn is_later(after: Option<&[Value]>, values: &[Value]) -> bool
    ensures { MatchBool result (IsLater value_order (option_copied after.entry) values.now) (IsLater value_order (option_copied after.entry) values.now → ⊥) }
{
    match after {
        None => true,
        Some(named) => named.cmp(&values).is_lt(),
    }
}

/// The values of a row that is out.
fn row_out<S: Search>(
    alloc: Global,
    search: &S,
    is_out: bool,
) -> Result<Option<Items<Value>>, AllocError>
    ensures { IfOk result (λ row. row ≡ cond is_out (Some (S.values search.now)) None) }
{
    if is_out {
        let values = values_of(alloc, search)?;
        Ok(Some(Items::of(alloc, values)?))
    } else {
        Ok(None)
    }
}

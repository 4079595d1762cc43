//! The outcomes of globals, each by those before it.
ghost use Rattle.std.specs.Prelude.{◌≡◌, Some, IfOk, slice_get};
ghost use Rattle.zf_meaning.specs.Prelude.{Defined, definition_of};
ghost use Rattle.zf_meaning.specs.Environments as spec;
ghost use Rattle.zf_meaning.specs.{AreElementsIf, environment_of, IsOutcomeOf, IsTypeSet};

use crate::env::Env;
use crate::value::value_of;
use std::alloc::AllocError;
use zf_term::Entry;
use zf_value::set::elements;
use zf_value::{Form, Outcome, Value};

/// The outcome of the global at this place, by those that are worked out.
pub(crate) fn outcome_at(env: &Env<'_, '_>, place: usize) -> Result<Outcome, AllocError>
    ensures { (d : Defined) → slice_get (environment_of env.now).globals place ≡ Some d → IfOk result (IsOutcomeOf (environment_of env.now) d.definition) }
{
    match env.globals().in_order(place) {
        Some((_, entry)) => outcome_of(env, entry),
        None => Ok(Outcome::Undefined),
    }
}

fn outcome_of<'a>(env: &Env<'_, 'a>, entry: &Entry<'a>) -> Result<Outcome, AllocError>
    ensures { IfOk result (IsOutcomeOf (environment_of env.now) (definition_of entry.now)) }
{
    let no_row: &[Value] = &[];
    match entry {
        Entry::Given(number) => type_set(env, *number),
        Entry::Free(number, _) => type_set(env, *number),
        Entry::Constructor(number, _, place) => Ok(element(*number, *place)),
        Entry::Abbrev(_, term, _) => value_of(term, &no_row, env),
        Entry::Schema(_) => Ok(Outcome::Undefined),
    }
}

/// The set of all elements of the type of this number.
pub(crate) fn type_set(env: &Env<'_, '_>, number: usize) -> Result<Outcome, AllocError>
    ensures { IfOk result (IsTypeSet (environment_of env.now) number) }
{
    match u32::try_from(number) {
        Ok(number) => elements_of(env, number),
        Err(_) => Ok(Outcome::Undefined),
    }
}

fn elements_of(env: &Env<'_, '_>, number: u32) -> Result<Outcome, AllocError>
    ensures { IfOk result (AreElementsIf number (slice_get (environment_of env.now).sizes number)) }
{
    match env.size(number) {
        Some(count) => elements(env.allocator(), number, count),
        None => Ok(Outcome::Undefined),
    }
}

/// The element at this place of the type of this number.
fn element(number: usize, place: usize) -> Outcome
    ensures { result ≡ spec.element number place }
{
    match u32::try_from(number) {
        Ok(number) => Outcome::Is(Value {
            form: Form::Elem(number, place as u64),
        }),
        Err(_) => Outcome::Undefined,
    }
}

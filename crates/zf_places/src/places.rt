//! What stands at places of a row or of a schema.
ghost use Rattle.std.specs.Prelude.{◌≡◌, ◌++◌, ◌∷◌, [], IfOk, OnOk, map, slice_get};
ghost use Rattle.std.specs.Option.{option_to_list};
ghost use Rattle.zf_places.specs.Places as spec;
ghost use Rattle.zf_term.specs.{comp_of, schema_of};

use bumpalo::Bump;
use std::alloc::{AllocError, Global};
use zf_data::arena::{Chunked, Items as ArenaItems, Lasting};
use zf_meaning::Row;
use zf_term::{Component, Flat};
use zf_value::{Items, Value};

/// The values at these places of a row.
pub fn values_at<R: Row>(
    alloc: Global,
    places: &[usize],
    row: &R,
) -> Result<Items<Value>, AllocError>
    ensures { IfOk result (λ values. values ≡ spec.values_at places.now (R.values row.now)) }
{
    let mut values = Vec::with_capacity(alloc, places.len())?;
    for place in places {
        if *place < row.len() {
            values.push(row.get(*place).copy(alloc)?)?;
        }
    }
    Items::of(alloc, values)
}

/// The values of a row.
pub fn values_of<R: Row>(alloc: Global, row: &R) -> Result<Vec<Value>, AllocError>
    ensures { IfOk result (λ values. values.items ≡ R.values row.now) }
{
    let mut values = Vec::with_capacity(alloc, row.len())?;
    for place in 0..row.len() {
        values.push(row.get(place).copy(alloc)?)?;
    }
    Ok(values)
}

/// A schema of the components at these places alone.
pub fn schema_at<'a>(
    arena: &'a Bump,
    components: &[Component<'a>],
    places: &[usize],
) -> Result<&'a Flat<'a>, AllocError>
    ensures { IfOk result (λ f. (schema_of f.now).comps ≡ spec.comps_at (map comp_of components.now) places.now) }
{
    lasting_schema(arena, components_at(arena, components, places)?)
}

/// A schema of these components alone.
fn lasting_schema<'a>(
    arena: &'a Bump,
    components: ArenaItems<'a, Component<'a>>,
) -> Result<&'a Flat<'a>, AllocError>
    ensures { IfOk result (λ f. (schema_of f.now).comps ≡ map comp_of components.entry) }
{
    let schema = Flat {
        components,
        conjuncts: Chunked::new(arena),
    };
    let lasting = Lasting::new(arena, schema)?;
    Ok(lasting.get())
}

/// The components at these places.
fn components_at<'a>(
    arena: &'a Bump,
    components: &[Component<'a>],
    places: &[usize],
) -> Result<ArenaItems<'a, Component<'a>>, AllocError>
    ensures { IfOk result (λ cs. map comp_of cs ≡ spec.comps_at (map comp_of components.now) places.now) }
{
    let mut found = ArenaItems::with_room(arena, places.len())?;
    for place in places {
        add_component(&mut found, components, *place)?;
    }
    Ok(found)
}

/// Adds the component at a place, if there is one.
fn add_component<'a>(
    found: &mut ArenaItems<'a, Component<'a>>,
    components: &[Component<'a>],
    place: usize,
) -> Result<(), AllocError>
    ensures { OnOk result (map comp_of found.new ≡ map comp_of found.old ++ option_to_list (slice_get (map comp_of components.now) place)) }
{
    match components.get(place) {
        None => Ok(()),
        Some(component) => {
            add_same(found, component)?;
            Ok(())
        }
    }
}

/// Adds the same component.
fn add_same<'a>(
    found: &mut ArenaItems<'a, Component<'a>>,
    component: &Component<'a>,
) -> Result<(), AllocError>
    ensures { OnOk result (found.new ≡ found.old ++ component.now ∷ []) }
{
    found.push(component.share()?)
}

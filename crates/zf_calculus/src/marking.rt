//! Decorated schemas, and those of operations on a state.
ghost use Rattle.std.specs.Prelude.{◌≡◌, ◌++◌, ℕ, IfErr, IfOk, List, OnOk, length, map};
ghost use Rattle.zf_calculus.specs.Prelude.{comp_of, IsTooLarge, schema_of, place_in};
ghost use Rattle.zf_calculus.specs.Calculus as spec;
ghost use Rattle.zf_calculus.specs.{Agree, comp, conjoined, decorated, delta, IfStopped, IsNext, MarkAgrees, MarkClashes, new_place, OneClashes, prime, Stops, xi};

use crate::components::agree;
use crate::growing::Growing;
use crate::spare::Spare;
use crate::stop::Stop;
use bumpalo::Bump;
use std::alloc::AllocError;
use std::mem;
use std::mem::ManuallyDrop;
use zf_data::arena::{Items, Lasting, Lent};
use zf_term::{Component, Flat, Measured};
use zf_tree::{RefMark, Span};

/// The schema as it is marked: itself, or it and its state after an operation, and then that no component changes.
pub fn marked<'a>(
    arena: &'a Bump,
    mark: RefMark,
    span: Span,
    schema: &Measured<'a>,
    spare: Spare,
) -> Result<Growing<'a>, Stop<'a>>
    ensures agree { IfOk result (λ g. MarkAgrees mark (schema_of schema.now)) }
    ensures ok { IfOk result (λ g. IsNext (spec.marked mark span (schema_of schema.now)) (schema_of g)) }
    ensures err { IfErr result (λ e. IfStopped e (Stops (MarkClashes mark (schema_of schema.now)) (MarkAgrees mark (schema_of schema.now)) (spec.marked mark span (schema_of schema.now)))) }
{
    match mark {
        RefMark::Plain => Ok(copy(arena, schema, spare)?),
        RefMark::Delta => Ok(change(arena, schema, spare)?.0),
        RefMark::Xi => no_change(arena, span, schema, spare),
    }
}

/// A schema and its state after an operation, where no component changes.
fn no_change<'a>(
    arena: &'a Bump,
    span: Span,
    schema: &Measured<'a>,
    spare: Spare,
) -> Result<Growing<'a>, Stop<'a>>
    ensures agree { IfOk result (λ g. Agree (schema_of schema.now).comps (decorated prime (schema_of schema.now)).comps) }
    ensures ok { IfOk result (λ g. IsNext (xi span (schema_of schema.now)) (schema_of g)) }
    ensures err { IfErr result (λ e. IfStopped e (Stops (OneClashes (schema_of schema.now).comps (decorated prime (schema_of schema.now)).comps) (Agree (schema_of schema.now).comps (decorated prime (schema_of schema.now)).comps) (xi span (schema_of schema.now)))) }
{
    let spare = spare.and_conjuncts(schema.flat().components.len());
    let (mut growing, places) = change(arena, schema, spare)?;
    growing.take_equalities(arena, span, places.get().as_slice())?;
    Ok(growing)
}

/// A schema and its state after an operation, and where the components of that state are.
fn change<'a>(
    arena: &'a Bump,
    schema: &Measured<'a>,
    spare: Spare,
) -> Result<(Growing<'a>, Lasting<'a, Items<'a, usize>>), Stop<'a>>
    ensures agree { IfOk result (λ p. Agree (schema_of schema.now).comps (decorated prime (schema_of schema.now)).comps) }
    ensures ok { IfOk result (λ p. IsNext (delta (schema_of schema.now)) (schema_of p.0)) }
    ensures places { IfOk result (λ p. place_in p.1 ≡ new_place (decorated prime (schema_of schema.now)).comps (delta (schema_of schema.now)).comps) }
    ensures each { IfOk result (λ p. length p.1 ≡ length (schema_of schema.now).comps) }
    ensures err { IfErr result (λ e. IfStopped e (Stops (OneClashes (schema_of schema.now).comps (decorated prime (schema_of schema.now)).comps) (Agree (schema_of schema.now).comps (decorated prime (schema_of schema.now)).comps) (delta (schema_of schema.now)))) }
{
    let after = state_after(arena, schema)?;
    let before = copy(arena, schema, spare.and(&after))?;
    let after = alike(&before, after);
    before.merge(arena, after)
}

/// The state after an operation, if its components agree with those of the schema.
fn state_after<'a>(arena: &'a Bump, schema: &Measured<'a>) -> Result<Flat<'a>, Stop<'a>>
    ensures agree { OnOk result (Agree (schema_of schema.now).comps (decorated prime (schema_of schema.now)).comps) }
    ensures ok { IfOk result (λ f. schema_of f ≡ decorated prime (schema_of schema.now)) }
    ensures err { IfErr result (λ e. IfStopped e (OneClashes (schema_of schema.now).comps (decorated prime (schema_of schema.now)).comps)) }
{
    let flat = schema.flat();
    let after = decorate(arena, b"'", flat, Spare::none())?;
    agree(flat.components.as_slice(), after.components.as_slice())?;
    Ok(after)
}

/// The same schema, with room for what is expected of it.
fn copy<'a>(arena: &'a Bump, schema: &Measured<'a>, spare: Spare) -> Result<Growing<'a>, AllocError>
    ensures { IfOk result (λ g. IsNext (schema_of schema.now) (schema_of g)) }
{
    let flat = decorate(arena, b"", schema.flat(), spare)?;
    let left = schema.left();
    Ok(Growing { flat, left })
}

/// A schema that is another one decorated, so that as much is left of the limits.
fn alike<'a>(growing: &Growing<'a>, flat: Flat<'a>) -> Growing<'a>
    requires { (strokes : List ℕ) × (schema_of flat ≡ decorated strokes (schema_of growing.now)) }
    ensures { result ≡ flat.entry }
{
    let left = growing.left;
    Growing { flat, left }
}

/// The schema with strokes at the end of the name of each component, of which nothing else is copied.
pub fn decorate_own<'a>(
    arena: &'a Bump,
    strokes: &[u8],
    growing: Growing<'a>,
) -> Result<Growing<'a>, AllocError>
    ensures { IfOk result (λ g. schema_of g ≡ decorated strokes.now (schema_of growing.entry)) }
{
    if strokes.is_empty() {
        return Ok(growing);
    }
    let left = growing.left;
    let mut flat = growing.flat;
    add_strokes(arena, strokes, &mut flat.components)?;
    Ok(Growing { flat, left })
}

/// Strokes are added to the name of each component.
fn add_strokes<'a>(
    arena: &'a Bump,
    strokes: &[u8],
    components: &mut Items<'a, Component<'a>>,
) -> Result<(), AllocError>
    ensures { OnOk result (map comp_of components.new ≡ map (λ c. comp (c.name ++ strokes.now) c.type c.sets) (map comp_of components.old)) }
{
    let mut all = mem::replace(components, Items::new(arena)).into_vec();
    let added = add_to_each(arena, strokes, all.as_mut_slice());
    *components = Items {
        items: ManuallyDrop::new(all),
    };
    added
}

fn add_to_each<'a>(
    arena: &'a Bump,
    strokes: &[u8],
    components: &mut [Component<'a>],
) -> Result<(), AllocError>
    ensures { OnOk result (map comp_of components.new ≡ map (λ c. comp (c.name ++ strokes.now) c.type c.sets) (map comp_of components.old)) }
{
    for component in components.iter_mut() {
        component.name = stroked(arena, &component.name, strokes)?;
    }
    Ok(())
}

/// A schema with strokes at the end of the name of each component, and with room for what is expected of it.
pub fn decorate<'a>(
    arena: &'a Bump,
    strokes: &[u8],
    flat: &Flat<'a>,
    spare: Spare,
) -> Result<Flat<'a>, AllocError>
    ensures { IfOk result (λ f. schema_of f ≡ decorated strokes.now (schema_of flat.now)) }
{
    let components = decorated_components(arena, strokes, flat.components.as_slice(), spare)?;
    let conjuncts = flat.conjuncts.share(spare.conjuncts)?;
    Ok(Flat {
        components,
        conjuncts,
    })
}

fn decorated_components<'a>(
    arena: &'a Bump,
    strokes: &[u8],
    components: &[Component<'a>],
    spare: Spare,
) -> Result<Items<'a, Component<'a>>, AllocError>
    ensures { IfOk result (λ cs. map comp_of cs ≡ map (λ c. comp (c.name ++ strokes.now) c.type c.sets) (map comp_of components.now)) }
{
    let mut made = Items::with_room(arena, components.len().saturating_add(spare.components))?;
    for component in components {
        made.push(decorated_component(arena, strokes, component)?)?;
    }
    Ok(made)
}

fn decorated_component<'a>(
    arena: &'a Bump,
    strokes: &[u8],
    component: &Component<'a>,
) -> Result<Component<'a>, AllocError>
    ensures { IfOk result (λ c. comp_of c ≡ comp (component.now.name ++ strokes.now) (comp_of component.now).type (comp_of component.now).sets) }
{
    let name = stroked(arena, &component.name, strokes)?;
    let ztype = component.ztype.share()?;
    let domains = component.domains.share()?;
    Ok(Component {
        name,
        ztype,
        domains,
    })
}

/// A name with strokes at its end. Where there are none, it is not copied.
fn stroked<'a>(arena: &'a Bump, name: &Lent<'a>, strokes: &[u8]) -> Result<Lent<'a>, AllocError>
    ensures { IfOk result (λ t. t ≡ name.now ++ strokes.now) }
{
    if strokes.is_empty() {
        return Ok(name.share());
    }
    Lent::joined(arena, name.as_slice(), strokes)
}

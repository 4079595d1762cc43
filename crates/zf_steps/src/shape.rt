//! The schemas of a machine: which of their components are those of the state before, and which those of the state after.
ghost use Rattle.std.specs.Prelude.{◌≡◌, ◌⊎◌, ◌++◌, ◌∷◌, ◌↔◌, [], IfOk, IsTrue, MatchOption, OnOk, cond, map, option_to_list};
ghost use Rattle.zf_steps.specs.Prelude.{filter_map, comp_of, schema_of};
ghost use Rattle.zf_steps.specs.Shapes as spec;
ghost use Rattle.zf_steps.specs.{AreStates, before_of, operation_of};

use crate::system::Operation;
use bumpalo::Bump;
use std::alloc::{AllocError, Global};
use zf_data::arena::{Items, Lent};
use zf_places::schema_at;
use zf_term::{Component, Flat, component_of};

/// The components of the state: before a step, and after it.
#[derive(Clone, Copy)]
pub struct States<'s, 'a> {
    pub before: &'s [Component<'a>],
    pub after: &'s [Component<'a>],
}

/// The components with one more stroke.
pub fn with_strokes<'a>(
    arena: &'a Bump,
    components: &[Component<'a>],
) -> Result<Items<'a, Component<'a>>, AllocError>
    ensures { IfOk result (λ cs. map comp_of cs ≡ spec.with_strokes (map comp_of components.now)) }
{
    let mut stroked = Items::with_room(arena, components.len())?;
    for component in components {
        stroked.push(with_stroke(arena, component)?)?;
    }
    Ok(stroked)
}

fn with_stroke<'a>(arena: &'a Bump, component: &Component<'a>) -> Result<Component<'a>, AllocError>
    ensures { IfOk result (λ c. comp_of c ≡ spec.stroked (comp_of component.now)) }
{
    let name = Lent::joined(arena, component.name.as_slice(), b"'")?;
    let ztype = component.ztype.share()?;
    let domains = component.domains.share()?;
    Ok(Component {
        name,
        ztype,
        domains,
    })
}

// ---- which components there are

/// The name of a component that the schema lacks to be that of initial states.
pub fn init_lacks<'a>(states: States<'_, 'a>, schema: &Flat<'a>) -> Option<&'a [u8]>
    requires { AreStates states }
    ensures { MatchOption result (spec.HasAll (schema_of schema.now).comps (spec.with_strokes (before_of states.entry)) ⊎ spec.HasAll (schema_of schema.now).comps (before_of states.entry)) (λ name. spec.LacksInit (before_of states.entry) (schema_of schema.now) name.now) }
{
    let components = schema.components.as_slice();
    let stroked = lacking(components, states.after)?;
    if are_after(states, components) {
        return Some(stroked);
    }
    lacking(components, states.before)
}

/// Whether the components are those of the state after, by their names.
fn are_after(states: States<'_, '_>, components: &[Component<'_>]) -> bool
    requires { AreStates states }
    ensures { result ≡ spec.are_after (before_of states.entry) (map comp_of components.now) }
{
    names_any(components, states.after) && !names_any(components, states.before)
}

/// Whether one of the components has the name of one that is wanted.
fn names_any(components: &[Component<'_>], wanted: &[Component<'_>]) -> bool
    ensures { result ≡ spec.names_any (map comp_of components.now) (map comp_of wanted.now) }
{
    for component in wanted {
        if place_of(components, component.name.as_slice()).is_some() {
            return true;
        }
    }
    false
}

/// The name of a component that the schema lacks to be an operation.
pub fn step_lacks<'a>(states: States<'_, 'a>, schema: &Flat<'a>) -> Option<&'a [u8]>
    requires { AreStates states }
    ensures { MatchOption result (spec.HasAll (schema_of schema.now).comps (spec.both_states (before_of states.entry))) (λ name. spec.LacksStep (before_of states.entry) (schema_of schema.now) name.now) }
{
    let components = schema.components.as_slice();
    match lacking(components, states.before) {
        Some(name) => Some(name),
        None => lacking(components, states.after),
    }
}

/// The name of the first component of the state whose name the schema has at another type.
pub fn sought_lacks<'a>(state: &[Component<'a>], schema: &Flat<'a>) -> Option<&'a [u8]>
    ensures { MatchOption result (spec.CanBeSought (map comp_of state.now) (schema_of schema.now)) (λ name. spec.LacksSought (map comp_of state.now) (schema_of schema.now) name.now) }
{
    clashing(schema.components.as_slice(), state)
}

/// The name of the first component of the state whose name one of these has at another type.
fn clashing<'a>(components: &[Component<'a>], state: &[Component<'a>]) -> Option<&'a [u8]>
    ensures { MatchOption result (spec.AllowsAll (map comp_of components.now) (map comp_of state.now)) (λ name. spec.StateClashes (map comp_of components.now) (map comp_of state.now) name.now) }
{
    for component in state {
        if !allows(components, component) {
            return Some(component.name.as_slice());
        }
    }
    None
}

/// Whether the component with the name of this one, if there is one, has its type.
fn allows<'a>(components: &[Component<'a>], wanted: &Component<'a>) -> bool
    ensures { IsTrue result ↔ spec.Allows (map comp_of components.now) (comp_of wanted.now) }
{
    match component_of(components, wanted.name.as_slice()) {
        Some((_, component)) => component.ztype.same(&wanted.ztype),
        None => true,
    }
}

/// The name of the first component that is wanted and isn't there.
fn lacking<'a>(components: &[Component<'a>], wanted: &[Component<'a>]) -> Option<&'a [u8]>
    ensures { MatchOption result (spec.HasAll (map comp_of components.now) (map comp_of wanted.now)) (λ name. spec.Lacks (map comp_of components.now) (map comp_of wanted.now) name.now) }
{
    for component in wanted {
        if !has(components, component) {
            return Some(component.name.as_slice());
        }
    }
    None
}

/// Whether there is a component with the name and the type of this one.
fn has<'a>(components: &[Component<'a>], wanted: &Component<'a>) -> bool
    ensures { IsTrue result ↔ spec.Has (map comp_of components.now) (comp_of wanted.now) }
{
    match component_of(components, wanted.name.as_slice()) {
        Some((_, component)) => component.ztype.same(&wanted.ztype),
        None => false,
    }
}

/// The place of the component of the name.
fn place_of(components: &[Component<'_>], name: &[u8]) -> Option<usize>
    ensures { result ≡ spec.place_of (map comp_of components.now) name.now }
{
    match component_of(components, name) {
        Some((place, _)) => Some(place),
        None => None,
    }
}

// ---- the schemas

/// The schema by which the states of this one are tested.
pub fn test_in<'p, 'a>(
    alloc: Global,
    state: &'p Flat<'a>,
    name: &'p [u8],
    schema: &'p Flat<'a>,
) -> Result<Operation<'p, Flat<'a>>, AllocError>
    ensures made { IfOk result (λ o. operation_of schema_of o ≡ spec.test_in (schema_of state.now).comps name.now (schema_of schema.now)) }
    ensures label { IfOk result (λ o. schema_of o.label.now ≡ schema_of state.now) }
{
    let before = state.components.as_slice();
    let components = schema.components.as_slice();
    Ok(Operation {
        name,
        schema,
        sources: sources_of(alloc, before, components)?,
        after: Vec::new(alloc),
        others: Vec::new(alloc),
        label: state,
    })
}

/// The schema of the initial states.
pub fn init_in<'p, 'a>(
    alloc: Global,
    arena: &'a Bump,
    states: States<'_, 'a>,
    name: &'p [u8],
    schema: &'p Flat<'a>,
) -> Result<Operation<'p, Flat<'a>>, AllocError>
    requires states { AreStates states }
    requires has { spec.HasAll (schema_of schema.now).comps (spec.with_strokes (before_of states)) ⊎ spec.HasAll (schema_of schema.now).comps (before_of states) }
    ensures { IfOk result (λ o. spec.IsInit (before_of states.entry) name.now (schema_of schema.now) (operation_of schema_of o)) }
{
    match lacking(schema.components.as_slice(), states.after) {
        None => init_of(alloc, arena, states.after, name, schema),
        Some(_) => init_of(alloc, arena, states.before, name, schema),
    }
}

/// The schema of initial states that have these components.
fn init_of<'p, 'a>(
    alloc: Global,
    arena: &'a Bump,
    wanted: &[Component<'a>],
    name: &'p [u8],
    schema: &'p Flat<'a>,
) -> Result<Operation<'p, Flat<'a>>, AllocError>
    ensures { IfOk result (λ o. operation_of schema_of o ≡ spec.init_in (map comp_of wanted.now) name.now (schema_of schema.now)) }
{
    let components = schema.components.as_slice();
    Ok(Operation {
        name,
        schema,
        sources: Vec::new(alloc),
        after: places_of(alloc, components, wanted)?,
        others: Vec::new(alloc),
        label: schema_at(arena, components, &[])?,
    })
}

/// An operation.
pub fn operation_in<'p, 'a>(
    alloc: Global,
    arena: &'a Bump,
    states: States<'_, 'a>,
    name: &'p [u8],
    schema: &'p Flat<'a>,
) -> Result<Operation<'p, Flat<'a>>, AllocError>
    requires { AreStates states }
    ensures { IfOk result (λ o. operation_of schema_of o ≡ spec.operation_in (before_of states.entry) name.now (schema_of schema.now)) }
{
    let components = schema.components.as_slice();
    let others = others_of(alloc, states, components)?;
    let label = schema_at(arena, components, &others)?;
    Ok(Operation {
        name,
        schema,
        sources: sources_of(alloc, states.before, components)?,
        after: places_of(alloc, components, states.after)?,
        others,
        label,
    })
}

// ---- their components

/// Of each component, which component of the state before it is, if it is one.
fn sources_of(
    alloc: Global,
    state: &[Component<'_>],
    components: &[Component<'_>],
) -> Result<Vec<Option<usize>>, AllocError>
    ensures { IfOk result (λ v. v.items ≡ map (λ c. spec.place_of (map comp_of state.now) (comp_of c).name) components.now) }
{
    let mut sources = Vec::with_capacity(alloc, components.len())?;
    for component in components {
        sources.push(place_of(state, component.name.as_slice()))?;
    }
    Ok(sources)
}

/// The places of the components that are wanted.
fn places_of(
    alloc: Global,
    components: &[Component<'_>],
    wanted: &[Component<'_>],
) -> Result<Vec<usize>, AllocError>
    ensures { IfOk result (λ v. v.items ≡ filter_map (λ c. spec.place_of (map comp_of components.now) (comp_of c).name) wanted.now) }
{
    let mut places = Vec::with_capacity(alloc, wanted.len())?;
    for component in wanted {
        add_place(&mut places, place_of(components, component.name.as_slice()))?;
    }
    Ok(places)
}

/// Adds a place, if there is one.
fn add_place(places: &mut Vec<usize>, place: Option<usize>) -> Result<(), AllocError>
    ensures { OnOk result (places.new.items ≡ places.old.items ++ option_to_list place) }
{
    match place {
        None => Ok(()),
        Some(place) => {
            places.push(place)?;
            Ok(())
        }
    }
}

/// The places of the components of neither state.
fn others_of<'a>(
    alloc: Global,
    states: States<'_, 'a>,
    components: &[Component<'a>],
) -> Result<Vec<usize>, AllocError>
    requires { AreStates states }
    ensures { IfOk result (λ v. v.items ≡ spec.others_from (before_of states.entry) 0 (map comp_of components.now)) }
{
    let mut others = Vec::new(alloc);
    for place in 0..components.len() {
        let name = components[place].name.as_slice();
        add_other(&mut others, is_other(states, name), place)?;
    }
    Ok(others)
}

/// Adds a place, if it is that of another component.
fn add_other(others: &mut Vec<usize>, is_other: bool, place: usize) -> Result<(), AllocError>
    ensures { OnOk result (others.new.items ≡ others.old.items ++ cond is_other (place ∷ []) []) }
{
    if is_other {
        others.push(place)?;
    }
    Ok(())
}

/// Whether neither state has a component of the name.
fn is_other(states: States<'_, '_>, name: &[u8]) -> bool
    requires { AreStates states }
    ensures { result ≡ spec.is_other (before_of states.entry) name.now }
{
    if place_of(states.before, name).is_some() {
        return false;
    }
    place_of(states.after, name).is_none()
}

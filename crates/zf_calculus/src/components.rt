//! Components of a schema: which has a name, which agree, and one more.
ghost use Rattle.std.specs.Prelude.{◌≡◌, ◌++◌, ◌∷◌, [], ◌<◌, ◌≤◌, ◌↔◌, IsTrue, IfErr, IfOk, OnOk, MatchOption, Some, None, map, length, slice_index_or, slice_set};
ghost use Rattle.zf_calculus.specs.Prelude.{Component, AreFew, clash, Comp, comp_of, components_max, too_large, type_of, place_in, enriched};
ghost use Rattle.zf_term.specs.declared.fault.Limit.TheVariants as limit;
ghost use Rattle.zf_calculus.specs.{Agree, Agrees, AreAt, AreOnce, Clashes, comp_named, IfStopped, new_place, OneClashes, place_named, place_or, with_comp, with_comps};

use crate::limits::COMPONENTS_MAX;
use crate::stop::Stop;
use bumpalo::Bump;
use std::alloc::AllocError;
use std::mem;
use std::mem::ManuallyDrop;
use zf_constraints::enrich;
use zf_data::arena::Items;
use zf_term::{Clash, Component, Domains, Limit, component_of};

/// That none of the others has another type than the component that has its name.
pub fn agree<'a>(components: &[Component<'a>], others: &[Component<'a>]) -> Result<(), Stop<'a>>
    ensures ok { OnOk result (Agree (map comp_of components.now) (map comp_of others.now)) }
    ensures err { IfErr result (λ e. IfStopped e (OneClashes (map comp_of components.now) (map comp_of others.now))) }
{
    for other in others {
        agrees(components, other)?;
    }
    Ok(())
}

/// That the component has the type of the one that has its name, if one has.
pub fn agrees<'a>(components: &[Component<'a>], component: &Component<'a>) -> Result<(), Stop<'a>>
    ensures ok { OnOk result (Agrees (map comp_of components.now) (comp_of component.now)) }
    ensures err { IfErr result (λ e. IfStopped e (Clashes (map comp_of components.now) (comp_of component.now))) }
{
    let Some((_, known)) = component_of(components, component.name.as_slice()) else {
        return Ok(());
    };
    if known.ztype.same(&component.ztype) {
        return Ok(());
    }
    Err(clashing(known, component))
}

/// The stop at a component that has another type than one of its name.
#[inline(never)]
fn clashing<'a>(known: &Component<'a>, other: &Component<'a>) -> Stop<'a>
    ensures { IfStopped result (λ o. o ≡ clash other.now.name (type_of known.now.ztype) (type_of other.now.ztype)) }
{
    match both_types(known, other) {
        Ok(clash) => Stop::Clash(clash),
        Err(_) => Stop::OutOfMemory,
    }
}

/// The name of the second, and both types.
fn both_types<'a>(known: &Component<'a>, other: &Component<'a>) -> Result<Clash<'a>, AllocError>
    ensures name { IfOk result (λ c. c.name ≡ other.now.name) }
    ensures left { IfOk result (λ c. c.left ≡ known.now.ztype) }
    ensures right { IfOk result (λ c. c.right ≡ other.now.ztype) }
{
    let name = other.name.share();
    let left = known.ztype.share()?;
    let right = other.ztype.share()?;
    Ok(Clash { name, left, right })
}

/// Whether each component has a name of its own.
pub fn are_apart(components: &[Component<'_>]) -> bool
    ensures { IsTrue result ↔ AreOnce (map comp_of components.now) }
{
    for place in 0..components.len() {
        let name = components[place].name.as_slice();
        if component_of(&components[place + 1..], name).is_some() {
            return false;
        }
    }
    true
}

/// Adds components, one after another, if there is room; answers where they are.
pub fn join_all<'a>(
    components: &mut Items<'a, Component<'a>>,
    arena: &'a Bump,
    further: Items<'a, Component<'a>>,
) -> Result<Items<'a, usize>, Stop<'a>>
    requires { AreFew (map comp_of components.old) }
    ensures ok { OnOk result (map comp_of components.new ≡ with_comps (map comp_of components.old) (map comp_of further.entry)) }
    ensures places { IfOk result (λ places. AreAt (map comp_of components.new) places (map comp_of further.entry)) }
    ensures room { OnOk result (AreFew (with_comps (map comp_of components.old) (map comp_of further.entry))) }
    ensures err { IfErr result (λ e. IfStopped e (λ o. (o ≡ too_large limit.Components) × (AreFew (with_comps (map comp_of components.old) (map comp_of further.entry)) → ⊥))) }
{
    let mut places = Items::with_room(arena, further.len())?;
    for component in further.into_vec() {
        places.push(join(components, component)?)?;
    }
    Ok(places)
}

/// Adds a component, if there is room; one of its name gains its declared sets. Answers where it is.
pub fn join<'a>(
    components: &mut Items<'a, Component<'a>>,
    component: Component<'a>,
) -> Result<usize, Stop<'a>>
    requires { AreFew (map comp_of components.old) }
    ensures ok { OnOk result (map comp_of components.new ≡ with_comp (map comp_of components.old) (comp_of component.entry)) }
    ensures place { IfOk result (λ place. place_named component.entry.name (with_comp (map comp_of components.old) (comp_of component.entry)) ≡ Some place) }
    ensures room { OnOk result (AreFew (with_comp (map comp_of components.old) (comp_of component.entry))) }
    ensures err { IfErr result (λ e. IfStopped e (λ o. (o ≡ too_large limit.Components) × (AreFew (with_comp (map comp_of components.old) (comp_of component.entry)) → ⊥))) }
{
    match place_of(components.as_slice(), component.name.as_slice()) {
        Some(place) => {
            gain(components, place, component.domains)?;
            Ok(place)
        }
        None => {
            let place = components.len();
            add_new(components, component)?;
            Ok(place)
        }
    }
}

/// Adds a component of a new name, if there is room.
fn add_new<'a>(
    components: &mut Items<'a, Component<'a>>,
    component: Component<'a>,
) -> Result<(), Stop<'a>>
    ensures ok { OnOk result (components.new ≡ components.old ++ component.entry ∷ []) }
    ensures room { OnOk result (length components.old < components_max) }
    ensures err { IfErr result (λ e. IfStopped e (λ o. (o ≡ too_large limit.Components) × (components_max ≤ length components.old))) }
{
    if components.len() >= COMPONENTS_MAX {
        return Err(Stop::TooLarge(Limit::Components));
    }
    components.push(component)?;
    Ok(())
}

/// The component at the place gains declared sets.
fn gain<'a>(
    components: &mut Items<'a, Component<'a>>,
    place: usize,
    domains: Domains<'a>,
) -> Result<(), AllocError>
    requires { place < length components.old }
    ensures { OnOk result ((c : Component) → slice_index_or components.old place c ≡ c → components.new ≡ slice_set components.old place (enriched c domains.entry)) }
{
    let arena = components.arena();
    let mut all = mem::replace(components, Items::new(arena)).into_vec();
    let gained = enrich(arena, &mut all[place], domains);
    *components = Items {
        items: ManuallyDrop::new(all),
    };
    gained
}

/// Where the components of the one list are in the other, by their names; one that is not there keeps its place.
pub fn new_places<'a>(
    arena: &'a Bump,
    components: &[Component<'a>],
    among: &[Component<'a>],
) -> Result<Items<'a, usize>, AllocError>
    ensures places { IfOk result (λ places. place_in places ≡ new_place (map comp_of components.now) (map comp_of among.now)) }
    ensures each { IfOk result (λ places. length places ≡ length (map comp_of components.now)) }
{
    let mut places = Items::with_room(arena, components.len())?;
    for (place, component) in components.iter().enumerate() {
        places.push(place_or(among, component.name.as_slice(), place))?;
    }
    Ok(places)
}

/// The place of the component of the name, or this one where there is none.
fn place_or(components: &[Component<'_>], name: &[u8], otherwise: usize) -> usize
    ensures { result ≡ place_or (comp_named name.now (map comp_of components.now)) otherwise }
{
    match component_of(components, name) {
        Some((place, _)) => place,
        None => otherwise,
    }
}

/// The place of the component of the name.
pub(crate) fn place_of(components: &[Component<'_>], name: &[u8]) -> Option<usize>
    ensures { MatchOption result (comp_named name.now (map comp_of components.now) ≡ None) (λ place. (c : Comp) × (comp_named name.now (map comp_of components.now) ≡ Some (place, c))) }
{
    match component_of(components, name) {
        Some((place, _)) => Some(place),
        None => None,
    }
}

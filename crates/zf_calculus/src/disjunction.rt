//! Disjunctions of schemas.
ghost use Rattle.std.specs.Prelude.{◌≡◌, IfErr, IfOk, List, OnOk, map};
ghost use Rattle.zf_calculus.specs.Prelude.{AreFew, Comp, comp_of, IsTooLarge, ResolvedTree, schema_of, set_of, sides_span, too_large, type_of};
ghost use Rattle.zf_term.specs.Shapes as shape;
ghost use Rattle.zf_term.specs.ShapeViews as shape_views;
ghost use Rattle.zf_term.specs.declared.fault.Limit.TheVariants as limit;
ghost use Rattle.zf_calculus.specs.Calculus as spec;
ghost use Rattle.zf_calculus.specs.{Agree, comp_named, disjoined, disjoined_over, either_comp, either_comps, IfStopped, IsNext, new_place, OneClashes, Stops, with_comp, with_comps};

use crate::components::{agree, new_places, place_of};
use crate::growing::{Growing, are_own};
use crate::limits::COMPONENTS_MAX;
use crate::stop::Stop;
use bumpalo::Bump;
use std::alloc::AllocError;
use zf_constraints::constraints;
use zf_data::arena::{Chunked, Items, Lasting, Shared};
use zf_term::{Component, Conjunct, Domain, Flat, Limit, Places, Side, Sides, component_of};

/// The component of a disjunction: its declared sets on either side.
fn either<'a>(
    arena: &'a Bump,
    component: &Component<'a>,
    left: &[Component<'a>],
    right: &[Component<'a>],
) -> Result<Component<'a>, AllocError>
    ensures { IfOk result (λ c. comp_of c ≡ either_comp (map comp_of left.now) (map comp_of right.now) (comp_of component.now)) }
{
    let name = component.name.share();
    let ztype = component.ztype.share()?;
    let left = sets_on(arena, left, component)?;
    let right = sets_on(arena, right, component)?;
    let domains = Chunked::of(arena, Domain::Either(left, right))?;
    let domains = Shared::new(arena, domains)?;
    Ok(Component {
        name,
        ztype,
        domains,
    })
}

/// The declared sets of a component on a side; all values of its type where the side lacks it.
#[tactic(auto, using(zf_term::proofs::SetsSeen::seen))]
fn sets_on<'a>(
    arena: &'a Bump,
    side: &[Component<'a>],
    component: &Component<'a>,
) -> Result<Side<'a>, AllocError>
    ensures { IfOk result (λ ds. map set_of ds ≡ spec.sets_on (comp_named component.now.name (map comp_of side.now)) (type_of component.now.ztype)) }
{
    match component_of(side, component.name.as_slice()) {
        Some((_, found)) => found.domains.get().piece(),
        None => {
            let carrier = Domain::Carrier(component.ztype.share()?);
            Shared::new(arena, Items::of(arena, carrier)?)
        }
    }
}

/// The components of a disjunction: those of the left side, and those of the right side that are new.
fn either_all<'a>(
    arena: &'a Bump,
    left: &[Component<'a>],
    right: &[Component<'a>],
) -> Result<Items<'a, Component<'a>>, Stop<'a>>
    ensures ok { IfOk result (λ cs. map comp_of cs ≡ either_comps (map comp_of left.now) (map comp_of right.now)) }
    ensures err { IfErr result (λ e. IfStopped e (λ o. (o ≡ too_large limit.Components) × (AreFew (with_comps (map comp_of left.now) (map comp_of right.now)) → ⊥))) }
{
    let mut made = either_left(arena, left, right)?;
    for component in right {
        either_more(arena, &mut made, component, left, right)?;
    }
    Ok(made)
}

/// One more component of a disjunction, if none has its name, and if there is room.
fn either_more<'a>(
    arena: &'a Bump,
    made: &mut Items<'a, Component<'a>>,
    component: &Component<'a>,
    left: &[Component<'a>],
    right: &[Component<'a>],
) -> Result<(), Stop<'a>>
    ensures ok { OnOk result ((cs : List Comp) → map comp_of made.old ≡ map (either_comp (map comp_of left.now) (map comp_of right.now)) cs → map comp_of made.new ≡ map (either_comp (map comp_of left.now) (map comp_of right.now)) (with_comp cs (comp_of component.now))) }
    ensures err { IfErr result (λ e. IfStopped e (λ o. (o ≡ too_large limit.Components) × ((cs : List Comp) → map comp_of made.old ≡ map (either_comp (map comp_of left.now) (map comp_of right.now)) cs → AreFew (with_comp cs (comp_of component.now)) → ⊥))) }
{
    match place_of(made.as_slice(), component.name.as_slice()) {
        Some(_) => Ok(()),
        None => {
            if made.len() >= COMPONENTS_MAX {
                return Err(Stop::TooLarge(Limit::Components));
            }
            made.push(either(arena, component, left, right)?)?;
            Ok(())
        }
    }
}

/// The components of a disjunction that the left side has.
fn either_left<'a>(
    arena: &'a Bump,
    left: &[Component<'a>],
    right: &[Component<'a>],
) -> Result<Items<'a, Component<'a>>, AllocError>
    ensures { IfOk result (λ cs. map comp_of cs ≡ map (either_comp (map comp_of left.now) (map comp_of right.now)) (map comp_of left.now)) }
{
    let mut made = Items::with_room(arena, left.len())?;
    for component in left {
        made.push(either(arena, component, left, right)?)?;
    }
    Ok(made)
}

/// Where these components are among the others, if not each at its own place.
fn other_places<'a>(
    arena: &'a Bump,
    components: &[Component<'a>],
    among: &[Component<'a>],
) -> Result<Places<'a>, AllocError>
    ensures { IfOk result (λ places. (t : ResolvedTree) → shape.moved (shape_views.numbering places) t ≡ shape.moved (new_place (map comp_of components.now) (map comp_of among.now)) t) }
{
    let places = new_places(arena, components, among)?;
    if are_own(places.as_slice()) {
        return Ok(None);
    }
    Ok(Some(Lasting::new(arena, places)?))
}

/// The disjunction, which has these components.
fn disjunction<'a>(
    arena: &'a Bump,
    sides: Sides,
    left: &Flat<'a>,
    right: &Flat<'a>,
    components: Items<'a, Component<'a>>,
) -> Result<Flat<'a>, AllocError>
    ensures { IfOk result (λ f. schema_of f ≡ disjoined_over (map comp_of components.entry) (sides_span sides) (schema_of left.now) (schema_of right.now)) }
{
    let places = other_places(arena, right.components.as_slice(), components.as_slice())?;
    let of_left = constraints(arena, left, &None)?;
    let of_right = constraints(arena, right, &places)?;
    let conjuncts = Chunked::of(arena, Conjunct::either(sides, of_left, of_right))?;
    Ok(Flat {
        components,
        conjuncts,
    })
}

/// The disjunction of two schemas, which stand at these places.
pub fn disjoin<'a>(
    arena: &'a Bump,
    sides: Sides,
    left: &Flat<'a>,
    right: &Flat<'a>,
) -> Result<Growing<'a>, Stop<'a>>
    ensures agree { IfOk result (λ g. Agree (schema_of left.now).comps (schema_of right.now).comps) }
    ensures ok { IfOk result (λ g. IsNext (disjoined (sides_span sides) (schema_of left.now) (schema_of right.now)) (schema_of g)) }
    ensures err { IfErr result (λ e. IfStopped e (Stops (OneClashes (schema_of left.now).comps (schema_of right.now).comps) (Agree (schema_of left.now).comps (schema_of right.now).comps) (disjoined (sides_span sides) (schema_of left.now) (schema_of right.now)))) }
{
    agree(left.components.as_slice(), right.components.as_slice())?;
    let components = either_all(
        arena,
        left.components.as_slice(),
        right.components.as_slice(),
    )?;
    within(disjunction(arena, sides, left, right, components)?)
}

/// The schema, if it is within the limits.
fn within<'a>(flat: Flat<'a>) -> Result<Growing<'a>, Stop<'a>>
    ensures ok { IfOk result (λ g. IsNext (schema_of flat.entry) (schema_of g)) }
    ensures err { IfErr result (λ e. IfStopped e (IsTooLarge (schema_of flat.entry))) }
{
    match Growing::of(flat) {
        Ok(growing) => Ok(growing),
        Err(limit) => Err(Stop::TooLarge(limit)),
    }
}

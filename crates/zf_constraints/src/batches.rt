//! The constraints of a schema, in batches: that components are members of their declared sets, and its conjuncts.
ghost use Rattle.std.specs.Prelude.{◌≡◌, ◌++◌, IfOk, OnOk, flat_map, map};
ghost use Rattle.zf_data.specs.{all_of};
ghost use Rattle.zf_term.specs.{batch_of, comp_of, conjunct_of, moved, numbering, schema_of, set_of};
ghost use Rattle.zf_constraints.specs.{constraints, membership, memberships};

use bumpalo::Bump;
use std::alloc::AllocError;
use zf_data::arena::{Chunked, Items, Piece, Shared};
use zf_term::{Batch, Batches, Component, Conjunct, Domain, Flat, Places};

/// That a component is a member of a declared set, where a declaration names it.
#[tactic(auto, using(zf_term::proofs::SetsSeen::seen))]
fn push_membership<'a>(
    place: usize,
    domain: &Domain<'a>,
    made: &mut Items<'a, Conjunct<'a>>,
) -> Result<(), AllocError>
    ensures { OnOk result (map conjunct_of made.new ≡ map conjunct_of made.old ++ membership place (set_of domain.now)) }
{
    match domain {
        Domain::Plain(set) => made.push(Conjunct::member(place, set.share())),
        Domain::Carrier(_) => Ok(()),
        Domain::Either(_, _) => Ok(()),
    }
}

fn push_memberships<'a>(
    place: usize,
    domains: &Chunked<'a, Domain<'a>>,
    made: &mut Items<'a, Conjunct<'a>>,
) -> Result<(), AllocError>
    ensures { OnOk result (map conjunct_of made.new ≡ map conjunct_of made.old ++ flat_map (membership place) (map set_of domains.now)) }
{
    for domain in domains.iter() {
        push_membership(place, domain, made)?;
    }
    Ok(())
}

fn push_all_memberships<'a>(
    components: &[Component<'a>],
    made: &mut Items<'a, Conjunct<'a>>,
) -> Result<(), AllocError>
    ensures { OnOk result (map conjunct_of made.new ≡ map conjunct_of made.old ++ memberships 0 (map comp_of components.now)) }
{
    for (place, component) in components.iter().enumerate() {
        push_memberships(place, component.domains.get(), made)?;
    }
    Ok(())
}

/// That the components are members of their declared sets, and the conjuncts, of a schema whose components are at these places.
pub fn constraints<'a>(
    arena: &'a Bump,
    flat: &Flat<'a>,
    places: &Places<'a>,
) -> Result<Batches<'a>, AllocError>
    ensures { IfOk result (λ bs. all_of (map batch_of bs) ≡ map (moved (numbering places.now)) (constraints (schema_of flat.now))) }
{
    let pieces = flat.conjuncts.pieces()?;
    let mut batches = Items::with_room(arena, pieces.len().saturating_add(1))?;
    let mut memberships = Items::new(arena);
    push_all_memberships(flat.components.as_slice(), &mut memberships)?;
    push_batch(Shared::new(arena, memberships)?, places, &mut batches)?;
    push_batches(pieces.as_slice(), places, &mut batches)?;
    Shared::new(arena, batches)
}

fn push_batches<'a>(
    pieces: &[Piece<'a, Conjunct<'a>>],
    places: &Places<'a>,
    batches: &mut Items<'a, Batch<'a>>,
) -> Result<(), AllocError>
    ensures { OnOk result (all_of (map batch_of batches.new) ≡ all_of (map batch_of batches.old) ++ map (moved (numbering places.now)) (map conjunct_of (all_of pieces.now))) }
{
    for piece in pieces {
        push_batch(piece.share()?, places, batches)?;
    }
    Ok(())
}

/// Several conjuncts, if there are any, of a schema whose components are at these places.
fn push_batch<'a>(
    conjuncts: Piece<'a, Conjunct<'a>>,
    places: &Places<'a>,
    batches: &mut Items<'a, Batch<'a>>,
) -> Result<(), AllocError>
    ensures { OnOk result (all_of (map batch_of batches.new) ≡ all_of (map batch_of batches.old) ++ map (moved (numbering places.now)) (map conjunct_of conjuncts.entry)) }
{
    if conjuncts.get().len() == 0 {
        return Ok(());
    }
    batches.push(Batch::of(conjuncts, places))
}

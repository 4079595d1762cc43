//! Conjuncts, by the places in their schema.
ghost use Rattle.std.specs.Prelude.{◌≡◌, IfOk, map};
ghost use Rattle.zf_data.specs.{all_of};
ghost use Rattle.zf_tree.specs.declared.operator.Operator.TheVariants as operator;
ghost use Rattle.zf_tree.specs.declared.symbol.Connective.TheVariants as connective;
ghost use Rattle.zf_term.specs.Definitions as spec;
ghost use Rattle.zf_term.specs.{batch_of, binary, conjunct_of, resolved_of};
ghost use Rattle.zf_term.specs.Shapes as shape;
ghost use Rattle.zf_term.specs.ShapeViews as shape_views;
ghost use Rattle.zf_resolved.specs.{behind, onto, tree_in};

use crate::moving::{copy, moved};
use bumpalo::Bump;
use std::alloc::AllocError;
use zf_data::arena::{Boxed, Items};
use zf_reference::Reference;
use zf_term::{Batch, Conjunct, Places, Resolved, ResolvedLink};
use zf_tree::{Connective, Constant, Operator, Relation, Span};

/// The term, by the places in the schema.
#[cycle(resolved)]
#[tactic(auto, using(zf_term::proofs::ConjunctsSeen::seen))]
pub fn resolved<'a>(conjunct: &Conjunct<'a>, arena: &'a Bump) -> Result<Resolved<'a>, AllocError>
    ensures { IfOk result (λ t. resolved_of t ≡ conjunct_of conjunct.now) }
{
    match conjunct {
        Conjunct::Term(term, places) => placed(arena, term.get(), places),
        Conjunct::Member(place, set, places) => {
            let set = copy(set.get(), arena)?;
            let term = membership(arena, *place, set)?;
            numbered(arena, term, places)
        }
        Conjunct::Either(sides, left, right, places) => {
            let span = sides.span();
            let left = joined(left.get(), span, arena)?;
            let right = joined(right.get(), span, arena)?;
            let term = one_holds(arena, span, left, right)?;
            numbered(arena, term, places)
        }
    }
}

/// A copy of the term, by these places.
fn placed<'a>(
    arena: &'a Bump,
    term: &Resolved<'a>,
    places: &Places<'a>,
) -> Result<Resolved<'a>, AllocError>
    ensures { IfOk result (λ t. resolved_of t ≡ shape.moved (shape_views.numbering places.now) (resolved_of term.now)) }
{
    match places {
        None => copy(term, arena),
        Some(places) => moved(term, arena, places.get().as_slice()),
    }
}

/// The term, by these places.
fn numbered<'a>(
    arena: &'a Bump,
    term: Resolved<'a>,
    places: &Places<'a>,
) -> Result<Resolved<'a>, AllocError>
    ensures { IfOk result (λ t. resolved_of t ≡ shape.moved (shape_views.numbering places.now) (resolved_of term.entry)) }
{
    match places {
        None => Ok(term),
        Some(places) => moved(&term, arena, places.get().as_slice()),
    }
}

/// That a component is a member of a declared set that a declaration names.
#[tactic(auto, using(zf_term::proofs::ResolvedSeen::seen))]
fn membership<'a>(
    arena: &'a Bump,
    place: usize,
    set: Resolved<'a>,
) -> Result<Resolved<'a>, AllocError>
    ensures { IfOk result (λ t. resolved_of t ≡ spec.is_member place (resolved_of set.entry)) }
{
    let first = set.span();
    let left = Boxed::new(arena, Resolved::Name(first, Reference::Component(place)))?;
    let links = Items::of(
        arena,
        ResolvedLink {
            relation: Relation::Member,
            right: set,
        },
    )?;
    Ok(Resolved::Chain(first, left, Boxed::new(arena, links)?))
}

/// The terms of the conjuncts, joined to the left by `\land`.
#[cycle(resolved)]
fn joined<'a>(
    batches: &Items<'a, Batch<'a>>,
    span: Span,
    arena: &'a Bump,
) -> Result<Resolved<'a>, AllocError>
    ensures { IfOk result (λ t. resolved_of t ≡ spec.joined span (all_of (map batch_of batches.now))) }
{
    let mut whole = None;
    for batch in batches.as_slice() {
        whole = all_joined(batch, whole, arena)?;
    }
    match whole {
        None => Ok(Resolved::Constant(span, Constant::True)),
        Some(term) => Ok(term),
    }
}

/// What is there, if anything is, and the terms of further conjuncts after it.
#[cycle(resolved)]
fn all_joined<'a>(
    batch: &Batch<'a>,
    before: Option<Resolved<'a>>,
    arena: &'a Bump,
) -> Result<Option<Resolved<'a>>, AllocError>
    ensures { IfOk result (λ o. tree_in o ≡ onto (tree_in before.entry) (batch_of batch.now)) }
{
    let mut whole = before;
    for conjunct in batch.conjuncts.get().as_slice() {
        let term = numbered(arena, resolved(conjunct, arena)?, &batch.places)?;
        whole = Some(both(arena, whole, term)?);
    }
    Ok(whole)
}

/// The term after what is there, if anything is.
#[tactic(auto, using(zf_term::proofs::ResolvedSeen::seen))]
fn both<'a>(
    arena: &'a Bump,
    before: Option<Resolved<'a>>,
    right: Resolved<'a>,
) -> Result<Resolved<'a>, AllocError>
    ensures { IfOk result (λ t. resolved_of t ≡ behind (tree_in before.entry) (resolved_of right.entry)) }
{
    let Some(left) = before else {
        return Ok(right);
    };
    let first = left.span();
    let left = Boxed::new(arena, left)?;
    let right = Boxed::new(arena, right)?;
    Ok(Resolved::Binary(first, Operator::Connective(Connective::And), left, right))
}

/// That one of the two holds.
#[tactic(auto, using(zf_term::proofs::ResolvedSeen::seen))]
fn one_holds<'a>(
    arena: &'a Bump,
    span: Span,
    left: Resolved<'a>,
    right: Resolved<'a>,
) -> Result<Resolved<'a>, AllocError>
    ensures { IfOk result (λ t. resolved_of t ≡ binary span (operator.Connective connective.Or) (resolved_of left.entry) (resolved_of right.entry)) }
{
    let left = Boxed::new(arena, left)?;
    let right = Boxed::new(arena, right)?;
    Ok(Resolved::Binary(span, Operator::Connective(Connective::Or), left, right))
}

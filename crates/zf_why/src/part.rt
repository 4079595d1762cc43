//! What a conjunct is shown by.
ghost use Rattle.std.specs.Prelude.{◌≡◌, IfOk, map};
ghost use Rattle.zf_why.specs.Prelude.{conjunct_of, links, resolved_link_of, resolved_of};
ghost use Rattle.zf_why.specs.Parts as spec;

use bumpalo::Bump;
use std::alloc::AllocError;
use zf_reference::Reference;
use zf_resolved::conjunct::resolved;
use zf_term::{Conjunct, Resolved, ResolvedLink};
use zf_tree::{Relation, Span};

/// What a conjunct is shown by.
#[derive(Clone, Copy)]
pub enum Part {
    /// The predicate that stands there.
    Text(Span),
    /// That two components are equal, by the `\Xi` of the schema whose name stands there.
    Unchanged(Span, usize, usize),
    /// That a component is a member of its declared set, which stands there.
    Member(usize, Span),
}

/// What the conjunct is shown by.
pub fn shown<'a>(arena: &'a Bump, conjunct: &Conjunct<'a>) -> Result<Part, AllocError>
    ensures { IfOk result (λ part. part ≡ spec.part_of (conjunct_of conjunct.now)) }
{
    let term = resolved(conjunct, arena)?;
    Ok(part_of(&term))
}

/// What a predicate is shown by.
#[tactic(auto, using(zf_term::proofs::ResolvedSeen::seen))]
pub fn part_of(term: &Resolved<'_>) -> Part
    ensures { result ≡ spec.part_of (resolved_of term.now) }
{
    match term {
        Resolved::Chain(span, first, further) => {
            chain_part(*span, first.get(), further.as_slice())
        }
        _ => Part::Text(term.span()),
    }
}

/// What a chain at this place is shown by.
fn chain_part(span: Span, first: &Resolved<'_>, further: &[ResolvedLink<'_>]) -> Part
    ensures { result ≡ spec.chain_part span (resolved_of first.now) (links (map resolved_link_of further.now)) }
{
    if further.len() != 1 || first.span() != span {
        return Part::Text(span);
    }
    let link = &further[0];
    linked_part(
        span,
        link.relation,
        component(first),
        component(&link.right),
    )
}

/// What a relation between two operands, of which some are components, is shown by.
fn linked_part(span: Span, relation: Relation, left: Option<usize>, right: Option<usize>) -> Part
    ensures { result ≡ spec.linked_part span relation left right }
{
    match (relation, left, right) {
        (Relation::Member, Some(left), _) => Part::Member(left, span),
        (Relation::Equal, Some(left), Some(right)) => Part::Unchanged(span, left, right),
        _ => Part::Text(span),
    }
}

/// The component that the term is the name of.
#[tactic(auto, using(zf_term::proofs::ResolvedSeen::seen))]
fn component(term: &Resolved<'_>) -> Option<usize>
    ensures { result ≡ spec.component_of (resolved_of term.now) }
{
    let Resolved::Name(_, reference) = term else {
        return None;
    };
    match reference {
        Reference::Component(place) => Some(*place),
        Reference::Local(_) => None,
        Reference::Global(_) => None,
    }
}

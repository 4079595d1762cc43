//! Copies of resolved terms in which names become others.
ghost use Rattle.std.specs.Prelude.{◌≡◌, IfOk, map};
ghost use Rattle.zf_reference.specs.declared.reference.Reference.{Reference};
ghost use Rattle.zf_term.specs.{part_of, range_of, resolved_link_of, resolved_of};
ghost use Rattle.zf_resolved.specs.Renamed as spec;

use bumpalo::Bump;
use std::alloc::AllocError;
use zf_data::arena::{Boxed, Items};
use zf_reference::Reference;
use zf_term::{Links, Part, Range, Resolved, ResolvedLink, Terms};

/// What names become.
pub trait Naming {
    ghost becomes: { Self → Reference → Reference };

    /// What the name becomes.
    fn named(&self, reference: Reference) -> Reference
        ensures { result ≡ becomes self.now reference };
}

/// The term with its names as they become.
#[cycle(renamed)]
pub fn renamed<'a, N: Naming>(
    term: &Resolved<'a>,
    arena: &'a Bump,
    naming: &N,
) -> Result<Resolved<'a>, AllocError>
    ensures { IfOk result (λ t. resolved_of t ≡ spec.renamed (N.becomes naming.now) (resolved_of term.now)) }
{
    match term {
        Resolved::Name(span, reference) => Ok(Resolved::Name(*span, naming.named(*reference))),
        Resolved::Number(span, value) => Ok(Resolved::Number(*span, *value)),
        Resolved::Constant(span, constant) => Ok(Resolved::Constant(*span, *constant)),
        Resolved::EmptySet(span, of) => {
            Ok(Resolved::EmptySet(*span, renamed_box(of, arena, naming)?))
        }
        Resolved::Bracket(span, inner) => {
            Ok(Resolved::Bracket(*span, renamed_box(inner, arena, naming)?))
        }
        Resolved::Listed(span, form, items) => {
            Ok(Resolved::Listed(*span, *form, renamed_terms(items, arena, naming)?))
        }
        Resolved::Comprehension(span, variables, filter, term) => {
            let variables = renamed_ranges(variables, arena, naming)?;
            let filter = renamed_part(filter, arena, naming)?;
            let term = renamed_part(term, arena, naming)?;
            Ok(Resolved::Comprehension(*span, variables, filter, term))
        }
        Resolved::Unary(span, op, of) => {
            Ok(Resolved::Unary(*span, *op, renamed_box(of, arena, naming)?))
        }
        Resolved::Binary(span, op, left, right) => {
            let left = renamed_box(left, arena, naming)?;
            let right = renamed_box(right, arena, naming)?;
            Ok(Resolved::Binary(*span, *op, left, right))
        }
        Resolved::Chain(span, first, further) => {
            let first = renamed_box(first, arena, naming)?;
            let further = renamed_links(further, arena, naming)?;
            Ok(Resolved::Chain(*span, first, further))
        }
        Resolved::Quantified(quantifier, span, variables, constraint, body) => {
            let variables = renamed_ranges(variables, arena, naming)?;
            let constraint = renamed_part(constraint, arena, naming)?;
            let body = renamed_box(body, arena, naming)?;
            Ok(Resolved::Quantified(*quantifier, *span, variables, constraint, body))
        }
    }
}

#[cycle(renamed)]
fn renamed_box<'a, N: Naming>(
    term: &Boxed<'a, Resolved<'a>>,
    arena: &'a Bump,
    naming: &N,
) -> Result<Boxed<'a, Resolved<'a>>, AllocError>
    ensures { IfOk result (λ t. resolved_of t ≡ spec.renamed (N.becomes naming.now) (resolved_of term.now)) }
{
    Boxed::new(arena, renamed(term.get(), arena, naming)?)
}

#[cycle(renamed)]
fn renamed_terms<'a, N: Naming>(
    items: &Terms<'a>,
    arena: &'a Bump,
    naming: &N,
) -> Result<Terms<'a>, AllocError>
    ensures { IfOk result (λ s. map resolved_of s ≡ map (spec.renamed (N.becomes naming.now)) (map resolved_of items.now)) }
{
    let mut all = Items::with_room(arena, items.as_slice().len())?;
    for term in items.as_slice() {
        all.push(renamed(term, arena, naming)?)?;
    }
    Boxed::new(arena, all)
}

#[cycle(renamed)]
fn renamed_links<'a, N: Naming>(
    further: &Links<'a>,
    arena: &'a Bump,
    naming: &N,
) -> Result<Links<'a>, AllocError>
    ensures { IfOk result (λ s. map resolved_link_of s ≡ map (spec.link_renamed (N.becomes naming.now)) (map resolved_link_of further.now)) }
{
    let mut all = Items::with_room(arena, further.as_slice().len())?;
    for link in further.as_slice() {
        all.push(renamed_link(link, arena, naming)?)?;
    }
    Boxed::new(arena, all)
}

#[cycle(renamed)]
#[tactic(auto, using(zf_term::proofs::ResolvedSeen::parts_seen))]
fn renamed_link<'a, N: Naming>(
    link: &ResolvedLink<'a>,
    arena: &'a Bump,
    naming: &N,
) -> Result<ResolvedLink<'a>, AllocError>
    ensures { IfOk result (λ k. resolved_link_of k ≡ spec.link_renamed (N.becomes naming.now) (resolved_link_of link.now)) }
{
    Ok(ResolvedLink {
        relation: link.relation,
        right: renamed(&link.right, arena, naming)?,
    })
}

#[cycle(renamed)]
fn renamed_ranges<'a, N: Naming>(
    variables: &Boxed<'a, Items<'a, Range<'a>>>,
    arena: &'a Bump,
    naming: &N,
) -> Result<Boxed<'a, Items<'a, Range<'a>>>, AllocError>
    ensures { IfOk result (λ s. map range_of s ≡ map (spec.range_renamed (N.becomes naming.now)) (map range_of variables.now)) }
{
    let mut all = Items::with_room(arena, variables.as_slice().len())?;
    for range in variables.as_slice() {
        all.push(renamed_range(range, arena, naming)?)?;
    }
    Boxed::new(arena, all)
}

/// A range with its set as it becomes.
#[cycle(renamed)]
#[tactic(auto, using(zf_term::proofs::ResolvedSeen::parts_seen))]
pub fn renamed_range<'a, N: Naming>(
    range: &Range<'a>,
    arena: &'a Bump,
    naming: &N,
) -> Result<Range<'a>, AllocError>
    ensures { IfOk result (λ r. range_of r ≡ spec.range_renamed (N.becomes naming.now) (range_of range.now)) }
{
    Ok(Range {
        variables: range.variables,
        set: renamed(&range.set, arena, naming)?,
    })
}

/// A filter, a constraint or a term in which variables are bound, as it becomes.
#[cycle(renamed)]
pub fn renamed_part<'a, N: Naming>(
    part: &Part<'a>,
    arena: &'a Bump,
    naming: &N,
) -> Result<Part<'a>, AllocError>
    ensures { IfOk result (λ p. part_of p ≡ spec.part_renamed (N.becomes naming.now) (part_of part.now)) }
{
    match part.get() {
        None => Boxed::new(arena, None),
        Some(term) => {
            let renamed = Boxed::new(arena, renamed(term.get(), arena, naming)?)?;
            Boxed::new(arena, Some(renamed))
        }
    }
}

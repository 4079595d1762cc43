//! Terms in which closed parts are names of what they come to.
ghost use Rattle.std.specs.Prelude.{◌≡◌, ◌+◌, ◌<◌, ℕ, Bool, true, IfOk, IfSome, OnOk, length, map};
ghost use Rattle.zf_lift.specs.Prelude.{environment_of, Span};
ghost use Rattle.zf_reference.specs.declared.reference.Reference.TheVariants as names;
ghost use Rattle.zf_term.specs.{links, part_of, range_of, ranges, reference as reference_tree, resolved_link_of, resolved_of, terms};
ghost use Rattle.zf_lift.specs.{Follows, IsLinkLift, IsLonger, IsNamed, IsRangeLift};
ghost use Rattle.zf_lift.specs.Lifts as spec;

use crate::liftable::{is_asked, is_liftable, is_long};
use crate::unlifted::Unlifted;
use bumpalo::Bump;
use std::alloc::AllocError;
use zf_data::arena::{Boxed, Items};
use zf_meaning::{Env, value_behind};
use zf_reference::Reference;
use zf_resolved::copy;
use zf_term::{Links, Part, Range, Resolved, ResolvedLink, Terms};
use zf_value::{Outcome, Value};

/// The environment with the names that closed parts got, and whether what was gone through names no component.
#[derive(Drop)]
pub(crate) struct Gathered<'g, 'a> {
    pub env: Env<'g, 'a>,
    pub is_closed: bool,
}

/// A term after so many bound variables in which closed parts are names, and is itself one where it is such a part.
#[cycle(lifting)]
pub(crate) fn lifted<'g, 'a>(
    term: &Resolved<'a>,
    arena: &'a Bump,
    depth: usize,
    base: &Env<'g, 'a>,
    own: &mut Gathered<'g, 'a>,
) -> Result<Resolved<'a>, Unlifted>
    ensures grows { OnOk result (Follows own.old own.new) }
    ensures same { IsLonger (environment_of base.now) (environment_of own.old.env) → IfOk result (λ p. spec.IsLift depth (environment_of own.new.env) (environment_of base.now) own.new.is_closed (resolved_of p) (resolved_of term.now)) }
{
    let before = own.is_closed;
    own.is_closed = true;
    let part = rebuilt(term, arena, depth, base, own)?;
    let is_closed = own.is_closed;
    own.is_closed = are_both(before, is_closed);
    if !is_closed {
        return Ok(part);
    }
    named(part, term, depth, base, &mut own.env)
}

/// The name of what a part that names no component comes to, where it gets one.
fn named<'g, 'a>(
    part: Resolved<'a>,
    term: &Resolved<'a>,
    depth: usize,
    base: &Env<'g, 'a>,
    own: &mut Env<'g, 'a>,
) -> Result<Resolved<'a>, Unlifted>
    ensures grows { OnOk result (IsLonger (environment_of own.old) (environment_of own.new)) }
    ensures same { (c : Bool) → IsLonger (environment_of base.now) (environment_of own.old) → spec.IsClosed (environment_of base.now) (resolved_of term.now)
        → spec.IsLift depth (environment_of own.old) (environment_of base.now) c (resolved_of part.entry) (resolved_of term.now)
        → IfOk result (λ p. spec.IsLift depth (environment_of own.new) (environment_of base.now) c (resolved_of p) (resolved_of term.now)) }
{
    let Some(outcome) = worked_out(&part, term, depth, base, own) else {
        return Ok(part);
    };
    let place = own.count();
    own.add(outcome)?;
    Ok(Resolved::Name(part.span(), Reference::Global(place)))
}

/// What the part of a term comes to that gets a name: not where it names a variable bound around it, or memory ends, as it may be that nothing asks for it.
fn worked_out<'g, 'a>(
    part: &Resolved<'a>,
    term: &Resolved<'a>,
    depth: usize,
    base: &Env<'g, 'a>,
    own: &Env<'g, 'a>,
) -> Option<Outcome>
    ensures { IfSome result (IsNamed depth (environment_of base.now) (environment_of own.now) (resolved_of part.now) (resolved_of term.now)) }
{
    if !is_liftable(term, base) {
        return None;
    }
    if depth > 0 && is_long(part, own) {
        return None;
    }
    if own.count() < own.globals().len() {
        return None;
    }
    let none: &[Value] = &[];
    value_behind(part, &none, depth, own).unwrap_or(None)
}

/// A term of which the parts are lifted, without brackets around it.
#[cycle(lifting)]
fn rebuilt<'g, 'a>(
    term: &Resolved<'a>,
    arena: &'a Bump,
    depth: usize,
    base: &Env<'g, 'a>,
    own: &mut Gathered<'g, 'a>,
) -> Result<Resolved<'a>, Unlifted>
    ensures grows { OnOk result (Follows own.old own.new) }
    ensures same { IsLonger (environment_of base.now) (environment_of own.old.env) → IfOk result (λ p. spec.IsLift depth (environment_of own.new.env) (environment_of base.now) own.new.is_closed (resolved_of p) (resolved_of term.now)) }
{
    match term {
        Resolved::Name(span, reference) => {
            let is_fixed = is_fixed(*reference, base)?;
            own.is_closed = are_both(own.is_closed, is_fixed);
            Ok(Resolved::Name(*span, *reference))
        }
        Resolved::Number(span, value) => Ok(Resolved::Number(*span, *value)),
        Resolved::Constant(span, constant) => Ok(Resolved::Constant(*span, *constant)),
        Resolved::EmptySet(span, of) => {
            Ok(Resolved::EmptySet(*span, Boxed::new(arena, copy(of.get(), arena)?)?))
        }
        Resolved::Bracket(_, inner) => rebuilt(inner.get(), arena, depth, base, own),
        Resolved::Listed(span, form, items) => {
            let items = lifted_terms(items, arena, depth, base, own)?;
            Ok(Resolved::Listed(*span, *form, items))
        }
        Resolved::Comprehension(span, variables, filter, term) => {
            let inside = bound_behind(depth, variables.as_slice())?;
            let variables = lifted_ranges(variables, arena, depth, base, own)?;
            let filter = lifted_part(filter, arena, inside, base, own)?;
            let term = lifted_part(term, arena, inside, base, own)?;
            Ok(Resolved::Comprehension(*span, variables, filter, term))
        }
        Resolved::Unary(span, operator, of) => {
            let of = lifted_box(of, arena, depth, base, own)?;
            Ok(Resolved::Unary(*span, *operator, of))
        }
        Resolved::Binary(span, operator, left, right) => {
            let left = lifted_box(left, arena, depth, base, own)?;
            let right = lifted_box(right, arena, depth, base, own)?;
            Ok(Resolved::Binary(*span, *operator, left, right))
        }
        Resolved::Chain(span, first, further) => {
            let first = lifted_box(first, arena, depth, base, own)?;
            let further = lifted_links(further, arena, depth, base, own)?;
            Ok(Resolved::Chain(*span, first, further))
        }
        Resolved::Quantified(quantifier, span, variables, constraint, body) => {
            let inside = bound_behind(depth, variables.as_slice())?;
            let variables = lifted_ranges(variables, arena, depth, base, own)?;
            let constraint = lifted_part(constraint, arena, inside, base, own)?;
            let body = lifted_box(body, arena, inside, base, own)?;
            Ok(Resolved::Quantified(*quantifier, *span, variables, constraint, body))
        }
    }
}

#[cycle(lifting)]
fn lifted_box<'g, 'a>(
    term: &Boxed<'a, Resolved<'a>>,
    arena: &'a Bump,
    depth: usize,
    base: &Env<'g, 'a>,
    own: &mut Gathered<'g, 'a>,
) -> Result<Boxed<'a, Resolved<'a>>, Unlifted>
    ensures grows { OnOk result (Follows own.old own.new) }
    ensures same { IsLonger (environment_of base.now) (environment_of own.old.env) → IfOk result (λ p. spec.IsLift depth (environment_of own.new.env) (environment_of base.now) own.new.is_closed (resolved_of p) (resolved_of term.now)) }
{
    let part = lifted(term.get(), arena, depth, base, own)?;
    Ok(Boxed::new(arena, part)?)
}

/// How many variables are bound after so many and those of these ranges.
fn bound_behind(depth: usize, variables: &[Range<'_>]) -> Result<usize, Unlifted>
    ensures { IfOk result (λ inside. inside ≡ depth + spec.variables_of (ranges (map range_of variables.now))) }
{
    let mut bound = depth;
    for range in variables {
        let Some(more) = bound.checked_add(range.variables) else {
            return Err(Unlifted::Foreign);
        };
        bound = more;
    }
    Ok(bound)
}

/// Whether what the name stands for is no component. A name of a global that has no outcome is refused.
fn is_fixed(reference: Reference, base: &Env<'_, '_>) -> Result<bool, Unlifted>
    ensures known { OnOk result ((i : ℕ) → reference ≡ names.Global i → i < length (environment_of base.now).outcomes) }
    ensures closed { IfOk result (λ fixed. fixed ≡ true → (span : Span) → spec.IsClosed (environment_of base.now) (reference_tree span reference)) }
{
    match reference {
        Reference::Component(_) => Ok(false),
        Reference::Local(_) => Ok(true),
        Reference::Global(place) if place < base.count() => Ok(true),
        Reference::Global(_) => Err(Unlifted::Foreign),
    }
}

#[cycle(lifting)]
fn lifted_terms<'g, 'a>(
    items: &Terms<'a>,
    arena: &'a Bump,
    depth: usize,
    base: &Env<'g, 'a>,
    own: &mut Gathered<'g, 'a>,
) -> Result<Terms<'a>, Unlifted>
    ensures grows { OnOk result (Follows own.old own.new) }
    ensures same { IsLonger (environment_of base.now) (environment_of own.old.env) → IfOk result (λ p. spec.AreLifts depth (environment_of own.new.env) (environment_of base.now) own.new.is_closed (terms (map resolved_of p)) (terms (map resolved_of items.now))) }
{
    let mut parts = Items::with_room(arena, items.as_slice().len())?;
    for term in items.as_slice() {
        let part = lifted(term, arena, depth, base, own)?;
        parts.push(part)?;
    }
    Ok(Boxed::new(arena, parts)?)
}

#[cycle(lifting)]
fn lifted_links<'g, 'a>(
    further: &Links<'a>,
    arena: &'a Bump,
    depth: usize,
    base: &Env<'g, 'a>,
    own: &mut Gathered<'g, 'a>,
) -> Result<Links<'a>, Unlifted>
    ensures grows { OnOk result (Follows own.old own.new) }
    ensures same { IsLonger (environment_of base.now) (environment_of own.old.env) → IfOk result (λ p. spec.AreLinkLifts depth (environment_of own.new.env) (environment_of base.now) own.new.is_closed (links (map resolved_link_of p)) (links (map resolved_link_of further.now))) }
{
    let mut parts = Items::with_room(arena, further.as_slice().len())?;
    for link in further.as_slice() {
        let part = lifted_link(link, arena, depth, base, own)?;
        parts.push(part)?;
    }
    Ok(Boxed::new(arena, parts)?)
}

#[cycle(lifting)]
fn lifted_link<'g, 'a>(
    link: &ResolvedLink<'a>,
    arena: &'a Bump,
    depth: usize,
    base: &Env<'g, 'a>,
    own: &mut Gathered<'g, 'a>,
) -> Result<ResolvedLink<'a>, Unlifted>
    ensures grows { OnOk result (Follows own.old own.new) }
    ensures same { IsLonger (environment_of base.now) (environment_of own.old.env) → IfOk result (λ p. IsLinkLift depth (environment_of own.new.env) (environment_of base.now) own.new.is_closed (resolved_link_of p) (resolved_link_of link.now)) }
{
    Ok(ResolvedLink {
        relation: link.relation,
        right: lifted_right(link, arena, depth, base, own)?,
    })
}

/// What stands after the relation of a link. A set that is only asked for a member is not built.
#[cycle(lifting)]
fn lifted_right<'g, 'a>(
    link: &ResolvedLink<'a>,
    arena: &'a Bump,
    depth: usize,
    base: &Env<'g, 'a>,
    own: &mut Gathered<'g, 'a>,
) -> Result<Resolved<'a>, Unlifted>
    ensures grows { OnOk result (Follows own.old own.new) }
    ensures same { IsLonger (environment_of base.now) (environment_of own.old.env) → IfOk result (λ p. spec.IsLift depth (environment_of own.new.env) (environment_of base.now) own.new.is_closed (resolved_of p) (resolved_of link.now.right)) }
{
    if is_asked(link.relation, &link.right) {
        return rebuilt(&link.right, arena, depth, base, own);
    }
    lifted(&link.right, arena, depth, base, own)
}

#[cycle(lifting)]
fn lifted_ranges<'g, 'a>(
    variables: &Boxed<'a, Items<'a, Range<'a>>>,
    arena: &'a Bump,
    depth: usize,
    base: &Env<'g, 'a>,
    own: &mut Gathered<'g, 'a>,
) -> Result<Boxed<'a, Items<'a, Range<'a>>>, Unlifted>
    ensures grows { OnOk result (Follows own.old own.new) }
    ensures same { IsLonger (environment_of base.now) (environment_of own.old.env) → IfOk result (λ p. spec.AreRangeLifts depth (environment_of own.new.env) (environment_of base.now) own.new.is_closed (ranges (map range_of p)) (ranges (map range_of variables.now))) }
{
    let mut parts = Items::with_room(arena, variables.as_slice().len())?;
    for range in variables.as_slice() {
        let part = lifted_range(range, arena, depth, base, own)?;
        parts.push(part)?;
    }
    Ok(Boxed::new(arena, parts)?)
}

#[cycle(lifting)]
fn lifted_range<'g, 'a>(
    range: &Range<'a>,
    arena: &'a Bump,
    depth: usize,
    base: &Env<'g, 'a>,
    own: &mut Gathered<'g, 'a>,
) -> Result<Range<'a>, Unlifted>
    ensures grows { OnOk result (Follows own.old own.new) }
    ensures same { IsLonger (environment_of base.now) (environment_of own.old.env) → IfOk result (λ p. IsRangeLift depth (environment_of own.new.env) (environment_of base.now) own.new.is_closed (range_of p) (range_of range.now)) }
{
    Ok(Range {
        variables: range.variables,
        set: lifted(&range.set, arena, depth, base, own)?,
    })
}

/// A filter, a constraint or a term, in which variables are bound.
#[cycle(lifting)]
fn lifted_part<'g, 'a>(
    part: &Part<'a>,
    arena: &'a Bump,
    depth: usize,
    base: &Env<'g, 'a>,
    own: &mut Gathered<'g, 'a>,
) -> Result<Part<'a>, Unlifted>
    ensures grows { OnOk result (Follows own.old own.new) }
    ensures same { IsLonger (environment_of base.now) (environment_of own.old.env) → IfOk result (λ p. spec.IsPartLift depth (environment_of own.new.env) (environment_of base.now) own.new.is_closed (part_of p) (part_of part.now)) }
{
    match part.get() {
        None => Ok(Boxed::new(arena, None)?),
        Some(term) => {
            let part = lifted(term.get(), arena, depth, base, own)?;
            let inner = Boxed::new(arena, part)?;
            Ok(Boxed::new(arena, Some(inner))?)
        }
    }
}

fn are_both(left: bool, right: bool) -> bool
    ensures { result ≡ true → (left ≡ true) × (right ≡ true) }
{
    left && right
}

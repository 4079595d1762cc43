//! Infinite sets in terms: which terms are one, and what offends.
ghost use Rattle.std.specs.Prelude.{◌≡◌, map};
ghost use Rattle.zf_term.specs.{definition_of, globals_of, links, part_of, range_of, ranges, resolved_link_of, resolved_of, terms};
ghost use Rattle.zf_extent.specs.Extents as spec;
ghost use Rattle.std.specs.Option.{option_or};

use crate::offender::Offender;
use zf_data::arena::{Boxed, Items};
use zf_reference::Reference;
use zf_term::{
    Entry, Extent, Globals, Infinite, Links, Part, Range, Resolved, ResolvedLink, Terms,
};
use zf_tree::{Constant, Relation, Span};

/// The infinite set that the term is, within brackets or without.
#[tactic(auto, using(zf_term::proofs::ResolvedSeen::seen))]
pub fn direct<'a>(term: &Resolved<'a>, globals: &Globals<'a>) -> Option<Infinite>
    ensures { result ≡ spec.direct (globals_of globals.now) (resolved_of term.now) }
{
    match term {
        Resolved::Name(_, reference) => set(extent_named(globals, *reference)),
        Resolved::Number(_, _) => None,
        Resolved::Constant(_, constant) => constant_set(*constant),
        Resolved::EmptySet(_, _) => None,
        Resolved::Bracket(_, inner) => direct(inner.get(), globals),
        Resolved::Listed(_, _, _) => None,
        Resolved::Comprehension(_, _, _, _) => None,
        Resolved::Unary(_, _, _) => None,
        Resolved::Binary(_, _, _, _) => None,
        Resolved::Chain(_, _, _) => None,
        Resolved::Quantified(_, _, _, _, _) => None,
    }
}

/// The extent of a term that a name is defined as.
pub fn extent_of<'a>(term: &Resolved<'a>, globals: &Globals<'a>) -> Extent
    ensures { result ≡ spec.extent_of (globals_of globals.now) (resolved_of term.now) }
{
    if let Some(set) = direct(term, globals) {
        return Extent::Infinite(set);
    }
    match offending(term, globals) {
        Some(_) => Extent::Open,
        None => Extent::Closed,
    }
}

/// The first in the term that offends.
#[cycle(offending)]
#[tactic(auto, using(zf_term::proofs::ResolvedSeen::seen, crate::proofs::FirstOffenders::first_of_both))]
pub fn offending<'a>(term: &Resolved<'a>, globals: &Globals<'a>) -> Option<Offender>
    ensures { result ≡ spec.first (spec.offending (globals_of globals.now) (resolved_of term.now)) }
{
    match term {
        Resolved::Name(span, reference) => name_offender(*span, *reference, globals),
        Resolved::Number(_, _) => None,
        Resolved::Constant(span, constant) => constant_offender(*span, *constant),
        Resolved::EmptySet(_, _) => None,
        Resolved::Bracket(_, inner) => offending(inner.get(), globals),
        Resolved::Listed(_, _, items) => terms_offending(items, globals),
        Resolved::Comprehension(_, variables, filter, term) => {
            let found = ranges_offending(variables, globals);
            part_after(term, part_after(filter, found, globals), globals)
        }
        Resolved::Unary(_, _, of) => offending(of.get(), globals),
        Resolved::Binary(_, _, left, right) => {
            offending_after(right.get(), offending(left.get(), globals), globals)
        }
        Resolved::Chain(_, first, further) => {
            links_after(further, offending(first.get(), globals), globals)
        }
        Resolved::Quantified(_, _, variables, constraint, body) => {
            let found = ranges_offending(variables, globals);
            offending_after(body.get(), part_after(constraint, found, globals), globals)
        }
    }
}

/// What was found before, or the first in the term that offends.
#[cycle(offending)]
pub fn offending_after<'a>(
    term: &Resolved<'a>,
    found: Option<Offender>,
    globals: &Globals<'a>,
) -> Option<Offender>
    ensures { result ≡ option_or found (spec.first (spec.offending (globals_of globals.now) (resolved_of term.now))) }
{
    match found {
        Some(offender) => Some(offender),
        None => offending(term, globals),
    }
}

/// The same where a whole infinite set may stand.
#[cycle(offending)]
pub fn offending_within_after<'a>(
    term: &Resolved<'a>,
    found: Option<Offender>,
    globals: &Globals<'a>,
) -> Option<Offender>
    ensures { result ≡ option_or found (spec.first (spec.offending_within (globals_of globals.now) (resolved_of term.now))) }
{
    match direct(term, globals) {
        Some(_) => found,
        None => offending_after(term, found, globals),
    }
}

#[cycle(offending)]
fn terms_offending<'a>(items: &Terms<'a>, globals: &Globals<'a>) -> Option<Offender>
    ensures { result ≡ spec.first (spec.all_offending (globals_of globals.now) (terms (map resolved_of items.now))) }
{
    let mut offender = None;
    for term in items.as_slice() {
        offender = offending_after(term, offender, globals);
    }
    offender
}

#[cycle(offending)]
fn links_after<'a>(
    further: &Links<'a>,
    found: Option<Offender>,
    globals: &Globals<'a>,
) -> Option<Offender>
    ensures { result ≡ option_or found (spec.first (spec.links_offending (globals_of globals.now) (links (map resolved_link_of further.now)))) }
{
    let mut offender = found;
    let all = further.as_slice();
    for (place, link) in all.iter().enumerate() {
        let is_last = all[place + 1..].is_empty();
        offender = right_after(&link.right, offender, link.relation, is_last, globals);
    }
    offender
}

/// The same of the right side of a link.
#[cycle(offending)]
fn right_after<'a>(
    right: &Resolved<'a>,
    found: Option<Offender>,
    relation: Relation,
    is_last: bool,
    globals: &Globals<'a>,
) -> Option<Offender>
    ensures { result ≡ option_or found (spec.first (spec.unless (spec.tested (globals_of globals.now) relation is_last (resolved_of right.now)) (spec.offending (globals_of globals.now) (resolved_of right.now)))) }
{
    if is_membership(relation) && is_last {
        offending_within_after(right, found, globals)
    } else {
        offending_after(right, found, globals)
    }
}

#[cycle(offending)]
fn ranges_offending<'a>(
    variables: &Boxed<'a, Items<'a, Range<'a>>>,
    globals: &Globals<'a>,
) -> Option<Offender>
    ensures { result ≡ spec.first (spec.ranges_offending (globals_of globals.now) (ranges (map range_of variables.now))) }
{
    let mut offender = None;
    for range in variables.as_slice() {
        offender = offending_after(&range.set, offender, globals);
    }
    offender
}

#[cycle(offending)]
fn part_after<'a>(
    part: &Part<'a>,
    found: Option<Offender>,
    globals: &Globals<'a>,
) -> Option<Offender>
    ensures { result ≡ option_or found (spec.first (spec.part_offending (globals_of globals.now) (part_of part.now))) }
{
    match part.get() {
        None => found,
        Some(term) => offending_after(term.get(), found, globals),
    }
}

/// The extent of what a name stands for.
pub(crate) fn extent_named(globals: &Globals<'_>, reference: Reference) -> Extent
    ensures { result ≡ spec.extent_named (globals_of globals.now) reference }
{
    match reference {
        Reference::Component(_) => Extent::Closed,
        Reference::Local(_) => Extent::Closed,
        Reference::Global(place) => match globals.in_order(place) {
            Some((_, entry)) => extent(entry),
            None => Extent::Closed,
        },
    }
}

pub(crate) fn constant_set(constant: Constant) -> Option<Infinite>
    ensures { result ≡ spec.constant_set constant }
{
    match constant {
        Constant::True => None,
        Constant::False => None,
        Constant::Integers => Some(Infinite::Num),
        Constant::Naturals => Some(Infinite::Nat),
        Constant::Positives => Some(Infinite::Nat1),
    }
}

/// The name, if it offends.
fn name_offender(span: Span, reference: Reference, globals: &Globals<'_>) -> Option<Offender>
    ensures { result ≡ spec.first (spec.name_offenders span reference (spec.extent_named (globals_of globals.now) reference)) }
{
    match reference {
        Reference::Component(_) => None,
        Reference::Local(_) => None,
        Reference::Global(place) => global_offender(span, place, extent_named(globals, reference)),
    }
}

/// The name of the global at this place, if one of this extent offends.
fn global_offender(span: Span, place: usize, extent: Extent) -> Option<Offender>
    ensures { result ≡ spec.first (spec.global_offenders span place extent) }
{
    match extent {
        Extent::Infinite(_) => Some(Offender::Name(span, place)),
        Extent::Open => Some(Offender::Name(span, place)),
        Extent::Closed => None,
    }
}

/// The constant, if it offends.
fn constant_offender(span: Span, constant: Constant) -> Option<Offender>
    ensures { result ≡ spec.first (spec.constant_offenders span constant (spec.constant_set constant)) }
{
    match constant_set(constant) {
        Some(_) => Some(Offender::Symbol(span, constant)),
        None => None,
    }
}

/// Whether it is `\in` or `\notin`.
pub(crate) fn is_membership(relation: Relation) -> bool
    ensures { result ≡ spec.is_membership relation }
{
    matches!(relation, Relation::Member | Relation::NotMember)
}

/// The infinite set that a name of this extent stands for.
pub(crate) fn set(extent: Extent) -> Option<Infinite>
    ensures { result ≡ spec.extent_set extent }
{
    match extent {
        Extent::Infinite(set) => Some(set),
        Extent::Open => None,
        Extent::Closed => None,
    }
}

/// The extent of a name that is defined as this.
fn extent(entry: &Entry<'_>) -> Extent
    ensures { result ≡ spec.definition_extent (definition_of entry.now) }
{
    match entry {
        Entry::Given(_) => Extent::Closed,
        Entry::Free(_, _) => Extent::Closed,
        Entry::Constructor(_, _, _) => Extent::Closed,
        Entry::Abbrev(_, _, extent) => *extent,
        Entry::Schema(_) => Extent::Closed,
    }
}

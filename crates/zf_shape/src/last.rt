//! The last of the names of a term that are asked for.
ghost use Rattle.std.specs.Prelude.{◌≡◌, ◌≤◌, ◌<◌, ◌^◌, IsTrue, map, max};
ghost use Rattle.zf_reference.specs.declared.reference.Reference as names;
ghost use Rattle.zf_term.specs.{links, part_of, range_of, ranges, resolved_link_of, resolved_of, terms};
ghost use Rattle.zf_shape.specs.{all_greatest, greatest, links_greatest, part_greatest, place_after, ranges_greatest};

use zf_data::arena::{Boxed, Items};
use zf_reference::Reference;
use zf_term::{Links, Part, Range, Resolved, Terms};

/// Which names are asked for: each has a place, others have none.
pub trait Places {
    ghost use Rattle.std.specs.Prelude.{ℕ, ◌≡◌, ◌≤◌, ◌+◌};
    ghost use Rattle.zf_reference.specs.declared.reference.Reference.{Reference};
    ghost use Rattle.zf_shape.specs.{place_after};

    /// The place of a name, from 1, and 0 where it has none.
    ghost number: { Self → Reference → ℕ };

    fn place_of(&self, reference: zf_reference::Reference) -> Option<usize>
        ensures { place_after result ≡ number self.now reference };

    /// A place that none is after.
    fn last(&self) -> usize
        ensures { (r : Reference) → number self.now r ≤ result + 1 };
}

/// The place as a number, from 1, and 0 where there is none.
pub fn number_of(place: Option<usize>) -> usize
    requires { place_after place < 2 ^ 64 }
    ensures { result ≡ place_after place }
{
    match place {
        None => 0,
        Some(place) => place + 1,
    }
}

/// The last place, of one that was found before and those of the names of the term.
#[cycle(last)]
#[tactic(auto, using(zf_term::proofs::ResolvedSeen::seen))]
pub fn last_of<P: Places>(term: &Resolved<'_>, places: &P, found: Option<usize>) -> Option<usize>
    ensures { place_after result ≡ max (place_after found) (greatest (P.number places.now) (resolved_of term.now)) }
{
    if is_last(places, found) {
        return found;
    }
    match term {
        Resolved::Name(_, reference) => later(places.place_of(*reference), found),
        Resolved::Number(_, _) => found,
        Resolved::Constant(_, _) => found,
        Resolved::EmptySet(_, of) => last_of(of.get(), places, found),
        Resolved::Bracket(_, inner) => last_of(inner.get(), places, found),
        Resolved::Listed(_, _, items) => last_of_terms(items, places, found),
        Resolved::Comprehension(_, variables, filter, term) => {
            let last = last_of_ranges(variables, places, found);
            last_of_part(term, places, last_of_part(filter, places, last))
        }
        Resolved::Unary(_, _, of) => last_of(of.get(), places, found),
        Resolved::Binary(_, _, left, right) => {
            last_of(right.get(), places, last_of(left.get(), places, found))
        }
        Resolved::Chain(_, first, further) => {
            last_of_links(further, places, last_of(first.get(), places, found))
        }
        Resolved::Quantified(_, _, variables, constraint, body) => {
            let last = last_of_ranges(variables, places, found);
            last_of(body.get(), places, last_of_part(constraint, places, last))
        }
    }
}

#[cycle(last)]
fn last_of_terms<P: Places>(items: &Terms<'_>, places: &P, found: Option<usize>) -> Option<usize>
    ensures { place_after result ≡ max (place_after found) (all_greatest (P.number places.now) (terms (map resolved_of items.now))) }
{
    let mut last = found;
    for term in items.as_slice() {
        last = last_of(term, places, last);
    }
    last
}

#[cycle(last)]
fn last_of_links<P: Places>(further: &Links<'_>, places: &P, found: Option<usize>) -> Option<usize>
    ensures { place_after result ≡ max (place_after found) (links_greatest (P.number places.now) (links (map resolved_link_of further.now))) }
{
    let mut last = found;
    for link in further.as_slice() {
        last = last_of(&link.right, places, last);
    }
    last
}

#[cycle(last)]
fn last_of_ranges<'a, P: Places>(
    variables: &Boxed<'a, Items<'a, Range<'a>>>,
    places: &P,
    found: Option<usize>,
) -> Option<usize>
    ensures { place_after result ≡ max (place_after found) (ranges_greatest (P.number places.now) (ranges (map range_of variables.now))) }
{
    let mut last = found;
    for range in variables.as_slice() {
        last = last_of(&range.set, places, last);
    }
    last
}

/// The last place, of one that was found before and those of the names of the part.
#[cycle(last)]
pub fn last_of_part<P: Places>(part: &Part<'_>, places: &P, found: Option<usize>) -> Option<usize>
    ensures { place_after result ≡ max (place_after found) (part_greatest (P.number places.now) (part_of part.now)) }
{
    match part.get() {
        None => found,
        Some(term) => last_of(term.get(), places, found),
    }
}

/// Whether none is after the place that was found.
fn is_last<P: Places>(places: &P, found: Option<usize>) -> bool
    ensures { IsTrue result → (r : names.Reference) → P.number places.now r ≤ place_after found }
{
    match found {
        None => false,
        Some(place) => place >= places.last(),
    }
}

fn later(place: Option<usize>, found: Option<usize>) -> Option<usize>
    ensures { place_after result ≡ max (place_after found) (place_after place) }
{
    match (place, found) {
        (None, _) => found,
        (Some(_), None) => place,
        (Some(one), Some(other)) => Some(one.max(other)),
    }
}

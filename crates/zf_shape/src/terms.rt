//! The nodes and the height of resolved terms.
ghost use Rattle.std.specs.Prelude.{◌≡◌, ◌+◌, ◌<◌, ◌≤◌, ◌↔◌, IsTrue, MatchOption, map};
ghost use Rattle.zf_term.specs.{all_nodes, link_nodes, links, part_height, part_nodes, part_of, range_nodes, range_of, ranges, resolved_link_of, resolved_of, tallest, tallest_link, tallest_range, terms};
ghost use Rattle.zf_term.specs.Shapes as spec;

use zf_data::arena::{Boxed, Items};
use zf_term::{Links, Part, Range, Resolved, ResolvedLink, Terms};

/// What is left of room for so many nodes, if the term has no more.
#[cycle(room)]
#[tactic(auto, using(zf_term::proofs::ResolvedSeen::seen, crate::proofs::Nodes::some_node))]
pub fn room_after<'a>(term: &Resolved<'a>, room: usize) -> Option<usize>
    ensures { MatchOption result (room < spec.nodes (resolved_of term.now)) (λ left. left + spec.nodes (resolved_of term.now) ≡ room) }
{
    let Some(rest) = room.checked_sub(1) else {
        return None;
    };
    match term {
        Resolved::Name(_, _) => Some(rest),
        Resolved::Number(_, _) => Some(rest),
        Resolved::Constant(_, _) => Some(rest),
        Resolved::EmptySet(_, of) => room_after(of.get(), rest),
        Resolved::Bracket(_, inner) => room_after(inner.get(), room),
        Resolved::Listed(_, _, items) => room_after_terms(items, rest),
        Resolved::Comprehension(_, variables, filter, term) => {
            let left = room_after_ranges(variables, rest)?;
            room_after_part(term, room_after_part(filter, left)?)
        }
        Resolved::Unary(_, _, of) => room_after(of.get(), rest),
        Resolved::Binary(_, _, left, right) => room_after(
            right.get(),
            room_after(left.get(), rest)?,
        ),
        Resolved::Chain(_, first, further) => room_after_links(
            further,
            room_after(first.get(), rest)?,
        ),
        Resolved::Quantified(_, _, variables, constraint, body) => {
            let left = room_after_ranges(variables, rest)?;
            room_after(body.get(), room_after_part(constraint, left)?)
        }
    }
}

/// Whether the term is no higher.
#[cycle(within)]
#[tactic(auto, using(zf_term::proofs::ResolvedSeen::seen, crate::proofs::Heights::heights))]
pub fn is_within<'a>(term: &Resolved<'a>, highest: usize) -> bool
    ensures { IsTrue result ↔ spec.height (resolved_of term.now) ≤ highest }
{
    let Some(lower) = highest.checked_sub(1) else {
        return false;
    };
    match term {
        Resolved::Name(_, _) => true,
        Resolved::Number(_, _) => true,
        Resolved::Constant(_, _) => true,
        Resolved::EmptySet(_, of) => is_within(of.get(), lower),
        Resolved::Bracket(_, inner) => is_within(inner.get(), highest),
        Resolved::Listed(_, _, items) => are_terms_within(items, lower),
        Resolved::Comprehension(_, variables, filter, term) => {
            if !are_ranges_within(variables, lower) {
                return false;
            }
            is_part_within(filter, lower) && is_part_within(term, lower)
        }
        Resolved::Unary(_, _, of) => is_within(of.get(), lower),
        Resolved::Binary(_, _, left, right) => is_within(left.get(), lower)
            && is_within(right.get(), lower),
        Resolved::Chain(_, first, further) => is_within(first.get(), lower)
            && are_links_within(further, lower),
        Resolved::Quantified(_, _, variables, constraint, body) => {
            if !are_ranges_within(variables, lower) {
                return false;
            }
            is_part_within(constraint, lower) && is_within(body.get(), lower)
        }
    }
}

#[cycle(room)]
#[tactic(auto, using(crate::proofs::Nodes::terms_before))]
fn room_after_terms<'a>(items: &Terms<'a>, room: usize) -> Option<usize>
    ensures { MatchOption result (room < all_nodes (terms (map resolved_of items.now))) (λ left. left + all_nodes (terms (map resolved_of items.now)) ≡ room) }
{
    let mut left = room;
    for term in items.as_slice() {
        left = room_after(term, left)?;
    }
    Some(left)
}

#[cycle(room)]
#[tactic(auto, using(crate::proofs::Nodes::links_before))]
fn room_after_links<'a>(further: &Links<'a>, room: usize) -> Option<usize>
    ensures { MatchOption result (room < link_nodes (links (map resolved_link_of further.now))) (λ left. left + link_nodes (links (map resolved_link_of further.now)) ≡ room) }
{
    let mut left = room;
    for link in further.as_slice() {
        left = room_after(&link.right, left)?;
    }
    Some(left)
}

#[cycle(room)]
#[tactic(auto, using(crate::proofs::Nodes::ranges_before))]
fn room_after_ranges<'a>(variables: &Boxed<'a, Items<'a, Range<'a>>>, room: usize) -> Option<usize>
    ensures { MatchOption result (room < range_nodes (ranges (map range_of variables.now))) (λ left. left + range_nodes (ranges (map range_of variables.now)) ≡ room) }
{
    let mut left = room;
    for range in variables.as_slice() {
        left = room_after(&range.set, left)?;
    }
    Some(left)
}

#[cycle(room)]
fn room_after_part<'a>(part: &Part<'a>, room: usize) -> Option<usize>
    ensures { MatchOption result (room < part_nodes (part_of part.now)) (λ left. left + part_nodes (part_of part.now) ≡ room) }
{
    match part.get() {
        None => Some(room),
        Some(term) => room_after(term.get(), room),
    }
}

#[cycle(within)]
fn are_terms_within<'a>(items: &Terms<'a>, highest: usize) -> bool
    ensures { IsTrue result ↔ tallest (terms (map resolved_of items.now)) ≤ highest }
{
    for term in items.as_slice() {
        if !is_within(term, highest) {
            return false;
        }
    }
    true
}

#[cycle(within)]
fn are_links_within<'a>(further: &Links<'a>, highest: usize) -> bool
    ensures { IsTrue result ↔ tallest_link (links (map resolved_link_of further.now)) ≤ highest }
{
    for link in further.as_slice() {
        if !is_within(&link.right, highest) {
            return false;
        }
    }
    true
}

#[cycle(within)]
fn are_ranges_within<'a>(variables: &Boxed<'a, Items<'a, Range<'a>>>, highest: usize) -> bool
    ensures { IsTrue result ↔ tallest_range (ranges (map range_of variables.now)) ≤ highest }
{
    for range in variables.as_slice() {
        if !is_within(&range.set, highest) {
            return false;
        }
    }
    true
}

#[cycle(within)]
fn is_part_within<'a>(part: &Part<'a>, highest: usize) -> bool
    ensures { IsTrue result ↔ part_height (part_of part.now) ≤ highest }
{
    match part.get() {
        None => true,
        Some(term) => is_within(term.get(), highest),
    }
}

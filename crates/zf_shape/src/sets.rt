//! How many declared sets there are, and the nodes in them.
ghost use Rattle.std.specs.Prelude.{◌≡◌, ◌+◌, ◌<◌, MatchOption, map};
ghost use Rattle.zf_term.specs.{all_set_counts, all_set_nodes, set_count, set_nodes, set_of};

use crate::terms;
use zf_data::arena::Items;
use zf_term::Domain;

/// What is left of room for so many declared sets, if there are no more in this.
#[cycle(sets)]
#[tactic(auto, using(zf_term::proofs::SetsSeen::seen))]
pub fn room_after_sets<'a>(domain: &Domain<'a>, room: usize) -> Option<usize>
    ensures { MatchOption result (room < set_count (set_of domain.now)) (λ left. left + set_count (set_of domain.now) ≡ room) }
{
    match domain {
        Domain::Plain(_) => room.checked_sub(1),
        Domain::Carrier(_) => room.checked_sub(1),
        Domain::Either(left, right) => room_after_all_sets(
            right.get(),
            room_after_all_sets(left.get(), room)?,
        ),
    }
}

/// What is left of room for so many nodes, if the terms in this have no more.
#[cycle(nodes)]
#[tactic(auto, using(zf_term::proofs::SetsSeen::seen))]
pub fn room_after_nodes<'a>(domain: &Domain<'a>, room: usize) -> Option<usize>
    ensures { MatchOption result (room < set_nodes (set_of domain.now)) (λ left. left + set_nodes (set_of domain.now) ≡ room) }
{
    match domain {
        Domain::Plain(set) => terms::room_after(set.get(), room),
        Domain::Carrier(_) => Some(room),
        Domain::Either(left, right) => room_after_all_nodes(
            right.get(),
            room_after_all_nodes(left.get(), room)?,
        ),
    }
}

/// As for one declared set.
#[cycle(sets)]
#[tactic(auto, using(crate::proofs::SetsCounted::counts_before))]
pub fn room_after_all_sets<'a>(domains: &Items<'a, Domain<'a>>, room: usize) -> Option<usize>
    ensures { MatchOption result (room < all_set_counts (map set_of domains.now)) (λ left. left + all_set_counts (map set_of domains.now) ≡ room) }
{
    let mut left = room;
    for domain in domains.as_slice() {
        left = room_after_sets(domain, left)?;
    }
    Some(left)
}

/// As for one declared set.
#[cycle(nodes)]
#[tactic(auto, using(crate::proofs::SetsCounted::nodes_before))]
pub fn room_after_all_nodes<'a>(domains: &Items<'a, Domain<'a>>, room: usize) -> Option<usize>
    ensures { MatchOption result (room < all_set_nodes (map set_of domains.now)) (λ left. left + all_set_nodes (map set_of domains.now) ≡ room) }
{
    let mut left = room;
    for domain in domains.as_slice() {
        left = room_after_nodes(domain, left)?;
    }
    Some(left)
}

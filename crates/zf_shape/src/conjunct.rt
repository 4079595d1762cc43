//! The nodes and the height of conjuncts.
ghost use Rattle.std.specs.Prelude.{◌≡◌, ◌+◌, ◌<◌, ◌≤◌, ◌↔◌, IsTrue, MatchOption, length, map};
ghost use Rattle.zf_data.specs.{all_of};
ghost use Rattle.zf_shape.specs.{anywhere, AreLow};
ghost use Rattle.zf_term.specs.{all_nodes, batch_of, conjunct_of, joined, terms};
ghost use Rattle.zf_term.specs.Shapes as spec;

use crate::terms;
use zf_data::arena::Items;
use zf_term::{Batch, Batches, Conjunct};

/// What is left of room for so many nodes, if the term has no more.
#[cycle(room)]
#[tactic(auto, using(zf_term::proofs::ConjunctsSeen::seen))]
pub fn room_after<'a>(conjunct: &Conjunct<'a>, room: usize) -> Option<usize>
    ensures { MatchOption result (room < spec.nodes (conjunct_of conjunct.now)) (λ left. left + spec.nodes (conjunct_of conjunct.now) ≡ room) }
{
    match conjunct {
        Conjunct::Term(term, _) => terms::room_after(term.get(), room),
        // The component, the chain, and the set.
        Conjunct::Member(_, set, _) => terms::room_after(set.get(), room.checked_sub(2)?),
        Conjunct::Either(_, left, right, _) => {
            let behind_left = room_after_joined(left.get(), room.checked_sub(1)?)?;
            room_after_joined(right.get(), behind_left)
        }
    }
}

/// The same of terms that are joined: between two of them there is a node more, and one where there are none.
#[cycle(room)]
fn room_after_joined<'a>(batches: &Items<'a, Batch<'a>>, room: usize) -> Option<usize>
    ensures { MatchOption result (room < spec.nodes (joined anywhere (all_of (map batch_of batches.now)))) (λ left. left + spec.nodes (joined anywhere (all_of (map batch_of batches.now))) ≡ room) }
{
    let rest = room_after_count(batches, room)?;
    if rest == room {
        return room.checked_sub(1);
    }
    room_after_batches(batches, rest + 1)
}

/// What is left of room for so many, if there are no more terms.
#[tactic(auto, using(crate::proofs::Joined::count_before))]
fn room_after_count<'a>(batches: &Items<'a, Batch<'a>>, room: usize) -> Option<usize>
    ensures { MatchOption result (room < length (all_of (map batch_of batches.now))) (λ left. left + length (all_of (map batch_of batches.now)) ≡ room) }
{
    let mut left = room;
    for batch in batches.as_slice() {
        left = left.checked_sub(batch.conjuncts.get().len())?;
    }
    Some(left)
}

/// The same of all terms.
#[cycle(room)]
#[tactic(auto, using(crate::proofs::Joined::batches_before))]
fn room_after_batches<'a>(batches: &Items<'a, Batch<'a>>, room: usize) -> Option<usize>
    ensures { MatchOption result (room < all_nodes (terms (all_of (map batch_of batches.now)))) (λ left. left + all_nodes (terms (all_of (map batch_of batches.now))) ≡ room) }
{
    let mut left = room;
    for batch in batches.as_slice() {
        left = room_after_all(batch.conjuncts.get(), left)?;
    }
    Some(left)
}

/// The same of these terms.
#[cycle(room)]
#[tactic(auto, using(crate::proofs::Joined::conjuncts_before))]
fn room_after_all<'a>(conjuncts: &Items<'a, Conjunct<'a>>, room: usize) -> Option<usize>
    ensures { MatchOption result (room < all_nodes (terms (map conjunct_of conjuncts.now))) (λ left. left + all_nodes (terms (map conjunct_of conjuncts.now)) ≡ room) }
{
    let mut left = room;
    for conjunct in conjuncts.as_slice() {
        left = room_after(conjunct, left)?;
    }
    Some(left)
}

/// Whether the term is no higher.
#[cycle(within)]
pub fn is_within<'a>(conjunct: &Conjunct<'a>, highest: usize) -> bool
    ensures { IsTrue result ↔ spec.height (conjunct_of conjunct.now) ≤ highest }
{
    match conjunct {
        Conjunct::Term(term, _) => terms::is_within(term.get(), highest),
        Conjunct::Member(_, set, _) => match highest.checked_sub(1) {
            None => false,
            Some(lower) => terms::is_within(set.get(), lower),
        },
        Conjunct::Either(_, left, right, _) => match highest.checked_sub(1) {
            None => false,
            Some(lower) => {
                is_joined_within(left.get(), lower) && is_joined_within(right.get(), lower)
            }
        },
    }
}

/// The same of terms that are joined to the left: of n terms the one at place j stands n - max(j, 1) deeper.
#[cycle(within)]
fn is_joined_within<'a>(batches: &Items<'a, Batch<'a>>, highest: usize) -> bool
    ensures { IsTrue result ↔ spec.height (joined anywhere (all_of (map batch_of batches.now))) ≤ highest }
{
    let Some(beside) = room_after_count(batches, highest) else {
        return false;
    };
    let count = highest - beside;
    if count == 0 {
        return highest > 0;
    }
    are_batches_within(batches, highest, count - 1, count)
}

/// The same of so many terms, each of which stands as much deeper as are ahead, itself among them, and at most so deep.
#[cycle(within)]
fn are_batches_within<'a>(
    batches: &Items<'a, Batch<'a>>,
    highest: usize,
    deepest: usize,
    count: usize,
) -> bool
    ensures { IsTrue result ↔ AreLow highest deepest count (all_of (map batch_of batches.now)) }
{
    let mut ahead = count;
    for batch in batches.as_slice() {
        if !are_within(batch.conjuncts.get(), highest, deepest, ahead) {
            return false;
        }
        ahead = ahead.saturating_sub(batch.conjuncts.get().len());
    }
    true
}

/// The same of the first of so many terms.
#[cycle(within)]
fn are_within<'a>(
    conjuncts: &Items<'a, Conjunct<'a>>,
    highest: usize,
    deepest: usize,
    count: usize,
) -> bool
    ensures { IsTrue result ↔ AreLow highest deepest count (map conjunct_of conjuncts.now) }
{
    let mut ahead = count;
    for conjunct in conjuncts.as_slice() {
        let Some(lower) = highest.checked_sub(ahead.min(deepest)) else {
            return false;
        };
        if !is_within(conjunct, lower) {
            return false;
        }
        ahead = ahead.saturating_sub(1);
    }
    true
}

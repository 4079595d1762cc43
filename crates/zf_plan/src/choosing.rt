//! How the values of a range are chosen that are tried.
ghost use Rattle.std.specs.Prelude.{◌≡◌, ◌<◌, ◌≤◌, ◌+◌, [], length, slice_index_or, IsTrue, IfOk, IfSome, OnOk, OnErr, Ok, None};
ghost use Rattle.zf_plan.specs.Prelude.{AreWithin, picked};
ghost use Rattle.zf_plan.specs.{AreBelow, AreChoosers, AreKeyed, AreKeys, IsAsked, IsPart, IsPosed, Narrows, Remembers, StaysChoice, StaysIn, tree_at, trees_made, trees_of};
ghost use Rattle.zf_plan.specs.Choices.{Leaves};

use crate::choice::Choice;
use crate::evaluating::evaluate;
use crate::guide::Guide;
use crate::keys::gather_keyed;
use crate::memo::Memo;
use crate::node::Node;
use crate::plan::Choosers;
use crate::problem::Problem;
use std::alloc::AllocError;
use zf_walk::Truth;

/// Gathers the places that a tree leaves to the next component: of a conjunction those of a side, of a disjunction those of both. Answers false where it doesn't say.
fn gather<V: Ord, J: Guide<V>>(
    problem: &Problem<V, J>,
    places: &[usize],
    part: usize,
    memo: &mut Memo,
    gathered: &mut Vec<usize>,
) -> Result<bool, AllocError>
    requires asked { IsAsked V.cmp J.conjuncts J.is_used J.is_key problem.now places.now memo.old }
    requires part { IsPart (J.conjuncts problem.now.judge.now).number problem.now.forest.now part }
    requires deeper { length places.now < length problem.now.ranges.now }
    ensures remembers { Remembers (J.conjuncts problem.now.judge.now) (J.is_used problem.now.judge.now) problem.now.ranges.now places.now memo.new }
    ensures same { memo.new.tests ≡ memo.old.tests }
    ensures stay { StaysIn gathered.old.items gathered.new.items }
    ensures narrows { IfOk result (λ found. IsTrue found → Narrows (J.conjuncts problem.now.judge.now) (tree_at (trees_made problem.now.forest.now) part) problem.now.ranges.now (picked problem.now.ranges.now places.now) (slice_index_or problem.now.ranges.now (length places.now) []) gathered.new.items) }
{
    match problem.forest.node(part) {
        Node::Leaf(of) => narrow_leaf(problem, places, of, gathered),
        Node::Not(_) => Ok(false),
        Node::And(left, right) => {
            let first = gather(problem, places, left, memo, gathered)?;
            if first {
                return Ok(true);
            }
            gather(problem, places, right, memo, gathered)
        }
        Node::Or(left, right) => {
            let known = evaluate(problem, places, left, memo)?;
            if let Some(Truth::False) = known {
                return gather(problem, places, right, memo, gathered);
            }
            let first = gather(problem, places, left, memo, gathered)?;
            if !first {
                return Ok(false);
            }
            let known = evaluate(problem, places, right, memo)?;
            if let Some(Truth::False) = known {
                return Ok(true);
            }
            gather(problem, places, right, memo, gathered)
        }
    }
}

/// Gathers the places that a leaf leaves to the next component, if need be by the keys of its values. Answers false where it doesn't say.
fn narrow_leaf<V: Ord, J: Guide<V>>(
    problem: &Problem<V, J>,
    places: &[usize],
    of: usize,
    gathered: &mut Vec<usize>,
) -> Result<bool, AllocError>
    requires sound { IsPosed V.cmp J.conjuncts J.is_used problem.now }
    requires keys { AreKeyed (J.conjuncts problem.now.judge.now) (J.is_key problem.now.judge.now) problem.now.ranges.now problem.now.keys.now }
    requires of { of < (J.conjuncts problem.now.judge.now).number }
    requires within { AreWithin problem.now.ranges.now places.now }
    requires deeper { length places.now < length problem.now.ranges.now }
    ensures stay { StaysIn gathered.old.items gathered.new.items }
    ensures leaves { IfOk result (λ found. IsTrue found → Leaves (J.conjuncts problem.now.judge.now) of problem.now.ranges.now places.now gathered.new.items) }
{
    let found = problem.judge.narrow(of, problem.ranges, places, gathered)?;
    if found || of >= problem.keys.len() || problem.judge.due(of) != places.len() + 1 {
        return Ok(found);
    }
    let keyed = &problem.keys[of];
    narrow_by_keys(problem, places, of, &keyed.keys, gathered)
}

/// Gathers the places that a leaf leaves to the next component by these keys. Answers false where it doesn't say.
fn narrow_by_keys<V: Ord, J: Guide<V>>(
    problem: &Problem<V, J>,
    places: &[usize],
    of: usize,
    keys: &[u64],
    gathered: &mut Vec<usize>,
) -> Result<bool, AllocError>
    requires of { of < (J.conjuncts problem.now.judge.now).number }
    requires within { AreWithin problem.now.ranges.now places.now }
    requires deeper { length places.now < length problem.now.ranges.now }
    requires due { (J.conjuncts problem.now.judge.now).due of ≡ length places.now + 1 }
    requires keys { AreKeys (J.is_key problem.now.judge.now of) (slice_index_or problem.now.ranges.now (length places.now) []) keys.now }
    ensures stay { StaysIn gathered.old.items gathered.new.items }
    ensures leaves { IfOk result (λ found. IsTrue found → Leaves (J.conjuncts problem.now.judge.now) of problem.now.ranges.now places.now gathered.new.items) }
{
    let range = &problem.ranges[places.len()];
    if keys.len() == 0 || keys.len() != range.values.len() {
        return Ok(false);
    }
    let Some(wanted) = problem.judge.key(of, problem.ranges, places, None)? else {
        return Ok(false);
    };
    gather_keyed(keys, wanted, gathered)?;
    Ok(true)
}

/// Gathers the places that the first of these conjuncts leaves which says so, and answers which one that is, if any.
fn gather_first<V: Ord, J: Guide<V>>(
    problem: &Problem<V, J>,
    places: &[usize],
    conjuncts: &[usize],
    memo: &mut Memo,
    gathered: &mut Vec<usize>,
) -> Result<Option<usize>, AllocError>
    requires asked { IsAsked V.cmp J.conjuncts J.is_used J.is_key problem.now places.now memo.old }
    requires conjuncts { AreBelow (length (trees_of problem.now.forest.now)) conjuncts.now }
    requires deeper { length places.now < length problem.now.ranges.now }
    ensures remembers { Remembers (J.conjuncts problem.now.judge.now) (J.is_used problem.now.judge.now) problem.now.ranges.now places.now memo.new }
    ensures same { memo.new.tests ≡ memo.old.tests }
    ensures narrows { IfOk result (λ found. IfSome found (λ i. Narrows (J.conjuncts problem.now.judge.now) (tree_at (trees_of problem.now.forest.now) (slice_index_or conjuncts.now i 0)) problem.now.ranges.now (picked problem.now.ranges.now places.now) (slice_index_or problem.now.ranges.now (length places.now) []) gathered.new.items)) }
    ensures within { IfOk result (λ found. IfSome found (λ i. i < length conjuncts.now)) }
    ensures none { conjuncts.now ≡ [] → result ≡ Ok None }
{
    for i in 0..conjuncts.len() {
        let conjunct = conjuncts[i];
        gathered.clear();
        let root = problem.forest.root(conjunct);
        let found = gather(problem, places, root, memo, gathered)?;
        if found {
            return Ok(Some(i));
        }
    }
    Ok(None)
}

/// Chooses the places of the next component that are tried. With a value at any other place a conjunct is False on every row, whatever the values are after those first ones that the answer counts.
pub fn choose<V: Ord, J: Guide<V>>(
    problem: &Problem<V, J>,
    places: &[usize],
    by: &Choosers,
    memo: &mut Memo,
    choice: &mut Choice,
) -> Result<usize, AllocError>
    requires asked { IsAsked V.cmp J.conjuncts J.is_used J.is_key problem.now places.now memo.old }
    requires by { AreChoosers (J.is_used problem.now.judge.now) (trees_of problem.now.forest.now) (length places.now) by.now }
    requires deeper { length places.now < length problem.now.ranges.now }
    ensures remembers { Remembers (J.conjuncts problem.now.judge.now) (J.is_used problem.now.judge.now) problem.now.ranges.now places.now memo.new }
    ensures same { memo.new.tests ≡ memo.old.tests }
    ensures few { IfOk result (λ due. due ≤ length places.now) }
    ensures choice { IfOk result (λ due. StaysChoice (J.conjuncts problem.now.judge.now) (trees_of problem.now.forest.now) problem.now.ranges.now (length places.now) due places.now choice.new) }
    ensures all { OnOk result (by.now.conjuncts.items ≡ [] → choice.new ≡ None) }
    ensures granted { OnErr result (by.now.conjuncts.items ≡ [] → ⊥) }
{
    let found = gather_first(problem, places, &by.conjuncts, memo, &mut choice.places)?;
    match found {
        Some(i) => {
            let range = &problem.ranges[places.len()];
            choice.all = false;
            choice.marked = false;
            choice.mark(range.values.len())?;
            Ok(by.lasts[i])
        }
        None => {
            choice.all = true;
            choice.waits = false;
            if by.conjuncts.len() == 0 {
                return Ok(0);
            }
            Ok(places.len())
        }
    }
}

//! What is known of trees at a row. The truth of each leaf is asked for once on the values that it needs.
ghost use Rattle.std.specs.Prelude.{◌≡◌, ◌≢◌, ◌<◌, Ok, [], ℕ, true, length, slice_index_or, IfOk, IfSome};
ghost use Rattle.zf_plan.specs.Prelude.{False, picked};
ghost use Rattle.zf_plan.specs.{AreBelow, IsAmong, IsAsked, IsKnown, IsLeafOrBelow, IsPart, IsSettled, IsSoFar, Remembers, touches, tree_at, trees_made, trees_of};

use crate::guide::Guide;
use crate::known::{both, either, join, not};
use crate::memo::Memo;
use crate::node::Node;
use crate::problem::Problem;
use std::alloc::AllocError;
use zf_walk::Truth;

/// What is known of a tree. Of two sides the second is asked for only where the first doesn't decide.
pub fn evaluate<V: Ord, J: Guide<V>>(
    problem: &Problem<V, J>,
    places: &[usize],
    part: usize,
    memo: &mut Memo,
) -> Result<Option<Truth>, AllocError>
    requires asked { IsAsked V.cmp J.conjuncts J.is_used J.is_key problem.now places.now memo.old }
    requires part { IsPart (J.conjuncts problem.now.judge.now).number problem.now.forest.now part }
    ensures remembers { Remembers (J.conjuncts problem.now.judge.now) (J.is_used problem.now.judge.now) problem.now.ranges.now places.now memo.new }
    ensures same { memo.new.tests ≡ memo.old.tests }
    ensures known { IfOk result (IsKnown (J.conjuncts problem.now.judge.now) (tree_at (trees_made problem.now.forest.now) part) (picked problem.now.ranges.now places.now)) }
{
    match problem.forest.node(part) {
        Node::Leaf(of) => memo.look(problem.judge, problem.ranges, places, of),
        Node::Not(of) => Ok(not(evaluate(problem, places, of, memo)?)),
        Node::And(left, right) => {
            if let Some(Truth::False) = told(problem, places, right, memo) {
                return Ok(Some(Truth::False));
            }
            let first = evaluate(problem, places, left, memo)?;
            if let Some(Truth::False) = first {
                return Ok(first);
            }
            let second = evaluate(problem, places, right, memo)?;
            Ok(both(first, second))
        }
        Node::Or(left, right) => {
            if let Some(Truth::True) = told(problem, places, right, memo) {
                return Ok(Some(Truth::True));
            }
            let first = evaluate(problem, places, left, memo)?;
            if let Some(Truth::True) = first {
                return Ok(first);
            }
            let second = evaluate(problem, places, right, memo)?;
            Ok(either(first, second))
        }
    }
}

/// What is known of a tree without a question, if it is a leaf.
fn told<V: Ord, J: Guide<V>>(
    problem: &Problem<V, J>,
    places: &[usize],
    part: usize,
    memo: &Memo,
) -> Option<Truth>
    requires asked { IsAsked V.cmp J.conjuncts J.is_used J.is_key problem.now places.now memo.now }
    requires part { IsPart (J.conjuncts problem.now.judge.now).number problem.now.forest.now part }
    ensures { IfSome result (IsSettled (J.conjuncts problem.now.judge.now) (tree_at (trees_made problem.now.forest.now) part) (picked problem.now.ranges.now places.now)) }
{
    match problem.forest.node(part) {
        Node::Leaf(of) => memo.told(problem.judge, problem.ranges, places, of),
        _ => None,
    }
}

/// The truth of these conjuncts, as far as it is known, and of what was found before: asked for one after another, up to the first that is False.
pub fn test_trees<V: Ord, J: Guide<V>>(
    problem: &Problem<V, J>,
    places: &[usize],
    conjuncts: &[usize],
    before: Truth,
    memo: &mut Memo,
) -> Result<Truth, AllocError>
    requires asked { IsAsked V.cmp J.conjuncts J.is_used J.is_key problem.now places.now memo.old }
    requires conjuncts { AreBelow (length (trees_of problem.now.forest.now)) conjuncts.now }
    requires touched { (i : ℕ) → i < length conjuncts.now → touches (J.conjuncts problem.now.judge.now) (length places.now) (tree_at (trees_of problem.now.forest.now) (slice_index_or conjuncts.now i 0)) ≡ true }
    requires before { before ≢ False }
    requires so_far { IsSoFar (J.conjuncts problem.now.judge.now) (trees_of problem.now.forest.now) (picked problem.now.ranges.now places.now) (IsLeafOrBelow (J.conjuncts problem.now.judge.now) (trees_of problem.now.forest.now) (length places.now)) before }
    ensures remembers { Remembers (J.conjuncts problem.now.judge.now) (J.is_used problem.now.judge.now) problem.now.ranges.now places.now memo.new }
    ensures same { memo.new.tests ≡ memo.old.tests }
    ensures so_far { IfOk result (IsSoFar (J.conjuncts problem.now.judge.now) (trees_of problem.now.forest.now) (picked problem.now.ranges.now places.now) (IsAmong (J.conjuncts problem.now.judge.now) (trees_of problem.now.forest.now) (length places.now) conjuncts.now)) }
    ensures none { conjuncts.now ≡ [] → result ≡ Ok before }
{
    let mut all = before;
    for i in 0..conjuncts.len() {
        let root = problem.forest.root(conjuncts[i]);
        let known = evaluate(problem, places, root, memo)?;
        all = join(all, known);
        if let Truth::False = all {
            return Ok(all);
        }
    }
    Ok(all)
}

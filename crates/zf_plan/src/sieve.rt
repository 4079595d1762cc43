//! How the values of a range are sifted by conjuncts that use few of the values before it.
ghost use Rattle.std.specs.Prelude.{◌≡◌, ◌<◌, ◌≤◌, ℕ, [], length, slice_index_or, None, IsTrue, IfOk, OnOk, OnErr};
ghost use Rattle.zf_plan.specs.Prelude.{picked};
ghost use Rattle.zf_plan.specs.{AreBelow, AreChoosers, AreSifted, IsAsked, IsGreatest, IsOneFalse, Remembers, StaysChoice, trees_of};

use crate::choice::Choice;
use crate::evaluating::evaluate;
use crate::guide::Guide;
use crate::memo::Memo;
use crate::plan::Choosers;
use crate::problem::Problem;
use std::alloc::AllocError;
use zf_walk::Truth;

/// Chooses the values of the next range on which none of these conjuncts is False. The choice is one whatever the values are after those first ones that the answer counts.
pub fn sift<V: Ord, J: Guide<V>>(
    problem: &Problem<V, J>,
    places: &[usize],
    by: &Choosers,
    memo: &mut Memo,
    choice: &mut Choice,
) -> Result<usize, AllocError>
    requires asked { IsAsked V.cmp J.conjuncts J.is_used J.is_key problem.now places.now memo.old }
    requires by { AreChoosers (J.is_used problem.now.judge.now) (trees_of problem.now.forest.now) (length places.now) by.now }
    requires deeper { length places.now < length problem.now.ranges.now }
    ensures remembers { Remembers (J.conjuncts problem.now.judge.now) (J.is_used problem.now.judge.now) problem.now.ranges.now places.now memo.new }
    ensures same { memo.new.tests ≡ memo.old.tests }
    ensures few { IfOk result (λ due. due ≤ length places.now) }
    ensures choice { IfOk result (λ due. StaysChoice (J.conjuncts problem.now.judge.now) (trees_of problem.now.forest.now) problem.now.ranges.now (length places.now) due places.now choice.new) }
    ensures refused { OnErr result (choice.old ≡ None → choice.new ≡ None) }
{
    mark_passing(problem, places, &by.conjuncts, memo, &mut choice.passes)?;
    choice.all = false;
    choice.marked = true;
    Ok(greatest(&by.lasts))
}

/// Marks for each value of the next range whether it passes.
fn mark_passing<V: Ord, J: Guide<V>>(
    problem: &Problem<V, J>,
    places: &[usize],
    conjuncts: &[usize],
    memo: &mut Memo,
    passes: &mut Vec<bool>,
) -> Result<(), AllocError>
    requires asked { IsAsked V.cmp J.conjuncts J.is_used J.is_key problem.now places.now memo.old }
    requires conjuncts { AreBelow (length (trees_of problem.now.forest.now)) conjuncts.now }
    requires deeper { length places.now < length problem.now.ranges.now }
    ensures remembers { Remembers (J.conjuncts problem.now.judge.now) (J.is_used problem.now.judge.now) problem.now.ranges.now places.now memo.new }
    ensures same { memo.new.tests ≡ memo.old.tests }
    ensures sifted { OnOk result (AreSifted (J.conjuncts problem.now.judge.now) (trees_of problem.now.forest.now) problem.now.ranges.now conjuncts.now places.now (length (slice_index_or problem.now.ranges.now (length places.now) [])) passes.new.items) }
{
    let ranges = problem.ranges;
    let next = places.len();
    let range = &ranges[next];
    let mut longer = Vec::with_capacity(*passes.allocator(), next + 1)?;
    longer.extend_from_slice(places)?;
    passes.clear();
    for place in 0..range.values.len() {
        longer.push(place)?;
        memo.forget(next + 1);
        let is_false = is_one_false(problem, &longer, conjuncts, memo)?;
        longer.truncate(next);
        passes.push(!is_false)?;
    }
    Ok(())
}

/// Whether one of these conjuncts is known to be False on the row.
fn is_one_false<V: Ord, J: Guide<V>>(
    problem: &Problem<V, J>,
    places: &[usize],
    conjuncts: &[usize],
    memo: &mut Memo,
) -> Result<bool, AllocError>
    requires asked { IsAsked V.cmp J.conjuncts J.is_used J.is_key problem.now places.now memo.old }
    requires conjuncts { AreBelow (length (trees_of problem.now.forest.now)) conjuncts.now }
    ensures remembers { Remembers (J.conjuncts problem.now.judge.now) (J.is_used problem.now.judge.now) problem.now.ranges.now places.now memo.new }
    ensures same { memo.new.tests ≡ memo.old.tests }
    ensures is_false { IfOk result (λ found. IsTrue found → IsOneFalse (J.conjuncts problem.now.judge.now) (trees_of problem.now.forest.now) conjuncts.now (picked problem.now.ranges.now places.now)) }
{
    for i in 0..conjuncts.len() {
        let root = problem.forest.root(conjuncts[i]);
        let known = evaluate(problem, places, root, memo)?;
        if let Some(Truth::False) = known {
            return Ok(true);
        }
    }
    Ok(false)
}

/// The greatest of these numbers; 0 where there is none.
pub fn greatest(numbers: &[usize]) -> usize
    ensures all { IsGreatest numbers.now result }
    ensures least { (n : ℕ) → IsGreatest numbers.now n → result ≤ n }
{
    let mut most = 0;
    for i in 0..numbers.len() {
        most = numbers[i].max(most);
    }
    most
}

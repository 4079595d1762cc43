//! The steps of a search.
ghost use Rattle.std.specs.Prelude.{◌≡◌, ◌≢◌, ◌<◌, ◌≤◌, true, None, [], length, slice_index_or, IsTrue, IfOk, OnOk, OnErr, ℕ, take};
ghost use Rattle.zf_plan.specs.Prelude.{option_copied, False, picked, unseen};
ghost use Rattle.zf_plan.specs.{all_of, AreHeld, AreKeyed, AreSeen, bound, CountsOn, Enters, Finds, found_before, Gives, Goes, is_over, IsAsked, IsAt, IsBlamed, IsChoice, IsCounted, IsKept, IsPlain, IsPosed, IsSoFar, KeepsEvents, mark_at, NeedsBelow, Passes, PassesOpen, path, planted, Remembers, seen_at, Stands, StaysChoice, trees_of};
ghost use Rattle.zf_plan.specs.Counts.{Counts};

use crate::blame::first_bits;
use crate::choice::Choice;
use crate::choosing::choose;
use crate::evaluating::test_trees;
use crate::guide::Guide;
use crate::memo::Memo;
use crate::moves::{descend, jump, retreat};
use crate::place::Place;
use crate::problem::Problem;
use crate::sieve::{greatest, sift};
use std::alloc::AllocError;
use zf_walk::{Seen, Step, Truth, is_reached};

/// Tests a row of bound values. Where it is False no event begins with that row, and else it is the truth of the conjuncts that need no more values.
fn test_row<V: Ord, J: Guide<V>>(
    problem: &Problem<V, J>,
    places: &[usize],
    before: Truth,
    memo: &mut Memo,
) -> Result<Truth, AllocError>
    requires asked { IsAsked V.cmp J.conjuncts J.is_used J.is_key problem.now places.now memo.old }
    requires before { before ≢ False }
    requires so_far { IsSoFar (J.conjuncts problem.now.judge.now) (trees_of problem.now.forest.now) (picked problem.now.ranges.now places.now) (NeedsBelow (J.conjuncts problem.now.judge.now) (trees_of problem.now.forest.now) (length places.now)) before }
    ensures remembers { Remembers (J.conjuncts problem.now.judge.now) (J.is_used problem.now.judge.now) problem.now.ranges.now places.now memo.new }
    ensures more { memo.old.tests ≤ memo.new.tests }
    ensures finds { IfOk result (Finds V.cmp (J.conjuncts problem.now.judge.now) (trees_of problem.now.forest.now) (length problem.now.ranges.now) (option_copied problem.now.after) (picked problem.now.ranges.now places.now)) }
    ensures counts { IsPlain (J.conjuncts problem.now.judge.now) (trees_of problem.now.forest.now) problem.now.plan.now → Counts V.cmp (J.conjuncts problem.now.judge.now) problem.now.ranges.now (option_copied problem.now.after) (picked problem.now.ranges.now places.now) all_of memo.old.tests → CountsOn V.cmp (J.conjuncts problem.now.judge.now) problem.now.ranges.now (option_copied problem.now.after) (picked problem.now.ranges.now places.now) result memo.new.tests }
{
    if !is_reached(problem.after, problem.ranges, places) {
        return Ok(Truth::False);
    }
    let layer = problem.layer(places.len());
    let tested = memo.test(problem, places, &layer.due, before)?;
    if let Truth::False = tested {
        return Ok(Truth::False);
    }
    test_trees(problem, places, &layer.touched, tested, memo)
}

/// The same where the leaves that are conjuncts and need just this row are known to be True. Where it is False no event begins with that row, and else it is the truth of the conjuncts that need no more values.
fn test_told<V: Ord, J: Guide<V>>(
    problem: &Problem<V, J>,
    places: &[usize],
    before: Truth,
    memo: &mut Memo,
) -> Result<Truth, AllocError>
    requires asked { IsAsked V.cmp J.conjuncts J.is_used J.is_key problem.now places.now memo.old }
    requires before { before ≢ False }
    requires so_far { IsSoFar (J.conjuncts problem.now.judge.now) (trees_of problem.now.forest.now) (picked problem.now.ranges.now places.now) (NeedsBelow (J.conjuncts problem.now.judge.now) (trees_of problem.now.forest.now) (length places.now)) before }
    requires told { AreHeld (J.conjuncts problem.now.judge.now) (trees_of problem.now.forest.now) (picked problem.now.ranges.now places.now) (length places.now) }
    ensures remembers { Remembers (J.conjuncts problem.now.judge.now) (J.is_used problem.now.judge.now) problem.now.ranges.now places.now memo.new }
    ensures same { memo.new.tests ≡ memo.old.tests }
    ensures finds { IfOk result (Finds V.cmp (J.conjuncts problem.now.judge.now) (trees_of problem.now.forest.now) (length problem.now.ranges.now) (option_copied problem.now.after) (picked problem.now.ranges.now places.now)) }
{
    if !is_reached(problem.after, problem.ranges, places) {
        return Ok(Truth::False);
    }
    let layer = problem.layer(places.len());
    test_trees(problem, places, &layer.touched, before, memo)
}

/// Tests the row of the bound values: of the leaves that need the last one, as far as it was not seen before what they come to.
fn test<V: Ord, J: Guide<V>>(
    problem: &Problem<V, J>,
    place: &Place,
    memo: &mut Memo,
) -> Result<Truth, AllocError>
    requires asked { IsAsked V.cmp J.conjuncts J.is_used J.is_key problem.now (bound place.now) memo.old }
    requires at { IsAt problem.now.ranges.now place.now }
    requires before { found_before place.now.found.items place.now.depth ≢ False }
    requires so_far { IsSoFar (J.conjuncts problem.now.judge.now) (trees_of problem.now.forest.now) (path problem.now.ranges.now place.now) (NeedsBelow (J.conjuncts problem.now.judge.now) (trees_of problem.now.forest.now) place.now.depth) (found_before place.now.found.items place.now.depth) }
    requires seen { (k : ℕ) → k < place.now.depth → AreSeen (J.conjuncts problem.now.judge.now) (trees_of problem.now.forest.now) problem.now.ranges.now (take k place.now.places.items) (seen_at place.now k) }
    ensures remembers { Remembers (J.conjuncts problem.now.judge.now) (J.is_used problem.now.judge.now) problem.now.ranges.now (bound place.now) memo.new }
    ensures more { memo.old.tests ≤ memo.new.tests }
    ensures finds { IfOk result (Finds V.cmp (J.conjuncts problem.now.judge.now) (trees_of problem.now.forest.now) (length problem.now.ranges.now) (option_copied problem.now.after) (path problem.now.ranges.now place.now)) }
    ensures counts { IsPlain (J.conjuncts problem.now.judge.now) (trees_of problem.now.forest.now) problem.now.plan.now → ((k : ℕ) → seen_at place.now k ≡ unseen) → Counts V.cmp (J.conjuncts problem.now.judge.now) problem.now.ranges.now (option_copied problem.now.after) (path problem.now.ranges.now place.now) all_of memo.old.tests → CountsOn V.cmp (J.conjuncts problem.now.judge.now) problem.now.ranges.now (option_copied problem.now.after) (path problem.now.ranges.now place.now) result memo.new.tests }
{
    let row = &place.places[..place.depth];
    match place.told() {
        Some(Truth::True) => test_told(problem, row, place.so_far(), memo),
        Some(Truth::False) => Ok(Truth::False),
        _ => test_row(problem, row, place.so_far(), memo),
    }
}

/// What is known, with each value of the next range, of the leaves that are conjuncts and need it as the last; nothing where tests are counted.
fn see<V: Ord, J: Guide<V>>(problem: &Problem<V, J>, places: &[usize], memo: &Memo) -> Seen
    requires asked { IsAsked V.cmp J.conjuncts J.is_used J.is_key problem.now places.now memo.now }
    requires deeper { length places.now < length problem.now.ranges.now }
    ensures seen { AreSeen (J.conjuncts problem.now.judge.now) (trees_of problem.now.forest.now) problem.now.ranges.now places.now result }
    ensures plain { IsPlain (J.conjuncts problem.now.judge.now) (trees_of problem.now.forest.now) problem.now.plan.now → result ≡ unseen }
{
    if problem.plan.is_plain {
        return Seen::none();
    }
    let range = &problem.ranges[places.len()];
    if range.values.len() == 0 {
        return Seen::none();
    }
    let layer = problem.layer(places.len() + 1);
    memo.seen(problem, places, &layer.due)
}

/// Chooses the values of the next range that are tried; where all were chosen for the same first values, those that remain when it is sifted: what the conjuncts say of each value is known by then. Answers of how many first values the choice was made.
fn choose_at<V: Ord, J: Guide<V>>(
    problem: &Problem<V, J>,
    places: &[usize],
    again: bool,
    memo: &mut Memo,
    choice: &mut Choice,
) -> Result<usize, AllocError>
    requires asked { IsAsked V.cmp J.conjuncts J.is_used J.is_key problem.now places.now memo.old }
    requires deeper { length places.now < length problem.now.ranges.now }
    requires waits { again ≡ true → choice.old ≡ None }
    ensures remembers { Remembers (J.conjuncts problem.now.judge.now) (J.is_used problem.now.judge.now) problem.now.ranges.now places.now memo.new }
    ensures same { memo.new.tests ≡ memo.old.tests }
    ensures few { IfOk result (λ due. due ≤ length places.now) }
    ensures choice { IfOk result (λ due. StaysChoice (J.conjuncts problem.now.judge.now) (trees_of problem.now.forest.now) problem.now.ranges.now (length places.now) due places.now choice.new) }
    ensures all { OnOk result (problem.now.plan.now.is_plain ≡ true → choice.new ≡ None) }
    ensures granted { OnErr result (problem.now.plan.now.is_plain ≡ true → ⊥) }
    ensures refused { OnErr result (again ≡ true → choice.new ≡ None) }
{
    let layer = problem.layer(places.len());
    if again {
        if layer.sifting.conjuncts.len() == 0 {
            return Ok(0);
        }
        return sift(problem, places, &layer.sifting, memo, choice);
    }
    if layer.sifting.lasts.len() > 0 {
        choice.all = true;
        choice.waits = true;
        return Ok(greatest(&layer.sifting.lasts));
    }
    choose(problem, places, &layer.narrowing, memo, choice)
}

/// Chooses the values of the next range that are tried, unless the choice that was made of it before is one still.
fn choose_next<V: Ord, J: Guide<V>>(
    problem: &Problem<V, J>,
    place: &mut Place,
    memo: &mut Memo,
    choice: &mut Choice,
) -> Result<(), AllocError>
    requires asked { IsAsked V.cmp J.conjuncts J.is_used J.is_key problem.now (bound place.old) memo.old }
    requires at { IsAt problem.now.ranges.now place.old }
    requires deeper { place.old.depth < length problem.now.ranges.now }
    requires kept { IsKept (J.conjuncts problem.now.judge.now) (trees_of problem.now.forest.now) problem.now.ranges.now place.old.marks.stamps.items (bound place.old) place.old.depth choice.old (mark_at place.old.marks place.old.depth) }
    ensures enters { Enters J.conjuncts J.is_used problem.now place.old memo.old choice.old result place.new memo.new choice.new }
    ensures choice { OnOk result (StaysChoice (J.conjuncts problem.now.judge.now) (trees_of problem.now.forest.now) problem.now.ranges.now place.old.depth (mark_at place.new.marks place.old.depth).due (bound place.old) choice.new) }
{
    let depth = place.depth;
    let again = place.marks.is_still(depth);
    if choice.stays(again) {
        return Ok(());
    }
    let due = choose_at(problem, &place.places[..depth], again, memo, choice)?;
    place.marks.keep(depth, due);
    Ok(())
}

/// Chooses the values of the next range that are tried, and notes what those are to be blamed on that are left out.
fn enter<V: Ord, J: Guide<V>>(
    problem: &Problem<V, J>,
    place: &mut Place,
    memo: &mut Memo,
    choice: &mut Choice,
) -> Result<(), AllocError>
    requires asked { IsAsked V.cmp J.conjuncts J.is_used J.is_key problem.now (bound place.old) memo.old }
    requires at { IsAt problem.now.ranges.now place.old }
    requires deeper { place.old.depth < length problem.now.ranges.now }
    requires kept { IsKept (J.conjuncts problem.now.judge.now) (trees_of problem.now.forest.now) problem.now.ranges.now place.old.marks.stamps.items (bound place.old) place.old.depth choice.old (mark_at place.old.marks place.old.depth) }
    ensures enters { Enters J.conjuncts J.is_used problem.now place.old memo.old choice.old result place.new memo.new choice.new }
    ensures choice { OnOk result (IsChoice (J.conjuncts problem.now.judge.now) (trees_of problem.now.forest.now) problem.now.ranges.now (path problem.now.ranges.now place.old) (slice_index_or problem.now.ranges.now place.old.depth []) choice.new) }
    ensures blamed { OnOk result (IsBlamed (J.conjuncts problem.now.judge.now) (trees_of problem.now.forest.now) problem.now.ranges.now place.old.places.items place.old.depth 0 choice.new (mark_at place.new.marks place.old.depth)) }
{
    choose_next(problem, place, memo, choice)?;
    let depth = place.depth;
    if depth >= 64 || problem.plan.is_plain {
        place.marks.accuse(depth, true, 0);
        return Ok(());
    }
    if choice.all {
        place.marks.accuse(depth, false, 0);
        return Ok(());
    }
    let mark = place.marks.choices[depth];
    place.marks.accuse(depth, false, first_bits(mark.due));
    Ok(())
}

/// Passes the row of the bound values, on which a conjunct is False that has a leaf which needs the last one, or which the named row comes after.
fn pass<V: Ord, J: Guide<V>>(problem: &Problem<V, J>, place: &mut Place)
    requires sound { IsPosed V.cmp J.conjuncts J.is_used problem.now }
    requires at { IsAt problem.now.ranges.now place.old }
    ensures { Passes V.cmp (J.conjuncts problem.now.judge.now) (J.is_used problem.now.judge.now) (trees_of problem.now.forest.now) problem.now.ranges.now (option_copied problem.now.after) place.old place.new }
{
    place.fresh = false;
    let depth = place.depth;
    if depth == 0 {
        return;
    }
    if depth > 64 || !is_reached(problem.after, problem.ranges, &place.places[..depth]) {
        place.marks.accuse(depth - 1, true, 0);
        return;
    }
    let mark = place.marks.choices[depth - 1];
    let blame = mark.blame | problem.layer(depth).blame;
    place.marks.accuse(depth - 1, mark.is_open, blame);
}

/// Passes the row of the bound values, the last of which is open from now on: there may be an event that begins with them.
pub fn pass_event(place: &mut Place)
    requires { place.old.depth ≤ length place.old.marks.choices.items }
    ensures { PassesOpen place.old place.new }
{
    place.fresh = false;
    if place.depth == 0 {
        return;
    }
    place.marks.accuse(place.depth - 1, true, 0);
}

/// One step: to another place, or to an answer.
fn step_on<V: Ord, J: Guide<V>>(
    problem: &Problem<V, J>,
    place: &mut Place,
    memo: &mut Memo,
    choices: &mut [Choice],
) -> Result<Option<Step>, AllocError>
    requires sound { IsPosed V.cmp J.conjuncts J.is_used problem.now }
    requires keys { AreKeyed (J.conjuncts problem.now.judge.now) (J.is_key problem.now.judge.now) problem.now.ranges.now problem.now.keys.now }
    requires stands { Stands (J.conjuncts problem.now.judge.now) (J.is_used problem.now.judge.now) (trees_of problem.now.forest.now) problem.now.ranges.now place.old memo.old choices.old }
    ensures stands { Stands (J.conjuncts problem.now.judge.now) (J.is_used problem.now.judge.now) (trees_of problem.now.forest.now) problem.now.ranges.now place.new memo.new choices.new }
    ensures goes { IfOk result (λ found. Goes V.cmp (planted (J.conjuncts problem.now.judge.now) (trees_of problem.now.forest.now)) problem.now.ranges.now (option_copied problem.now.after) place.old found place.new) }
    ensures err { OnErr result (place.new ≡ place.old) }
    ensures counts { IsPlain (J.conjuncts problem.now.judge.now) (trees_of problem.now.forest.now) problem.now.plan.now → IsCounted V.cmp (J.conjuncts problem.now.judge.now) problem.now.ranges.now (option_copied problem.now.after) place.old memo.old.tests choices.old → IsCounted V.cmp (J.conjuncts problem.now.judge.now) problem.now.ranges.now (option_copied problem.now.after) place.new memo.new.tests choices.new }
    ensures more { memo.old.tests ≤ memo.new.tests }
    ensures over { IsTrue (is_over place.old) → result ≡ Ok (Some Step.End) }
{
    if !place.fresh {
        if place.depth == 0 {
            return Ok(Some(Step::End));
        }
        retreat(problem.ranges, choices, place, memo);
        jump(place, problem.plan.is_plain);
        return Ok(None);
    }
    let depth = place.depth;
    let truth = test(problem, place, memo)?;
    if let Truth::False = truth {
        pass(problem, place);
        return Ok(None);
    }
    if depth < problem.ranges.len() {
        enter(problem, place, memo, &mut choices[depth])?;
        place.found[depth] = truth;
        place.seen[depth] = see(problem, &place.places[..depth], memo);
        descend(problem.ranges, choices, place, memo);
        jump(place, problem.plan.is_plain);
        return Ok(None);
    }
    pass_event(place);
    match truth {
        Truth::True => Ok(Some(Step::Holds)),
        Truth::False => Ok(None),
        Truth::Out => Ok(Some(Step::Breaks)),
    }
}

/// Steps until there is an answer.
pub fn next_answer<V: Ord, J: Guide<V>>(
    problem: &Problem<V, J>,
    place: &mut Place,
    memo: &mut Memo,
    choices: &mut [Choice],
) -> Result<Step, AllocError>
    requires sound { IsPosed V.cmp J.conjuncts J.is_used problem.now }
    requires keys { AreKeyed (J.conjuncts problem.now.judge.now) (J.is_key problem.now.judge.now) problem.now.ranges.now problem.now.keys.now }
    requires stands { Stands (J.conjuncts problem.now.judge.now) (J.is_used problem.now.judge.now) (trees_of problem.now.forest.now) problem.now.ranges.now place.old memo.old choices.old }
    ensures stands { Stands (J.conjuncts problem.now.judge.now) (J.is_used problem.now.judge.now) (trees_of problem.now.forest.now) problem.now.ranges.now place.new memo.new choices.new }
    ensures gives { IfOk result (λ step. Gives V.cmp (planted (J.conjuncts problem.now.judge.now) (trees_of problem.now.forest.now)) problem.now.ranges.now (option_copied problem.now.after) place.old step place.new) }
    ensures refused { OnErr result (KeepsEvents V.cmp (planted (J.conjuncts problem.now.judge.now) (trees_of problem.now.forest.now)) problem.now.ranges.now (option_copied problem.now.after) place.old place.new) }
    ensures counts { IsPlain (J.conjuncts problem.now.judge.now) (trees_of problem.now.forest.now) problem.now.plan.now → IsCounted V.cmp (J.conjuncts problem.now.judge.now) problem.now.ranges.now (option_copied problem.now.after) place.old memo.old.tests choices.old → IsCounted V.cmp (J.conjuncts problem.now.judge.now) problem.now.ranges.now (option_copied problem.now.after) place.new memo.new.tests choices.new }
    ensures more { memo.old.tests ≤ memo.new.tests }
    ensures over { IsTrue (is_over place.old) → result ≡ Ok Step.End }
{
    loop {
        if let Some(answer) = step_on(problem, place, memo, choices)? {
            return Ok(answer);
        }
    }
}

//! Searches.
ghost use Rattle.std.specs.Prelude.{◌≡◌, ◌<◌, ◌≤◌, ◌+◌, ◌∷◌, ◌++◌, length, drop, take, IsTrue, IfOk, OnOk, OnErr, IsSomeAnd, IfSome, slice_get, slice_index_or, true, false, unwrap_or, List, Option, []};
ghost use Rattle.zf_plan.specs.Prelude.{option_copied, Advances, AreAllAhead, AreAscending, AreDueWithin, AreTests, ended, HasLength, IsBounded, IsRowOf, past, SameRanges, Stays, TiesAreEqual};
ghost use Rattle.zf_plan.specs.{begun, counted, exchanged, HaveLeavesWithin, IsFlat, IsPlain, IsSound, planted, SameProblem, trees_of};
ghost use Rattle.zf_plan.specs.Places.{Leaves};

use crate::choice::{Choice, all_chosen};
use crate::forest::Forest;
use crate::guide::Guide;
use crate::keys::{Keyed, all_keys};
use crate::marks::Marks;
use crate::memo::Memo;
use crate::place::Place;
use crate::plan::Plan;
use crate::problem::Problem;
use crate::steps::{next_answer, pass_event};
use std::alloc::{AllocError, Global};
use std::marker::Model;
use zf_walk::{Range, Row, Seen, Step, Truth, pick};

/// A search over the rows of some ranges, in ascending order, for those on which no conjunct is False. It passes over rows that hold none, and takes no memory of its own once it stands.
#[derive(Drop)]
pub struct Search<'a, V: Ord, J: Guide<V>> {
    judge: J,
    forest: Forest,
    ranges: Vec<Range<V>>,
    after: Option<&'a [V]>,
    plan: Plan,
    place: Place,
    memo: Memo,
    /// For each leaf the keys of the values of the last component that it needs, or none.
    keys: Vec<Keyed>,
    /// For each range which of its values are tried.
    choices: Vec<Choice>,
    /// Whether the place is that of a row that the last step gave.
    given: bool,
}

impl<'a, V: Ord, J: Guide<V>> Model for Search<'a, V, J> {
    ghost use Rattle.std.specs.Option.{option_copied};
    ghost use Rattle.zf_plan.specs.Progress.{Progress};
    ghost use Rattle.zf_plan.specs.Searches.{view_of, IsStanding};

    ghost Value = { Progress V J };

    ghost view = { λ w. view_of w.judge w.forest w.ranges.items (option_copied w.after) w.place w.memo w.given w.plan.is_plain };

    ghost invariant = { λ w. IsStanding V.cmp (J.conjuncts w.judge) (J.is_used w.judge) (J.is_key w.judge) w.forest w.ranges.items (option_copied w.after) w.plan w.keys.items w.place w.memo w.choices.items w.given w.plan.is_plain };
}

impl<'a, V: Ord + Drop, J: Guide<V> + Drop> Search<'a, V, J> {
    /// Stands before the first event. The named row need not be in the ranges.
    pub fn start(
        alloc: Global,
        judge: J,
        forest: Forest,
        ranges: Vec<Range<V>>,
        after: Option<&'a [V]>,
    ) -> Result<Search<'a, V, J>, AllocError>
        requires ascending { AreAscending V.cmp ranges.items }
        requires ties { TiesAreEqual V.cmp }
        requires named { HasLength (option_copied after) (length ranges.items) }
        requires due { AreDueWithin (J.conjuncts judge) (length ranges.items) }
        requires leaves { HaveLeavesWithin (J.conjuncts judge).number (trees_of forest) }
        ensures problem { IfOk result (λ w. (w.judge ≡ judge) × (w.forest ≡ forest) × (w.stage.ranges ≡ ranges.items) × (w.stage.after ≡ option_copied after.entry)) }
        ensures events { IfOk result (λ w. AreAllAhead V.cmp (planted (J.conjuncts judge) (trees_of forest)) ranges.items (option_copied after.entry) w.stage.ahead) }
        ensures first { IfOk result (λ w. w.stage.last ≡ None) }
    {
        let plan = Plan::new(alloc, &judge, &forest, &ranges, false)?;
        let search = Search::over(judge, forest, ranges, after, plan)?;
        Ok(search)
    }

    /// The same with each leaf as a conjunct and no component narrowed: it tests one leaf after another, and counts them.
    pub fn counting(
        alloc: Global,
        judge: J,
        ranges: Vec<Range<V>>,
        after: Option<&'a [V]>,
    ) -> Result<Search<'a, V, J>, AllocError>
        requires ascending { AreAscending V.cmp ranges.items }
        requires ties { TiesAreEqual V.cmp }
        requires named { HasLength (option_copied after) (length ranges.items) }
        requires due { AreDueWithin (J.conjuncts judge) (length ranges.items) }
        ensures problem { IfOk result (λ w. (w.judge ≡ judge) × IsFlat (J.conjuncts judge).number (trees_of w.forest) × (w.stage.ranges ≡ ranges.items) × (w.stage.after ≡ option_copied after.entry)) }
        ensures events { IfOk result (λ w. AreAllAhead V.cmp (J.conjuncts judge) ranges.items (option_copied after.entry) w.stage.ahead) }
        ensures first { IfOk result (λ w. (w.stage.last ≡ None) × (w.tests ≡ 0) × IsTrue w.counts) }
    {
        let forest = Forest::flat(alloc, judge.count())?;
        let plan = Plan::new(alloc, &judge, &forest, &ranges, true)?;
        let search = Search::over(judge, forest, ranges, after, plan)?;
        Ok(search)
    }

    /// Stands before the first event where some ranges are others, and no row is named. The plan stays; what was worked out of the rows before is let go.
    pub fn exchange(self, others: Vec<Option<Range<V>>>) -> Result<Search<'a, V, J>, AllocError>
        requires each { length others.items ≡ length self.stage.ranges }
        requires ascending { AreAscending V.cmp (exchanged self.stage.ranges others.items) }
        ensures problem { IfOk result (λ w. (w.judge ≡ self.entry.judge) × (w.forest ≡ self.entry.forest) × (w.stage.ranges ≡ exchanged self.entry.stage.ranges others.items) × (w.stage.after ≡ None)) }
        ensures events { IfOk result (λ w. AreAllAhead V.cmp (planted (J.conjuncts self.entry.judge) (trees_of self.entry.forest)) (exchanged self.entry.stage.ranges others.items) None w.stage.ahead) }
        ensures first { IfOk result (λ w. w.stage.last ≡ None) }
    {
        let Search {
            judge,
            forest,
            ranges,
            plan,
            ..
        } = self;
        let ranges = with_others(ranges, others);
        let search = Search::over(judge, forest, ranges, None, plan)?;
        Ok(search)
    }

    /// Stands before the first event, by this plan. Where a range is empty it is over at once, unless it counts tests.
    fn over(
        judge: J,
        forest: Forest,
        ranges: Vec<Range<V>>,
        after: Option<&'a [V]>,
        plan: Plan,
    ) -> Result<Search<'a, V, J>, AllocError>
        requires sound { IsSound V.cmp (J.conjuncts judge) (J.is_used judge) (trees_of forest) ranges.items (option_copied after) plan }
        requires plain { IsTrue plan.is_plain → IsPlain (J.conjuncts judge) (trees_of forest) plan }
        ensures problem { IfOk result (λ w. (w.judge ≡ judge) × (w.forest ≡ forest) × (w.stage.ranges ≡ ranges.items) × (w.stage.after ≡ option_copied after.entry)) }
        ensures events { IfOk result (λ w. AreAllAhead V.cmp (planted (J.conjuncts judge) (trees_of forest)) ranges.items (option_copied after.entry) w.stage.ahead) }
        ensures begun { IfOk result (λ w. plan.is_plain ≡ true → w.stage.ahead ≡ begun) }
        ensures first { IfOk result (λ w. (w.stage.last ≡ None) × (w.tests ≡ 0) × (w.counts ≡ plan.is_plain)) }
    {
        let alloc = *ranges.allocator();
        let plain = plan.is_plain;
        let places = vec![in alloc; 0; ranges.len()]?;
        let memo = Memo::new(alloc, &judge, &ranges)?;
        let keys = all_keys(alloc, &judge, &ranges, plain)?;
        let choices = all_chosen(alloc, ranges.len())?;
        let found = vec![in alloc; Truth::True; ranges.len()]?;
        let marks = Marks::new(alloc, ranges.len())?;
        let seen = vec![in alloc; Seen::none(); ranges.len()]?;
        let place = Place {
            places,
            found,
            marks,
            seen,
            depth: 0,
            fresh: may_begin(&ranges, plain),
        };
        Ok(Search {
            judge,
            forest,
            ranges,
            after,
            plan,
            place,
            memo,
            keys,
            choices,
            given: false,
        })
    }
}

impl<'a, V: Ord, J: Guide<V>> Search<'a, V, J> {
    /// Goes on to the next row that is not False.
    pub fn advance(&mut self) -> Result<Step, AllocError>
        ensures problem { SameProblem self.old self.new }
        ensures answer { IfOk result (λ step. Advances V.cmp (planted (J.conjuncts self.old.judge) (trees_of self.old.forest)) step self.old.stage self.new.stage) }
        ensures tests { OnOk result (IsTrue self.old.counts → AreTests V.cmp (J.conjuncts self.old.judge) (counted self.new) self.new.stage.last) }
        ensures refused { OnErr result (Stays V.cmp (planted (J.conjuncts self.old.judge) (trees_of self.old.forest)) self.old.stage self.new.stage) }
        ensures no_test_lost { self.old.tests ≤ self.new.tests }
        ensures ended { self.old.stage.ahead ≡ ended → result ≡ Ok Step.End }
    {
        self.given = false;
        let problem = Problem {
            judge: &self.judge,
            forest: &self.forest,
            ranges: &self.ranges,
            after: self.after,
            plan: &self.plan,
            keys: &self.keys,
        };
        match next_answer(&problem, &mut self.place, &mut self.memo, &mut self.choices)? {
            Step::Holds => {
                self.given = true;
                Ok(Step::Holds)
            }
            Step::Breaks => {
                self.given = true;
                Ok(Step::Breaks)
            }
            Step::End => Ok(Step::End),
        }
    }

    /// Passes over the rows ahead that begin with as many first values as the one that the last step gave. From then on no tests are counted.
    pub fn pass(&mut self, count: usize)
        ensures problem { (self.new.judge ≡ self.old.judge) × (self.new.forest ≡ self.old.forest) × SameRanges self.old.stage self.new.stage }
        ensures passed { IfSome self.old.stage.last (λ row. self.new.stage.ahead ≡ past (take count row)) }
    {
        if self.given {
            self.given = false;
            self.plan.is_plain = false;
            leave(&mut self.place, count);
        }
    }

    /// How many leaves that are conjuncts were tested: where each conjunct is one and no component is narrowed, how many tests were finished.
    pub fn tests(&self) -> u64
        ensures count { result ≡ self.now.tests }
        ensures bounded { IsTrue self.now.counts → IsBounded V.cmp (J.conjuncts self.now.judge) (counted self.now) result }
    {
        self.memo.tests()
    }

    /// What it goes over.
    pub fn ranges(&self) -> &[Range<V>]
        ensures is { result.now ≡ self.now.stage.ranges }
        ensures ascending { AreAscending V.cmp result.now }
    {
        &self.ranges
    }

    /// A value of the row that the last step gave.
    pub fn value(&self, i: usize) -> &V
        requires { IsSomeAnd self.now.stage.last (λ row. i < length row) }
        ensures { IfSome self.now.stage.last (λ row. slice_get row i ≡ Some result.now) }
    {
        pick(&self.ranges, &self.place.places[..self.place.depth], i)
    }

    /// The place, in its range, of a value of the row that the last step gave.
    pub fn place(&self, i: usize) -> usize
        requires { IsSomeAnd self.now.stage.last (λ row. i < length row) }
        ensures { IfSome self.now.stage.last (λ row. slice_get row i ≡ slice_get (slice_index_or self.now.stage.ranges i []) result) }
    {
        self.place.places[i]
    }
}

/// The row that the last step gave; no values where it gave none.
impl<'a, V: Ord, J: Guide<V>> Row<V> for Search<'a, V, J> {
    ghost values = { λ w. unwrap_or w.stage.last [] };

    fn len(&self) -> usize {
        if self.given { self.place.depth } else { 0 }
    }

    fn get(&self, i: usize) -> &V {
        self.value(i)
    }
}

/// Goes back past the row of the first values, the last of which is open from now on.
fn leave(place: &mut Place, count: usize)
    requires { place.old.depth ≤ length place.old.marks.choices.items }
    ensures { Leaves count place.old place.new }
{
    if count < place.depth {
        place.depth = count;
    }
    pass_event(place);
}

/// The ranges, some of them exchanged for others.
fn with_others<V: Drop>(ranges: Vec<Range<V>>, others: Vec<Option<Range<V>>>) -> Vec<Range<V>>
    requires { length others.items ≡ length ranges.items }
    ensures { result.items ≡ exchanged ranges.items others.items }
{
    let mut ranges = ranges;
    let mut place = 0;
    for other in others {
        put(&mut ranges, place, other);
        place += 1;
    }
    ranges
}

/// Puts another range, if there is one, into the place of this one.
fn put<V: Drop>(ranges: &mut Vec<Range<V>>, place: usize, other: Option<Range<V>>)
    requires { place < length ranges.old.items }
    ensures { ((others : List (Option (List V))) → take place ranges.old.items ++ exchanged (drop place ranges.old.items) (other ∷ others) ≡ take (place + 1) ranges.new.items ++ exchanged (drop (place + 1) ranges.new.items) others) × (length ranges.new.items ≡ length ranges.old.items) }
{
    match other {
        None => {}
        Some(range) => ranges[place] = range,
    }
}

/// Whether there may be a row, or tests are counted all the same.
fn may_begin<V>(ranges: &[Range<V>], plain: bool) -> bool
    ensures plain { plain ≡ true → result ≡ true }
    ensures none { result ≡ false → (row : List V) → IsRowOf ranges.now row → ⊥ }
{
    if plain {
        return true;
    }
    for i in 0..ranges.len() {
        let range = &ranges[i];
        if range.values.len() == 0 {
            return false;
        }
    }
    true
}

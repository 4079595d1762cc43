//! Walks.
ghost use Rattle.std.specs.Prelude.{◌≡◌, ◌<◌, ◌≤◌, length, IfOk, OnOk, OnErr, IsSomeAnd, IfSome, slice_get, slice_index_or, unwrap_or, []};
ghost use Rattle.zf_plan.specs.Prelude.{option_copied, Advances, AreAllAhead, AreAscending, AreDueWithin, AreTests, ended, HasLength, IsBounded, SameProblem, Stays, TiesAreEqual};

use crate::guide::Guide;
use crate::search::Search;
use std::alloc::{AllocError, Global};
use std::marker::Model;
use zf_walk::{Range, Row, Step};

/// A search over the rows of some ranges that tests one leaf after another and counts the tests: each conjunct is a leaf, and no component is narrowed.
#[derive(Drop)]
pub struct Walk<'a, V: Ord, J: Guide<V>> {
    search: Search<'a, V, J>,
}

impl<'a, V: Ord, J: Guide<V>> Model for Walk<'a, V, J> {
    ghost use Rattle.zf_walk.specs.Progress.{Progress};
    ghost use Rattle.zf_plan.specs.Progress.{counted};
    ghost use Rattle.zf_plan.specs.Walks.{IsWalk};

    ghost Value = { Progress V J };

    ghost view = { λ w. counted w.search };

    ghost invariant = { λ w. IsWalk (J.conjuncts w.search.judge) w.search.forest w.search.counts };
}

impl<'a, V: Ord + Drop, J: Guide<V> + Drop> Walk<'a, V, J> {
    /// Stands before the first event. The named row need not be in the ranges.
    pub fn start(
        alloc: Global,
        judge: J,
        ranges: Vec<Range<V>>,
        after: Option<&'a [V]>,
    ) -> Result<Walk<'a, V, J>, AllocError>
        requires ascending { AreAscending V.cmp ranges.items }
        requires ties { TiesAreEqual V.cmp }
        requires named { HasLength (option_copied after) (length ranges.items) }
        requires due { AreDueWithin (J.conjuncts judge) (length ranges.items) }
        ensures problem { IfOk result (λ w. (w.judge ≡ judge) × (w.stage.ranges ≡ ranges.items) × (w.stage.after ≡ option_copied after.entry)) }
        ensures events { IfOk result (λ w. AreAllAhead V.cmp (J.conjuncts judge) ranges.items (option_copied after.entry) w.stage.ahead) }
        ensures first { IfOk result (λ w. (w.stage.last ≡ None) × (w.tests ≡ 0)) }
    {
        let search = Search::counting(alloc, judge, ranges, after)?;
        Ok(Walk { search })
    }
}

impl<'a, V: Ord, J: Guide<V>> Walk<'a, V, J> {
    /// Goes on to the next row that is not False.
    pub fn advance(&mut self) -> Result<Step, AllocError>
        ensures problem { SameProblem self.old self.new }
        ensures answer { IfOk result (λ step. Advances V.cmp (J.conjuncts self.old.judge) step self.old.stage self.new.stage) }
        ensures tests { OnOk result (AreTests V.cmp (J.conjuncts self.old.judge) self.new self.new.stage.last) }
        ensures refused { OnErr result (Stays V.cmp (J.conjuncts self.old.judge) self.old.stage self.new.stage) }
        ensures no_test_lost { self.old.tests ≤ self.new.tests }
        ensures ended { self.old.stage.ahead ≡ ended → result ≡ Ok Step.End }
    {
        self.search.advance()
    }

    /// How many tests were finished.
    pub fn tests(&self) -> u64
        ensures count { result ≡ self.now.tests }
        ensures bounded { IsBounded V.cmp (J.conjuncts self.now.judge) self.now result }
    {
        self.search.tests()
    }

    /// A value of the row that the last step gave.
    pub fn value(&self, i: usize) -> &V
        requires { IsSomeAnd self.now.stage.last (λ row. i < length row) }
        ensures { IfSome self.now.stage.last (λ row. slice_get row i ≡ Some result.now) }
    {
        self.search.value(i)
    }

    /// The place, in its range, of a value of the row that the last step gave.
    pub fn place(&self, i: usize) -> usize
        requires { IsSomeAnd self.now.stage.last (λ row. i < length row) }
        ensures { IfSome self.now.stage.last (λ row. slice_get row i ≡ slice_get (slice_index_or self.now.stage.ranges i []) result) }
    {
        self.search.place(i)
    }
}

/// The row that the last step gave; no values where it gave none.
impl<'a, V: Ord, J: Guide<V>> Row<V> for Walk<'a, V, J> {
    ghost values = { λ w. unwrap_or w.stage.last [] };

    fn len(&self) -> usize {
        zf_walk::Row::len(&self.search)
    }

    fn get(&self, i: usize) -> &V {
        zf_walk::Row::get(&self.search, i)
    }
}

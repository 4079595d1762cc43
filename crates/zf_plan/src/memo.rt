//! What a search remembers of the leaves.
ghost use Rattle.std.specs.Prelude.{◌≡◌, ◌≢◌, ◌+◌, ◌<◌, ◌≤◌, ◌^◌, ◌++◌, ◌∷◌, [], length, IfOk, IfSome, OnErr};
ghost use Rattle.zf_plan.specs.Prelude.{False, AreDueWithin, AreTrue, AreWithin, picked};
ghost use Rattle.zf_plan.specs.{AreLeaves, AreSeenOf, AreUnknown, cleared, Forgets, IsCleared, IsKnown, IsNew, IsSettled, IsTested, leaf, Remembers, Tests};

use crate::guide::Guide;
use crate::known::conjoin;
use crate::problem::Problem;
use std::alloc::{AllocError, Global};
use std::marker::Model;
use zf_walk::{Judge, Range, Seen, Tables, Truth};

/// A truth that is known of a leaf as long as its stamp is that of as many values as the leaf needs.
#[derive(Clone, Copy)]
struct Stamped {
    due: usize,
    stamp: u64,
    truth: Truth,
}

/// Leaves that were tested, and what they come to.
#[derive(Clone, Copy)]
struct Tested {
    truth: Truth,
    number: usize,
}

/// What is known of the leaves on the bound values, what was found of each on any values, and how many tests were counted.
#[derive(Drop)]
pub struct Memo {
    /// For each number of values the stamp of what is known of leaves that need so many. A change of the last of these values is a new stamp.
    stamps: Vec<u64>,
    leaves: Vec<Stamped>,
    tables: Tables,
    tests: u64,
}

impl Model for Memo {
    ghost use Rattle.zf_plan.specs.Memories.{Memory};
    ghost use Rattle.zf_plan.specs.Stamps.{memory_of, AreStamped};

    ghost Value = { Memory };

    ghost view = { λ m. memory_of m.stamps.items m.leaves.items m.tables.each.items m.tests };

    ghost invariant = { λ m. AreStamped m.stamps.items m.leaves.items };
}

impl Memo {
    /// One in which nothing is known.
    pub fn new<V, J: Judge<V>>(
        alloc: Global,
        judge: &J,
        ranges: &[Range<V>],
    ) -> Result<Memo, AllocError>
        requires due { AreDueWithin (J.conjuncts judge.now) (length ranges.now) }
        requires room { length ranges.now + 1 < 2 ^ 64 }
        ensures { IfOk result (IsNew (J.conjuncts judge.now) (J.is_used judge.now) ranges.now) }
    {
        let stamps = vec![in alloc; 1; ranges.len() + 1]?;
        let leaves = unknown_leaves(alloc, judge)?;
        let tables = Tables::new(alloc, judge, ranges)?;
        Ok(Memo {
            stamps,
            leaves,
            tables,
            tests: 0,
        })
    }

    /// How many tests were counted.
    pub fn tests(&self) -> u64
        ensures { result ≡ self.now.tests }
    {
        self.tests
    }

    /// The truth of some leaves, which need just these values, and of what was found before. The leaves are tested one after another, up to the first that is False, and counted at the end.
    pub fn test<V: Ord, J: Guide<V>>(
        &mut self,
        problem: &Problem<V, J>,
        places: &[usize],
        leaves: &[usize],
        before: Truth,
    ) -> Result<Truth, AllocError>
        requires leaves { AreLeaves (J.conjuncts problem.now.judge.now) (length places.now) leaves.now }
        requires before { before ≢ False }
        requires within { AreWithin problem.now.ranges.now places.now }
        requires remembers { Remembers (J.conjuncts problem.now.judge.now) (J.is_used problem.now.judge.now) problem.now.ranges.now places.now self.old }
        ensures remembers { Remembers (J.conjuncts problem.now.judge.now) (J.is_used problem.now.judge.now) problem.now.ranges.now places.now self.new }
        ensures tested { IfOk result (λ t. IsTested (J.conjuncts problem.now.judge.now) (picked problem.now.ranges.now places.now) leaves.now before t self.old.tests self.new.tests) }
        ensures refused { OnErr result (self.new.tests ≡ self.old.tests) }
        ensures more { self.old.tests ≤ self.new.tests }
    {
        let tested = test_all(problem, places, leaves, before, &mut self.tables)?;
        self.tests = self.tests.saturating_add(tested.number as u64);
        Ok(tested.truth)
    }

    /// With which values of the next range some leaves, which need one more, are known to be all True, and with which one is False.
    pub fn seen<V: Ord, J: Guide<V>>(
        &self,
        problem: &Problem<V, J>,
        places: &[usize],
        leaves: &[usize],
    ) -> Seen
        requires leaves { AreLeaves (J.conjuncts problem.now.judge.now) (length places.now + 1) leaves.now }
        requires some { AreWithin problem.now.ranges.now (places.now ++ 0 ∷ []) }
        requires remembers { Remembers (J.conjuncts problem.now.judge.now) (J.is_used problem.now.judge.now) problem.now.ranges.now places.now self.now }
        ensures { AreSeenOf (J.conjuncts problem.now.judge.now) problem.now.ranges.now places.now leaves.now (length leaves.now) result }
    {
        let mut all = Seen::all();
        for i in 0..leaves.len() {
            let seen = self
                .tables
                .seen(problem.judge, problem.ranges, leaves[i], places);
            all = all.and(seen);
        }
        all
    }

    /// What is known of a leaf. Where it has the values that it needs and is not known, it is asked for.
    pub fn look<V, J: Judge<V>>(
        &mut self,
        judge: &J,
        ranges: &[Range<V>],
        places: &[usize],
        of: usize,
    ) -> Result<Option<Truth>, AllocError>
        requires of { of < (J.conjuncts judge.now).number }
        requires within { AreWithin ranges.now places.now }
        requires remembers { Remembers (J.conjuncts judge.now) (J.is_used judge.now) ranges.now places.now self.old }
        ensures remembers { Remembers (J.conjuncts judge.now) (J.is_used judge.now) ranges.now places.now self.new }
        ensures same { self.new.tests ≡ self.old.tests }
        ensures known { IfOk result (IsKnown (J.conjuncts judge.now) (leaf of) (picked ranges.now places.now)) }
    {
        let leaf = self.leaves[of];
        if leaf.due > places.len() {
            return Ok(None);
        }
        let stamp = self.stamps[leaf.due];
        if leaf.stamp == stamp {
            return Ok(Some(leaf.truth));
        }
        let truth = self
            .tables
            .truth_of(judge, ranges, of, &places[..leaf.due])?;
        self.leaves[of] = Stamped {
            due: leaf.due,
            stamp,
            truth,
        };
        Ok(Some(truth))
    }

    /// What is known of a leaf without a question.
    pub fn told<V, J: Judge<V>>(
        &self,
        judge: &J,
        ranges: &[Range<V>],
        places: &[usize],
        of: usize,
    ) -> Option<Truth>
        requires of { of < (J.conjuncts judge.now).number }
        requires within { AreWithin ranges.now places.now }
        requires remembers { Remembers (J.conjuncts judge.now) (J.is_used judge.now) ranges.now places.now self.now }
        ensures { IfSome result (IsSettled (J.conjuncts judge.now) (leaf of) (picked ranges.now places.now)) }
    {
        let leaf = self.leaves[of];
        if leaf.due > places.len() {
            return None;
        }
        let stamp = self.stamps[leaf.due];
        if leaf.stamp == stamp {
            return Some(leaf.truth);
        }
        None
    }

    /// Forgets the truths of the leaves that need so many values.
    pub fn forget(&mut self, due: usize)
        ensures { Forgets due self.old self.new }
    {
        if due >= self.stamps.len() {
            return;
        }
        match self.stamps[due].checked_add(1) {
            Some(stamp) => self.stamps[due] = stamp,
            None => {
                clear(&mut self.leaves, due);
                self.stamps[due] = 1;
            }
        }
    }
}

/// Leaves of which nothing is known: no stamp is 0.
fn unknown_leaves<V, J: Judge<V>>(alloc: Global, judge: &J) -> Result<Vec<Stamped>, AllocError>
    ensures { IfOk result (λ ls. AreUnknown (J.conjuncts judge.now) (J.conjuncts judge.now).number ls.items) }
{
    let count = judge.count();
    let mut leaves = Vec::with_capacity(alloc, count)?;
    for leaf in 0..count {
        leaves.push(Stamped {
            due: judge.due(leaf),
            stamp: 0,
            truth: Truth::True,
        })?;
    }
    Ok(leaves)
}

/// Takes the stamps from the leaves that need so many values.
fn clear(leaves: &mut Vec<Stamped>, due: usize)
    ensures { IsCleared due leaves.old.items leaves.new.items }
{
    for leaf in leaves.iter_mut() {
        *leaf = cleared(*leaf, due);
    }
}

/// Without its stamp, if it needs so many values.
fn cleared(leaf: Stamped, due: usize) -> Stamped
    ensures { result ≡ cleared due leaf }
{
    if leaf.due == due {
        Stamped { stamp: 0, ..leaf }
    } else {
        leaf
    }
}

/// Tests these leaves.
fn test_all<V: Ord, J: Guide<V>>(
    problem: &Problem<V, J>,
    places: &[usize],
    leaves: &[usize],
    before: Truth,
    tables: &mut Tables,
) -> Result<Tested, AllocError>
    requires leaves { AreLeaves (J.conjuncts problem.now.judge.now) (length places.now) leaves.now }
    requires before { before ≢ False }
    requires within { AreWithin problem.now.ranges.now places.now }
    requires known { AreTrue (J.conjuncts problem.now.judge.now) (J.is_used problem.now.judge.now) problem.now.ranges.now tables.old.each.items }
    ensures known { AreTrue (J.conjuncts problem.now.judge.now) (J.is_used problem.now.judge.now) problem.now.ranges.now tables.new.each.items }
    ensures tests { IfOk result (λ t. Tests (J.conjuncts problem.now.judge.now) (picked problem.now.ranges.now places.now) leaves.now before t.truth t.number) }
{
    let mut all = before;
    for i in 0..leaves.len() {
        let truth = tables.truth_of(problem.judge, problem.ranges, leaves[i], places)?;
        all = conjoin(all, truth);
        if let Truth::False = all {
            return Ok(Tested {
                truth: all,
                number: i + 1,
            });
        }
    }
    Ok(Tested {
        truth: all,
        number: leaves.len(),
    })
}

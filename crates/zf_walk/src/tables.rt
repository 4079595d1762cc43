//! What is known of the truths of all conjuncts.
ghost use Rattle.std.specs.Prelude.{◌≡◌, ◌+◌, ◌<◌, ◌≤◌, ◌++◌, ◌∷◌, ℕ, length, [], IfOk, IfSome};
ghost use Rattle.zf_walk.specs.declared.judge.Truth.{Truth};
ghost use Rattle.zf_walk.specs.{AreDueWithin, AreTrue, AreWithin, IsSeen, IsTableOf, picked};

use crate::judge::{Judge, Truth};
use crate::picked::Picked;
use crate::range::Range;
use crate::seen::Seen;
use crate::table::{Table, Used};
use std::alloc::{AllocError, Global};

/// How many truths all tables together have room for, a byte each.
const ROOM: usize = 1048576;

/// For each conjunct its table, if it has one.
#[derive(Drop)]
pub struct Tables {
    pub each: Vec<Option<Table>>,
}

impl Tables {
    /// Tables in which nothing is known yet.
    pub fn new<V, J: Judge<V>>(
        alloc: Global,
        judge: &J,
        ranges: &[Range<V>],
    ) -> Result<Tables, AllocError>
        requires { AreDueWithin (J.conjuncts judge.now) (length ranges.now) }
        ensures { IfOk result (λ ts. AreTrue (J.conjuncts judge.now) (J.is_used judge.now) ranges.now ts.each.items) }
    {
        let count = judge.count();
        let mut each = Vec::with_capacity(alloc, count)?;
        let mut room = ROOM;
        for conjunct in 0..count {
            let table = table_of(alloc, judge, ranges, conjunct, &mut room)?;
            each.push(table)?;
        }
        Ok(Tables { each })
    }

    /// The truth of a conjunct on the row at these places: looked up where it is known, and else worked out and kept.
    pub fn truth_of<V, J: Judge<V>>(
        &mut self,
        judge: &J,
        ranges: &[Range<V>],
        conjunct: usize,
        places: &[usize],
    ) -> Result<Truth, AllocError>
        requires conjunct { conjunct < (J.conjuncts judge.now).number }
        requires due { (J.conjuncts judge.now).due conjunct ≡ length places.now }
        requires within { AreWithin ranges.now places.now }
        requires known { AreTrue (J.conjuncts judge.now) (J.is_used judge.now) ranges.now self.old.each.items }
        ensures says { IfOk result ((J.conjuncts judge.now).says conjunct (picked ranges.now places.now)) }
        ensures known { AreTrue (J.conjuncts judge.now) (J.is_used judge.now) ranges.now self.new.each.items }
    {
        if let Some(table) = &self.each[conjunct] {
            if let Some(truth) = table.find(places) {
                return Ok(truth);
            }
        }
        self.find_out(judge, ranges, conjunct, places)
    }

    /// What is known of a conjunct on the rows that go on from these places with one more, which it needs.
    pub fn seen<V, J: Judge<V>>(
        &self,
        judge: &J,
        ranges: &[Range<V>],
        conjunct: usize,
        places: &[usize],
    ) -> Seen
        requires conjunct { conjunct < (J.conjuncts judge.now).number }
        requires due { (J.conjuncts judge.now).due conjunct ≡ length places.now + 1 }
        requires some { AreWithin ranges.now (places.now ++ 0 ∷ []) }
        requires known { AreTrue (J.conjuncts judge.now) (J.is_used judge.now) ranges.now self.now.each.items }
        ensures { (i : ℕ) (t : Truth) → AreWithin ranges.now (places.now ++ i ∷ []) → IsSeen result i t → (J.conjuncts judge.now).says conjunct (picked ranges.now (places.now ++ i ∷ [])) t }
    {
        match &self.each[conjunct] {
            None => Seen::none(),
            Some(table) => table.seen(places),
        }
    }

    /// The same where it is not known.
    #[inline(never)]
    fn find_out<V, J: Judge<V>>(
        &mut self,
        judge: &J,
        ranges: &[Range<V>],
        conjunct: usize,
        places: &[usize],
    ) -> Result<Truth, AllocError>
        requires conjunct { conjunct < (J.conjuncts judge.now).number }
        requires due { (J.conjuncts judge.now).due conjunct ≡ length places.now }
        requires within { AreWithin ranges.now places.now }
        requires known { AreTrue (J.conjuncts judge.now) (J.is_used judge.now) ranges.now self.old.each.items }
        ensures says { IfOk result ((J.conjuncts judge.now).says conjunct (picked ranges.now places.now)) }
        ensures known { AreTrue (J.conjuncts judge.now) (J.is_used judge.now) ranges.now self.new.each.items }
    {
        let row = Picked::new(ranges, places);
        let truth = judge.judge(conjunct, &row)?;
        if let Some(table) = &mut self.each[conjunct] {
            table.keep(places, truth);
        }
        Ok(truth)
    }
}

/// A table for a conjunct that can meet the same values in more than one row, if there is room for all their combinations.
fn table_of<V, J: Judge<V>>(
    alloc: Global,
    judge: &J,
    ranges: &[Range<V>],
    conjunct: usize,
    room: &mut usize,
) -> Result<Option<Table>, AllocError>
    requires conjunct { conjunct < (J.conjuncts judge.now).number }
    requires due { (J.conjuncts judge.now).due conjunct ≤ length ranges.now }
    ensures { IfOk result (λ table. IfSome table (IsTableOf (J.conjuncts judge.now) (J.is_used judge.now) ranges.now conjunct)) }
{
    if *room == 0 {
        return Ok(None);
    }
    let due = judge.due(conjunct);
    let mut used = Vec::new(alloc);
    let mut combinations = 1;
    let mut repeats = false;
    for component in 0..due {
        let range = &ranges[component];
        let count = range.values.len();
        if judge.uses(conjunct, component) {
            if count == 0 || combinations > *room / count {
                return Ok(None);
            }
            used.push(Used { component, count })?;
            combinations *= count;
        } else if count > 1 {
            repeats = true;
        }
    }
    if !repeats {
        return Ok(None);
    }
    let entries = Vec::with_capacity(alloc, combinations)?;
    *room -= combinations;
    let width = width_of(&used, combinations);
    let seen = Vec::new(alloc);
    Ok(Some(Table {
        used,
        entries,
        width,
        seen,
    }))
}

/// How many values the last of these components may have, if there are few enough to have a bit each, and the others have few combinations; else 0.
fn width_of(used: &[Used], combinations: usize) -> usize {
    if used.len() == 0 {
        return 0;
    }
    let last = used[used.len() - 1];
    if last.count == 0 || last.count > 64 {
        return 0;
    }
    if combinations / last.count > 4096 {
        0
    } else {
        last.count
    }
}

//! Laws of the definitions, at any conjuncts and ordered values.
ghost use Rattle.zf_walk.specs.{EndsWithNone, HasOneList, Resumes, StartsWithAll, StaysWithinBound, TakesFirst};

use crate::judge::Judge;

/// There is one list of the events.
pub fn one_list<V: Ord, J: Judge<V>>()
    ensures { (j : J) → HasOneList V.cmp (J.conjuncts j) }
{}

/// What follows an event is what there is after its row.
pub fn resuming<V: Ord, J: Judge<V>>()
    ensures { (j : J) → Resumes V.cmp (J.conjuncts j) }
{}

/// What is ahead of a walk, as a list: at first all events, and with each answer one less.
pub fn rest<V: Ord, J: Judge<V>>()
    ensures starts { (j : J) → StartsWithAll V.cmp (J.conjuncts j) }
    ensures takes { (j : J) → TakesFirst V.cmp (J.conjuncts j) }
    ensures ends { (j : J) → EndsWithNone V.cmp (J.conjuncts j) }
{}

/// No walk makes more tests than there are pairs, whichever row is named.
pub fn bound<V: Ord, J: Judge<V>>()
    ensures { (j : J) → StaysWithinBound V.cmp (J.conjuncts j) }
{}

//! Laws of the definitions.
ghost use Rattle.law_exists.specs.{EveryBound, EveryEvent, EveryNumberOfTests, EveryRange, EveryResult, EverySearch, EverySight, EveryTurn, OtherHasNone, OutIsDecided, SoughtSatisfies};

/// One component is the first that is out, or none is.
pub fn out_decided()
    ensures { OutIsDecided }
{}

/// Components that are bounded have ranges.
pub fn every_range()
    ensures { EveryRange }
{}

/// Over ranges there is the list of the events, and each search has some of them, and something to write.
pub fn every_search()
    ensures events { EveryEvent }
    ensures searches { EverySearch }
{}

/// Each search has a number of tests, and all have a bound.
pub fn every_number()
    ensures tests { EveryNumberOfTests }
    ensures bound { EveryBound }
{}

/// In an exploration each state has its steps, or one that can't be decided.
pub fn every_turn()
    ensures { EveryTurn }
{}

/// In a search for a state each state is sought, or another, or it can't be decided, and the search has a result.
pub fn every_sight()
    ensures sights { EverySight }
    ensures results { EveryResult }
{}

/// A state that is sought satisfies the schema by which states are tested, and another has no row of it.
pub fn sought_satisfies()
    ensures sought { SoughtSatisfies }
    ensures other { OtherHasNone }
{}

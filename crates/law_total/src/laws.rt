//! Laws of the definitions.
ghost use Rattle.law_total.specs.{ConnectivesByTable, EveryCarrier, EveryEnvironment, EveryOutcome, EveryTruth, SizesAreJudged};

/// Every expression has an outcome.
pub fn every_outcome()
    ensures { EveryOutcome }
{}

/// Every predicate has a truth.
pub fn every_truth()
    ensures { EveryTruth }
{}

/// The truth of a connective is that of its table.
pub fn connectives_by_table()
    ensures { ConnectivesByTable }
{}

/// Every type has a carrier.
pub fn every_carrier()
    ensures { EveryCarrier }
{}

/// Stated sizes are complete, or they are refused.
pub fn sizes_judged()
    ensures { SizesAreJudged }
{}

/// Globals at complete sizes have an environment.
pub fn every_environment()
    ensures { EveryEnvironment }
{}

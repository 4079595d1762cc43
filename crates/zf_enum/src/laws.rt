//! Laws of the definitions.
ghost use Rattle.zf_enum.specs.{EventsResume, OneEvents, OneRanges, TestsAreBound};

/// A schema in an environment has one list of ranges, and one of events.
pub fn one_list()
    ensures ranges { OneRanges }
    ensures events { OneEvents }
{}

/// What follows an event is what there is after its row.
pub fn resuming()
    ensures { EventsResume }
{}

/// No search makes more tests than there are pairs, whichever row is named.
pub fn bound()
    ensures { TestsAreBound }
{}

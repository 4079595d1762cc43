//! Laws over what is answered, above the answers of the engine: each source has one answer, that of `show` has each binding once, that of `why` the first one, or why there is none, and that of `reach` what can be reached, or a shortest way to a state that is sought.
#![tactic(auto)]

ghost use Rattle.law_answered.specs.{EachBindingIsShown, EachPartIsShown, EventsAreShown, EveryHeldLineIsJudged, EveryLineIsJudged, EveryRequestIsAnswered, EverySourceIsRead, FirstLinesAreAFront, IsShownInOneWay, LimitsAre, NumbersMend, OneRowOfALine, OneRowOfAnObject, OneStatus, OneText, PartsAreFronts, PlainMessages, ReachableAreMet, ReasonIsTold, RefusedLinesAreOfNoRow, RunsMakeOne, SchemasMakeOneMachine, WhatIsReachedIsTold, WhatIsSoughtIsTold};

/// What `show` answers, where nothing stands in its way: the line of each binding, once, in ascending order.
pub fn each_binding_is_shown()
    ensures bindings { EachBindingIsShown }
    ensures events { EventsAreShown }
    ensures one { IsShownInOneWay }
{}

/// What `show` answers of some components, where nothing stands in its way: the line of what these have in bindings, once, in ascending order.
pub fn each_part_is_shown()
    ensures { EachPartIsShown }
{}

/// What `why` answers, where nothing stands in its way: the first binding or row that is out of bounds, or why there is none.
pub fn reason_is_told()
    ensures { ReasonIsTold }
{}

/// What `reach` answers, where nothing stands in its way: what the machine of its schemas can reach; with `end`, the states that are met are exactly the reachable ones.
pub fn reachable_is_told()
    ensures told { WhatIsReachedIsTold }
    ensures machine { SchemasMakeOneMachine }
    ensures reachable { ReachableAreMet }
{}

/// What `reach` answers where a state is sought: with `found`, a shortest way to a state that satisfies the schema; with `not found`, no reachable one does.
pub fn sought_is_found()
    ensures { WhatIsSoughtIsTold }
{}

/// A source has one status for a job, and one text, but for what is left open: without details, nothing beside an offence is.
pub fn one_answer()
    ensures status { OneStatus }
    ensures text { OneText }
    ensures plain { PlainMessages }
{}

/// Each source is read by a tree, or is refused with a fault.
pub fn every_source_is_read()
    ensures { EverySourceIsRead }
{
    zf_scan::scan::one_cut();
}

/// A text is the line of a row of the components' types, or of none; so is one the line of some components, or of none.
pub fn every_line_is_judged()
    ensures whole { EveryLineIsJudged }
    ensures held { EveryHeldLineIsJudged }
{}

/// Each request has an answer.
pub fn every_request_is_answered()
    ensures { EveryRequestIsAnswered }
{
    every_source_is_read();
}

/// Whatever a run that stops early has written is a front of an answer.
pub fn first_lines_are_a_front()
    ensures lines { FirstLinesAreAFront }
    ensures parts { PartsAreFronts }
{
    every_request_is_answered();
}

/// The lines of a run with a limit, and what the run after the last of them answers, are what one run answers.
pub fn runs_make_one()
    ensures { RunsMakeOne }
{
    law_resumed::lines_are_rows();
}

/// A line is that of one row of a schema's types, and so is an object; a text is refused exactly where it is the line of none.
pub fn lines_name_rows()
    ensures one { OneRowOfALine }
    ensures object { OneRowOfAnObject }
    ensures none { RefusedLinesAreOfNoRow }
{}

/// The limits that the definitions speak of are these numbers.
pub fn limits_are()
    ensures { LimitsAre }
{}

/// Where a message says that a greatest number makes a schema finite, each does, and otherwise none.
pub fn numbers_mend()
    ensures { NumbersMend }
{}

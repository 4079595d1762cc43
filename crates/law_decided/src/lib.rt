//! Laws over the definitions of typing: what is not well typed has an offence, so every text that is read has a verdict.
#![tactic(auto)]

ghost use Rattle.law_decided.specs.{EveryItemIsJudged, EverySchemaIsJudged, EverySchemaTextIsJudged, EveryTermIsJudged, EveryTextHasAVerdict};

/// A term is what its place needs, or it has an offence there.
pub fn every_term_is_judged()
    ensures { EveryTermIsJudged }
{}

/// Declarations with predicates, and a schema expression, are a schema, or have an offence.
pub fn every_schema_is_judged()
    ensures texts { EverySchemaTextIsJudged }
    ensures expressions { EverySchemaIsJudged }
{}

/// A paragraph or box defines something, or has an offence.
pub fn every_item_is_judged()
    ensures { EveryItemIsJudged }
{}

/// Each text has its globals and its faults.
pub fn every_text_has_a_verdict()
    ensures { EveryTextHasAVerdict }
{}

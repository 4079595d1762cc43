//! What a run of `show` writes can be named by a later one: a law, without code.
#![tactic(auto)]

ghost use Rattle.law_resumed.specs.{LinesAreRows};

/// Each binding that `show` writes has the line of a row of the schema's types, so a later run can come after it.
pub fn lines_are_rows()
    ensures { LinesAreRows }
{}

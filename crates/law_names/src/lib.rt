//! The names of a text are spelled clearly.
#![tactic(auto)]

ghost use Rattle.law_names.specs.{ComponentsAreClear, GlobalsAreClear};

/// The globals of a text, at sizes of all its given sets, have clear spellings.
pub fn clear_spellings()
    ensures { GlobalsAreClear }
{}

/// The components of a schema of a text have clear names.
pub fn clear_components()
    ensures { ComponentsAreClear }
{}

//! Laws of the definitions.
ghost use Rattle.law_sound.specs.{CarriersAreExact, CarriersAreOutcomes, EventsOfTextsTyped, EventsTyped, OutcomesTyped, RowsTyped};

/// The outcome of an expression is of the expression's type.
pub fn outcomes_typed()
    ensures { OutcomesTyped }
{}

/// The rows of a schema's ranges, and so those of its events, have the types of its components.
pub fn rows_typed()
    ensures rows { RowsTyped }
    ensures events { EventsTyped }
    ensures texts { EventsOfTextsTyped }
{}

/// The carrier of a type, where it is a set, has exactly the values of the type; it is the outcome of the expression that spells the type.
pub fn carriers_exact()
    ensures members { CarriersAreExact }
    ensures outcomes { CarriersAreOutcomes }
{}

//! What holds of every resolved term.
ghost use Rattle.zf_term.specs.{ComponentsAloneNumbered, MovedKeepsVariables};

/// A term that is moved, as those of a decorated schema in `\Delta S` or in a box, keeps its references but for the numbers of components.
/// So what named a bound variable names it still, whatever it and the components are called, and what named a component is not captured.
pub fn moved_keeps_variables()
    ensures moved { MovedKeepsVariables }
    ensures numbered { ComponentsAloneNumbered }
{}

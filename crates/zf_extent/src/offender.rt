//! What offends in a term.
ghost use Rattle.std.specs.Prelude.{◌≡◌};
ghost use Rattle.zf_extent.specs.{offender_span};

use zf_tree::{Constant, Span};

/// A name or a symbol that stands for an infinite set where none may stand, or for a term with one there.
#[derive(Clone, Copy)]
pub enum Offender {
    /// The name of a global: where it stands, and the place of the global in the order of definition.
    Name(Span, usize),
    /// The symbol of a set of numbers: where it stands, and which it is.
    Symbol(Span, Constant),
}

impl Offender {
    /// Where it stands.
    pub fn span(self) -> Span
        ensures { result ≡ offender_span self }
    {
        match self {
            Offender::Name(span, _) => span,
            Offender::Symbol(span, _) => span,
        }
    }
}

//! The refusal of a step that stops.
ghost use Rattle.std.specs.Prelude.{◌≡◌};
ghost use Rattle.zf_schema.specs.Refusing as spec;
ghost use Rattle.zf_schema.specs.{Refuses};

use bumpalo::Bump;
use zf_calculus::Stop;
use zf_sorts::{Offence, Refusal, refused};
use zf_tree::Span;

/// The refusal at this place.
#[inline(never)]
pub(crate) fn refusal<'a>(arena: &'a Bump, stop: Stop<'a>, span: Span) -> Refusal<'a>
    ensures { Refuses stop.entry span result }
{
    match stop {
        Stop::Clash(clash) => refused(arena, Offence::Clash(clash), span),
        Stop::TooLarge(limit) => refused(arena, Offence::TooLarge(limit), span),
        Stop::OutOfMemory => Refusal::OutOfMemory,
    }
}

/// The place of a disjunction that stops: of a clash that of the name.
pub(crate) fn either_span(stop: &Stop<'_>, span: Span, name: Span) -> Span
    ensures { result ≡ spec.either_span stop.now span name }
{
    match stop {
        Stop::Clash(_) => name,
        Stop::TooLarge(_) => span,
        Stop::OutOfMemory => span,
    }
}

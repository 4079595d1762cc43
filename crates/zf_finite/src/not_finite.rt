//! Why a schema is not finite.
ghost use Rattle.std.specs.Prelude.{◌≡◌};
ghost use Rattle.zf_finite.specs.{cause_span};

use zf_data::arena::Lent;
use zf_extent::Offender;
use zf_tree::Span;

/// Why a schema is not finite: what would be searched without an end.
#[derive(Drop)]
pub enum NotFinite<'a> {
    /// No declared set bounds the component of this name; the place is that of the first of them.
    Unbounded(Span, Lent<'a>),
    /// This stands where it would be searched.
    Offends(Offender),
}

impl<'a> NotFinite<'a> {
    /// Where it stands.
    pub fn span(&self) -> Span
        ensures { result ≡ cause_span self.now }
    {
        match self {
            NotFinite::Unbounded(span, _) => *span,
            NotFinite::Offends(offender) => offender.span(),
        }
    }
}

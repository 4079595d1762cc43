//! Faults of a text.
ghost use Rattle.std.specs.Prelude.{◌≡◌};
ghost use Rattle.zf_scan.specs.{nowhere};
ghost use Rattle.zf_scan.specs.declared.fault.TextFault.{TextFault};
ghost use Rattle.zf_scan.specs.declared.fault.TextFaultKind.TheVariants.{NotInProfile, OutOfMemory};

use std::alloc::{AllocError, AllocFailed};
use thiserror::Error;
use zf_tree::Span;

/// Why a text is not read.
#[derive(Clone, Copy, Debug, PartialEq, Eq, Error)]
pub enum TextFaultKind {
    #[error("byte not in the markup")]
    BadByte,
    #[error("unknown command")]
    UnknownCommand,
    #[error("not in this profile")]
    NotInProfile,
    #[error("box is not closed")]
    UnclosedBox,
    #[error("unexpected symbol")]
    Unexpected,
    #[error("number too large")]
    NumberTooLarge,
    #[error("nested too deeply")]
    TooDeep,
    #[error("source too long")]
    TooLong,
    #[error("out of memory")]
    OutOfMemory,
}

/// A fault, with its place.
#[derive(Clone, Copy, Debug, PartialEq, Eq)]
pub struct TextFault {
    /// The symbol at fault, the `\begin` of a box that is not closed, or before what is not read; nowhere for `TooLong` and
    /// `OutOfMemory`.
    pub span: Span,
    pub kind: TextFaultKind,
}

/// Where nothing is.
pub(crate) const NOWHERE: Span = Span { start: 0, stop: 0 };

impl TextFault {
    /// A form that is not read, at its first symbol.
    pub fn not_in_profile(span: Span) -> TextFault
        ensures { result ≡ record { kind = NotInProfile; span = span } }
    {
        TextFault {
            kind: TextFaultKind::NotInProfile,
            span,
        }
    }
}

impl From<AllocError> for TextFault {
    ghost from_gives = { λ _ fault. (fault.kind ≡ OutOfMemory) × (fault.span ≡ nowhere) };

    fn from(_error: AllocError) -> TextFault {
        TextFault {
            kind: TextFaultKind::OutOfMemory,
            span: NOWHERE,
        }
    }
}

impl<T: Drop> From<AllocFailed<T>> for TextFault {
    ghost from_gives = { λ _ fault. (fault.kind ≡ OutOfMemory) × (fault.span ≡ nowhere) };

    fn from(_error: AllocFailed<T>) -> TextFault {
        TextFault {
            kind: TextFaultKind::OutOfMemory,
            span: NOWHERE,
        }
    }
}

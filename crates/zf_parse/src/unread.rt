//! Why a source is not read.
ghost use Rattle.std.specs.Prelude.{◌≡◌};
ghost use Rattle.zf_scan.specs.{nowhere};
ghost use Rattle.zf_scan.specs.declared.fault.TextFaultKind.TheVariants.{OutOfMemory};

use crate::left_out::{LeftOut, entry_of, left_out};
use bumpalo::Bump;
use std::alloc::AllocError;
use zf_scan::TextFault;
use zf_tree::Span;

/// What a fault of a text is about, as the source spells it.
#[derive(Clone, Copy, Debug)]
pub struct About<'a> {
    /// The symbol that is unexpected; or the piece that the scanner refuses, or the first symbol of a form that is not read.
    /// Empty where there is none.
    pub symbol: &'a [u8],
    /// Of an unexpected symbol the bracket before it that is not closed, empty where there is none; of a box that is not closed
    /// the `\begin` or `\end` at which that shows, empty at the end of the text.
    pub other: &'a [u8],
    /// Where the other one is, or would be.
    pub span: Span,
    /// A command that is meant by the symbol and the one before it; empty where there is none.
    pub like: &'static [u8],
    /// The part of the text in which a separator may be missing, if it goes over a line end.
    pub across: Span,
    /// The title of the part of the page on the language that says what to write; empty where there is none.
    pub entry: &'static [u8],
    /// What further Z the text has that is left out.
    pub others: &'a [LeftOut<'a>],
}

impl<'a> About<'a> {
    /// One symbol, and no other.
    pub fn of(symbol: &'a [u8]) -> About<'a> {
        About {
            symbol,
            other: b"",
            span: Span { start: 0, stop: 0 },
            like: b"",
            across: Span { start: 0, stop: 0 },
            entry: entry_of(symbol),
            others: &[],
        }
    }
}

/// Why a source is not read.
#[derive(Clone, Copy, Debug)]
pub struct Unread<'a> {
    pub fault: TextFault,
    pub about: About<'a>,
}

impl<'a> Unread<'a> {
    /// A fault that no symbol stands for.
    pub fn of(fault: TextFault) -> Unread<'a>
        ensures { result.fault ≡ fault }
    {
        Unread {
            fault,
            about: About::of(b""),
        }
    }
}

impl<'a> Unread<'a> {
    /// The same; where it is Z that is left out, with all that follows in the source.
    pub(crate) fn with_others(self, arena: &'a Bump, source: &'a [u8]) -> Unread<'a>
        ensures { result.fault ≡ self.entry.fault }
    {
        if self.about.entry.is_empty() {
            return self;
        }
        let start = self.fault.span.start as usize;
        let start = start.saturating_add(self.about.symbol.len());
        match left_out(arena, source, start) {
            Ok(others) => Unread {
                fault: self.fault,
                about: About {
                    others,
                    ..self.about
                },
            },
            Err(_) => self,
        }
    }
}

impl<'a> From<AllocError> for Unread<'a> {
    ghost from_gives = { λ _ unread. (unread.fault.kind ≡ OutOfMemory) × (unread.fault.span ≡ nowhere) };

    fn from(error: AllocError) -> Unread<'a> {
        Unread::of(TextFault::from(error))
    }
}

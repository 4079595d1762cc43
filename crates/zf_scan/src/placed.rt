//! Symbols with their places in a text, which keeps the names.
ghost use Rattle.std.specs.Prelude.{◌≡◌, IfOk, take, drop};
ghost use Rattle.zf_scan.specs.Placing as spec;
ghost use Rattle.zf_scan.specs.{kind_of, opening_len};
ghost use Rattle.zf_scan.specs.declared.next.Next.TheVariants as next;
ghost use Rattle.zf_scan.specs.declared.token.Separator.TheVariants.{Semicolon};

use crate::next::Next;
use crate::token::{Kind, Separator, Token};
use std::alloc::{AllocError, Global};
use zf_data::Text;
use zf_tree::{Span, back, front};

/// A symbol, spelled in a text from `start` to `stop`.
#[derive(Clone, Copy)]
pub struct Placed {
    pub next: Next,
    /// Its place in the source.
    pub span: Span,
    pub start: usize,
    pub stop: usize,
    /// How long a name is without its strokes, or a number's value.
    pub amount: usize,
}

/// What stands before the name in the opening of a schema box.
const OPENING: usize = 15;

/// The bytes of a text from one place to another.
pub(crate) fn between(text: &[u8], start: usize, stop: usize) -> &[u8]
    ensures { result.now ≡ spec.between start stop text.now }
{
    let behind = back(text, start);
    front(behind, stop.saturating_sub(start))
}

impl Placed {
    /// How the symbol is spelled.
    pub fn spelled(self, text: &[u8]) -> &[u8]
        ensures { result.now ≡ spec.between self.start self.stop text.now }
    {
        between(text, self.start, self.stop)
    }

    /// The base of a name.
    fn base(self, text: &[u8]) -> &[u8]
        ensures { result.now ≡ take self.amount (spec.between self.start self.stop text.now) }
    {
        front(self.spelled(text), self.amount)
    }

    /// The strokes of a name.
    fn strokes(self, text: &[u8]) -> &[u8]
        ensures { result.now ≡ drop self.amount (spec.between self.start self.stop text.now) }
    {
        back(self.spelled(text), self.amount)
    }

    /// The name in the opening of a schema box.
    pub fn opened(self, text: &[u8]) -> &[u8]
        ensures { result.now ≡ take self.amount (drop opening_len (spec.between self.start self.stop text.now)) }
    {
        front(back(self.spelled(text), OPENING), self.amount)
    }

    /// This symbol, a separator, as the reduced list has it.
    pub fn as_separator(self) -> Placed
        ensures { result ≡ record { next = next.Separator Semicolon; span = self.span; start = self.start; stop = self.stop; amount = self.amount } }
    {
        Placed {
            next: Next::Separator(Separator::Semicolon),
            span: self.span,
            start: self.start,
            stop: self.stop,
            amount: self.amount,
        }
    }

    fn named(self, alloc: Global, text: &[u8]) -> Result<Kind, AllocError>
        ensures { IfOk result (λ kind. kind ≡ kind_of next.Name self.amount (spec.between self.start self.stop text.now)) }
    {
        let base = Text::of(alloc, self.base(text))?;
        let strokes = Text::of(alloc, self.strokes(text))?;
        Ok(Kind::Name(base, strokes))
    }

    /// What the token is. `End` is no symbol, and would be reported as `EndBox`.
    fn kind(self, alloc: Global, text: &[u8]) -> Result<Kind, AllocError>
        ensures { IfOk result (λ kind. kind ≡ spec.kind_at text.now self) }
    {
        Ok(match self.next {
            Next::BeginZed => Kind::BeginZed,
            Next::BeginSchema => Kind::BeginSchema(Text::of(alloc, self.opened(text))?),
            Next::EndBox => Kind::EndBox,
            Next::Name => self.named(alloc, text)?,
            Next::Number => Kind::Number(self.amount as u64),
            Next::Separator(separator) => Kind::Separator(separator),
            Next::OpenRound => Kind::OpenRound,
            Next::CloseRound => Kind::CloseRound,
            Next::OpenSquare => Kind::OpenSquare,
            Next::CloseSquare => Kind::CloseSquare,
            Next::OpenBrace => Kind::OpenBrace,
            Next::CloseBrace => Kind::CloseBrace,
            Next::OpenImage => Kind::OpenImage,
            Next::CloseImage => Kind::CloseImage,
            Next::Comma => Kind::Comma,
            Next::Colon => Kind::Colon,
            Next::Bar => Kind::Bar,
            Next::At => Kind::At,
            Next::Abbreviates => Kind::Abbreviates,
            Next::FreeType => Kind::FreeType,
            Next::Defines => Kind::Defines,
            Next::Where => Kind::Where,
            Next::Infix(op) => Kind::Infix(op),
            Next::Arrow(arrow) => Kind::Arrow(arrow),
            Next::Cross => Kind::Cross,
            Next::Prefix(prefix) => Kind::Prefix(prefix),
            Next::Inverse => Kind::Inverse,
            Next::Constant(constant) => Kind::Constant(constant),
            Next::EmptySet => Kind::EmptySet,
            Next::Relation(relation) => Kind::Relation(relation),
            Next::Not => Kind::Not,
            Next::Connective(connective) => Kind::Connective(connective),
            Next::Quantifier(quantifier) => Kind::Quantifier(quantifier),
            Next::Delta => Kind::Delta,
            Next::Xi => Kind::Xi,
            Next::End => Kind::EndBox,
        })
    }

    /// The token, with a copy of its text.
    pub(crate) fn token(self, alloc: Global, text: &[u8]) -> Result<Token, AllocError>
        ensures { IfOk result (λ t. t ≡ spec.token_at text.now self) }
    {
        Ok(Token {
            kind: self.kind(alloc, text)?,
            span: self.span,
        })
    }
}

//! What comes next, for the rules of the grammar to choose by.
ghost use Rattle.std.specs.Prelude.{◌≡◌, ℕ, List};
ghost use Rattle.zf_scan.specs.{ends_box, kind_of};
ghost use Rattle.zf_scan.specs.Choosing as spec;
ghost use Rattle.zf_scan.specs.Separators as separators;

use crate::token::{Kind, Separator};
use zf_tree::{Arrow, Connective, Constant, Infix, Prefix, Quantifier, Relation};

/// The next symbol, without its text.
#[derive(Clone, Copy)]
pub enum Next {
    /// Nothing is left.
    End,
    BeginZed,
    BeginSchema,
    EndBox,
    Name,
    Number,
    Separator(Separator),
    OpenRound,
    CloseRound,
    OpenSquare,
    CloseSquare,
    OpenBrace,
    CloseBrace,
    OpenImage,
    CloseImage,
    Comma,
    Colon,
    Bar,
    At,
    Abbreviates,
    FreeType,
    Defines,
    Where,
    Infix(Infix),
    Arrow(Arrow),
    Cross,
    Prefix(Prefix),
    Inverse,
    Constant(Constant),
    EmptySet,
    Relation(Relation),
    Not,
    Connective(Connective),
    Quantifier(Quantifier),
    Delta,
    Xi,
}

/// A symbol that a rule asks for by itself.
#[derive(Clone, Copy)]
pub enum Mark {
    EndBox,
    Separator,
    CloseRound,
    OpenSquare,
    CloseSquare,
    CloseBrace,
    CloseImage,
    Comma,
    Colon,
    Bar,
    At,
    Where,
    Cross,
}

/// What a token is, without its text.
pub(crate) fn next_of(kind: &Kind) -> Next
    ensures { result ≡ spec.next_of kind.now }
{
    match kind {
        Kind::BeginZed => Next::BeginZed,
        Kind::BeginSchema(_) => Next::BeginSchema,
        Kind::EndBox => Next::EndBox,
        Kind::Name(_, _) => Next::Name,
        Kind::Number(_) => Next::Number,
        Kind::Separator(separator) => Next::Separator(*separator),
        Kind::OpenRound => Next::OpenRound,
        Kind::CloseRound => Next::CloseRound,
        Kind::OpenSquare => Next::OpenSquare,
        Kind::CloseSquare => Next::CloseSquare,
        Kind::OpenBrace => Next::OpenBrace,
        Kind::CloseBrace => Next::CloseBrace,
        Kind::OpenImage => Next::OpenImage,
        Kind::CloseImage => Next::CloseImage,
        Kind::Comma => Next::Comma,
        Kind::Colon => Next::Colon,
        Kind::Bar => Next::Bar,
        Kind::At => Next::At,
        Kind::Abbreviates => Next::Abbreviates,
        Kind::FreeType => Next::FreeType,
        Kind::Defines => Next::Defines,
        Kind::Where => Next::Where,
        Kind::Infix(op) => Next::Infix(*op),
        Kind::Arrow(arrow) => Next::Arrow(*arrow),
        Kind::Cross => Next::Cross,
        Kind::Prefix(prefix) => Next::Prefix(*prefix),
        Kind::Inverse => Next::Inverse,
        Kind::Constant(constant) => Next::Constant(*constant),
        Kind::EmptySet => Next::EmptySet,
        Kind::Relation(relation) => Next::Relation(*relation),
        Kind::Not => Next::Not,
        Kind::Connective(connective) => Next::Connective(*connective),
        Kind::Quantifier(quantifier) => Next::Quantifier(*quantifier),
        Kind::Delta => Next::Delta,
        Kind::Xi => Next::Xi,
    }
}

impl Next {
    /// The symbol itself. `End` is none, and would be seen as `EndBox`.
    pub fn seen(self) -> Next
        ensures { (base : ℕ) (text : List ℕ) → result ≡ spec.next_of (kind_of self base text) }
    {
        match self {
            Next::End => Next::EndBox,
            _ => self,
        }
    }

    /// Whether this is a separator.
    pub fn is_separator(self) -> bool
        ensures { (base : ℕ) (text : List ℕ) → result ≡ separators.is_separator (kind_of self base text) }
    {
        matches!(self, Next::Separator(_))
    }

    /// Whether this ends a box.
    pub(crate) fn ends_box(self) -> bool
        ensures { (base : ℕ) (text : List ℕ) → result ≡ ends_box (kind_of self base text) }
    {
        matches!(self, Next::EndBox | Next::End)
    }

    /// Whether a separator before or after this token is dropped.
    fn joins(self) -> bool
        ensures { (base : ℕ) (text : List ℕ) → result ≡ separators.joins (kind_of self base text) }
    {
        matches!(
            self,
            Next::Infix(_)
                | Next::Relation(_)
                | Next::Arrow(_)
                | Next::Cross
                | Next::Connective(_)
                | Next::Comma
                | Next::Colon
                | Next::Bar
                | Next::At
                | Next::Defines
                | Next::Abbreviates
                | Next::FreeType
                | Next::Where
        )
    }

    /// Whether a separator after this token is dropped.
    pub fn opens(self) -> bool
        ensures { (base : ℕ) (text : List ℕ) → result ≡ separators.opens (kind_of self base text) }
    {
        match self {
            Next::BeginZed => true,
            Next::BeginSchema => true,
            Next::OpenRound => true,
            Next::OpenSquare => true,
            Next::OpenBrace => true,
            Next::OpenImage => true,
            _ => self.joins(),
        }
    }

    /// Whether a separator before this token is dropped.
    pub fn closes(self) -> bool
        ensures { (base : ℕ) (text : List ℕ) → result ≡ separators.closes (kind_of self base text) }
    {
        match self {
            Next::EndBox | Next::End => true,
            Next::CloseRound => true,
            Next::CloseSquare => true,
            Next::CloseBrace => true,
            Next::CloseImage => true,
            Next::Separator(_) => true,
            _ => self.joins(),
        }
    }

    /// Whether this goes on with a list of names; the test is whether a name is due.
    pub fn goes_on(self, due: bool) -> bool
        ensures { result ≡ spec.goes_on due self }
    {
        match self {
            Next::Name => due,
            Next::Comma => !due,
            _ => false,
        }
    }

    /// Whether this ends a list of names as a colon does.
    pub fn ends_names(self, due: bool) -> bool
        ensures { result ≡ spec.ends_names due self }
    {
        match self {
            Next::Colon => !due,
            _ => false,
        }
    }

    /// Whether this is the symbol.
    pub fn is(self, mark: Mark) -> bool
        ensures { result ≡ spec.is_mark mark self }
    {
        match mark {
            Mark::EndBox => matches!(self, Next::EndBox),
            Mark::Separator => matches!(self, Next::Separator(Separator::Semicolon)),
            Mark::CloseRound => matches!(self, Next::CloseRound),
            Mark::OpenSquare => matches!(self, Next::OpenSquare),
            Mark::CloseSquare => matches!(self, Next::CloseSquare),
            Mark::CloseBrace => matches!(self, Next::CloseBrace),
            Mark::CloseImage => matches!(self, Next::CloseImage),
            Mark::Comma => matches!(self, Next::Comma),
            Mark::Colon => matches!(self, Next::Colon),
            Mark::Bar => matches!(self, Next::Bar),
            Mark::At => matches!(self, Next::At),
            Mark::Where => matches!(self, Next::Where),
            Mark::Cross => matches!(self, Next::Cross),
        }
    }
}

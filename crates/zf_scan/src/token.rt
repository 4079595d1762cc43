//! Tokens: the symbols of the markup, one value for each.
use zf_data::Text;
use zf_tree::{Arrow, Connective, Constant, Infix, Prefix, Quantifier, Relation, Span};

/// A run of one or more of these parts paragraphs, declarations or predicates.
#[derive(Clone, Copy)]
pub enum Separator {
    /// `;`
    Semicolon,
    /// `\\`
    NewLine,
    /// `\also`
    Also,
}

/// What a token is.
#[derive(Drop)]
pub enum Kind {
    /// `\begin{zed}`
    BeginZed,
    /// `\begin{schema}{Name}`, with the name
    BeginSchema(Text),
    /// `\end{zed}` or `\end{schema}`, whichever closes the box
    EndBox,
    /// A name: its base, and its strokes as spelled.
    Name(Text, Text),
    Number(u64),
    Separator(Separator),
    /// `(`
    OpenRound,
    /// `)`
    CloseRound,
    /// `[`
    OpenSquare,
    /// `]`
    CloseSquare,
    /// `\{`
    OpenBrace,
    /// `\}`
    CloseBrace,
    /// `\limg`
    OpenImage,
    /// `\rimg`
    CloseImage,
    /// `,`
    Comma,
    /// `:`
    Colon,
    /// `|`
    Bar,
    /// `@`
    At,
    /// `==`
    Abbreviates,
    /// `::=`
    FreeType,
    /// `\defs`
    Defines,
    /// `\where`
    Where,
    Infix(Infix),
    Arrow(Arrow),
    /// `\cross`
    Cross,
    Prefix(Prefix),
    /// `\inv`
    Inverse,
    Constant(Constant),
    /// `\emptyset`
    EmptySet,
    Relation(Relation),
    /// `\lnot`
    Not,
    Connective(Connective),
    Quantifier(Quantifier),
    /// `\Delta`
    Delta,
    /// `\Xi`
    Xi,
}

/// A token, with its place in the source.
#[derive(Drop)]
pub struct Token {
    pub kind: Kind,
    pub span: Span,
}

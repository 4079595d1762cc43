//! The trees of a text: the symbols of terms, names, terms, schema expressions, paragraphs and boxes, parts of a source, and how they are seen.
#![tactic(auto)]

mod ends;
mod operator;
mod span;
mod symbol;
mod tree;

pub use ends::{back, front};
pub use operator::{Listed, Need, Operator, Rule, Sign, Unary, relation_rule};
pub use span::Span;
pub use symbol::{Arrow, Connective, Constant, Infix, Prefix, Quantifier, Relation};
pub use tree::{
    Decl, Ident, Link, Name, Paragraph, Part, RefMark, SchemaExp, SchemaRef, Spec, Term, Terms,
    VarDecl, ZBox,
};

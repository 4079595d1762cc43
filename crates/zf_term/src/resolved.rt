//! Resolved terms: terms in which each name says what it stands for.
ghost use Rattle.std.specs.Prelude.{◌≡◌};
ghost use Rattle.zf_term.specs.{resolved_of};
ghost use Rattle.zf_term.specs.Shapes as spec;

use zf_data::arena::{Boxed, Items};
use zf_reference::Reference;
use zf_tree::{Constant, Listed, Operator, Quantifier, Relation, Span, Unary};

/// A part of a term that may be left out, in a box of its own: most terms have none, and stay small.
pub type Part<'a> = Boxed<'a, Option<Boxed<'a, Resolved<'a>>>>;

/// The operands of one node. A list stands in a box, so that every term is small.
pub type Terms<'a> = Boxed<'a, Items<'a, Resolved<'a>>>;

/// The further operands of a chain.
pub type Links<'a> = Boxed<'a, Items<'a, ResolvedLink<'a>>>;

/// A term, with the span from its first token to its last.
#[cycle(resolved)]
#[derive(Drop)]
pub enum Resolved<'a> {
    Name(Span, Reference),
    Number(Span, u64),
    Constant(Span, Constant),
    /// `\emptyset[E]`
    EmptySet(Span, Boxed<'a, Resolved<'a>>),
    Bracket(Span, Boxed<'a, Resolved<'a>>),
    Listed(Span, Listed, Terms<'a>),
    /// A comprehension: the ranges of its variables, the filter, and the term.
    Comprehension(Span, Boxed<'a, Items<'a, Range<'a>>>, Part<'a>, Part<'a>),
    Unary(Span, Unary, Boxed<'a, Resolved<'a>>),
    Binary(Span, Operator, Boxed<'a, Resolved<'a>>, Boxed<'a, Resolved<'a>>),
    /// A chain of relations: the first operand, and the further ones.
    Chain(Span, Boxed<'a, Resolved<'a>>, Links<'a>),
    /// The ranges of the variables, the constraint, and the body.
    Quantified(
        Quantifier,
        Span,
        Boxed<'a, Items<'a, Range<'a>>>,
        Part<'a>,
        Boxed<'a, Resolved<'a>>,
    ),
}

/// A further part of a chain.
#[cycle(resolved)]
#[derive(Drop)]
pub struct ResolvedLink<'a> {
    pub relation: Relation,
    pub right: Resolved<'a>,
}

/// Bound variables: how many there are, and their declared set.
#[cycle(resolved)]
#[derive(Drop)]
pub struct Range<'a> {
    pub variables: usize,
    pub set: Resolved<'a>,
}

impl<'a> Resolved<'a> {
    /// From the first token to the last.
    #[tactic(auto, using(crate::proofs::ResolvedSeen::seen))]
    pub fn span(&self) -> Span
        ensures { result ≡ spec.term_span (resolved_of self.now) }
    {
        match self {
            Resolved::Name(span, _) => *span,
            Resolved::Number(span, _) => *span,
            Resolved::Constant(span, _) => *span,
            Resolved::EmptySet(span, _) => *span,
            Resolved::Bracket(span, _) => *span,
            Resolved::Listed(span, _, _) => *span,
            Resolved::Comprehension(span, _, _, _) => *span,
            Resolved::Unary(span, _, _) => *span,
            Resolved::Binary(span, _, _, _) => *span,
            Resolved::Chain(span, _, _) => *span,
            Resolved::Quantified(_, span, _, _, _) => *span,
        }
    }
}

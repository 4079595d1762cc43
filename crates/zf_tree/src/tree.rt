//! The trees of a text.
ghost use Rattle.std.specs.Prelude.{◌≡◌, ◌++◌};
ghost use Rattle.zf_tree.specs.NameViews as spec;
ghost use Rattle.zf_tree.specs.{ident_of, name_at, schema_span, schema_tree_of, span_of, tree_of};

use crate::ends::{back, front};
use crate::operator::{Listed, Operator, Unary};
use crate::span::Span;
use crate::symbol::{Constant, Quantifier, Relation};
use std::marker::Model;
use zf_data::arena::{Boxed, Items, Lent};

/// A name, and where it stands.
#[derive(Drop)]
pub struct Name<'a> {
    /// The name with its strokes.
    pub spelled: Lent<'a>,
    /// How many of its bytes come before the strokes.
    pub bare: usize,
    pub span: Span,
}

impl<'a> Model for Name<'a> {
    ghost use Rattle.std.specs.Prelude.{take, drop};
    ghost use Rattle.zf_tree.specs.Names as names;

    ghost Value = { names.Name };

    ghost view = { λ n. record { base = take n.bare n.spelled; strokes = drop n.bare n.spelled; span = n.span } };
}

impl<'a> Name<'a> {
    /// The name with its strokes, of which nothing is copied.
    pub fn spelled(&self) -> Lent<'a>
        ensures { result ≡ self.now.base ++ self.now.strokes }
    {
        self.spelled.share()
    }

    /// The name without its place.
    pub fn ident(&self) -> Ident<'a>
        ensures { result ≡ ident_of self.now }
    {
        Ident {
            spelled: self.spelled.share(),
            bare: self.bare,
        }
    }

    /// The name without its strokes.
    pub fn base(&self) -> &'a [u8]
        ensures { result.now ≡ self.now.base }
    {
        front(self.spelled.as_slice(), self.bare)
    }

    /// The strokes, as spelled.
    pub fn strokes(&self) -> &'a [u8]
        ensures { result.now ≡ self.now.strokes }
    {
        back(self.spelled.as_slice(), self.bare)
    }

    /// Whether the name has no strokes.
    pub fn is_bare(&self) -> bool
        ensures { result ≡ spec.is_bare self.now.strokes }
    {
        match self.strokes() {
            [] => true,
            [_, ..] => false,
        }
    }
}

/// A name without its place, as a term has it.
#[derive(Drop)]
pub struct Ident<'a> {
    /// The name with its strokes.
    pub spelled: Lent<'a>,
    /// How many of its bytes come before the strokes.
    pub bare: usize,
}

impl<'a> Model for Ident<'a> {
    ghost use Rattle.std.specs.Prelude.{take, drop};
    ghost use Rattle.zf_tree.specs.NameViews as names;

    ghost Value = { names.Ident };

    ghost view = { λ i. record { base = take i.bare i.spelled; strokes = drop i.bare i.spelled } };
}

impl<'a> Ident<'a> {
    /// The name, which stands there.
    pub fn at(&self, span: Span) -> Name<'a>
        ensures { result ≡ name_at span self.now }
    {
        Name {
            spelled: self.spelled.share(),
            bare: self.bare,
            span,
        }
    }
}

/// A part of a term that may be left out. It stands in a box, since few terms have one.
pub type Part<'a> = Boxed<'a, Option<Boxed<'a, Term<'a>>>>;

/// The operands of one node. A list stands in a box wherever a term has one, so that every term is small.
pub type Terms<'a> = Boxed<'a, Items<'a, Boxed<'a, Term<'a>>>>;

/// A term, with the span from its first token to its last. Expressions and predicates share it.
#[cycle(terms)]
#[derive(Drop)]
pub enum Term<'a> {
    Name(Span, Ident<'a>),
    Number(Span, u64),
    Constant(Span, Constant),
    /// `\emptyset[E]`
    EmptySet(Span, Boxed<'a, Term<'a>>),
    Bracket(Span, Boxed<'a, Term<'a>>),
    Listed(Span, Listed, Terms<'a>),
    /// A comprehension: the declarations, the filter, and the term.
    Comprehension(Span, Boxed<'a, Items<'a, VarDecl<'a>>>, Part<'a>, Part<'a>),
    Unary(Span, Unary, Boxed<'a, Term<'a>>),
    Binary(Span, Operator, Boxed<'a, Term<'a>>, Boxed<'a, Term<'a>>),
    /// A chain of relations: the first operand, and the links.
    Chain(Span, Boxed<'a, Term<'a>>, Boxed<'a, Items<'a, Link<'a>>>),
    /// The declarations, the constraint, and the body.
    Quantified(Quantifier, Span, Boxed<'a, Items<'a, VarDecl<'a>>>, Part<'a>, Boxed<'a, Term<'a>>),
}

impl<'a> Term<'a> {
    /// From the first token to the last.
    #[tactic(auto, using(crate::proofs::TermSeen::seen))]
    pub fn span(&self) -> Span
        ensures { result ≡ span_of (tree_of self.now) }
    {
        match self {
            Term::Name(span, _) => *span,
            Term::Number(span, _) => *span,
            Term::Constant(span, _) => *span,
            Term::EmptySet(span, _) => *span,
            Term::Bracket(span, _) => *span,
            Term::Listed(span, _, _) => *span,
            Term::Comprehension(span, _, _, _) => *span,
            Term::Unary(span, _, _) => *span,
            Term::Binary(span, _, _, _) => *span,
            Term::Chain(span, _, _) => *span,
            Term::Quantified(_, span, _, _, _) => *span,
        }
    }
}

/// A further part of a chain.
#[cycle(terms)]
#[derive(Drop)]
pub struct Link<'a> {
    pub relation: Relation,
    pub right: Boxed<'a, Term<'a>>,
}

/// Bound variables, and their declared set.
#[cycle(terms)]
#[derive(Drop)]
pub struct VarDecl<'a> {
    pub names: Items<'a, Name<'a>>,
    pub set: Boxed<'a, Term<'a>>,
}

/// How the schema of a reference is taken.
#[derive(Clone, Copy, Debug)]
pub enum RefMark {
    Plain,
    Delta,
    Xi,
}

/// A reference to a schema. The strokes of its name decorate.
#[derive(Drop)]
pub struct SchemaRef<'a> {
    pub mark: RefMark,
    pub name: Name<'a>,
}

/// A declaration: of components, or of all that a schema has.
#[derive(Drop)]
pub enum Decl<'a> {
    /// Components, and their declared set.
    Vars(Items<'a, Name<'a>>, Boxed<'a, Term<'a>>),
    Include(SchemaRef<'a>),
}

/// A schema expression (ZRM 5.2), with the span from its first token to its last.
#[derive(Drop)]
pub enum SchemaExp<'a> {
    /// `[ Decl; .. | Term; .. ]`
    Text(Span, Items<'a, Decl<'a>>, Items<'a, Boxed<'a, Term<'a>>>),
    Ref(Span, SchemaRef<'a>),
    /// `A \land B`
    Both(Span, Boxed<'a, SchemaExp<'a>>, Boxed<'a, SchemaExp<'a>>),
    /// `A \lor B`
    Or(Span, Boxed<'a, SchemaExp<'a>>, Boxed<'a, SchemaExp<'a>>),
    Bracket(Span, Boxed<'a, SchemaExp<'a>>),
}

impl<'a> SchemaExp<'a> {
    /// From the first token to the last.
    #[tactic(auto, using(crate::proofs::SchemaSeen::seen))]
    pub fn span(&self) -> Span
        ensures { result ≡ schema_span (schema_tree_of self.now) }
    {
        match self {
            SchemaExp::Text(span, _, _) => *span,
            SchemaExp::Ref(span, _) => *span,
            SchemaExp::Both(span, _, _) => *span,
            SchemaExp::Or(span, _, _) => *span,
            SchemaExp::Bracket(span, _) => *span,
        }
    }
}

/// A paragraph of a `zed` box (ZRM 3.2).
#[derive(Drop)]
pub enum Paragraph<'a> {
    /// `[ Name, .. ]`
    Given(Items<'a, Name<'a>>),
    /// `Name ::= Name | ..`
    Free(Name<'a>, Items<'a, Name<'a>>),
    /// `Name == Term`
    Abbrev(Name<'a>, Boxed<'a, Term<'a>>),
    /// `Name \defs SchemaExp`
    Defs(Name<'a>, SchemaExp<'a>),
}

/// A box, which ends with its `\end`.
#[derive(Drop)]
pub enum ZBox<'a> {
    Zed(Items<'a, Paragraph<'a>>),
    /// The name, the declarations, and the predicates below `\where`.
    SchemaBox(Name<'a>, Items<'a, Decl<'a>>, Items<'a, Boxed<'a, Term<'a>>>),
}

/// A whole text.
#[derive(Drop)]
pub struct Spec<'a> {
    pub boxes: zf_data::Items<ZBox<'a>>,
}

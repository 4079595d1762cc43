//! Conjuncts of schemas.
ghost use Rattle.std.specs.Prelude.{◌≡◌, ℕ, IfOk, map};
ghost use Rattle.zf_data.specs.{all_of};
ghost use Rattle.zf_term.specs.{batch_of, conjunct_of, is_member, one_holds, resolved_of, sides_span};
ghost use Rattle.zf_term.specs.Shapes as spec;
ghost use Rattle.zf_term.specs.ShapeViews as spec_views;
ghost use Rattle.zf_reference.specs.NumberingViews as numbers;

use crate::resolved::Resolved;
use bumpalo::Bump;
use std::alloc::AllocError;
use zf_data::arena::{Items, Lasting, Piece, Share, Shared};
use zf_reference::place_in;
use zf_tree::Span;

/// The places of the components of a schema in another one, where they are others.
pub type Places<'a> = Option<Lasting<'a, Items<'a, usize>>>;

/// Where the two sides of a disjunction of schemas stand.
#[derive(Clone, Copy)]
pub struct Sides {
    pub left: Span,
    pub right: Span,
}

impl Sides {
    /// From where the left side begins to where the right one ends.
    pub fn span(self) -> Span
        ensures { result ≡ sides_span self }
    {
        self.left.to(self.right)
    }
}

/// A conjunct of a schema: a predicate of which nothing is copied for the schemas that take in the schema, and the places of its components
/// in this one.
#[cycle(conjunct)]
#[derive(Drop)]
pub enum Conjunct<'a> {
    Term(Lasting<'a, Resolved<'a>>, Places<'a>),
    /// That the component at the place is a member of the set.
    Member(usize, Lasting<'a, Resolved<'a>>, Places<'a>),
    /// A disjunction of two schemas: that all conjuncts of the left side hold, or all of the right.
    Either(Sides, Batches<'a>, Batches<'a>, Places<'a>),
}

/// Conjuncts of another schema, which are shared, and the places of their components in this one.
#[cycle(conjunct)]
#[derive(Drop)]
pub struct Batch<'a> {
    pub conjuncts: Piece<'a, Conjunct<'a>>,
    pub places: Places<'a>,
}

/// One side of a disjunction.
pub type Batches<'a> = Shared<'a, Items<'a, Batch<'a>>>;

impl<'a> Conjunct<'a> {
    /// The predicate, with its components at their own places.
    #[tactic(auto, using(crate::proofs::ConjunctsSeen::own))]
    pub fn of(arena: &'a Bump, term: Resolved<'a>) -> Result<Conjunct<'a>, AllocError>
        ensures { IfOk result (λ c. conjunct_of c ≡ resolved_of term.entry) }
    {
        Ok(Conjunct::Term(Lasting::new(arena, term)?, None))
    }

    /// The predicate, which stands in an arena, with its components at their own places.
    #[tactic(auto, using(crate::proofs::ConjunctsSeen::own))]
    pub fn lasting(term: &'a Resolved<'a>) -> Conjunct<'a>
        ensures { conjunct_of result ≡ resolved_of term.now }
    {
        Conjunct::Term(Lasting { inner: term }, None)
    }

    /// That the component at the place is a member of the set.
    #[tactic(auto, using(crate::proofs::ConjunctsSeen::own))]
    pub fn member(place: usize, set: Lasting<'a, Resolved<'a>>) -> Conjunct<'a>
        ensures { conjunct_of result ≡ is_member place (resolved_of set.entry) }
    {
        Conjunct::Member(place, set, None)
    }

    /// That all conjuncts of the left side hold, or all of the right.
    #[tactic(auto, using(crate::proofs::ConjunctsSeen::own))]
    pub fn either(sides: Sides, left: Batches<'a>, right: Batches<'a>) -> Conjunct<'a>
        ensures { conjunct_of result ≡ one_holds (sides_span sides) (all_of (map batch_of left.entry)) (all_of (map batch_of right.entry)) }
    {
        Conjunct::Either(sides, left, right, None)
    }

    /// The same conjunct, of which nothing is copied.
    pub fn share(&self) -> Result<Conjunct<'a>, AllocError>
        ensures { IfOk result (λ c. c ≡ self.now) }
    {
        match self {
            Conjunct::Term(term, places) => Ok(Conjunct::Term(term.share(), shared(places))),
            Conjunct::Member(place, set, places) => {
                Ok(Conjunct::Member(*place, set.share(), shared(places)))
            }
            Conjunct::Either(sides, left, right, places) => {
                let left = left.share()?;
                let right = right.share()?;
                Ok(Conjunct::Either(*sides, left, right, shared(places)))
            }
        }
    }

    /// The conjunct with its components numbered anew.
    #[tactic(auto, using(crate::proofs::ConjunctsSeen::seen))]
    pub fn moved(&self, arena: &'a Bump, places: &Places<'a>) -> Result<Conjunct<'a>, AllocError>
        ensures { IfOk result (λ c. conjunct_of c ≡ spec.moved (spec_views.numbering places.now) (conjunct_of self.now)) }
    {
        match self {
            Conjunct::Term(term, own) => {
                Ok(Conjunct::Term(term.share(), composed(arena, own, places)?))
            }
            Conjunct::Member(place, set, own) => {
                Ok(Conjunct::Member(*place, set.share(), composed(arena, own, places)?))
            }
            Conjunct::Either(sides, left, right, own) => {
                let left = left.share()?;
                let right = right.share()?;
                Ok(Conjunct::Either(*sides, left, right, composed(arena, own, places)?))
            }
        }
    }

    /// From the first token to the last; of a declared set, where that stands.
    #[tactic(auto, using(crate::proofs::ConjunctsSeen::seen, crate::proofs::Renumbered::kept))]
    pub fn span(&self) -> Span
        ensures { result ≡ spec.term_span (conjunct_of self.now) }
    {
        match self {
            Conjunct::Term(term, _) => term.get().span(),
            Conjunct::Member(_, set, _) => set.get().span(),
            Conjunct::Either(sides, _, _, _) => sides.span(),
        }
    }
}

impl<'a> Batch<'a> {
    /// These conjuncts, with their components at these places.
    #[tactic(auto, using(crate::proofs::ConjunctsSeen::batches_seen))]
    pub fn of(conjuncts: Piece<'a, Conjunct<'a>>, places: &Places<'a>) -> Batch<'a>
        ensures { batch_of result ≡ map (spec.moved (spec_views.numbering places.now)) (map conjunct_of conjuncts.entry) }
    {
        Batch {
            conjuncts,
            places: shared(places),
        }
    }
}

impl<'a> Share for Conjunct<'a> {
    fn shared(&self) -> Result<Conjunct<'a>, AllocError> {
        self.share()
    }
}

fn shared<'a>(places: &Places<'a>) -> Places<'a>
    ensures { result ≡ places.now }
{
    match places {
        None => None,
        Some(places) => Some(places.share()),
    }
}

/// The one numbering, and then the other.
fn composed<'a>(
    arena: &'a Bump,
    first: &Places<'a>,
    then: &Places<'a>,
) -> Result<Places<'a>, AllocError>
    ensures { IfOk result (λ ps. spec_views.numbering ps ≡ (λ (i : ℕ). spec_views.numbering then.now (spec_views.numbering first.now i))) }
{
    match (first, then) {
        (None, then) => Ok(shared(then)),
        (first, None) => Ok(shared(first)),
        (Some(first), Some(then)) => {
            let places = both(arena, first.get().as_slice(), then.get().as_slice())?;
            Ok(Some(Lasting::new(arena, places)?))
        }
    }
}

fn both<'a>(
    arena: &'a Bump,
    first: &[usize],
    then: &[usize],
) -> Result<Items<'a, usize>, AllocError>
    ensures { IfOk result (λ ps. numbers.place_in ps ≡ (λ (i : ℕ). numbers.place_in then.now (numbers.place_in first.now i))) }
{
    let mut places = Items::with_room(arena, first.len().max(then.len()))?;
    for place in 0..first.len().max(then.len()) {
        places.push(place_in(then, place_in(first, place)))?;
    }
    Ok(places)
}

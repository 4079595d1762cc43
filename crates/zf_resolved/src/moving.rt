//! Copies of resolved terms, with their components numbered anew.
ghost use Rattle.std.specs.Prelude.{◌≡◌, IfOk};
ghost use Rattle.zf_term.specs.{resolved_of};
ghost use Rattle.zf_term.specs.Shapes as spec;
ghost use Rattle.zf_reference.specs.NumberingViews as numbers;

use crate::renaming::{Naming, renamed};
use bumpalo::Bump;
use std::alloc::AllocError;
use zf_reference::Reference;
use zf_term::Resolved;

/// New numbers of components: that of the list at their place, where there is one.
#[derive(Clone, Copy)]
struct Places<'p> {
    places: &'p [usize],
}

impl Naming for Places<'_> {
    ghost use Rattle.zf_reference.specs.Numbering.{renumbered};
    ghost use Rattle.zf_reference.specs.NumberingViews.{place_in};

    ghost becomes = { λ p. renumbered (place_in p.places.now) };

    fn named(&self, reference: Reference) -> Reference {
        reference.moved(self.places)
    }
}

/// The same term.
#[tactic(auto, using(zf_term::proofs::Copies::copied))]
pub fn copy<'a>(term: &Resolved<'a>, arena: &'a Bump) -> Result<Resolved<'a>, AllocError>
    ensures { IfOk result (λ t. t ≡ term.now) }
{
    moved(term, arena, &[])
}

/// The same term, with its components numbered anew: by the list's number at their place, where there is one.
#[tactic(auto, using(crate::proofs::Moved::of_term))]
pub fn moved<'a>(
    term: &Resolved<'a>,
    arena: &'a Bump,
    places: &[usize],
) -> Result<Resolved<'a>, AllocError>
    ensures { IfOk result (λ t. resolved_of t ≡ spec.moved (numbers.place_in places.now) (resolved_of term.now)) }
{
    renamed(term, arena, &Places { places })
}

//! Conjuncts, with what those leave that ask for values of variables.
ghost use Rattle.std.specs.Prelude.{◌≡◌, ◌<◌, ◌^◌, ℕ, IfOk, IfSome, get_or, length, map, slice_get};
ghost use Rattle.zf_enum.specs.Prelude.{resolved_of};
ghost use Rattle.zf_enum.specs.{due_of, IsSpread};

use crate::spread::{Spread, spread_at, spreads};
use bumpalo::Bump;
use std::alloc::{AllocError, Global};
use std::marker::Model;
use zf_term::Resolved;

/// Predicates one after another. Of those that ask for values of variables it may be kept what they leave.
#[derive(Drop)]
pub struct Conjuncts<'a> {
    terms: Vec<Resolved<'a>>,
    spreads: Vec<Spread<'a>>,
}

impl<'a> Model for Conjuncts<'a> {
    ghost use Rattle.std.specs.Prelude.{List, map};
    ghost use denote.Signature.{static_lft};
    ghost use Rattle.std.specs.Coded.{codes};
    ghost use Rattle.zf_term.specs.contracts.resolved.Resolved as term;
    ghost use Rattle.zf_term.specs.declared.resolved.Resolved as program;
    ghost use Rattle.zf_term.specs.ResolvedViews.{resolved_of};
    ghost use Rattle.zf_enum.specs.Spreads.{AreSpreads};

    ghost Value = { List program.Resolved };

    ghost coded = { Prim.hlevel (codes, (term.the_row static_lft).coded) };

    ghost view = { λ s. s.terms.items };

    ghost invariant = { λ s. AreSpreads (map resolved_of s.terms.items) s.spreads.items };
}

impl<'a> Conjuncts<'a> {
    /// These terms; nothing is kept.
    pub(crate) fn plain(alloc: Global, terms: Vec<Resolved<'a>>) -> Conjuncts<'a>
        ensures { result ≡ terms.entry.items }
    {
        Conjuncts {
            terms,
            spreads: Vec::new(alloc),
        }
    }

    /// These terms, with what they leave.
    pub(crate) fn narrowing(
        alloc: Global,
        arena: &'a Bump,
        terms: Vec<Resolved<'a>>,
    ) -> Result<Conjuncts<'a>, AllocError>
        requires { (c : ℕ) → due_of (slice_get (map resolved_of terms.items) c) < 2 ^ 64 }
        ensures { IfOk result (λ s. s ≡ terms.entry.items) }
    {
        let spreads = spreads(alloc, arena, &terms)?;
        Ok(Conjuncts { terms, spreads })
    }

    pub fn len(&self) -> usize
        ensures { result ≡ length self.now }
    {
        self.terms.len()
    }

    /// The predicate at this place.
    pub fn get(&self, place: usize) -> &Resolved<'a>
        requires { place < length self.now }
        ensures { result.now ≡ get_or self.now place result.now }
    {
        &self.terms[place]
    }

    /// The set of what a predicate equates a component with, if it is kept.
    pub(crate) fn spread(&self, place: usize, component: usize) -> Option<&Resolved<'a>>
        ensures { IfSome result (λ set. IfSome (slice_get (map resolved_of self.now) place) (λ p. IsSpread p component (resolved_of set.now))) }
    {
        spread_at(&self.spreads, place, component)
    }
}

//! Which bound variables a term needs.
ghost use Rattle.std.specs.Prelude.{◌≡◌, max};
ghost use Rattle.zf_meaning.specs.Prelude.{part_of, resolved_of};
ghost use Rattle.zf_meaning.specs.{need, part_need, place_below};

use zf_reference::Reference;
use zf_shape::{Places, last_of, last_of_part, number_of};
use zf_term::{Part, Resolved};

/// The bound variables before a bound.
#[derive(Drop)]
struct Before {
    bound: usize,
}

impl Places for Before {
    ghost use Rattle.zf_meaning.specs.Needs.{place_below};

    ghost number = { λ before reference. place_below before.bound reference };

    #[inline]
    fn place_of(&self, reference: Reference) -> Option<usize> {
        match reference {
            Reference::Local(place) if place < self.bound => Some(place),
            Reference::Local(_) => None,
            Reference::Component(_) => None,
            Reference::Global(_) => None,
        }
    }

    #[inline]
    fn last(&self) -> usize {
        self.bound.saturating_sub(1)
    }
}

/// The place after the last bound variable, of those before a bound, that the term names.
pub(crate) fn last_local(term: &Resolved<'_>, bound: usize) -> usize
    ensures { result ≡ need bound (resolved_of term.now) }
{
    number_of(last_of(term, &Before { bound }, None))
}

/// The same for two parts of a term.
pub(crate) fn last_of_both(part: &Part<'_>, term: &Resolved<'_>, bound: usize) -> usize
    ensures { result ≡ max (need bound (resolved_of term.now)) (part_need bound (part_of part.now)) }
{
    let before = Before { bound };
    number_of(last_of_part(part, &before, last_of(term, &before, None)))
}

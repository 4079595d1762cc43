//! Which components a term needs.
ghost use Rattle.std.specs.Prelude.{◌≡◌, ◌<◌, ◌^◌, ℕ, IsTrue, true};
ghost use Rattle.zf_term.specs.{resolved_of};
ghost use Rattle.zf_shape.specs.{place_after};
ghost use Rattle.zf_enum.specs.Property as spec;
ghost use Rattle.zf_enum.specs.Uses as named;
ghost use Rattle.zf_enum.specs.{need};

use zf_reference::Reference;
use zf_shape::{Places, last_of};
use zf_term::Resolved;

/// The components up to a bound.
#[derive(Drop)]
struct UpTo {
    bound: usize,
}

impl Places for UpTo {
    ghost use Rattle.zf_enum.specs.Dues.{place_up_to};

    ghost number = { λ these reference. place_up_to these.bound reference };

    #[inline]
    fn place_of(&self, reference: Reference) -> Option<usize> {
        match reference {
            Reference::Component(place) if place <= self.bound => Some(place),
            Reference::Component(_) => None,
            Reference::Local(_) => None,
            Reference::Global(_) => None,
        }
    }

    #[inline]
    fn last(&self) -> usize {
        self.bound
    }
}

/// The greatest place, from 1, of a component that the term names.
pub(crate) fn due(term: &Resolved<'_>) -> usize
    requires { spec.due (resolved_of term.now) < 2 ^ 64 }
    ensures { result ≡ spec.due (resolved_of term.now) }
{
    match last_up_to(term, usize::MAX) {
        None => 0,
        Some(place) => place + 1,
    }
}

/// Whether the term names a component.
pub(crate) fn uses(term: &Resolved<'_>, component: usize) -> bool
    ensures { result ≡ named.uses (resolved_of term.now) component }
{
    match last_up_to(term, component) {
        None => false,
        Some(place) => place == component,
    }
}

/// Whether the term names none of so many components but first ones.
pub(crate) fn needs_first(term: &Resolved<'_>, first: usize, components: usize) -> bool
    ensures { IsTrue result → (k : ℕ) → k < components → named.uses (resolved_of term.now) k ≡ true → k < first }
{
    match last_up_to(term, components) {
        None => true,
        Some(place) => place < first,
    }
}

/// The last component up to a bound that the term names.
pub fn last_up_to(term: &Resolved<'_>, bound: usize) -> Option<usize>
    ensures { place_after result ≡ need bound (resolved_of term.now) }
{
    last_of(term, &UpTo { bound }, None)
}

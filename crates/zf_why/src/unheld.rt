//! Whether a term names held components alone.
ghost use Rattle.std.specs.Prelude.{◌≡◌, slice_get};
ghost use Rattle.zf_why.specs.Prelude.{references};
ghost use Rattle.zf_term.specs.{resolved_of};
ghost use Rattle.zf_why.specs.{are_held, is_value};

use zf_reference::Reference;
use zf_shape::{Places, last_of};
use zf_term::Resolved;
use zf_value::Value;

/// The components of which no value is held, all at one place.
#[derive(Drop)]
struct Unheld<'h> {
    held: &'h [Option<Value>],
}

impl<'h> Places for Unheld<'h> {
    ghost use Rattle.zf_why.specs.Unheld.{name_lacks};

    ghost number = { λ unheld reference. name_lacks unheld.held.now reference };

    fn place_of(&self, reference: Reference) -> Option<usize> {
        match reference {
            Reference::Component(place) if is_held(self.held, place) => None,
            Reference::Component(_) => Some(0),
            _ => None,
        }
    }

    fn last(&self) -> usize {
        0
    }
}

/// Whether a value is held of each component that the term names.
pub fn names_held(term: &Resolved<'_>, held: &[Option<Value>]) -> bool
    ensures { result ≡ are_held held.now (references (resolved_of term.now)) }
{
    match last_of(term, &Unheld { held }, None) {
        None => true,
        Some(_) => false,
    }
}

/// Whether a value of the component is held.
fn is_held(held: &[Option<Value>], place: usize) -> bool
    ensures { result ≡ is_value (slice_get held.now place) }
{
    matches!(held.get(place), Some(Some(_)))
}

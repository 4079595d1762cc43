//! The component and the global that a name stands for.
ghost use Rattle.std.specs.Prelude.{◌≡◌, map};
ghost use Rattle.zf_term.specs.{comp_of, entry_of, first_named, found_as, globals_of};

use crate::globals::{Entry, Globals};
use crate::schema::Component;
use crate::spelling::is_same;

/// The component of the name, with its place.
pub fn component_of<'a, 'b>(
    components: &'b [Component<'a>],
    name: &[u8],
) -> Option<(usize, &'b Component<'a>)>
    ensures { found_as (λ c. comp_of c.now) result ≡ first_named (λ c. c.name) name.now (map comp_of components.now) }
{
    for (place, component) in components.iter().enumerate() {
        if is_same(component.name.as_slice(), name) {
            return Some((place, component));
        }
    }
    None
}

/// What the global of the name is defined as, with its place.
pub fn global_of<'a, 'b>(globals: &'b Globals<'a>, name: &[u8]) -> Option<(usize, &'b Entry<'a>)>
    ensures { found_as (λ e. entry_of name.now e.now) result ≡ first_named (λ d. d.name) name.now (globals_of globals.now) }
{
    match globals.entries.get_full(name) {
        Some((place, _, entry)) => Some((place, entry)),
        None => None,
    }
}

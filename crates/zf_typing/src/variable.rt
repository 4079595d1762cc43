//! Bound variables.
ghost use Rattle.std.specs.Prelude.{◌≡◌, map};
ghost use Rattle.zf_typing.specs.Prelude.{found_as};
ghost use Rattle.zf_typing.specs.{last_named, variable_of};

use zf_data::arena::Lent;
use zf_term::{ZType, is_same};

/// A bound variable.
#[derive(Drop)]
pub struct Variable<'a> {
    /// The name as spelled, with its strokes.
    pub name: Lent<'a>,
    pub ztype: ZType<'a>,
}

/// The last variable of the name, with its place.
pub(crate) fn last_of<'a, 'b>(
    variables: &'b [Variable<'a>],
    name: &[u8],
) -> Option<(usize, &'b Variable<'a>)>
    ensures { found_as (λ v. variable_of v.now) result ≡ last_named (λ v. v.name) name.now (map variable_of variables.now) }
{
    let mut place = variables.len();
    while place > 0 {
        place -= 1;
        let variable = &variables[place];
        if is_same(variable.name.as_slice(), name) {
            return Some((place, variable));
        }
    }
    None
}

//! Lists of names.
ghost use Rattle.zf_grammar.specs.Reading as spec;
ghost use Rattle.zf_grammar.specs.{Gives, read_names};

use crate::cursor::Cursor;
use bumpalo::Bump;
use zf_data::arena::Items;
use zf_scan::{Mark, TextFault};
use zf_tree::Name;

/// One or more names, parted by a symbol.
#[tactic(auto, using(std::proofs::lemmas::Grind::common_steps, crate::proofs::Turns::parted_turn, crate::proofs::Turns::parted_end), unfolding(crate::specs::Reading::parted))]
pub fn parted_names<'a>(
    arena: &'a Bump,
    tokens: &mut Cursor<'a, '_>,
    part: Mark,
) -> Result<Items<'a, Name<'a>>, TextFault>
    ensures { Gives (spec.parted part spec.read_name tokens.old) result tokens.new }
{
    let first = tokens.name()?;
    let mut names = Items::of(arena, first)?;
    for _turn in 0..tokens.left() {
        if !tokens.is_at(part) {
            return Ok(names);
        }
        tokens.skip();
        let name = tokens.name()?;
        names.push(name)?;
    }
    Ok(names)
}

/// One or more names, parted by commas.
pub fn names<'a>(
    arena: &'a Bump,
    tokens: &mut Cursor<'a, '_>,
) -> Result<Items<'a, Name<'a>>, TextFault>
    ensures { Gives (read_names tokens.old) result tokens.new }
{
    parted_names(arena, tokens, Mark::Comma)
}

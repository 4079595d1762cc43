//! One or more items with their heights, parted by a symbol.
ghost use Rattle.std.specs.Prelude.{◌≤◌, IfOk};
ghost use Rattle.zf_grammar.specs.TermReading as spec;
ghost use Rattle.zf_grammar.specs.{Gives};

use crate::cursor::Cursor;
use crate::tall::{Read, Tall};
use bumpalo::Bump;
use zf_data::arena::Items;
use zf_scan::Mark;

/// A rule of the grammar, which reads items of one type up to a height.
pub trait Rule<'a> {
    type Item: Drop;

    ghost use Rattle.std.specs.Prelude.{ℕ, List, Result};
    ghost use Rattle.zf_scan.specs.Separators.{Symbol};
    ghost use Rattle.zf_grammar.specs.Reading.{Fault};
    ghost use Rattle.zf_grammar.specs.declared.tall.Tall.{Tall};

    ghost parser: { Self → List Symbol → Result (Tall Self.Item × List Symbol) Fault };

    ghost limit: { Self → ℕ };

    fn read(&self, tokens: &mut Cursor<'a, '_>) -> Read<Self::Item>
        requires { limit self.now ≤ 1000 }
        ensures value { Gives (parser self.now tokens.old) result tokens.new }
        ensures low { IfOk result (λ x. x.height ≤ limit self.now) };
}

/// What the rule reads, once and again for as long as the mark parts it from what follows.
#[tactic(auto, using(std::proofs::lemmas::Grind::common_steps, crate::proofs::Turns::items_turn, crate::proofs::Turns::items_end), unfolding(crate::specs::TermReading::items))]
pub fn items<'a, R: Rule<'a>>(
    arena: &'a Bump,
    tokens: &mut Cursor<'a, '_>,
    part: Mark,
    rule: &R,
) -> Read<Items<'a, R::Item>>
    requires { R.limit rule.now ≤ 1000 }
    ensures value { Gives (spec.items part (R.parser rule.now) tokens.old) result tokens.new }
    ensures low { IfOk result (λ x. x.height ≤ R.limit rule.now) }
{
    let first = rule.read(tokens)?;
    let mut items = Items::of(arena, first.part)?;
    let mut height = first.height;
    for _turn in 0..tokens.left() {
        if !tokens.is_at(part) {
            return Ok(Tall {
                part: items,
                height,
            });
        }
        tokens.skip();
        let next = rule.read(tokens)?;
        items.push(next.part)?;
        height = height.max(next.height);
    }
    Ok(Tall {
        part: items,
        height,
    })
}

//! The rules of terms.
ghost use Rattle.std.specs.Prelude.{◌+◌, ◌≤◌, IfOk};
ghost use Rattle.zf_grammar.specs.Nests.{Nests};
ghost use Rattle.zf_grammar.specs.TermReading as spec;
ghost use Rattle.zf_grammar.specs.{Gives, read_term};

mod beginnings;
mod longer;
mod parts;

use crate::cursor::Cursor;
use crate::role::role_of;
use crate::tall::{TallTerm, TermRead, too_deep};
use bumpalo::Bump;
use zf_levels::level;

/// What the rules are given: how terms that stand one level deeper are read, up to the height `below`.
#[derive(Clone, Copy)]
struct Grammar<'a, F> {
    arena: &'a Bump,
    below: u32,
    read: F,
}

impl<'a, F: Fn(&'a Bump, &mut Cursor<'a, '_>, u32, u8) -> TermRead<'a>> Grammar<'a, F> {
    #[inline(always)]
    fn term(&self, tokens: &mut Cursor<'a, '_>, place: u8) -> TermRead<'a>
        requires nests { Nests self.now.below (F.pre self.now.read) (F.post self.now.read) }
        ensures value { Gives (read_term self.now.below place tokens.old) result tokens.new }
        ensures low { IfOk result (λ x. x.height ≤ self.now.below) }
    {
        (self.read)(self.arena, tokens, self.below, place)
    }

    /// Goes on while the symbols bind more tightly than this place.
    #[tactic(auto, using(std::proofs::lemmas::Grind::common_steps, crate::proofs::Turns::climb_turn, crate::proofs::Turns::climb_end))]
    fn climb(&self, tokens: &mut Cursor<'a, '_>, least: u8, mut left: TallTerm<'a>) -> TermRead<'a>
        requires nests { Nests self.now.below (F.pre self.now.read) (F.post self.now.read) }
        requires left_low { left.height ≤ self.now.below + 1 }
        ensures value { Gives (spec.climb (read_term self.now.below) (self.now.below + 1) least (self.now.below + 1) left.entry tokens.old) result tokens.new }
        ensures low { IfOk result (λ x. x.height ≤ self.now.below + 1) }
    {
        let begin = left.part.get().span();
        for _turn in 0..self.below + 1 {
            let role = role_of(tokens.peek());
            if role.binds() <= least {
                return Ok(left);
            }
            if level(left.part.get()) < role.place_before() {
                return Err(tokens.unexpected());
            }
            left = self.longer(tokens, left, role)?;
            if left.height > self.below + 1 {
                return Err(too_deep(begin));
            }
        }
        Err(too_deep(begin))
    }

    #[tactic(auto, unfolding(crate::specs::TermReading::whole, crate::specs::TermReading::climb))]
    fn whole(&self, tokens: &mut Cursor<'a, '_>, least: u8) -> TermRead<'a>
        requires nests { Nests self.now.below (F.pre self.now.read) (F.post self.now.read) }
        ensures value { Gives (spec.whole (read_term self.now.below) (self.now.below + 1) least tokens.old) result tokens.new }
        ensures low { IfOk result (λ x. x.height ≤ self.now.below + 1) }
    {
        let first = self.beginning(tokens, least)?;
        // Most terms end here.
        if role_of(tokens.peek()).binds() <= least {
            return Ok(first);
        }
        self.climb(tokens, least, first)
    }
}

/// A term at this place, of at most this height.
pub fn term<'a>(
    arena: &'a Bump,
    tokens: &mut Cursor<'a, '_>,
    highest: u32,
    least: u8,
) -> TermRead<'a>
    requires { highest ≤ 1000 }
    ensures value { Gives (read_term highest least tokens.old) result tokens.new }
    ensures low { IfOk result (λ x. x.height ≤ highest) }
{
    if highest == 0 {
        return Err(too_deep(tokens.span()));
    }
    Grammar {
        arena,
        below: highest - 1,
        read: term,
    }
    .whole(tokens, least)
}

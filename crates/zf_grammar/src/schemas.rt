//! The rules of schema expressions.
ghost use Rattle.std.specs.Prelude.{◌+◌, ◌≤◌, IfOk};
ghost use Rattle.zf_grammar.specs.BoxReading as spec;
ghost use Rattle.zf_grammar.specs.{Gives, read_schema, SchemaNests};

use crate::cursor::Cursor;
use crate::decls::{decls, predicates, reference};
use crate::tall::{Read, Tall, too_deep};
use bumpalo::Bump;
use zf_data::arena::Boxed;
use zf_scan::{Mark, Next};
use zf_tree::{SchemaExp, Span};

/// A schema text after its opening bracket, with parts up to the height `below`.
#[tactic(auto, unfolding(crate::specs::BoxReading::schema_text))]
fn text<'a>(
    arena: &'a Bump,
    tokens: &mut Cursor<'a, '_>,
    begin: Span,
    below: u32,
) -> Read<SchemaExp<'a>>
    requires { below ≤ 999 }
    ensures value { Gives (spec.schema_text begin below tokens.old) result tokens.new }
    ensures low { IfOk result (λ x. x.height ≤ below + 1) }
{
    let decls = decls(arena, tokens, below)?;
    let predicates = predicates(arena, tokens, below, Mark::Bar)?;
    let end = tokens.expect(Mark::CloseSquare)?;
    Ok(Tall {
        part: SchemaExp::Text(begin.to(end), decls.part, predicates.part),
        height: decls.height.max(predicates.height) + 1,
    })
}

/// What the rules are given: how schema expressions that stand one level deeper are read, up to the height `below`.
#[derive(Clone, Copy)]
struct Schemas<'a, F> {
    arena: &'a Bump,
    below: u32,
    read: F,
}

impl<'a, F: Fn(&'a Bump, &mut Cursor<'a, '_>, u32) -> Read<SchemaExp<'a>>> Schemas<'a, F> {
    fn schema(&self, tokens: &mut Cursor<'a, '_>) -> Read<SchemaExp<'a>>
        requires nests { SchemaNests self.now.below (F.pre self.now.read) (F.post self.now.read) }
        ensures value { Gives (read_schema self.now.below tokens.old) result tokens.new }
        ensures low { IfOk result (λ x. x.height ≤ self.now.below) }
    {
        (self.read)(self.arena, tokens, self.below)
    }

    /// A schema expression in brackets, after the opening one.
    #[tactic(auto, unfolding(crate::specs::BoxReading::schema_bracket))]
    fn bracket(&self, tokens: &mut Cursor<'a, '_>, begin: Span) -> Read<SchemaExp<'a>>
        requires nests { SchemaNests self.now.below (F.pre self.now.read) (F.post self.now.read) }
        ensures value { Gives (spec.schema_bracket self.now.below (read_schema self.now.below) begin tokens.old) result tokens.new }
        ensures low { IfOk result (λ x. x.height ≤ self.now.below + 1) }
    {
        let inner = self.schema(tokens)?;
        let end = tokens.expect(Mark::CloseRound)?;
        Ok(Tall {
            part: SchemaExp::Bracket(begin.to(end), Boxed::new(self.arena, inner.part)?),
            height: inner.height + 1,
        })
    }

    /// A reference, a schema text, or a schema expression in brackets.
    #[tactic(auto, unfolding(crate::specs::BoxReading::schema_part))]
    fn part(&self, tokens: &mut Cursor<'a, '_>) -> Read<SchemaExp<'a>>
        requires nests { SchemaNests self.now.below (F.pre self.now.read) (F.post self.now.read) }
        ensures value { Gives (spec.schema_part self.now.below (read_schema self.now.below) tokens.old) result tokens.new }
        ensures low { IfOk result (λ x. x.height ≤ self.now.below + 1) }
    {
        let begin = tokens.span();
        match tokens.peek() {
            Next::OpenSquare => {
                tokens.skip();
                text(self.arena, tokens, begin, self.below)
            }
            Next::OpenRound => {
                tokens.skip();
                self.bracket(tokens, begin)
            }
            _ => {
                let schema = reference(tokens)?;
                Ok(Tall {
                    part: SchemaExp::Ref(begin.to(schema.name.span), schema),
                    height: 1,
                })
            }
        }
    }

    /// Parts joined by `\land`, to the left.
    #[tactic(auto, using(std::proofs::lemmas::Grind::common_steps, crate::proofs::Turns::joined_turn, crate::proofs::Turns::joined_end), unfolding(crate::specs::BoxReading::conjunction))]
    fn conjunction(&self, tokens: &mut Cursor<'a, '_>) -> Read<SchemaExp<'a>>
        requires nests { SchemaNests self.now.below (F.pre self.now.read) (F.post self.now.read) }
        ensures value { Gives (spec.conjunction self.now.below (read_schema self.now.below) tokens.old) result tokens.new }
        ensures low { IfOk result (λ x. x.height ≤ self.now.below + 1) }
    {
        let begin = tokens.span();
        let mut left = self.part(tokens)?;
        for _turn in 0..tokens.left() {
            if !tokens.is_and() {
                return Ok(left);
            }
            tokens.skip();
            let right = self.part(tokens)?;
            let height = left.height.max(right.height) + 1;
            if height > self.below + 1 {
                return Err(too_deep(begin));
            }
            let span = left.part.span().to(right.part.span());
            let first = Boxed::new(self.arena, left.part)?;
            let second = Boxed::new(self.arena, right.part)?;
            left = Tall {
                part: SchemaExp::Both(span, first, second),
                height,
            };
        }
        Ok(left)
    }

    /// Conjunctions joined by `\lor`, to the left.
    #[tactic(auto, using(std::proofs::lemmas::Grind::common_steps, crate::proofs::Turns::joined_turn, crate::proofs::Turns::joined_end), unfolding(crate::specs::BoxReading::disjunction))]
    fn disjunction(&self, tokens: &mut Cursor<'a, '_>) -> Read<SchemaExp<'a>>
        requires nests { SchemaNests self.now.below (F.pre self.now.read) (F.post self.now.read) }
        ensures value { Gives (spec.disjunction self.now.below (read_schema self.now.below) tokens.old) result tokens.new }
        ensures low { IfOk result (λ x. x.height ≤ self.now.below + 1) }
    {
        let begin = tokens.span();
        let mut left = self.conjunction(tokens)?;
        for _turn in 0..tokens.left() {
            if !tokens.is_or() {
                return Ok(left);
            }
            tokens.skip();
            let right = self.conjunction(tokens)?;
            let height = left.height.max(right.height) + 1;
            if height > self.below + 1 {
                return Err(too_deep(begin));
            }
            let span = left.part.span().to(right.part.span());
            let first = Boxed::new(self.arena, left.part)?;
            let second = Boxed::new(self.arena, right.part)?;
            left = Tall {
                part: SchemaExp::Or(span, first, second),
                height,
            };
        }
        Ok(left)
    }
}

/// A schema expression of at most this height.
pub fn schema<'a>(arena: &'a Bump, tokens: &mut Cursor<'a, '_>, highest: u32) -> Read<SchemaExp<'a>>
    requires { highest ≤ 1000 }
    ensures value { Gives (read_schema highest tokens.old) result tokens.new }
    ensures low { IfOk result (λ x. x.height ≤ highest) }
{
    if highest == 0 {
        return Err(too_deep(tokens.span()));
    }
    Schemas {
        arena,
        below: highest - 1,
        read: schema,
    }
    .disjunction(tokens)
}

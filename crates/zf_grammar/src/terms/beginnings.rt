//! What begins a term.
ghost use Rattle.std.specs.Prelude.{◌+◌, ◌≤◌, IfOk};
ghost use Rattle.zf_grammar.specs.Nests.{Nests};
ghost use Rattle.zf_grammar.specs.TermReading as spec;
ghost use Rattle.zf_grammar.specs.{Gives, here, read_term};
ghost use Rattle.zf_grammar.specs.Prelude.{nowhere};
ghost use Rattle.zf_scan.specs.declared.next.Next.TheVariants as next;

use super::Grammar;
use crate::cursor::Cursor;
use crate::tall::{TallTerm, TermRead, boxed};
use bumpalo::Bump;
use zf_data::arena::Boxed;
use zf_levels::{EXPRESSION, QUANTIFIER, level, unary_level};
use zf_scan::{Mark, Next, TextFault};
use zf_tree::{Constant, Infix, Listed, Quantifier, Sign, Span, Term, Unary};

impl<'a, F: Fn(&'a Bump, &mut Cursor<'a, '_>, u32, u8) -> TermRead<'a>> Grammar<'a, F> {
    fn name(&self, tokens: &mut Cursor<'a, '_>) -> TermRead<'a>
        ensures value { Gives (spec.beginning_by (read_term self.now.below) 0 nowhere next.Name tokens.old) result tokens.new }
        ensures low { IfOk result (λ x. x.height ≤ self.now.below + 1) }
    {
        let name = tokens.name()?;
        boxed(self.arena, Term::Name(name.span, name.ident()), 1)
    }

    fn number(&self, tokens: &mut Cursor<'a, '_>, begin: Span) -> TermRead<'a>
        ensures value { Gives (spec.beginning_by (read_term self.now.below) 0 begin next.Number tokens.old) result tokens.new }
        ensures low { IfOk result (λ x. x.height ≤ self.now.below + 1) }
    {
        let number = tokens.number()?;
        boxed(self.arena, Term::Number(begin, number), 1)
    }

    fn constant(&self, tokens: &mut Cursor<'a, '_>, begin: Span, constant: Constant) -> TermRead<'a>
        ensures value { Gives (spec.beginning_by (read_term self.now.below) 0 begin (next.Constant constant) tokens.old) result tokens.new }
        ensures low { IfOk result (λ x. x.height ≤ self.now.below + 1) }
    {
        tokens.skip();
        boxed(self.arena, Term::Constant(begin, constant), 1)
    }

    /// After `\emptyset`.
    #[tactic(auto, unfolding(crate::specs::TermReading::empty_set))]
    fn empty_set(&self, tokens: &mut Cursor<'a, '_>, begin: Span) -> TermRead<'a>
        requires nests { Nests self.now.below (F.pre self.now.read) (F.post self.now.read) }
        ensures value { Gives (spec.empty_set (read_term self.now.below) begin tokens.old) result tokens.new }
        ensures low { IfOk result (λ x. x.height ≤ self.now.below + 1) }
    {
        if !tokens.is_at(Mark::OpenSquare) {
            return Err(TextFault::not_in_profile(begin));
        }
        tokens.skip();
        let set = self.term(tokens, EXPRESSION)?;
        let end = tokens.expect(Mark::CloseSquare)?;
        boxed(
            self.arena,
            Term::EmptySet(begin.to(end), set.part),
            set.height + 1,
        )
    }

    /// After `(` and a term that a comma follows.
    fn tuple(&self, tokens: &mut Cursor<'a, '_>, begin: Span, first: TallTerm<'a>) -> TermRead<'a>
        requires nests { Nests self.now.below (F.pre self.now.read) (F.post self.now.read) }
        requires first_low { first.height ≤ self.now.below }
        ensures value { Gives (spec.round_by (read_term self.now.below) begin first.entry next.Comma tokens.old) result tokens.new }
        ensures low { IfOk result (λ x. x.height ≤ self.now.below + 1) }
    {
        if level(first.part.get()) < EXPRESSION {
            return Err(tokens.unexpected());
        }
        self.listed(tokens, begin, Listed::Tuple, first)
    }

    /// After `(`.
    #[tactic(auto, unfolding(crate::specs::TermReading::round))]
    fn round(&self, tokens: &mut Cursor<'a, '_>, begin: Span) -> TermRead<'a>
        requires nests { Nests self.now.below (F.pre self.now.read) (F.post self.now.read) }
        ensures value { Gives (spec.round (read_term self.now.below) begin tokens.old) result tokens.new }
        ensures low { IfOk result (λ x. x.height ≤ self.now.below + 1) }
    {
        let inner = self.term(tokens, QUANTIFIER)?;
        match tokens.peek() {
            Next::CloseRound => {
                let end = tokens.span();
                tokens.skip();
                boxed(
                    self.arena,
                    Term::Bracket(begin.to(end), inner.part),
                    inner.height + 1,
                )
            }
            Next::Comma => self.tuple(tokens, begin, inner),
            _ => Err(tokens.unexpected()),
        }
    }

    /// After `\{`, where no declaration begins.
    #[tactic(auto, unfolding(crate::specs::TermReading::display))]
    fn display(&self, tokens: &mut Cursor<'a, '_>, begin: Span) -> TermRead<'a>
        requires nests { Nests self.now.below (F.pre self.now.read) (F.post self.now.read) }
        ensures value { Gives (spec.display (read_term self.now.below) begin tokens.old) result tokens.new }
        ensures low { IfOk result (λ x. x.height ≤ self.now.below + 1) }
    {
        if tokens.is_at(Mark::CloseBrace) {
            return Err(TextFault::not_in_profile(begin));
        }
        let first = self.term(tokens, EXPRESSION)?;
        self.listed(tokens, begin, Listed::Display, first)
    }

    /// After `\{`, where a declaration begins.
    #[tactic(auto, unfolding(crate::specs::TermReading::comprehension))]
    fn comprehension(&self, tokens: &mut Cursor<'a, '_>, begin: Span) -> TermRead<'a>
        requires nests { Nests self.now.below (F.pre self.now.read) (F.post self.now.read) }
        ensures value { Gives (spec.comprehension (read_term self.now.below) begin tokens.old) result tokens.new }
        ensures low { IfOk result (λ x. x.height ≤ self.now.below + 1) }
    {
        let decls = self.decls(tokens)?;
        let bound = Boxed::new(self.arena, decls.part)?;
        let filter = self.part(tokens, Mark::Bar, QUANTIFIER)?;
        let value = self.part(tokens, Mark::At, EXPRESSION)?;
        let end = tokens.expect(Mark::CloseBrace)?;
        boxed(
            self.arena,
            Term::Comprehension(begin.to(end), bound, filter.part, value.part),
            decls.height.max(filter.height).max(value.height) + 1,
        )
    }

    /// After `\{`.
    #[tactic(auto, unfolding(crate::specs::TermReading::braced))]
    fn braced(&self, tokens: &mut Cursor<'a, '_>, begin: Span) -> TermRead<'a>
        requires nests { Nests self.now.below (F.pre self.now.read) (F.post self.now.read) }
        ensures value { Gives (spec.braced (read_term self.now.below) begin tokens.old) result tokens.new }
        ensures low { IfOk result (λ x. x.height ≤ self.now.below + 1) }
    {
        if tokens.begins_decl() {
            self.comprehension(tokens, begin)
        } else {
            self.display(tokens, begin)
        }
    }

    /// What the next symbol stands before.
    #[tactic(auto, unfolding(crate::specs::TermReading::prefixed))]
    fn prefixed(&self, tokens: &mut Cursor<'a, '_>, least: u8, op: Unary) -> TermRead<'a>
        requires nests { Nests self.now.below (F.pre self.now.read) (F.post self.now.read) }
        ensures value { Gives (spec.prefixed (read_term self.now.below) least (here tokens.old) op tokens.old) result tokens.new }
        ensures low { IfOk result (λ x. x.height ≤ self.now.below + 1) }
    {
        let begin = tokens.span();
        let place = unary_level(op);
        if place < least {
            return Err(tokens.unexpected());
        }
        tokens.skip();
        let operand = self.term(tokens, place)?;
        let end = operand.part.get().span();
        boxed(
            self.arena,
            Term::Unary(begin.to(end), op, operand.part),
            operand.height + 1,
        )
    }

    /// After the quantifier.
    #[tactic(auto, unfolding(crate::specs::TermReading::quantified))]
    fn quantified(
        &self,
        tokens: &mut Cursor<'a, '_>,
        begin: Span,
        quantifier: Quantifier,
    ) -> TermRead<'a>
        requires nests { Nests self.now.below (F.pre self.now.read) (F.post self.now.read) }
        ensures value { Gives (spec.quantified (read_term self.now.below) begin quantifier tokens.old) result tokens.new }
        ensures low { IfOk result (λ x. x.height ≤ self.now.below + 1) }
    {
        let decls = self.decls(tokens)?;
        let bound = Boxed::new(self.arena, decls.part)?;
        let constraint = self.part(tokens, Mark::Bar, QUANTIFIER)?;
        tokens.expect(Mark::At)?;
        let body = self.term(tokens, QUANTIFIER)?;
        let span = begin.to(body.part.get().span());
        boxed(
            self.arena,
            Term::Quantified(quantifier, span, bound, constraint.part, body.part),
            decls.height.max(constraint.height).max(body.height) + 1,
        )
    }

    /// What stands first in a term at this place.
    #[tactic(auto, unfolding(crate::specs::TermReading::beginning))]
    pub(super) fn beginning(&self, tokens: &mut Cursor<'a, '_>, least: u8) -> TermRead<'a>
        requires nests { Nests self.now.below (F.pre self.now.read) (F.post self.now.read) }
        ensures value { Gives (spec.beginning (read_term self.now.below) least tokens.old) result tokens.new }
        ensures low { IfOk result (λ x. x.height ≤ self.now.below + 1) }
    {
        let begin = tokens.span();
        match tokens.peek() {
            Next::Name => self.name(tokens),
            Next::Number => self.number(tokens, begin),
            Next::Constant(constant) => self.constant(tokens, begin, constant),
            Next::EmptySet => {
                tokens.skip();
                self.empty_set(tokens, begin)
            }
            Next::OpenRound => {
                tokens.skip();
                self.round(tokens, begin)
            }
            Next::OpenBrace => {
                tokens.skip();
                self.braced(tokens, begin)
            }
            Next::Prefix(prefix) => {
                self.prefixed(tokens, least, Unary::Sign(Sign::Symbol(prefix)))
            }
            Next::Infix(Infix::Minus) => self.prefixed(tokens, least, Unary::Sign(Sign::Minus)),
            Next::Not => self.prefixed(tokens, least, Unary::Not),
            Next::Quantifier(quantifier) if least <= QUANTIFIER => {
                tokens.skip();
                self.quantified(tokens, begin, quantifier)
            }
            _ => Err(tokens.unexpected()),
        }
    }
}

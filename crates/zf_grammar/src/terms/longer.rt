//! What goes on with a term.
ghost use Rattle.std.specs.Prelude.{◌≡◌, ◌+◌, ◌≤◌, IfOk};
ghost use Rattle.zf_grammar.specs.Prelude.{span_of, tree_of};
ghost use Rattle.zf_grammar.specs.Nests.{Nests};
ghost use Rattle.zf_grammar.specs.TermReading as spec;
ghost use Rattle.zf_grammar.specs.{Gives, read_term};
ghost use Rattle.zf_grammar.specs.declared.role.Role.TheVariants as role;

use super::Grammar;
use super::parts::last_link;
use crate::cursor::Cursor;
use crate::role::Role;
use crate::tall::{TallTerm, TermRead, boxed};
use bumpalo::Bump;
use zf_data::arena::Boxed;
use zf_levels::right_place;
use zf_tree::{Listed, Operator, Span, Term, Unary};

impl<'a, F: Fn(&'a Bump, &mut Cursor<'a, '_>, u32, u8) -> TermRead<'a>> Grammar<'a, F> {
    /// The term and what stands to the right of the operator.
    #[tactic(auto, unfolding(crate::specs::TermReading::binary))]
    fn binary(
        &self,
        tokens: &mut Cursor<'a, '_>,
        begin: Span,
        op: Operator,
        left: TallTerm<'a>,
    ) -> TermRead<'a>
        requires nests { Nests self.now.below (F.pre self.now.read) (F.post self.now.read) }
        requires at { begin ≡ span_of (tree_of left.part) }
        requires left_low { left.height ≤ self.now.below + 1 }
        ensures value { Gives (spec.binary (read_term self.now.below) op left.entry tokens.old) result tokens.new }
        ensures low { IfOk result (λ x. x.height ≤ self.now.below + 2) }
    {
        tokens.go_beyond(op);
        let right = self.term(tokens, right_place(op))?;
        let end = tokens.end(op, right.part.get().span())?;
        boxed(
            self.arena,
            Term::Binary(begin.to(end), op, left.part, right.part),
            left.height.max(right.height) + 1,
        )
    }

    fn inverse(&self, tokens: &mut Cursor<'a, '_>, begin: Span, left: TallTerm<'a>) -> TermRead<'a>
        requires at { begin ≡ span_of (tree_of left.part) }
        requires left_low { left.height ≤ 1000 }
        ensures value { Gives (spec.longer_by (read_term self.now.below) left.entry role.Inverse tokens.old) result tokens.new }
        ensures low { IfOk result (λ x. x.height ≤ left.entry.height + 1) }
    {
        let end = tokens.span();
        tokens.skip();
        boxed(
            self.arena,
            Term::Unary(begin.to(end), Unary::Inverse, left.part),
            left.height + 1,
        )
    }

    #[tactic(auto, unfolding(crate::specs::TermReading::chained))]
    fn chained(&self, tokens: &mut Cursor<'a, '_>, begin: Span, left: TallTerm<'a>) -> TermRead<'a>
        requires nests { Nests self.now.below (F.pre self.now.read) (F.post self.now.read) }
        requires at { begin ≡ span_of (tree_of left.part) }
        requires left_low { left.height ≤ self.now.below + 1 }
        ensures value { Gives (spec.chained (read_term self.now.below) left.entry tokens.old) result tokens.new }
        ensures low { IfOk result (λ x. x.height ≤ self.now.below + 2) }
    {
        let links = self.chain_links(tokens)?;
        let end = last_link(begin, links.part.as_slice());
        let further = Boxed::new(self.arena, links.part)?;
        boxed(
            self.arena,
            Term::Chain(begin.to(end), left.part, further),
            left.height.max(links.height) + 1,
        )
    }

    /// The term with what the next symbol adds to it.
    pub(super) fn longer(
        &self,
        tokens: &mut Cursor<'a, '_>,
        left: TallTerm<'a>,
        role: Role,
    ) -> TermRead<'a>
        requires nests { Nests self.now.below (F.pre self.now.read) (F.post self.now.read) }
        requires left_low { left.height ≤ self.now.below + 1 }
        ensures value { Gives (spec.longer_by (read_term self.now.below) left.entry role tokens.old) result tokens.new }
        ensures low { IfOk result (λ x. x.height ≤ self.now.below + 2) }
    {
        let begin = left.part.get().span();
        match role {
            Role::Ends => Ok(left),
            Role::Operator(op) => self.binary(tokens, begin, op, left),
            Role::Relation => self.chained(tokens, begin, left),
            Role::Cross => self.listed(tokens, begin, Listed::Product, left),
            Role::Inverse => self.inverse(tokens, begin, left),
        }
    }
}

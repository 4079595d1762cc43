//! Lists of parts of a term, and parts that may be left out.
ghost use Rattle.std.specs.Prelude.{◌≡◌, ◌+◌, ◌≤◌, map, max, IfOk};
ghost use Rattle.zf_grammar.specs.Prelude.{link_of, links as tree_links, tree_of, trees};
ghost use Rattle.zf_grammar.specs.Nests.{Nests};
ghost use Rattle.zf_grammar.specs.Spelling as spelling;
ghost use Rattle.zf_grammar.specs.TermReading as spec;
ghost use Rattle.zf_grammar.specs.{Gives, read_term};

use super::Grammar;
use crate::cursor::Cursor;
use crate::names::names;
use crate::tall::{Read, Tall, TallTerm, TermRead, boxed};
use bumpalo::Bump;
use zf_data::arena::{Boxed, Items};
use zf_levels::{EXPRESSION, member_place};
use zf_scan::{Mark, Next};
use zf_tree::{Link, Listed, Part, Span, Term, VarDecl};

/// What stands between two terms of a list.
fn parted_by(form: Listed) -> Mark
    ensures { result ≡ spec.parted_by form }
{
    match form {
        Listed::Tuple | Listed::Display => Mark::Comma,
        Listed::Product => Mark::Cross,
    }
}

/// The last of the terms, or, without any, this part.
fn last_tree(begin: Span, terms: &[Boxed<'_, Term<'_>>]) -> Span
    ensures { result ≡ spelling.last_tree begin (trees (map tree_of terms.now)) }
{
    match terms {
        [] => begin,
        [.., last] => last.get().span(),
    }
}

/// The last operand of the links, or, without any, this part.
pub(super) fn last_link(begin: Span, links: &[Link<'_>]) -> Span
    ensures { result ≡ spelling.last_link begin (tree_links (map link_of links.now)) }
{
    match links {
        [] => begin,
        [.., last] => last.right.get().span(),
    }
}

impl<'a, F: Fn(&'a Bump, &mut Cursor<'a, '_>, u32, u8) -> TermRead<'a>> Grammar<'a, F> {
    /// The term, and further ones at this place, each after the symbol.
    #[tactic(auto, using(std::proofs::lemmas::Grind::common_steps, crate::proofs::Turns::items_turn, crate::proofs::Turns::items_end), unfolding(crate::specs::TermReading::further))]
    pub(super) fn further(
        &self,
        tokens: &mut Cursor<'a, '_>,
        mark: Mark,
        place: u8,
        first: TallTerm<'a>,
    ) -> Read<Items<'a, Boxed<'a, Term<'a>>>>
        requires nests { Nests self.now.below (F.pre self.now.read) (F.post self.now.read) }
        ensures value { Gives (spec.further (read_term self.now.below) mark place first.entry tokens.old) result tokens.new }
        ensures low { IfOk result (λ x. x.height ≤ max first.entry.height self.now.below) }
    {
        let mut terms = Items::of(self.arena, first.part)?;
        let mut height = first.height;
        for _turn in 0..tokens.left() {
            if !tokens.is_at(mark) {
                return Ok(Tall {
                    part: terms,
                    height,
                });
            }
            tokens.skip();
            let next = self.term(tokens, place)?;
            terms.push(next.part)?;
            height = height.max(next.height);
        }
        Ok(Tall {
            part: terms,
            height,
        })
    }

    /// The terms of a list, of which the first is given, and what stands after them.
    #[tactic(auto, unfolding(crate::specs::TermReading::listed))]
    pub(super) fn listed(
        &self,
        tokens: &mut Cursor<'a, '_>,
        begin: Span,
        form: Listed,
        first: TallTerm<'a>,
    ) -> TermRead<'a>
        requires nests { Nests self.now.below (F.pre self.now.read) (F.post self.now.read) }
        requires first_low { first.height ≤ self.now.below + 1 }
        ensures value { Gives (spec.listed (read_term self.now.below) begin form first.entry tokens.old) result tokens.new }
        ensures low { IfOk result (λ x. x.height ≤ max first.entry.height self.now.below + 1) }
    {
        let all = self.further(tokens, parted_by(form), member_place(form), first)?;
        let last = last_tree(begin, all.part.as_slice());
        let end = tokens.close(form, last)?;
        let terms = Boxed::new(self.arena, all.part)?;
        boxed(
            self.arena,
            Term::Listed(begin.to(end), form, terms),
            all.height + 1,
        )
    }

    /// The links of a chain.
    #[tactic(auto, using(std::proofs::lemmas::Grind::common_steps, crate::proofs::Turns::links_turn, crate::proofs::Turns::links_end), unfolding(crate::specs::TermReading::chain_links))]
    pub(super) fn chain_links(&self, tokens: &mut Cursor<'a, '_>) -> Read<Items<'a, Link<'a>>>
        requires nests { Nests self.now.below (F.pre self.now.read) (F.post self.now.read) }
        ensures value { Gives (spec.chain_links (read_term self.now.below) tokens.old) result tokens.new }
        ensures low { IfOk result (λ x. x.height ≤ self.now.below) }
    {
        let mut links = Items::new(self.arena);
        let mut height = 0;
        for _turn in 0..tokens.left() {
            let Next::Relation(relation) = tokens.peek() else {
                return Ok(Tall {
                    part: links,
                    height,
                });
            };
            tokens.skip();
            let right = self.term(tokens, EXPRESSION)?;
            links.push(Link {
                relation,
                right: right.part,
            })?;
            height = height.max(right.height);
        }
        Ok(Tall {
            part: links,
            height,
        })
    }

    /// A declaration of bound variables.
    #[tactic(auto, unfolding(crate::specs::TermReading::read_decl))]
    fn decl(&self, tokens: &mut Cursor<'a, '_>) -> Read<VarDecl<'a>>
        requires nests { Nests self.now.below (F.pre self.now.read) (F.post self.now.read) }
        ensures value { Gives (spec.read_decl (read_term self.now.below) tokens.old) result tokens.new }
        ensures low { IfOk result (λ x. x.height ≤ self.now.below) }
    {
        let names = names(self.arena, tokens)?;
        tokens.expect(Mark::Colon)?;
        let set = self.term(tokens, EXPRESSION)?;
        Ok(Tall {
            part: VarDecl {
                names,
                set: set.part,
            },
            height: set.height,
        })
    }

    /// One or more declarations, parted by separators.
    #[tactic(auto, using(std::proofs::lemmas::Grind::common_steps, crate::proofs::Turns::items_turn, crate::proofs::Turns::items_end), unfolding(crate::specs::TermReading::items))]
    pub(super) fn decls(&self, tokens: &mut Cursor<'a, '_>) -> Read<Items<'a, VarDecl<'a>>>
        requires nests { Nests self.now.below (F.pre self.now.read) (F.post self.now.read) }
        ensures value { Gives (spec.decls (read_term self.now.below) tokens.old) result tokens.new }
        ensures low { IfOk result (λ x. x.height ≤ self.now.below) }
    {
        let first = self.decl(tokens)?;
        let mut decls = Items::of(self.arena, first.part)?;
        let mut height = first.height;
        for _turn in 0..tokens.left() {
            if !tokens.is_at(Mark::Separator) {
                return Ok(Tall {
                    part: decls,
                    height,
                });
            }
            tokens.skip();
            let next = self.decl(tokens)?;
            decls.push(next.part)?;
            height = height.max(next.height);
        }
        Ok(Tall {
            part: decls,
            height,
        })
    }

    /// A part that may be left out, after its symbol.
    #[tactic(auto, unfolding(crate::specs::TermReading::part))]
    pub(super) fn part(&self, tokens: &mut Cursor<'a, '_>, mark: Mark, place: u8) -> Read<Part<'a>>
        requires nests { Nests self.now.below (F.pre self.now.read) (F.post self.now.read) }
        ensures value { Gives (spec.part (read_term self.now.below) mark place tokens.old) result tokens.new }
        ensures low { IfOk result (λ x. x.height ≤ self.now.below) }
    {
        if !tokens.is_at(mark) {
            return Ok(Tall {
                part: Boxed::new(self.arena, None)?,
                height: 0,
            });
        }
        tokens.skip();
        let term = self.term(tokens, place)?;
        Ok(Tall {
            part: Boxed::new(self.arena, Some(term.part))?,
            height: term.height,
        })
    }
}

//! Chains of relations.
ghost use Rattle.std.specs.Prelude.{◌≡◌, IfOk, IfErr, OnOk, map};
ghost use Rattle.zf_typing.specs.Prelude.{left_need, link_of, right_need, Tree, tree_of, resolved_link_of, Disagreement, IfFault, Meets, sort_of, Takes};
ghost use Rattle.zf_term.specs.Faults as fault;
ghost use Rattle.zf_tree.specs.Trees as tree;
ghost use Rattle.zf_tree.specs.TreeViews as tree_views;
ghost use Rattle.zf_term.specs.ResolvedViews as kept;
ghost use Rattle.zf_typing.specs.{IsChain, IsOf, Judges, LinksAreTyped, LinksOffend, resolved_links, scope_of};
ghost use Rattle.zf_sorts.specs.Rules as rules;

use super::{Judged, Place, judge_boxed, judge_term, placed};
use crate::scope::Scope;
use bumpalo::Bump;
use zf_data::arena::{Boxed, Items};
use zf_sorts::{Refusal, Sort, combine, disagreeing, misplaced};
use zf_term::{Resolved, ResolvedLink};
use zf_tree::{Link, Need, Rule, Span, Term, relation_rule};

/// The operand to the left of a link: what it is, and where it stands.
#[derive(Drop)]
struct Operand<'a> {
    sort: Sort<'a>,
    span: Span,
}

/// A chain of relations.
#[cycle(judging)]
#[tactic(auto, using(crate::proofs::Judging::from_memory))]
#[inline(never)]
pub(super) fn chain<'a>(
    term: &Term<'a>,
    arena: &'a Bump,
    need: Need,
    scope: &mut Scope<'a, '_>,
) -> Result<Judged<'a>, Refusal<'a>>
    requires { IsChain term.now }
    ensures judged { Judges (scope_of scope.old) need (tree_of term.now) result }
    ensures scope { scope_of scope.new ≡ scope_of scope.old }
{
    let Term::Chain(span, first, links) = term else {
        unreachable!();
    };
    let span = *span;
    let Judged { term, sort } = judge_term(first.get(), arena, Need::Expression, scope)?;
    let left = Operand {
        sort,
        span: first.get().span(),
    };
    let links = judge_links(links.as_slice(), arena, left, first.get(), scope)?;
    let first = Boxed::new(arena, term)?;
    let further = Boxed::new(arena, links)?;
    placed(
        arena,
        Place { need, span },
        Sort::Predicate,
        Resolved::Chain(span, first, further),
    )
}

#[cycle(judging)]
fn judge_links<'a>(
    links: &[Link<'a>],
    arena: &'a Bump,
    first: Operand<'a>,
    operand: &Term<'a>,
    scope: &mut Scope<'a, '_>,
) -> Result<Items<'a, ResolvedLink<'a>>, Refusal<'a>>
    ensures ok { OnOk result (LinksAreTyped (scope_of scope.old) (sort_of first.entry.sort) (tree_views.links (map link_of links.now))) }
    ensures resolved { IfOk result (λ ks. kept.links (map resolved_link_of ks) ≡ resolved_links (scope_of scope.old) (tree_views.links (map link_of links.now))) }
    ensures wrong { (a : Tree) → IsOf (scope_of scope.old) a (sort_of first.entry.sort) → first.entry.span ≡ tree.span_of a → IfErr result (λ e. IfFault e (λ offence span. LinksOffend (scope_of scope.old) a (tree_views.links (map link_of links.now)) offence span)) }
    ensures scope { scope_of scope.new ≡ scope_of scope.old }
{
    let mut left = first;
    let mut operand = operand;
    let mut resolved = Items::with_room(arena, links.len())?;
    for link in links {
        let rule = relation_rule(link.relation);
        check_left(arena, &left, operand, rule.left_need())?;
        let Judged { term, sort } = judge_boxed(&link.right, arena, rule.right_need(), scope)?;
        let span = link.right.get().span();
        relate(arena, rule, &left.sort, &sort, span)?;
        resolved.push(ResolvedLink {
            relation: link.relation,
            right: term,
        })?;
        left = Operand { sort, span };
        operand = link.right.get();
    }
    Ok(resolved)
}

/// A place of this need takes the operand; else a fault quotes its term.
fn check_left<'a>(
    arena: &'a Bump,
    left: &Operand<'a>,
    term: &Term<'a>,
    need: Need,
) -> Result<(), Refusal<'a>>
    ensures ok { OnOk result (Meets need (sort_of left.now.sort)) }
    ensures wrong { IfErr result (λ e. IfFault e (λ offence span. (Meets need (sort_of left.now.sort) → ⊥) × (offence ≡ fault.misplaced need (sort_of left.now.sort)) × (span ≡ left.now.span))) }
{
    if left.sort.meets(need) {
        return Ok(());
    }
    let refusal = misplaced(arena, need, &left.sort, left.span);
    Err(refusal.quoting(arena, term))
}

/// The rule takes both operands; the span is that of the right one.
#[tactic(auto, unfolding(zf_sorts::specs::RuleViews::IsMade))]
fn relate<'a>(
    arena: &'a Bump,
    rule: Rule,
    left: &Sort<'a>,
    right: &Sort<'a>,
    span: Span,
) -> Result<(), Refusal<'a>>
    requires left { Meets (left_need rule) (sort_of left.now) }
    requires right { Meets (right_need rule) (sort_of right.now) }
    ensures ok { OnOk result ((z : rules.Sort) × Takes rule (sort_of left.now) (sort_of right.now) z) }
    ensures wrong { IfErr result (λ e. IfFault e (λ offence m. ((z : rules.Sort) → Takes rule (sort_of left.now) (sort_of right.now) z → ⊥) × Disagreement rule (sort_of left.now) (sort_of right.now) offence × (m ≡ span))) }
{
    match combine(arena, rule, left, right)? {
        Some(_) => Ok(()),
        None => Err(disagreeing(arena, rule, left, right, span)),
    }
}

//! Symbols that stand before a term or between two, and their rules.
ghost use Rattle.std.specs.Prelude.{◌≡◌};
ghost use Rattle.zf_typing.specs.Prelude.{left_need, span_of, need_of, right_need, rule_of, Tree, tree_of, Meets, sort_of};
ghost use Rattle.zf_tree.specs.Trees as tree;
ghost use Rattle.zf_typing.specs.{IsBinary, IsJudged, Judges, scope_of};
ghost use Rattle.zf_typing.specs.Scopes as spec;

use super::{Judged, Place, judge_term, made};
use crate::scope::Scope;
use bumpalo::Bump;
use zf_data::arena::Boxed;
use zf_sorts::{Refusal, apply, combine, disagreeing};
use zf_term::Resolved;
use zf_tree::{Need, Operator, Span, Term, Unary};

#[cycle(judging)]
#[inline(never)]
pub(super) fn unary<'a>(
    operand: &Term<'a>,
    arena: &'a Bump,
    place: Place,
    op: Unary,
    scope: &mut Scope<'a, '_>,
) -> Result<Judged<'a>, Refusal<'a>>
    ensures judged { Judges (scope_of scope.old) place.need (tree.unary place.span op (tree_of operand.now)) result }
    ensures scope { scope_of scope.new ≡ scope_of scope.old }
{
    let operand = judge_term(operand, arena, op.need(), scope)?;
    with_operand(arena, place, op, operand)
}

/// The rule of a symbol that is applied to one term.
#[tactic(auto, using(crate::proofs::Judging::from_memory))]
fn with_operand<'a>(
    arena: &'a Bump,
    place: Place,
    op: Unary,
    operand: Judged<'a>,
) -> Result<Judged<'a>, Refusal<'a>>
    requires { Meets (need_of op) (sort_of operand.sort) }
    ensures { (s : spec.Scope) (e : Tree) → IsJudged s (need_of op) e operand.entry → Judges s place.need (tree.unary place.span op e) result }
{
    let Some(sort) = apply(arena, op, &operand.sort)? else {
        unreachable!();
    };
    let term = Resolved::Unary(place.span, op, Boxed::new(arena, operand.term)?);
    made(arena, place, sort, term)
}

/// What two terms make.
#[cycle(judging)]
#[inline(never)]
pub(super) fn binary<'a>(
    term: &Term<'a>,
    arena: &'a Bump,
    need: Need,
    scope: &mut Scope<'a, '_>,
) -> Result<Judged<'a>, Refusal<'a>>
    requires { IsBinary term.now }
    ensures judged { Judges (scope_of scope.old) need (tree_of term.now) result }
    ensures scope { scope_of scope.new ≡ scope_of scope.old }
{
    let Term::Binary(span, op, left, right) = term else {
        unreachable!();
    };
    let span = *span;
    let rule = op.rule();
    let left = left.get();
    let right = right.get();
    let of_left = judge_term(left, arena, rule.left_need(), scope)?;
    let of_right = judge_term(right, arena, rule.right_need(), scope)?;
    with_operands(
        arena,
        Place { need, span },
        *op,
        of_left,
        of_right,
        right.span(),
    )
}

/// The rule of a symbol that stands between two terms, with the span of the right one.
#[tactic(auto, using(crate::proofs::Judging::from_memory))]
fn with_operands<'a>(
    arena: &'a Bump,
    place: Place,
    op: Operator,
    left: Judged<'a>,
    right: Judged<'a>,
    span: Span,
) -> Result<Judged<'a>, Refusal<'a>>
    requires left { Meets (left_need (rule_of op)) (sort_of left.sort) }
    requires right { Meets (right_need (rule_of op)) (sort_of right.sort) }
    ensures { (s : spec.Scope) (a b : Tree) → IsJudged s (left_need (rule_of op)) a left.entry → IsJudged s (right_need (rule_of op)) b right.entry → span ≡ span_of b → Judges s place.need (tree.binary place.span op a b) result }
{
    let rule = op.rule();
    let Some(sort) = combine(arena, rule, &left.sort, &right.sort)? else {
        return Err(disagreeing(arena, rule, &left.sort, &right.sort, span));
    };
    let left = Boxed::new(arena, left.term)?;
    let right = Boxed::new(arena, right.term)?;
    made(
        arena,
        place,
        sort,
        Resolved::Binary(place.span, op, left, right),
    )
}

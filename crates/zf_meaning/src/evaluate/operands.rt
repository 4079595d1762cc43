//! Symbols with their operands.
ghost use Rattle.std.specs.Prelude.{ℕ, IfOk, map};
ghost use Rattle.zf_meaning.specs.Prelude.{resolved_of, found_outcome, several_of, Span};
ghost use Rattle.zf_term.specs.ResolvedTrees as tree;
ghost use Rattle.zf_term.specs.ResolvedViews as tree_views;
ghost use Rattle.zf_meaning.specs.{HasOutcome, HaveOutcomes, IsBinary, IsTruth, scope_of};

use super::{outcome, truth};
use crate::env::Env;
use crate::row::Row;
use std::alloc::AllocError;
use zf_outcome::connected::{connected, decided, opposite};
use zf_outcome::{Found, Gathered, on_both, on_one, on_several};
use zf_term::Resolved;
use zf_tree::{Listed, Operator, Unary};
use zf_value::{Truth, Value};

/// A symbol before or after a term.
#[cycle(meaning)]
#[inline(never)]
pub(super) fn unary<'v, 'a, R: Row>(
    of: &Resolved<'a>,
    op: Unary,
    row: &'v R,
    locals: &[&'v Value],
    env: &'v Env<'_, 'a>,
) -> Result<Found<'v>, AllocError>
    ensures { (span : Span) → IfOk result (λ o. HasOutcome (scope_of env.now (R.values row.now) locals.now) (tree.unary span op (resolved_of of.now)) (found_outcome o)) }
{
    let operand = outcome(of, row, locals, env)?;
    Ok(Found::own(on_one(env.allocator(), op, &operand)?))
}

/// A symbol between two terms.
#[cycle(meaning)]
#[inline(never)]
pub(super) fn binary<'v, 'a, R: Row>(
    term: &Resolved<'a>,
    row: &'v R,
    locals: &[&'v Value],
    env: &'v Env<'_, 'a>,
) -> Result<Found<'v>, AllocError>
    requires { IsBinary term.now }
    ensures { IfOk result (λ o. HasOutcome (scope_of env.now (R.values row.now) locals.now) (resolved_of term.now) (found_outcome o)) }
{
    let Resolved::Binary(_, op, left, right) = term else {
        unreachable!();
    };
    let left = left.get();
    let right = right.get();
    let x = outcome(left, row, locals, env)?;
    let y = outcome(right, row, locals, env)?;
    Ok(Found::own(on_both(env.allocator(), *op, &x, &y)?))
}

/// What several terms make.
#[cycle(meaning)]
#[inline(never)]
pub(super) fn listed<'v, 'a, R: Row>(
    terms: &[Resolved<'a>],
    form: Listed,
    row: &'v R,
    locals: &[&'v Value],
    env: &'v Env<'_, 'a>,
) -> Result<Found<'v>, AllocError>
    ensures { (span : Span) → IfOk result (λ o. HasOutcome (scope_of env.now (R.values row.now) locals.now) (tree.listed span form (tree_views.terms (map resolved_of terms.now))) (found_outcome o)) }
{
    let gathered = gather(terms, row, locals, env)?;
    Ok(Found::own(on_several(env.allocator(), form, gathered)?))
}

/// The values of the terms.
#[cycle(meaning)]
pub(super) fn gather<'v, 'a, R: Row>(
    terms: &[Resolved<'a>],
    row: &'v R,
    locals: &[&'v Value],
    env: &'v Env<'_, 'a>,
) -> Result<Gathered, AllocError>
    ensures { IfOk result (λ s. HaveOutcomes (scope_of env.now (R.values row.now) locals.now) (tree_views.terms (map resolved_of terms.now)) (several_of s)) }
{
    let alloc = env.allocator();
    let mut gathered = Gathered::with_room(alloc, terms.len())?;
    for term in terms {
        let found = outcome(term, row, locals, env)?;
        gathered.add(alloc, found)?;
    }
    Ok(gathered)
}

/// A symbol before or after a term, as a predicate.
#[cycle(meaning)]
#[inline(never)]
pub(super) fn not<'v, 'a, R: Row>(
    of: &Resolved<'a>,
    op: Unary,
    row: &'v R,
    locals: &[&'v Value],
    env: &'v Env<'_, 'a>,
) -> Result<Truth, AllocError>
    ensures { (span : Span) → IfOk result (IsTruth (scope_of env.now (R.values row.now) locals.now) (tree.unary span op (resolved_of of.now))) }
{
    match op {
        Unary::Not => Ok(opposite(truth(of, row, locals, env)?)),
        Unary::Sign(_) => Ok(Truth::False),
        Unary::Inverse => Ok(Truth::False),
    }
}

/// A symbol between two terms, as a predicate.
#[cycle(meaning)]
#[inline(never)]
pub(super) fn connective<'v, 'a, R: Row>(
    term: &Resolved<'a>,
    row: &'v R,
    locals: &[&'v Value],
    env: &'v Env<'_, 'a>,
) -> Result<Truth, AllocError>
    requires { IsBinary term.now }
    ensures { IfOk result (IsTruth (scope_of env.now (R.values row.now) locals.now) (resolved_of term.now)) }
{
    let Resolved::Binary(_, op, left, right) = term else {
        unreachable!();
    };
    let Operator::Connective(connective) = op else {
        return Ok(Truth::False);
    };
    let left = left.get();
    let right = right.get();
    let p = truth(left, row, locals, env)?;
    if let Some(decided) = decided(*connective, p) {
        return Ok(decided);
    }
    let q = truth(right, row, locals, env)?;
    Ok(connected(*connective, p, q))
}

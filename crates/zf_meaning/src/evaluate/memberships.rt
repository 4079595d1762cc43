//! Sets on the right of a membership, which need not be built.
ghost use Rattle.std.specs.Prelude.{◌≡◌, ◌⊎◌, ℕ, IfOk, IfSome, IsTrue, map};
ghost use Rattle.zf_meaning.specs.Prelude.{Is, Describes, found_outcome, resolved_of, Span};
ghost use Rattle.zf_tree.specs.declared.symbol.Infix.TheVariants as infixes;
ghost use Rattle.zf_tree.specs.declared.symbol.Prefix.TheVariants as prefixes;
ghost use Rattle.zf_tree.specs.declared.operator.Sign.TheVariants as sign;
ghost use Rattle.zf_tree.specs.declared.operator.Operator.TheVariants as operator;
ghost use Rattle.zf_tree.specs.declared.operator.Unary.TheVariants as unaries;
ghost use Rattle.zf_term.specs.ResolvedTrees as tree;
ghost use Rattle.zf_term.specs.ResolvedViews as tree_views;
ghost use Rattle.zf_meaning.specs.{environment_of, HasOutcome, IsBinary, IsConstantOutcome, scope_of};

use super::operands::gather;
use super::outcome;
use crate::env::Env;
use crate::number_set::described_numbers;
use crate::row::Row;
use std::alloc::AllocError;
use zf_outcome::{
    Described, Found, interval_between, on_both, on_one, on_several, power_of, product_of,
};
use zf_term::{Infinite, Resolved};
use zf_tree::{Constant, Infix, Listed, Operator, Prefix, Sign, Unary};
use zf_value::Value;

/// What an expression comes to. A set of a family is described by the values that it is made of.
#[cycle(meaning)]
#[tactic(auto, using(zf_term::proofs::ResolvedSeen::seen))]
pub(crate) fn described<'v, 'a, R: Row>(
    term: &Resolved<'a>,
    row: &'v R,
    locals: &[&'v Value],
    env: &'v Env<'_, 'a>,
) -> Result<Described<'v>, AllocError>
    ensures { IfOk result (Describes (HasOutcome (scope_of env.now (R.values row.now) locals.now) (resolved_of term.now))) }
{
    match term {
        Resolved::Constant(_, constant) => Ok(described_constant(*constant, env)),
        Resolved::Bracket(_, inner) => described(inner.get(), row, locals, env),
        Resolved::Listed(_, form, terms) => many(terms.as_slice(), *form, row, locals, env),
        Resolved::Unary(_, op, of) => of_one(of.get(), *op, row, locals, env),
        Resolved::Binary(_, _, _, _) => of_both(term, row, locals, env),
        _ => Ok(Described::Plain(outcome(term, row, locals, env)?)),
    }
}

/// A constant.
fn described_constant<'v>(constant: Constant, env: &Env<'_, '_>) -> Described<'v>
    ensures { Describes (IsConstantOutcome (environment_of env.now).numbers constant) result }
{
    match constant {
        Constant::True => Described::Plain(Found::Undefined),
        Constant::False => Described::Plain(Found::Undefined),
        Constant::Integers => described_numbers(env, Infinite::Num),
        Constant::Naturals => described_numbers(env, Infinite::Nat),
        Constant::Positives => described_numbers(env, Infinite::Nat1),
    }
}

/// A symbol before or after a term.
#[cycle(meaning)]
#[inline(never)]
fn of_one<'v, 'a, R: Row>(
    of: &Resolved<'a>,
    op: Unary,
    row: &'v R,
    locals: &[&'v Value],
    env: &'v Env<'_, 'a>,
) -> Result<Described<'v>, AllocError>
    ensures { (span : Span) → IfOk result (Describes (HasOutcome (scope_of env.now (R.values row.now) locals.now) (tree.unary span op (resolved_of of.now)))) }
{
    let operand = outcome(of, row, locals, env)?;
    let alloc = env.allocator();
    if is_power(op) {
        return power_of(alloc, operand);
    }
    Ok(Described::Plain(Found::own(on_one(alloc, op, &operand)?)))
}

/// A symbol between two terms.
#[cycle(meaning)]
#[inline(never)]
fn of_both<'v, 'a, R: Row>(
    term: &Resolved<'a>,
    row: &'v R,
    locals: &[&'v Value],
    env: &'v Env<'_, 'a>,
) -> Result<Described<'v>, AllocError>
    requires { IsBinary term.now }
    ensures { IfOk result (Describes (HasOutcome (scope_of env.now (R.values row.now) locals.now) (resolved_of term.now))) }
{
    let Resolved::Binary(_, op, left, right) = term else {
        unreachable!();
    };
    let op = *op;
    let left = left.get();
    let right = right.get();
    let x = outcome(left, row, locals, env)?;
    let y = outcome(right, row, locals, env)?;
    let alloc = env.allocator();
    if let Some((v, w)) = values(&x, &y) {
        if let Operator::Generic(kind) = op {
            return Ok(Described::Arrows(kind, v.copy(alloc)?, w.copy(alloc)?));
        }
        if is_interval(op) {
            return Ok(interval_between(v, w));
        }
    }
    Ok(Described::Plain(Found::own(on_both(alloc, op, &x, &y)?)))
}

/// Both values, if both outcomes are values.
fn values<'f>(x: &'f Found<'_>, y: &'f Found<'_>) -> Option<(&'f Value, &'f Value)>
    ensures { IfSome result (λ both. (found_outcome x.now ≡ Is both.0.now) × (found_outcome y.now ≡ Is both.1.now)) }
{
    match (x, y) {
        (Found::Is(v), Found::Is(w)) => Some((v.get(), w.get())),
        _ => None,
    }
}

fn is_power(op: Unary) -> bool
    ensures { IsTrue result → (op ≡ unaries.Sign (sign.Symbol prefixes.Power)) ⊎ (op ≡ unaries.Sign (sign.Symbol prefixes.Finset)) }
{
    matches!(
        op,
        Unary::Sign(Sign::Symbol(Prefix::Power | Prefix::Finset))
    )
}

fn is_interval(op: Operator) -> bool
    ensures { IsTrue result → op ≡ operator.Function infixes.UpTo }
{
    matches!(op, Operator::Function(Infix::UpTo))
}

/// What several terms make.
#[cycle(meaning)]
#[inline(never)]
fn many<'v, 'a, R: Row>(
    terms: &[Resolved<'a>],
    form: Listed,
    row: &'v R,
    locals: &[&'v Value],
    env: &'v Env<'_, 'a>,
) -> Result<Described<'v>, AllocError>
    ensures { (span : Span) → IfOk result (Describes (HasOutcome (scope_of env.now (R.values row.now) locals.now) (tree.listed span form (tree_views.terms (map resolved_of terms.now))))) }
{
    let gathered = gather(terms, row, locals, env)?;
    match form {
        Listed::Product => product_of(env.allocator(), gathered),
        _ => Ok(Described::Plain(Found::own(on_several(env.allocator(), form, gathered)?))),
    }
}

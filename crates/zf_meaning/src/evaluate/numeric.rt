//! Comparisons of numbers, decided without values round the numbers.
ghost use Rattle.std.specs.Prelude.{◌≡◌, ℕ, pos, IfSome, IsTrue, false, map, slice_get};
ghost use Rattle.zf_meaning.specs.Prelude.{Application, is_membership, resolved_link_of, resolved_of, Is, Int, IsNumber, InfixOutcome, Span};
ghost use Rattle.zf_term.specs.ResolvedTrees as tree;
ghost use Rattle.zf_term.specs.ResolvedViews as tree_views;
ghost use Rattle.zf_meaning.specs.Environments as spec;
ghost use Rattle.zf_meaning.specs.{environment_of, HasOutcome, in_row, IsTruth, outcome_or};

use super::component;
use crate::env::Env;
use crate::row::Row;
use zf_outcome::relation::between_numbers;
use zf_reference::Reference;
use zf_term::{Resolved, ResolvedLink};
use zf_tree::{Infix, Operator, Relation};
use zf_value::{Outcome, Truth, Value, applied, difference, modulus, product, quotient, sum};

/// The truth of a predicate that compares two numbers, where these are decided without values round them.
#[tactic(auto, using(zf_term::proofs::ResolvedSeen::seen))]
pub(crate) fn compared_in<'v, 'a, R: Row>(
    term: &Resolved<'a>,
    row: &'v R,
    env: &'v Env<'_, 'a>,
) -> Option<Truth>
    ensures { IfSome result (IsTruth (in_row (environment_of env.now) (R.values row.now)) (resolved_of term.now)) }
{
    let Resolved::Chain(_, first, links) = term else {
        return None;
    };
    compared(first.get(), links.as_slice(), row, env)
}

/// The same of a chain.
fn compared<'v, 'a, R: Row>(
    first: &Resolved<'a>,
    links: &[ResolvedLink<'a>],
    row: &'v R,
    env: &'v Env<'_, 'a>,
) -> Option<Truth>
    ensures { (span : Span) → IfSome result (IsTruth (in_row (environment_of env.now) (R.values row.now)) (tree.chain span (resolved_of first.now) (tree_views.links (map resolved_link_of links.now)))) }
{
    let [link] = links else {
        return None;
    };
    if !is_comparison(link.relation) {
        return None;
    }
    let m = number_at(first, row, env)?;
    let n = number_at(&link.right, row, env)?;
    Some(between_numbers(link.relation, m, n))
}

fn is_comparison(relation: Relation) -> bool
    ensures { IsTrue result → is_membership relation ≡ false }
{
    match relation {
        Relation::Equal => true,
        Relation::NotEqual => true,
        Relation::Less => true,
        Relation::AtMost => true,
        Relation::Greater => true,
        Relation::AtLeast => true,
        _ => false,
    }
}

/// The number that a term comes to, if it is a name, a number, an application of a name to a name, or a symbol of arithmetic between
/// two such terms. Most are names and numbers, which are read without a call.
#[cycle(numbers)]
#[inline(always)]
#[tactic(auto, using(zf_term::proofs::ResolvedSeen::seen))]
fn number_at<'v, 'a, R: Row>(term: &Resolved<'a>, row: &'v R, env: &'v Env<'_, 'a>) -> Option<i64>
    ensures { IfSome result (λ n. HasOutcome (in_row (environment_of env.now) (R.values row.now)) (resolved_of term.now) (Is (Int n))) }
{
    match term {
        Resolved::Name(_, reference) => number_named(*reference, row, env),
        Resolved::Number(_, value) => signed(*value),
        _ => number_within(term, row, env),
    }
}

/// The same of brackets, and of a symbol between two terms.
#[cycle(numbers)]
#[inline(never)]
#[tactic(auto, using(zf_term::proofs::ResolvedSeen::seen))]
fn number_within<'v, 'a, R: Row>(
    term: &Resolved<'a>,
    row: &'v R,
    env: &'v Env<'_, 'a>,
) -> Option<i64>
    ensures { IfSome result (λ n. HasOutcome (in_row (environment_of env.now) (R.values row.now)) (resolved_of term.now) (Is (Int n))) }
{
    match term {
        Resolved::Bracket(_, inner) => number_at(inner.get(), row, env),
        Resolved::Binary(_, op, left, right) => {
            let left = left.get();
            let right = right.get();
            match op {
                Operator::Function(infix) => {
                    if !is_calculated(*infix) {
                        return None;
                    }
                    let m = number_at(left, row, env)?;
                    let n = number_at(right, row, env)?;
                    of_numbers(*infix, m, n)
                }
                Operator::Application => number_applied(left, right, row, env),
                _ => None,
            }
        }
        _ => None,
    }
}

fn is_calculated(op: Infix) -> bool {
    matches!(
        op,
        Infix::Plus | Infix::Minus | Infix::Times | Infix::Div | Infix::Mod
    )
}

#[inline(always)]
fn of_numbers(op: Infix, m: i64, n: i64) -> Option<i64>
    ensures { IfSome result (λ k. InfixOutcome op (Int m) (Int n) (Is (Int k))) }
{
    match op {
        Infix::Plus => number_in(&sum(m, n)),
        Infix::Minus => number_in(&difference(m, n)),
        Infix::Times => number_in(&product(m, n)),
        Infix::Div => number_in(&quotient(m, n)),
        Infix::Mod => number_in(&modulus(m, n)),
        _ => None,
    }
}

/// The number that an outcome is.
fn number_in(outcome: &Outcome) -> Option<i64>
    ensures { IfSome result (λ n. outcome.now ≡ Is (Int n)) }
{
    match outcome {
        Outcome::Is(value) => value.number(),
        _ => None,
    }
}

/// The number to which a name takes a name.
fn number_applied<'v, 'a, R: Row>(
    left: &Resolved<'a>,
    right: &Resolved<'a>,
    row: &'v R,
    env: &'v Env<'_, 'a>,
) -> Option<i64>
    ensures { (span : Span) → IfSome result (λ n. HasOutcome (in_row (environment_of env.now) (R.values row.now)) (tree.binary span Application (resolved_of left.now) (resolved_of right.now)) (Is (Int n))) }
{
    let f = value_of_name(left, row, env)?;
    let x = value_of_name(right, row, env)?;
    applied(f, x)?.number()
}

/// The value of a term that is a name.
#[tactic(auto, using(zf_term::proofs::ResolvedSeen::seen))]
fn value_of_name<'v, 'a, R: Row>(
    term: &Resolved<'a>,
    row: &'v R,
    env: &'v Env<'_, 'a>,
) -> Option<&'v Value>
    ensures { IfSome result (λ v. HasOutcome (in_row (environment_of env.now) (R.values row.now)) (resolved_of term.now) (Is v.now)) }
{
    match term {
        Resolved::Name(_, reference) => value_named(*reference, row, env),
        Resolved::Bracket(_, inner) => value_of_name(inner.get(), row, env),
        _ => None,
    }
}

/// The number that a name stands for.
#[inline(always)]
fn number_named<'v, 'a, R: Row>(
    reference: Reference,
    row: &'v R,
    env: &'v Env<'_, 'a>,
) -> Option<i64>
    ensures { IfSome result (λ n. Is (Int n) ≡ spec.outcome_in (in_row (environment_of env.now) (R.values row.now)) reference) }
{
    value_named(reference, row, env)?.number()
}

/// The value that a name stands for.
#[inline(always)]
fn value_named<'v, 'a, R: Row>(
    reference: Reference,
    row: &'v R,
    env: &'v Env<'_, 'a>,
) -> Option<&'v Value>
    ensures { IfSome result (λ v. Is v.now ≡ spec.outcome_in (in_row (environment_of env.now) (R.values row.now)) reference) }
{
    match reference {
        Reference::Component(place) => component(row, place),
        Reference::Local(_) => None,
        Reference::Global(place) => global_value(env, place),
    }
}

/// The value of a global, if it has one.
fn global_value<'v>(env: &'v Env<'_, '_>, place: usize) -> Option<&'v Value>
    ensures { IfSome result (λ v. Is v.now ≡ outcome_or (slice_get (environment_of env.now).outcomes place)) }
{
    value_in(env.outcome(place)?)
}

/// The value that an outcome is.
fn value_in(outcome: &Outcome) -> Option<&Value>
    ensures { IfSome result (λ v. Is v.now ≡ outcome.now) }
{
    match outcome {
        Outcome::Is(value) => Some(value),
        _ => None,
    }
}

fn signed(value: u64) -> Option<i64>
    ensures { IfSome result (λ n. IsNumber (pos value) (Is (Int n))) }
{
    i64::try_from(value).ok()
}

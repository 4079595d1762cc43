//! Chains of relations.
ghost use Rattle.std.specs.Prelude.{◌≡◌, ◌↔◌, IfOk, IsTrue, List, None, map};
ghost use Rattle.zf_meaning.specs.Prelude.{resolved_link_of, resolved_of, is_membership, found_outcome};
ghost use Rattle.zf_term.specs.ResolvedViews as tree;
ghost use Rattle.zf_value.specs.declared.plain.Value as value;
ghost use Rattle.zf_meaning.specs.{AreLinked, environment_of, IsChain, IsLastLink, IsTruth, scope_of};
ghost use Rattle.zf_meaning.specs.Meaning as spec;

use super::memberships::described;
use super::outcome;
use crate::env::Env;
use crate::number_set::infinite_in;
use crate::row::Row;
use std::alloc::AllocError;
use zf_outcome::connected::conjunction;
use zf_outcome::{Found, membership, relation};
use zf_term::{Infinite, Resolved, ResolvedLink};
use zf_tree::Relation;
use zf_value::{Truth, Value};

/// A chain of relations.
#[cycle(meaning)]
#[inline(never)]
pub(super) fn chain<'v, 'a, R: Row>(
    term: &Resolved<'a>,
    row: &'v R,
    locals: &[&'v Value],
    env: &'v Env<'_, 'a>,
) -> Result<Truth, AllocError>
    requires { IsChain term.now }
    ensures { IfOk result (IsTruth (scope_of env.now (R.values row.now) locals.now) (resolved_of term.now)) }
{
    let Resolved::Chain(_, first, links) = term else {
        unreachable!();
    };
    let first = outcome(first.get(), row, locals, env)?;
    linked(links.as_slice(), first, row, locals, env)
}

/// The truth of what is left of a chain, after an operand of this outcome.
#[cycle(meaning)]
fn linked<'v, 'a, R: Row>(
    links: &[ResolvedLink<'a>],
    first: Found<'v>,
    row: &'v R,
    locals: &[&'v Value],
    env: &'v Env<'_, 'a>,
) -> Result<Truth, AllocError>
    ensures { IfOk result (AreLinked (scope_of env.now (R.values row.now) locals.now) (found_outcome first.entry) (tree.links (map resolved_link_of links.now))) }
{
    let mut left = first;
    let mut truth = Truth::True;
    for place in 0..links.len() {
        let link = &links[place];
        if place + 1 == links.len() {
            let told = last_link(&link.right, link.relation, &left, row, locals, env)?;
            return Ok(conjunction(truth, told));
        }
        let right = outcome(&link.right, row, locals, env)?;
        let infinite = infinite_right(link.relation, &link.right, env);
        let told = relation::link(infinite, link.relation, &left, &right);
        if is_false(told) {
            return Ok(Truth::False);
        }
        truth = conjunction(truth, told);
        left = right;
    }
    Ok(truth)
}

/// The truth of the last link of a chain. A set that is only tested for a member there is not built.
#[cycle(meaning)]
fn last_link<'v, 'a, R: Row>(
    right: &Resolved<'a>,
    relation: Relation,
    left: &Found<'v>,
    row: &'v R,
    locals: &[&'v Value],
    env: &'v Env<'_, 'a>,
) -> Result<Truth, AllocError>
    ensures { IfOk result (IsLastLink (scope_of env.now (R.values row.now) locals.now) relation (resolved_of right.now) (found_outcome left.now)) }
{
    let infinite = infinite_right(relation, right, env);
    if is_finite_membership(relation, infinite) {
        let set = described(right, row, locals, env)?;
        return Ok(membership(relation, left, &set));
    }
    let right = outcome(right, row, locals, env)?;
    Ok(relation::link(infinite, relation, left, &right))
}

/// Whether a link tests for a member of a set that is no infinite one.
fn is_finite_membership(relation: Relation, infinite: Option<Infinite>) -> bool
    ensures { IsTrue result → IsTrue (is_membership relation) × (infinite ≡ None) }
{
    matches!(
        (relation, infinite),
        (Relation::Member | Relation::NotMember, None)
    )
}

/// The infinite set that a link tests for, if the whole right side of a membership is one.
fn infinite_right<'a>(
    relation: Relation,
    right: &Resolved<'a>,
    env: &Env<'_, 'a>,
) -> Option<Infinite>
    ensures { (row locals : List value.Value) → result ≡ spec.infinite_right (record { environment = environment_of env.now; row = row; locals = locals }) relation (resolved_of right.now) }
{
    match relation {
        Relation::Member => infinite_in(right, env),
        Relation::NotMember => infinite_in(right, env),
        _ => None,
    }
}

pub(super) fn is_false(truth: Truth) -> bool
    ensures { IsTrue result ↔ (truth ≡ Truth.False) }
{
    matches!(truth, Truth::False)
}

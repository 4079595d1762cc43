//! Predicates whose universal quantifiers over small closed sets are written out.
ghost use Rattle.std.specs.Prelude.{◌≤◌, ◌≡◌, None, IfOk, IfSome, OnOk, length, map};
ghost use Rattle.zf_term.specs.{resolved_of};
ghost use Rattle.zf_meaning.specs.{Environment, environment_of};
ghost use Rattle.zf_lift.specs.{AreLifted, IsLonger};
ghost use Rattle.zf_unfold.specs.Renaming as spec;
ghost use Rattle.zf_unfold.specs.{AreAllUnfolded, IsBase, IsUnfolded};

use crate::instance::instances;
use crate::members::{add_members, set_named};
use crate::quantifiers::{have_quantifiers, universal};
use crate::renaming::Renaming;
use crate::worth::is_worth;
use bumpalo::Bump;
use std::alloc::{AllocError, Global};
use zf_data::arena::{Boxed, Lasting};
use zf_lift::{Lifted, lift};
use zf_meaning::Env;
use zf_resolved::renamed;
use zf_term::Resolved;
use zf_tree::{Operator, Unary};
use zf_value::Outcome;

/// How often a predicate is gone through: each time the outermost quantifiers are written out, by their first variable.
const PASSES: usize = 8;

/// The predicates with quantifiers written out where that is worth it. None if there are no quantifiers, or memory is refused.
pub fn unfold<'e, 'g, 'a>(
    alloc: Global,
    arena: &'a Bump,
    terms: &[Resolved<'a>],
    env: &'e Env<'g, 'a>,
) -> Option<Lifted<'e, 'g, 'a>>
    ensures { IfSome result (λ l. AreLifted (environment_of l.env.now) (environment_of env.now) (map resolved_of l.terms.items) (map resolved_of terms.now)) }
{
    if !have_quantifiers(terms) {
        return None;
    }
    match unfold_named(alloc, arena, terms, env) {
        Ok(found) => found,
        Err(_) => None,
    }
}

/// The same once closed sets have names.
fn unfold_named<'e, 'g, 'a>(
    alloc: Global,
    arena: &'a Bump,
    terms: &[Resolved<'a>],
    env: &'e Env<'g, 'a>,
) -> Result<Option<Lifted<'e, 'g, 'a>>, AllocError>
    ensures { IfOk result (λ found. IfSome found (λ l. AreLifted (environment_of l.env.now) (environment_of env.now) (map resolved_of l.terms.items) (map resolved_of terms.now))) }
{
    match lift(alloc, arena, terms, env)? {
        None => unfold_all(alloc, arena, terms, env),
        Some(lifted) => unfold_all(alloc, arena, &lifted.terms, lifted.env),
    }
}

fn unfold_all<'e, 'g, 'a>(
    alloc: Global,
    arena: &'a Bump,
    terms: &[Resolved<'a>],
    env: &'e Env<'g, 'a>,
) -> Result<Option<Lifted<'e, 'g, 'a>>, AllocError>
    ensures { IfOk result (λ found. IfSome found (λ l. AreLifted (environment_of l.env.now) (environment_of env.now) (map resolved_of l.terms.items) (map resolved_of terms.now))) }
{
    let mut own = env.copy(alloc)?;
    let count = own.count();
    if count < own.globals().len() {
        return Ok(None);
    }
    own.add(Outcome::Undefined)?;
    let all = all_unfolded(alloc, arena, terms, count, &mut own)?;
    let env: &'e Env<'g, 'a> = kept(arena, own)?;
    let unfolded: Lifted<'e, 'g, 'a> = Lifted { terms: all, env };
    Ok(Some(unfolded))
}

/// The environment, which lasts as long as the arena.
fn kept<'e, 'g, 'a>(arena: &'e Bump, env: Env<'g, 'a>) -> Result<&'e Env<'g, 'a>, AllocError>
    ensures { IfOk result (λ e. environment_of e.now ≡ environment_of env.entry) }
{
    let lasting = Lasting::new(arena, env)?;
    Ok(lasting.get())
}

/// Each of the predicates with quantifiers written out.
fn all_unfolded<'g, 'a>(
    alloc: Global,
    arena: &'a Bump,
    terms: &[Resolved<'a>],
    count: usize,
    own: &mut Env<'g, 'a>,
) -> Result<Vec<Resolved<'a>>, AllocError>
    ensures grows { OnOk result (IsLonger (environment_of own.old) (environment_of own.new)) }
    ensures same { (e : Environment) → IsBase count e (environment_of own.old) → IfOk result (λ ts. AreAllUnfolded (environment_of own.new) e (map resolved_of ts.items) (map resolved_of terms.now)) }
{
    let mut all = Vec::with_capacity(alloc, terms.len())?;
    for term in terms {
        let part = unfolded(alloc, term, arena, count, own)?;
        all.push(part)?;
    }
    Ok(all)
}

/// A predicate with quantifiers written out.
fn unfolded<'g, 'a>(
    alloc: Global,
    term: &Resolved<'a>,
    arena: &'a Bump,
    count: usize,
    own: &mut Env<'g, 'a>,
) -> Result<Resolved<'a>, AllocError>
    ensures grows { OnOk result (IsLonger (environment_of own.old) (environment_of own.new)) }
    ensures same { (e : Environment) → IsBase count e (environment_of own.old) → IfOk result (λ t. IsUnfolded (environment_of own.new) e (resolved_of t) (resolved_of term.now)) }
{
    let mut names = own.count();
    let mut all = once(alloc, term, arena, count, own)?;
    for _ in 1..PASSES {
        if own.count() <= names.saturating_add(1) {
            return Ok(all);
        }
        names = own.count();
        all = again(alloc, &all, arena, own)?;
    }
    Ok(all)
}

/// With the quantifiers written out that were inside others.
fn again<'g, 'a>(
    alloc: Global,
    term: &Resolved<'a>,
    arena: &'a Bump,
    own: &mut Env<'g, 'a>,
) -> Result<Resolved<'a>, AllocError>
    ensures grows { OnOk result (IsLonger (environment_of own.old) (environment_of own.new)) }
    ensures same { length (environment_of own.old).globals ≤ length (environment_of own.old).outcomes → IfOk result (λ t. IsUnfolded (environment_of own.new) (environment_of own.old) (resolved_of t) (resolved_of term.now)) }
{
    let count = own.count();
    own.add(Outcome::Undefined)?;
    once(alloc, term, arena, count, own)
}

/// With the outermost quantifiers written out, by their first variable.
#[cycle(once)]
fn once<'g, 'a>(
    alloc: Global,
    term: &Resolved<'a>,
    arena: &'a Bump,
    count: usize,
    own: &mut Env<'g, 'a>,
) -> Result<Resolved<'a>, AllocError>
    ensures grows { OnOk result (IsLonger (environment_of own.old) (environment_of own.new)) }
    ensures same { (e : Environment) → IsBase count e (environment_of own.old) → IfOk result (λ t. IsUnfolded (environment_of own.new) e (resolved_of t) (resolved_of term.now)) }
{
    match term {
        Resolved::Bracket(_, inner) => once(alloc, inner.get(), arena, count, own),
        Resolved::Unary(span, op, of) => match op {
            Unary::Not => {
                let of = once(alloc, of.get(), arena, count, own)?;
                Ok(Resolved::Unary(*span, Unary::Not, Boxed::new(arena, of)?))
            }
            _ => outside(term, arena, count),
        },
        Resolved::Binary(span, op, left, right) => match op {
            Operator::Connective(connective) => {
                let left = once(alloc, left.get(), arena, count, own)?;
                let right = once(alloc, right.get(), arena, count, own)?;
                let left = Boxed::new(arena, left)?;
                let right = Boxed::new(arena, right)?;
                Ok(Resolved::Binary(*span, Operator::Connective(*connective), left, right))
            }
            _ => outside(term, arena, count),
        },
        Resolved::Quantified(_, _, _, _, _) => quantified(alloc, term, arena, count, own),
        _ => outside(term, arena, count),
    }
}

/// The predicate as it is.
fn outside<'a>(
    term: &Resolved<'a>,
    arena: &'a Bump,
    count: usize,
) -> Result<Resolved<'a>, AllocError>
    ensures { IfOk result (λ t. resolved_of t ≡ spec.renamed (spec.named count None) (resolved_of term.now)) }
{
    let renaming = Renaming {
        count,
        member: None,
    };
    renamed(term, arena, &renaming)
}

/// A quantifier, written out by its first variable where that is worth it.
fn quantified<'g, 'a>(
    alloc: Global,
    term: &Resolved<'a>,
    arena: &'a Bump,
    count: usize,
    own: &mut Env<'g, 'a>,
) -> Result<Resolved<'a>, AllocError>
    ensures grows { OnOk result (IsLonger (environment_of own.old) (environment_of own.new)) }
    ensures same { (e : Environment) → IsBase count e (environment_of own.old) → IfOk result (λ t. IsUnfolded (environment_of own.new) e (resolved_of t) (resolved_of term.now)) }
{
    if !is_worth(term, own) {
        return outside(term, arena, count);
    }
    let Some(universal) = universal(term) else {
        return outside(term, arena, count);
    };
    let named = set_named(&universal.first.set, count, own)?;
    let Some(set) = named else {
        return outside(term, arena, count);
    };
    let first = own.count();
    let Some(more) = set.members().len().checked_sub(1) else {
        return outside(term, arena, count);
    };
    if first > usize::MAX - more {
        return outside(term, arena, count);
    }
    add_members(alloc, set.members(), own)?;
    instances(&universal, arena, count, first, more)
}

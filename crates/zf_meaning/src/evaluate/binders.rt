//! What binds variables: quantified predicates and comprehensions.
ghost use Rattle.std.specs.Prelude.{◌≡◌, ◌≤◌, ℕ, List, Option, IfOk, length, drop};
ghost use Rattle.zf_meaning.specs.Prelude.{All, is_some, Quantifier, part_of, resolved_of, AreFrom, found_outcome, IsOver, IsTold, Span};
ghost use Rattle.zf_term.specs.declared.resolved.Range as range;
ghost use Rattle.zf_term.specs.declared.resolved.Resolved as resolved;
ghost use Rattle.zf_term.specs.declared.resolved.Resolved.TheVariants as form;
ghost use Rattle.zf_value.specs.declared.plain.Value as value;
ghost use Rattle.zf_meaning.specs.{AddsRow, AddsValue, AreNeutralIf, ArePassed, ArePassedIf, Builds, Context, HasOutcome, IsBound, IsComprehension, IsBuiltOver, IsConstraint, IsPiece, IsQuantified, IsTruth, NeedsFront, row_value, scope_of, seen, spread, within};

use super::chains::is_false;
use super::early::{
    Frame, Piece, frame_of, front_of, neutral, passing_after, passing_by, pieces_of,
};
use super::ranges::{Spread, declared_sets, lists_of};
use super::{empty_set, outcome, truth};
use crate::env::Env;
use crate::row::Row;
use crate::rows::{Passing, Rows};
use std::alloc::{AllocError, Global};
use zf_outcome::connected::{connected, connective_of, decided};
use zf_outcome::{Found, Lack, Tally};
use zf_term::{Part, Resolved};
use zf_value::{Form, Items, Outcome, Truth, Value, set};

/// A quantified predicate.
#[cycle(meaning)]
#[inline(never)]
pub(super) fn quantified<'v, 'a, R: Row>(
    term: &Resolved<'a>,
    row: &'v R,
    locals: &[&'v Value],
    env: &'v Env<'_, 'a>,
) -> Result<Truth, AllocError>
    requires { IsQuantified term.now }
    ensures { IfOk result (IsTruth (scope_of env.now (R.values row.now) locals.now) (resolved_of term.now)) }
{
    let Resolved::Quantified(quantifier, _, ranges, _, _) = term else {
        unreachable!();
    };
    let declared = declared_sets(ranges.as_slice(), row, locals, env)?;
    match declared.lack {
        Lack::Out => Ok(Truth::Out),
        Lack::Undefined => Ok(Tally::none().truth(*quantifier)),
        Lack::Nothing => over_rows(term, &declared.sets, &*row, &*locals, &*env),
    }
}

/// What a quantifier tells of all rows of its ranges.
#[cycle(meaning)]
fn over_rows<'v, 'a, R: Row>(
    term: &Resolved<'a>,
    sets: &'v [Spread<'_>],
    row: &'v R,
    locals: &[&'v Value],
    env: &'v Env<'_, 'a>,
) -> Result<Truth, AllocError>
    requires { IsQuantified term.now }
    ensures { (q : Quantifier) (l : Span) (rs : List range.Range) (p : Option resolved.Resolved) (e : resolved.Resolved) → term.now ≡ form.Quantified q l rs p e
        → IfOk result (IsOver q (λ vs. AreFrom vs (spread sets.now)) (λ vs w. IsTold q (λ a. IsConstraint (within (scope_of env.now (R.values row.now) locals.now) vs) (part_of p) a) (λ b. IsTruth (within (scope_of env.now (R.values row.now) locals.now) vs) (resolved_of e) b) w)) }
{
    let Resolved::Quantified(quantifier, _, _, constraint, body) = term else {
        unreachable!();
    };
    let alloc = env.allocator();
    let mut tally = Tally::none();
    let Some(mut rows) = Rows::first(alloc, locals, lists_of(alloc, sets)?)? else {
        return Ok(tally.truth(*quantifier));
    };
    let frame = frame_of(locals, &rows);
    let front = front_of(constraint, body.get(), frame, &rows);
    let pieces = pieces_of(alloc, term, frame, front, &rows)?;
    let mut anew = 0;
    'walk: loop {
        let met = met_at(
            term,
            frame,
            front,
            &pieces,
            anew,
            &*row,
            rows.bound(),
            &*env,
        )?;
        tally = tally.with(met.truth);
        if tally.is_settled(*quantifier) {
            return Ok(tally.truth(*quantifier));
        }
        match rows.pass(met.passing)? {
            None => return Ok(tally.truth(*quantifier)),
            Some(turned) => anew = turned,
        }
    }
}

/// What a quantifier tells of a row, and which others do not count.
#[derive(Drop)]
pub(crate) struct Met<'v> {
    pub truth: Truth,
    pub passing: Passing<'v>,
}

/// What a quantifier that needs so many first variables tells of the row that is bound, of which some first values are anew.
#[cycle(meaning)]
fn met_at<'v, 'a, R: Row>(
    term: &Resolved<'a>,
    frame: Frame,
    front: usize,
    pieces: &[Piece<'_, 'a>],
    anew: usize,
    row: &'v R,
    bound: &[&'v Value],
    env: &'v Env<'_, 'a>,
) -> Result<Met<'v>, AllocError>
    requires form { IsQuantified term.now }
    requires front { (q : Quantifier) (l : Span) (rs : List range.Range) (p : Option resolved.Resolved) (e : resolved.Resolved) → term.now ≡ form.Quantified q l rs p e → NeedsFront frame front (part_of p) (resolved_of e) }
    requires pieces { All (IsPiece term.now frame) pieces.now }
    ensures told { (c : Context) (vs : List value.Value) → IsBound frame (scope_of env.now (R.values row.now) bound.now) c vs
        → (q : Quantifier) (l : Span) (rs : List range.Range) (p : Option resolved.Resolved) (e : resolved.Resolved) → term.now ≡ form.Quantified q l rs p e
        → IfOk result (λ m. IsTold q (λ a. IsConstraint (within c vs) (part_of p) a) (λ b. IsTruth (within c vs) (resolved_of e) b) m.truth) }
    ensures passed { (c : Context) (vs : List value.Value) → IsBound frame (scope_of env.now (R.values row.now) bound.now) c vs
        → IfOk result (λ m. ArePassed (resolved_of term.now) c vs m.passing) }
{
    let Resolved::Quantified(quantifier, _, _, _, _) = term else {
        unreachable!();
    };
    if let Some(passing) = refuted(term, frame, pieces, anew, row, bound, env)? {
        return Ok(Met {
            truth: neutral(*quantifier),
            passing,
        });
    }
    let truth = told_at(term, row, bound, env)?;
    Ok(Met {
        truth,
        passing: passing_after(*quantifier, truth, frame, front),
    })
}

/// Which rows beside the one that is bound do not count, if a part tells so that needs some values that are anew.
#[cycle(meaning)]
fn refuted<'v, 'a, R: Row>(
    term: &Resolved<'a>,
    frame: Frame,
    pieces: &[Piece<'_, 'a>],
    anew: usize,
    row: &'v R,
    bound: &[&'v Value],
    env: &'v Env<'_, 'a>,
) -> Result<Option<Passing<'v>>, AllocError>
    requires { All (IsPiece term.now frame) pieces.now }
    ensures { (c : Context) (vs : List value.Value) → IsBound frame (scope_of env.now (R.values row.now) bound.now) c vs
        → IfOk result (AreNeutralIf (resolved_of term.now) c vs) }
{
    for piece in pieces {
        if piece.front >= anew {
            if let Some(passing) = passing_at(term, frame, piece, row, bound, env)? {
                return Ok(Some(passing));
            }
        }
    }
    Ok(None)
}

/// Which rows beside the one that is bound do not count, if the part tells so.
#[cycle(meaning)]
fn passing_at<'v, 'a, R: Row>(
    term: &Resolved<'a>,
    frame: Frame,
    piece: &Piece<'_, 'a>,
    row: &'v R,
    bound: &[&'v Value],
    env: &'v Env<'_, 'a>,
) -> Result<Option<Passing<'v>>, AllocError>
    requires { IsPiece term.now frame piece.now }
    ensures { (c : Context) (vs : List value.Value) → IsBound frame (scope_of env.now (R.values row.now) bound.now) c vs
        → IfOk result (AreNeutralIf (resolved_of term.now) c vs) }
{
    if let Some(wanted) = &piece.wanted {
        let found = outcome(wanted.term, row, bound, env)?;
        return Ok(passing_by(found, wanted.local, frame.outside, bound));
    }
    let told = truth(piece.term, row, bound, env)?;
    if is_false(told) {
        Ok(Some(Passing::Front(piece.front)))
    } else {
        Ok(None)
    }
}

/// What a quantifier tells of the row that is bound.
#[cycle(meaning)]
fn told_at<'v, 'a, R: Row>(
    term: &Resolved<'a>,
    row: &'v R,
    bound: &[&'v Value],
    env: &'v Env<'_, 'a>,
) -> Result<Truth, AllocError>
    requires { IsQuantified term.now }
    ensures { (q : Quantifier) (l : Span) (rs : List range.Range) (p : Option resolved.Resolved) (e : resolved.Resolved) → term.now ≡ form.Quantified q l rs p e
        → IfOk result (IsTold q (λ a. IsConstraint (scope_of env.now (R.values row.now) bound.now) (part_of p) a) (λ b. IsTruth (scope_of env.now (R.values row.now) bound.now) (resolved_of e) b)) }
{
    let Resolved::Quantified(quantifier, _, _, constraint, body) = term else {
        unreachable!();
    };
    let connective = connective_of(*quantifier);
    let p = constraint_truth(constraint, row, bound, env)?;
    if let Some(decided) = decided(connective, p) {
        return Ok(decided);
    }
    let q = truth(body.get(), row, bound, env)?;
    Ok(connected(connective, p, q))
}

/// The truth of a filter or constraint.
#[cycle(meaning)]
fn constraint_truth<'v, 'a, R: Row>(
    part: &Part<'a>,
    row: &'v R,
    bound: &[&'v Value],
    env: &'v Env<'_, 'a>,
) -> Result<Truth, AllocError>
    ensures { IfOk result (IsConstraint (scope_of env.now (R.values row.now) bound.now) (part_of part.now)) }
{
    match part.get() {
        None => Ok(Truth::True),
        Some(term) => truth(term.get(), row, bound, env),
    }
}

/// A comprehension.
#[cycle(meaning)]
#[inline(never)]
pub(super) fn comprehension<'v, 'a, R: Row>(
    term: &Resolved<'a>,
    row: &'v R,
    locals: &[&'v Value],
    env: &'v Env<'_, 'a>,
) -> Result<Found<'v>, AllocError>
    requires { IsComprehension term.now }
    ensures { IfOk result (λ o. HasOutcome (scope_of env.now (R.values row.now) locals.now) (resolved_of term.now) (found_outcome o)) }
{
    let Resolved::Comprehension(_, ranges, _, _) = term else {
        unreachable!();
    };
    let declared = declared_sets(ranges.as_slice(), row, locals, env)?;
    match declared.lack {
        Lack::Out => Ok(Found::Out),
        Lack::Undefined => empty_set(env.allocator()),
        Lack::Nothing => Ok(Found::own(built_over(term, &declared.sets, &*row, &*locals, &*env)?)),
    }
}

/// What a comprehension builds of all rows of its ranges.
#[cycle(meaning)]
fn built_over<'v, 'a, R: Row>(
    term: &Resolved<'a>,
    sets: &'v [Spread<'_>],
    row: &'v R,
    locals: &[&'v Value],
    env: &'v Env<'_, 'a>,
) -> Result<Outcome, AllocError>
    requires { IsComprehension term.now }
    ensures { (l : Span) (rs : List range.Range) (p e : Option resolved.Resolved) → term.now ≡ form.Comprehension l rs p e
        → IfOk result (IsBuiltOver (λ vs. AreFrom vs (spread sets.now)) (λ vs u. IsConstraint (within (scope_of env.now (R.values row.now) locals.now) vs) (part_of p) u) (λ vs x. Builds (within (scope_of env.now (R.values row.now) locals.now) vs) vs (part_of e) x)) }
{
    let alloc = env.allocator();
    let mut built = Vec::new(alloc);
    let Some(mut rows) = Rows::first(alloc, locals, lists_of(alloc, sets)?)? else {
        return set::display(alloc, built);
    };
    let frame = frame_of(locals, &rows);
    let pieces = pieces_of(alloc, term, frame, frame.whole, &rows)?;
    let mut anew = 0;
    'walk: loop {
        let Some(passing) = built_at(
            term,
            frame,
            &pieces,
            anew,
            &mut built,
            &*row,
            rows.bound(),
            &*env,
        )?
        else {
            return Ok(Outcome::Out);
        };
        if set::is_too_many(&mut built)? {
            return Ok(Outcome::Out);
        }
        match rows.pass(passing)? {
            None => return set::display(alloc, built),
            Some(turned) => anew = turned,
        }
    }
}

/// Adds what is built of the row that is bound, of which some first values are anew. Answers which others nothing is built of; None where it is out.
#[cycle(meaning)]
fn built_at<'v, 'a, R: Row>(
    term: &Resolved<'a>,
    frame: Frame,
    pieces: &[Piece<'_, 'a>],
    anew: usize,
    built: &mut Vec<Value>,
    row: &'v R,
    bound: &[&'v Value],
    env: &'v Env<'_, 'a>,
) -> Result<Option<Passing<'v>>, AllocError>
    requires form { IsComprehension term.now }
    requires pieces { All (IsPiece term.now frame) pieces.now }
    requires outside { frame.outside ≤ length bound.now }
    ensures is { (c : Context) (vs : List value.Value) → IsBound frame (scope_of env.now (R.values row.now) bound.now) c vs → drop frame.outside (seen bound.now) ≡ vs
        → (l : Span) (rs : List range.Range) (p e : Option resolved.Resolved) → term.now ≡ form.Comprehension l rs p e
        → IfOk result (λ passing. AddsRow (λ u. IsConstraint (within c vs) (part_of p) u) (λ x. Builds (within c vs) vs (part_of e) x) built.old.items built.new.items (is_some passing)) }
    ensures passed { (c : Context) (vs : List value.Value) → IsBound frame (scope_of env.now (R.values row.now) bound.now) c vs
        → IfOk result (ArePassedIf (resolved_of term.now) c vs) }
{
    if let Some(passing) = refuted(term, frame, pieces, anew, row, bound, env)? {
        return Ok(Some(passing));
    }
    if add_row(term, built, frame.outside, row, bound, env)? {
        Ok(Some(Passing::Front(frame.whole)))
    } else {
        Ok(None)
    }
}

/// Adds what is built of the row that is bound, after so many variables outside. False where that is out.
#[cycle(meaning)]
fn add_row<'v, 'a, R: Row>(
    term: &Resolved<'a>,
    built: &mut Vec<Value>,
    outside: usize,
    row: &'v R,
    bound: &[&'v Value],
    env: &'v Env<'_, 'a>,
) -> Result<bool, AllocError>
    requires form { IsComprehension term.now }
    requires outside { outside ≤ length bound.now }
    ensures { (l : Span) (rs : List range.Range) (p e : Option resolved.Resolved) → term.now ≡ form.Comprehension l rs p e
        → IfOk result (AddsRow (λ u. IsConstraint (scope_of env.now (R.values row.now) bound.now) (part_of p) u) (λ x. Builds (scope_of env.now (R.values row.now) bound.now) (drop outside (seen bound.now)) (part_of e) x) built.old.items built.new.items) }
{
    let Resolved::Comprehension(_, _, filter, member) = term else {
        unreachable!();
    };
    match constraint_truth(filter, row, bound, env)? {
        Truth::False => Ok(true),
        Truth::Out => Ok(false),
        Truth::True => add_member(member, built, outside, row, bound, env),
    }
}

/// Adds the value of a comprehension's term, where it has one. False where that is out.
#[cycle(meaning)]
fn add_member<'v, 'a, R: Row>(
    member: &Part<'a>,
    built: &mut Vec<Value>,
    outside: usize,
    row: &'v R,
    bound: &[&'v Value],
    env: &'v Env<'_, 'a>,
) -> Result<bool, AllocError>
    requires { outside ≤ length bound.now }
    ensures { IfOk result (AddsValue (λ x. Builds (scope_of env.now (R.values row.now) bound.now) (drop outside (seen bound.now)) (part_of member.now) x) built.old.items built.new.items) }
{
    match member_outcome(member, outside, row, bound, env)? {
        Outcome::Is(value) => {
            built.push(value)?;
            Ok(true)
        }
        Outcome::Undefined => Ok(true),
        Outcome::Out => Ok(false),
    }
}

/// The outcome of a comprehension's term.
#[cycle(meaning)]
fn member_outcome<'v, 'a, R: Row>(
    member: &Part<'a>,
    outside: usize,
    row: &'v R,
    bound: &[&'v Value],
    env: &'v Env<'_, 'a>,
) -> Result<Outcome, AllocError>
    requires { outside ≤ length bound.now }
    ensures { IfOk result (Builds (scope_of env.now (R.values row.now) bound.now) (drop outside (seen bound.now)) (part_of member.now)) }
{
    let alloc = env.allocator();
    match member.get() {
        None => Ok(Outcome::Is(value_of_row(alloc, &bound[outside..])?)),
        Some(term) => outcome(term.get(), row, bound, env)?.into_outcome(alloc),
    }
}

/// What a comprehension without a term builds: the one variable, or the tuple of all.
fn value_of_row(alloc: Global, values: &[&Value]) -> Result<Value, AllocError>
    ensures { IfOk result (λ v. v ≡ row_value (seen values.now)) }
{
    if values.len() == 1 {
        return values[0].copy(alloc);
    }
    let mut copies = Vec::new(alloc);
    for value in values {
        copies.push(value.copy(alloc)?)?;
    }
    Ok(Value {
        form: Form::Tuple(Items::of(alloc, copies)?),
    })
}

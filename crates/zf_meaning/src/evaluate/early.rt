//! What of a binder tells that rows do not count before all its variables are bound: parts of what has to hold, each with the variables that it needs.
ghost use Rattle.std.specs.Prelude.{◌≡◌, ◌↔◌, ◌⊎◌, ◌+◌, ◌<◌, ◌≤◌, [], ◌∷◌, ℕ, IfOk, IfSome, IsTrue, OnOk, Some, length, slice_get};
ghost use Rattle.zf_meaning.specs.Prelude.{All, size-Resolved, part_of, resolved_of, found_outcome};
ghost use Rattle.zf_reference.specs.declared.reference.Reference.TheVariants as references;
ghost use Rattle.zf_tree.specs.declared.symbol.Connective.TheVariants.{And};
ghost use Rattle.zf_tree.specs.declared.operator.Operator.TheVariants as symbol;
ghost use Rattle.zf_tree.specs.declared.symbol.Relation.TheVariants as relations;
ghost use Rattle.zf_term.specs.declared.resolved.Resolved as resolved;
ghost use Rattle.zf_term.specs.declared.resolved.ResolvedLink as link;
ghost use Rattle.zf_meaning.specs.Early as spec;
ghost use Rattle.zf_meaning.specs.{Falsifies, IsEarlier, IsEquation, IsOther, IsPart, IsPiece, IsVariable, IsWanted, NeedsFront, PassesBy, Refutes, seen};
ghost use Rattle.zf_meaning.specs.declared.rows.Passing.TheVariants as passing;

use crate::needs::{last_local, last_of_both};
use crate::rows::{Passing, Rows};
use std::alloc::{AllocError, Global};
use zf_outcome::Found;
use zf_reference::Reference;
use zf_term::{Part, Resolved, ResolvedLink};
use zf_tree::{Connective, Operator, Quantifier, Relation};
use zf_value::{Truth, Value};

/// A part of what has to hold for a row to count, and how many first variables it needs.
#[derive(Drop)]
pub(crate) struct Piece<'t, 'a> {
    pub term: &'t Resolved<'a>,
    pub front: usize,
    pub wanted: Option<Wanted<'t, 'a>>,
}

/// The term that a variable has to equal, by the variable's place.
#[derive(Drop)]
pub(crate) struct Wanted<'t, 'a> {
    pub term: &'t Resolved<'a>,
    pub local: usize,
}

/// How many variables are bound outside a binder, and how many with its own.
#[derive(Clone, Copy)]
pub(crate) struct Frame {
    pub outside: usize,
    pub whole: usize,
}

/// How many variables are bound at a row, after those outside.
pub(super) fn frame_of(outside: &[&Value], rows: &Rows<'_>) -> Frame
    ensures outside { result.outside ≡ length outside.now }
    ensures whole { result.whole ≡ length rows.now.bound.items }
{
    Frame {
        outside: outside.len(),
        whole: rows.bound().len(),
    }
}

/// How many first variables of a quantifier its constraint and body need: rows that begin with the same values, so many, tell the
/// same. All where the quantifier has few rows, and its body is none.
pub(super) fn front_of(
    constraint: &Part<'_>,
    body: &Resolved<'_>,
    frame: Frame,
    rows: &Rows<'_>,
) -> usize
    ensures { NeedsFront frame result (part_of constraint.now) (resolved_of body.now) }
{
    if !rows.are_many() && !is_quantified(body) {
        return frame.whole;
    }
    let last = last_of_both(constraint, body, frame.whole);
    last.saturating_sub(frame.outside)
}

fn is_quantified(term: &Resolved<'_>) -> bool {
    matches!(term, Resolved::Quantified(_, _, _, _, _))
}

/// The parts that need the first variables alone, of a binder that has many rows and needs some first variables.
pub(super) fn pieces_of<'t, 'a>(
    alloc: Global,
    term: &'t Resolved<'a>,
    frame: Frame,
    front: usize,
    rows: &Rows<'_>,
) -> Result<Vec<Piece<'t, 'a>>, AllocError>
    ensures { IfOk result (λ pieces. All (IsPiece term.now frame) pieces.items) }
{
    let mut pieces = Vec::new(alloc);
    if front == 0 || !rows.are_many() {
        return Ok(pieces);
    }
    add_parts(term, frame, &mut pieces)?;
    Ok(pieces)
}

/// Adds the parts of a binder.
fn add_parts<'t, 'a>(
    term: &'t Resolved<'a>,
    frame: Frame,
    pieces: &mut Vec<Piece<'t, 'a>>,
) -> Result<(), AllocError>
    ensures { All (IsPiece term.now frame) pieces.old.items → OnOk result (All (IsPiece term.now frame) pieces.new.items) }
{
    add_part(filter_of(term), frame, pieces)?;
    add_part(constraint_of(term), frame, pieces)?;
    add_part(body_of(term), frame, pieces)
}

/// Adds the conjuncts of a part of a binder, if it is there.
fn add_part<'t, 'a>(
    part: Option<&'t Resolved<'a>>,
    frame: Frame,
    pieces: &mut Vec<Piece<'t, 'a>>,
) -> Result<(), AllocError>
    ensures { (whole : resolved.Resolved) → IfSome part.entry (λ x. IsPart whole x.now) → All (IsPiece whole frame) pieces.old.items → OnOk result (All (IsPiece whole frame) pieces.new.items) }
{
    match part {
        None => Ok(()),
        Some(term) => add_conjuncts(term, frame, pieces),
    }
}

/// A comprehension's filter.
fn filter_of<'t, 'a>(term: &'t Resolved<'a>) -> Option<&'t Resolved<'a>>
    ensures refutes { IfSome result (λ x. Refutes (resolved_of x.now) (resolved_of term.now)) }
    ensures smaller { IfSome result (λ x. size-Resolved x.now < size-Resolved term.now) }
{
    let Resolved::Comprehension(_, _, filter, _) = term else {
        return None;
    };
    match filter.get() {
        None => None,
        Some(part) => Some(part.get()),
    }
}

/// A quantifier's constraint.
fn constraint_of<'t, 'a>(term: &'t Resolved<'a>) -> Option<&'t Resolved<'a>>
    ensures refutes { IfSome result (λ x. Refutes (resolved_of x.now) (resolved_of term.now)) }
    ensures smaller { IfSome result (λ x. size-Resolved x.now < size-Resolved term.now) }
{
    let Resolved::Quantified(_, _, _, constraint, _) = term else {
        return None;
    };
    match constraint.get() {
        None => None,
        Some(part) => Some(part.get()),
    }
}

/// A quantifier's body, where it has to hold for a row to count.
fn body_of<'t, 'a>(term: &'t Resolved<'a>) -> Option<&'t Resolved<'a>>
    ensures refutes { IfSome result (λ x. Refutes (resolved_of x.now) (resolved_of term.now)) }
    ensures smaller { IfSome result (λ x. size-Resolved x.now < size-Resolved term.now) }
{
    let Resolved::Quantified(quantifier, _, _, _, body) = term else {
        return None;
    };
    match quantifier {
        Quantifier::ForAll => None,
        Quantifier::Exists => Some(body.get()),
        Quantifier::ExistsOne => Some(body.get()),
    }
}

/// Adds the conjuncts of a predicate.
fn add_conjuncts<'t, 'a>(
    term: &'t Resolved<'a>,
    frame: Frame,
    pieces: &mut Vec<Piece<'t, 'a>>,
) -> Result<(), AllocError>
    ensures { (whole : resolved.Resolved) → IsPart whole term.now → All (IsPiece whole frame) pieces.old.items → OnOk result (All (IsPiece whole frame) pieces.new.items) }
{
    if let Some(inner) = in_bracket(term) {
        return add_conjuncts(inner, frame, pieces);
    }
    match sides_of(term) {
        None => add(term, frame, pieces),
        Some((left, right)) => {
            add_conjuncts(left, frame, pieces)?;
            add_conjuncts(right, frame, pieces)
        }
    }
}

/// What stands in brackets, if the term does.
fn in_bracket<'t, 'a>(term: &'t Resolved<'a>) -> Option<&'t Resolved<'a>>
    ensures falsifies { IfSome result (λ x. Falsifies (resolved_of x.now) (resolved_of term.now)) }
    ensures smaller { IfSome result (λ x. size-Resolved x.now < size-Resolved term.now) }
{
    match term {
        Resolved::Bracket(_, inner) => Some(inner.get()),
        _ => None,
    }
}

/// Both sides of a conjunction.
fn sides_of<'t, 'a>(term: &'t Resolved<'a>) -> Option<(&'t Resolved<'a>, &'t Resolved<'a>)>
    ensures left { IfSome result (λ both. Falsifies (resolved_of both.0.now) (resolved_of term.now)) }
    ensures right { IfSome result (λ both. Falsifies (resolved_of both.1.now) (resolved_of term.now)) }
    ensures smaller_left { IfSome result (λ both. size-Resolved both.0.now < size-Resolved term.now) }
    ensures smaller_right { IfSome result (λ both. size-Resolved both.1.now < size-Resolved term.now) }
{
    let Resolved::Binary(_, operator, left, right) = term else {
        return None;
    };
    if is_and(*operator) {
        Some((left.get(), right.get()))
    } else {
        None
    }
}

fn is_and(operator: Operator) -> bool
    ensures { IsTrue result → operator ≡ symbol.Connective And }
{
    matches!(operator, Operator::Connective(Connective::And))
}

/// Adds a predicate, if it does not need the last variable, or tells which value that has to have.
fn add<'t, 'a>(
    term: &'t Resolved<'a>,
    frame: Frame,
    pieces: &mut Vec<Piece<'t, 'a>>,
) -> Result<(), AllocError>
    ensures { (whole : resolved.Resolved) → IsPart whole term.now → All (IsPiece whole frame) pieces.old.items → OnOk result (All (IsPiece whole frame) pieces.new.items) }
{
    let last = last_local(term, frame.whole);
    let wanted = wanted_by(term, frame);
    if last >= frame.whole && wanted.is_none() {
        return Ok(());
    }
    let front = last.saturating_sub(frame.outside);
    pieces.push(Piece {
        term,
        front,
        wanted,
    })?;
    Ok(())
}

/// What an equation needs a variable of the binder to be, if its other side names earlier ones alone.
fn wanted_by<'t, 'a>(term: &'t Resolved<'a>, frame: Frame) -> Option<Wanted<'t, 'a>>
    ensures { IfSome result (IsWanted term.now frame) }
{
    let Some((left, right)) = equated(term) else {
        return None;
    };
    match wanted_of(left, right, frame) {
        None => wanted_of(right, left, frame),
        Some(wanted) => Some(wanted),
    }
}

/// What a variable of the binder has to be if the two are equal.
fn wanted_of<'t, 'a>(
    variable: &Resolved<'a>,
    term: &'t Resolved<'a>,
    frame: Frame,
) -> Option<Wanted<'t, 'a>>
    ensures variable { IfSome result (λ w. IsVariable w.local (resolved_of variable.now)) }
    ensures term { IfSome result (λ w. w.term.now ≡ term.now) }
    ensures earlier { IfSome result (IsEarlier frame) }
{
    let Some(local) = local_of(variable) else {
        return None;
    };
    if local < frame.outside {
        return None;
    }
    if last_local(term, frame.whole) > local {
        return None;
    }
    Some(Wanted { term, local })
}

/// The place of a bound variable, if the term is one.
fn local_of(term: &Resolved<'_>) -> Option<usize>
    ensures { IfSome result (λ place. IsVariable place (resolved_of term.now)) }
{
    let Resolved::Name(_, reference) = term else {
        return None;
    };
    place_of(*reference)
}

fn place_of(reference: Reference) -> Option<usize>
    ensures { IfSome result (λ place. reference ≡ references.Local place) }
{
    match reference {
        Reference::Local(place) => Some(place),
        _ => None,
    }
}

/// Both sides of an equation.
fn equated<'t, 'a>(term: &'t Resolved<'a>) -> Option<(&'t Resolved<'a>, &'t Resolved<'a>)>
    ensures is { IfSome result (λ both. IsEquation (resolved_of both.0.now) (resolved_of both.1.now) (resolved_of term.now)) }
    ensures smaller_left { IfSome result (λ both. size-Resolved both.0.now < size-Resolved term.now) }
    ensures smaller_right { IfSome result (λ both. size-Resolved both.1.now < size-Resolved term.now) }
{
    let Resolved::Chain(_, first, further) = term else {
        return None;
    };
    match equal_to(further.as_slice()) {
        None => None,
        Some(right) => Some((first.get(), right)),
    }
}

/// The operand after the one link of a chain, if that is an equation.
fn equal_to<'t, 'a>(links: &'t [ResolvedLink<'a>]) -> Option<&'t Resolved<'a>>
    ensures { IfSome result (λ x. (k : link.ResolvedLink) × (links.now ≡ k ∷ []) × (k.relation ≡ relations.Equal) × (k.right ≡ x.now)) }
{
    if links.len() != 1 {
        return None;
    }
    let link = &links[0];
    match link.relation {
        Relation::Equal => Some(&link.right),
        _ => None,
    }
}

/// Which rows may be passed where a variable has to equal what was found.
pub(super) fn passing_by<'v>(
    found: Found<'v>,
    local: usize,
    outside: usize,
    bound: &[&Value],
) -> Option<Passing<'v>>
    ensures other { IfSome result (λ p. IsOther (found_outcome found.entry) (slice_get (seen bound.now) local)) }
    ensures passes { outside ≤ local → IfSome result (λ p. (place : ℕ) × (outside + place ≡ local) × PassesBy (found_outcome found.entry) place p) }
{
    let place = local.saturating_sub(outside);
    match found {
        Found::Out => None,
        Found::Undefined => Some(Passing::Front(place)),
        Found::Is(value) => {
            if is_bound(bound, local, value.get()) {
                None
            } else {
                Some(Passing::Others(place, value))
            }
        }
    }
}

/// Whether the variable at the place is bound to the value.
fn is_bound(bound: &[&Value], place: usize, value: &Value) -> bool
    ensures { IsTrue result ↔ (slice_get (seen bound.now) place ≡ Some value.now) }
{
    if place < bound.len() {
        bound[place].equals(value)
    } else {
        false
    }
}

/// Which rows beside one of this truth don't count, where all tell the same that begin with the same values, so many.
pub(super) fn passing_after<'v>(
    quantifier: Quantifier,
    truth: Truth,
    frame: Frame,
    front: usize,
) -> Passing<'v>
    ensures { (result ≡ passing.Front frame.whole) ⊎ ((truth ≡ spec.neutral quantifier) × (result ≡ passing.Front front)) }
{
    if truth == neutral(quantifier) {
        Passing::Front(front)
    } else {
        Passing::Front(frame.whole)
    }
}

/// What a quantifier tells of a row that does not count.
pub(super) fn neutral(quantifier: Quantifier) -> Truth
    ensures { result ≡ spec.neutral quantifier }
{
    match quantifier {
        Quantifier::ForAll => Truth::True,
        Quantifier::Exists => Truth::False,
        Quantifier::ExistsOne => Truth::False,
    }
}

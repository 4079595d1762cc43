//! What the operands of a relation come to.
ghost use Rattle.std.specs.Prelude.{◌≡◌, IfOk, Some, map};
ghost use Rattle.zf_why.specs.Prelude.{links, resolved_link_of, resolved_of, environment_of, in_row};
ghost use Rattle.zf_why.specs.{AreOperandsOf, AreOutcomesIn};
ghost use Rattle.zf_why.specs.Operands as spec;

use crate::held_row::HeldRow;
use crate::told::{Operand, Operands};
use crate::unheld::names_held;
use std::alloc::AllocError;
use zf_meaning::{Env, Row, value_of};
use zf_term::{Resolved, ResolvedLink};
use zf_tree::{Relation, Span};
use zf_value::{Form, Outcome, Value};

/// Of a relation that names held components alone what both operands come to.
pub fn operands_told<'a>(
    term: &Resolved<'a>,
    held: &[Option<Value>],
    env: &Env<'_, 'a>,
) -> Result<Option<Operands>, AllocError>
    ensures { IfOk result (AreOperandsOf (environment_of env.now) held.now (resolved_of term.now)) }
{
    if !names_held(term, held) {
        return Ok(None);
    }
    let other = Value { form: Form::Int(0) };
    let row = HeldRow {
        held,
        other: &other,
    };
    relation_in(term, &row, env)
}

/// What the operands of a relation come to in a row.
#[cycle(relation)]
#[tactic(auto, using(zf_term::proofs::ResolvedSeen::seen))]
fn relation_in<'a, R: Row>(
    term: &Resolved<'a>,
    row: &R,
    env: &Env<'_, 'a>,
) -> Result<Option<Operands>, AllocError>
    ensures { IfOk result (AreOutcomesIn (in_row (environment_of env.now) (R.values row.now)) (spec.relation_of (resolved_of term.now))) }
{
    match term {
        Resolved::Bracket(_, inner) => relation_in(inner.get(), row, env),
        Resolved::Chain(_, first, further) => chain_in(first.get(), further.as_slice(), row, env),
        Resolved::Name(_, _) => Ok(None),
        Resolved::Number(_, _) => Ok(None),
        Resolved::Constant(_, _) => Ok(None),
        Resolved::EmptySet(_, _) => Ok(None),
        Resolved::Listed(_, _, _) => Ok(None),
        Resolved::Comprehension(_, _, _, _) => Ok(None),
        Resolved::Unary(_, _, _) => Ok(None),
        Resolved::Binary(_, _, _, _) => Ok(None),
        Resolved::Quantified(_, _, _, _, _) => Ok(None),
    }
}

/// What both operands of a chain come to, if it has two.
fn chain_in<'a, R: Row>(
    first: &Resolved<'a>,
    further: &[ResolvedLink<'a>],
    row: &R,
    env: &Env<'_, 'a>,
) -> Result<Option<Operands>, AllocError>
    ensures { IfOk result (AreOutcomesIn (in_row (environment_of env.now) (R.values row.now)) (spec.of_two (resolved_of first.now) (links (map resolved_link_of further.now)))) }
{
    if further.len() != 1 {
        return Ok(None);
    }
    both_in(first, &further[0], row, env)
}

/// What two operands come to.
fn both_in<'a, R: Row>(
    first: &Resolved<'a>,
    link: &ResolvedLink<'a>,
    row: &R,
    env: &Env<'_, 'a>,
) -> Result<Option<Operands>, AllocError>
    ensures { IfOk result (AreOutcomesIn (in_row (environment_of env.now) (R.values row.now)) (Some (record { left = resolved_of first.now; relation = link.now.relation; right = resolved_of link.now.right }))) }
{
    let left = value_of(first, &*row, &*env)?;
    let outcome = value_of(&link.right, &*row, &*env)?;
    let right = operand_as(is_tested(link.relation), link.right.span(), outcome);
    Ok(Some(Operands { left, right }))
}

/// What it comes to; where that is out of bounds, and it is only tested, its place.
fn operand_as(tested: bool, span: Span, outcome: Outcome) -> Operand
    ensures { result ≡ spec.operand_as tested span outcome }
{
    match outcome {
        Outcome::Out if tested => Operand::Stands(span),
        outcome => Operand::Comes(outcome),
    }
}

/// Whether a relation only tests its right operand: for a member, or for a subset.
fn is_tested(relation: Relation) -> bool
    ensures { result ≡ spec.is_tested relation }
{
    matches!(
        relation,
        Relation::Member | Relation::NotMember | Relation::Subset | Relation::ProperSubset
    )
}

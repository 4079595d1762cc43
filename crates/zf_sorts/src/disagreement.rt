//! What is wrong with two operands that a rule doesn't take together.
ghost use Rattle.std.specs.Prelude.{◌≡◌, IfOk, MatchOption};
ghost use Rattle.zf_term.specs.{mismatch, type_of};
ghost use Rattle.zf_tree.specs.{left_need, right_need};
ghost use Rattle.zf_sorts.specs.{Disagreement, IfFault, Meets, offence_of, sort_of, unfitting};

use crate::fault::{Offence, Refusal, refused};
use crate::sort::Sort;
use bumpalo::Bump;
use std::alloc::AllocError;
use zf_term::{ZType, set_type};
use zf_tree::{Rule, Span};

/// The refusal of operands that are each what its place needs, and that the rule doesn't take together.
#[inline(never)]
pub fn disagreeing<'a>(
    arena: &'a Bump,
    rule: Rule,
    left: &Sort<'a>,
    right: &Sort<'a>,
    span: Span,
) -> Refusal<'a>
    requires left { Meets (left_need rule) (sort_of left.now) }
    requires right { Meets (right_need rule) (sort_of right.now) }
    ensures { IfFault result (λ offence at. Disagreement rule (sort_of left.now) (sort_of right.now) offence × (at ≡ span)) }
{
    match disagreement(arena, rule, left, right) {
        Ok(offence) => refused(arena, offence, span),
        Err(_) => Refusal::OutOfMemory,
    }
}

fn disagreement<'a>(
    arena: &'a Bump,
    rule: Rule,
    left: &Sort<'a>,
    right: &Sort<'a>,
) -> Result<Offence<'a>, AllocError>
    requires left { Meets (left_need rule) (sort_of left.now) }
    requires right { Meets (right_need rule) (sort_of right.now) }
    ensures { IfOk result (λ o. Disagreement rule (sort_of left.now) (sort_of right.now) (offence_of o)) }
{
    match fitted(rule, left, right) {
        Some((sets, needed, found)) => unfitting(arena, sets, needed, found),
        None => Ok(Offence::Mismatch(left.share()?, right.share()?)),
    }
}

/// Where one operand has to fit the other: the type that is needed, and the one that is found. For sets, which the first says,
/// these are the types of their members.
fn fitted<'s, 'a>(
    rule: Rule,
    left: &'s Sort<'a>,
    right: &'s Sort<'a>,
) -> Option<(bool, &'s ZType<'a>, &'s ZType<'a>)>
    requires left { Meets (left_need rule) (sort_of left.now) }
    requires right { Meets (right_need rule) (sort_of right.now) }
    ensures { MatchOption result (Disagreement rule (sort_of left.now) (sort_of right.now) (mismatch (sort_of left.now) (sort_of right.now))) (λ p. Disagreement rule (sort_of left.now) (sort_of right.now) (unfitting p.0 (type_of p.1.now) (type_of p.2.now))) }
{
    match rule {
        Rule::Belonging => Some((false, right.member()?, left.ztype()?)),
        Rule::Applying => Some((false, left.sides()?.0, right.ztype()?)),
        Rule::Imaging => Some((true, left.sides()?.0, right.member()?)),
        Rule::DomainRestricting => Some((true, right.sides()?.0, left.member()?)),
        Rule::RangeRestricting => Some((true, left.sides()?.1, right.member()?)),
        Rule::Composing => Some((false, left.sides()?.1, right.sides()?.0)),
        Rule::Arithmetic
        | Rule::Interval
        | Rule::Pairing
        | Rule::SetFunction
        | Rule::Overriding
        | Rule::Relating
        | Rule::Equating
        | Rule::Including
        | Rule::Comparing
        | Rule::Connecting => None,
    }
}

/// A type is needed, and another one found; or sets of such members.
fn unfitting<'a>(
    arena: &'a Bump,
    sets: bool,
    needed: &ZType<'a>,
    found: &ZType<'a>,
) -> Result<Offence<'a>, AllocError>
    ensures { IfOk result (λ o. offence_of o ≡ unfitting sets (type_of needed.now) (type_of found.now)) }
{
    let needed = needed.share()?;
    let found = found.share()?;
    if !sets {
        return Ok(Offence::Unfit(needed, found));
    }
    let needed = set_type(arena, needed)?;
    Ok(Offence::Unfit(needed, set_type(arena, found)?))
}

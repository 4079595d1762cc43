//! The rules of types: what terms make together.
ghost use Rattle.std.specs.Prelude.{◌≡◌, ◌↔◌, IsTrue, IfOk, MatchOption};
ghost use Rattle.zf_tree.specs.declared.symbol.Prefix.TheVariants as prefix;
ghost use Rattle.zf_tree.specs.declared.operator.Sign.TheVariants as sign;
ghost use Rattle.zf_tree.specs.{left_need};
ghost use Rattle.zf_tree.specs.declared.operator.Rule.TheVariants as rule;
ghost use Rattle.zf_tree.specs.declared.operator.Unary.TheVariants as unary;
ghost use Rattle.zf_term.specs.{int, type_of};
ghost use Rattle.zf_sorts.specs.Rules as spec;
ghost use Rattle.zf_sorts.specs.{IsMade, IsMadeOfOne, Meets, predicate, relation_sort, set_sort, sort_of};

use crate::sort::Sort;
use bumpalo::Bump;
use std::alloc::AllocError;
use zf_term::{ZType, pair_type, set_type};
use zf_tree::{Constant, Need, Prefix, Rule, Sign, Unary};

/// What two operands make by a rule, where it takes them together.
pub fn combine<'a>(
    arena: &'a Bump,
    rule: Rule,
    left: &Sort<'a>,
    right: &Sort<'a>,
) -> Result<Option<Sort<'a>>, AllocError>
    ensures { IfOk result (IsMade rule (sort_of left.now) (sort_of right.now)) }
{
    match rule {
        Rule::Arithmetic | Rule::SetFunction | Rule::Overriding => alike(rule, left, right),
        Rule::Equating | Rule::Including | Rule::Comparing | Rule::Connecting => {
            Ok(compared(rule, left, right))
        }
        Rule::Belonging => Ok(belonging(left, right)),
        Rule::Interval => interval(arena, left, right),
        Rule::Pairing => paired(arena, left, right),
        Rule::Composing => composed(arena, left, right),
        Rule::DomainRestricting => domain_restricted(left, right),
        Rule::RangeRestricting => range_restricted(left, right),
        Rule::Relating => related(arena, left, right),
        Rule::Applying => applied(left, right),
        Rule::Imaging => image(arena, left, right),
    }
}

/// The sort of both operands, where they have one that the rule takes.
fn alike<'a>(rule: Rule, left: &Sort<'a>, right: &Sort<'a>) -> Result<Option<Sort<'a>>, AllocError>
    ensures { IfOk result (λ o. MatchOption o (Meets (left_need rule) (sort_of left.now) → sort_of left.now ≡ sort_of right.now → ⊥) (λ z. Meets (left_need rule) (sort_of left.now) × (sort_of left.now ≡ sort_of right.now) × (sort_of z ≡ sort_of left.now))) }
{
    if are_alike(rule, left, right) {
        Ok(Some(left.share()?))
    } else {
        Ok(None)
    }
}

/// The predicate that the operands have one sort, where they have one that the rule takes.
fn compared<'a>(rule: Rule, left: &Sort<'a>, right: &Sort<'a>) -> Option<Sort<'a>>
    ensures { MatchOption result (Meets (left_need rule) (sort_of left.now) → sort_of left.now ≡ sort_of right.now → ⊥) (λ z. Meets (left_need rule) (sort_of left.now) × (sort_of left.now ≡ sort_of right.now) × (sort_of z ≡ predicate)) }
{
    if are_alike(rule, left, right) {
        Some(Sort::Predicate)
    } else {
        None
    }
}

/// Whether both operands have one sort, which the rule takes.
fn are_alike<'a>(rule: Rule, left: &Sort<'a>, right: &Sort<'a>) -> bool
    ensures { IsTrue result ↔ (Meets (left_need rule) (sort_of left.now) × (sort_of left.now ≡ sort_of right.now)) }
{
    left.meets(rule.left_need()) && left.same(right)
}

#[tactic(auto, unfolding(crate::specs::RuleViews::IsMade))]
fn interval<'a>(
    arena: &'a Bump,
    left: &Sort<'a>,
    right: &Sort<'a>,
) -> Result<Option<Sort<'a>>, AllocError>
    ensures { IfOk result (IsMade rule.Interval (sort_of left.now) (sort_of right.now)) }
{
    if !are_alike(Rule::Interval, left, right) {
        return Ok(None);
    }
    Ok(Some(set_of_numbers(arena)?))
}

#[tactic(auto, unfolding(crate::specs::RuleViews::IsMade))]
fn paired<'a>(
    arena: &'a Bump,
    left: &Sort<'a>,
    right: &Sort<'a>,
) -> Result<Option<Sort<'a>>, AllocError>
    ensures { IfOk result (IsMade rule.Pairing (sort_of left.now) (sort_of right.now)) }
{
    let Some(first) = left.ztype() else {
        return Ok(None);
    };
    let Some(second) = right.ztype() else {
        return Ok(None);
    };
    let pair = pair_type(arena, first.share()?, second.share()?)?;
    Ok(Some(Sort::Typed(pair)))
}

#[tactic(auto, unfolding(crate::specs::RuleViews::IsMade))]
fn composed<'a>(
    arena: &'a Bump,
    left: &Sort<'a>,
    right: &Sort<'a>,
) -> Result<Option<Sort<'a>>, AllocError>
    ensures { IfOk result (IsMade rule.Composing (sort_of left.now) (sort_of right.now)) }
{
    let Some((from, middle)) = left.sides() else {
        return Ok(None);
    };
    let Some((start, into)) = right.sides() else {
        return Ok(None);
    };
    if !middle.same(start) {
        return Ok(None);
    }
    Ok(Some(relation_sort(arena, from, into)?))
}

#[tactic(auto, unfolding(crate::specs::RuleViews::IsMade))]
fn domain_restricted<'a>(left: &Sort<'a>, right: &Sort<'a>) -> Result<Option<Sort<'a>>, AllocError>
    ensures { IfOk result (IsMade rule.DomainRestricting (sort_of left.now) (sort_of right.now)) }
{
    let Some(member) = left.member() else {
        return Ok(None);
    };
    let Some((from, _)) = right.sides() else {
        return Ok(None);
    };
    if !member.same(from) {
        return Ok(None);
    }
    Ok(Some(right.share()?))
}

#[tactic(auto, unfolding(crate::specs::RuleViews::IsMade))]
fn range_restricted<'a>(left: &Sort<'a>, right: &Sort<'a>) -> Result<Option<Sort<'a>>, AllocError>
    ensures { IfOk result (IsMade rule.RangeRestricting (sort_of left.now) (sort_of right.now)) }
{
    let Some((_, into)) = left.sides() else {
        return Ok(None);
    };
    let Some(member) = right.member() else {
        return Ok(None);
    };
    if !member.same(into) {
        return Ok(None);
    }
    Ok(Some(left.share()?))
}

#[tactic(auto, unfolding(crate::specs::RuleViews::IsMade))]
fn related<'a>(
    arena: &'a Bump,
    left: &Sort<'a>,
    right: &Sort<'a>,
) -> Result<Option<Sort<'a>>, AllocError>
    ensures { IfOk result (IsMade rule.Relating (sort_of left.now) (sort_of right.now)) }
{
    let Some(from) = left.member() else {
        return Ok(None);
    };
    let Some(into) = right.member() else {
        return Ok(None);
    };
    let pair = pair_type(arena, from.share()?, into.share()?)?;
    Ok(Some(set_sort(arena, set_type(arena, pair)?)?))
}

#[tactic(auto, unfolding(crate::specs::RuleViews::IsMade))]
fn applied<'a>(left: &Sort<'a>, right: &Sort<'a>) -> Result<Option<Sort<'a>>, AllocError>
    ensures { IfOk result (IsMade rule.Applying (sort_of left.now) (sort_of right.now)) }
{
    let Some((from, into)) = left.sides() else {
        return Ok(None);
    };
    let Some(argument) = right.ztype() else {
        return Ok(None);
    };
    if !argument.same(from) {
        return Ok(None);
    }
    Ok(Some(Sort::Typed(into.share()?)))
}

#[tactic(auto, unfolding(crate::specs::RuleViews::IsMade))]
fn image<'a>(
    arena: &'a Bump,
    left: &Sort<'a>,
    right: &Sort<'a>,
) -> Result<Option<Sort<'a>>, AllocError>
    ensures { IfOk result (IsMade rule.Imaging (sort_of left.now) (sort_of right.now)) }
{
    let Some((from, into)) = left.sides() else {
        return Ok(None);
    };
    let Some(member) = right.member() else {
        return Ok(None);
    };
    if !member.same(from) {
        return Ok(None);
    }
    Ok(Some(set_sort(arena, into.share()?)?))
}

#[tactic(auto, unfolding(crate::specs::RuleViews::IsMade))]
fn belonging<'a>(left: &Sort<'a>, right: &Sort<'a>) -> Option<Sort<'a>>
    ensures { IsMade rule.Belonging (sort_of left.now) (sort_of right.now) result }
{
    let member = left.ztype()?;
    let of_set = right.member()?;
    if !member.same(of_set) {
        return None;
    }
    Some(Sort::Predicate)
}

/// What one operand makes, where the symbol takes it.
#[tactic(auto, unfolding(crate::specs::RuleViews::IsMadeOfOne))]
pub fn apply<'a>(
    arena: &'a Bump,
    op: Unary,
    operand: &Sort<'a>,
) -> Result<Option<Sort<'a>>, AllocError>
    ensures { IfOk result (IsMadeOfOne op (sort_of operand.now)) }
{
    match op {
        Unary::Sign(Sign::Minus) => Ok(given(operand, Need::Number, Sort::Typed(int_type()))),
        Unary::Sign(Sign::Symbol(prefix)) => prefixed(arena, prefix, operand),
        Unary::Inverse => inverted(arena, operand),
        Unary::Not => Ok(given(operand, Need::Predicate, Sort::Predicate)),
    }
}

/// This sort, where the operand is what is needed.
fn given<'a>(operand: &Sort<'a>, need: Need, sort: Sort<'a>) -> Option<Sort<'a>>
    ensures { MatchOption result (Meets need (sort_of operand.now) → ⊥) (λ z. Meets need (sort_of operand.now) × (sort_of z ≡ sort_of sort.entry)) }
{
    if operand.meets(need) {
        Some(sort)
    } else {
        None
    }
}

#[tactic(auto, unfolding(crate::specs::RuleViews::IsMadeOfOne))]
fn inverted<'a>(arena: &'a Bump, operand: &Sort<'a>) -> Result<Option<Sort<'a>>, AllocError>
    ensures { IfOk result (IsMadeOfOne unary.Inverse (sort_of operand.now)) }
{
    let Some((from, into)) = operand.sides() else {
        return Ok(None);
    };
    Ok(Some(relation_sort(arena, into, from)?))
}

#[tactic(auto, unfolding(crate::specs::RuleViews::IsMadeOfOne))]
fn prefixed<'a>(
    arena: &'a Bump,
    prefix: Prefix,
    operand: &Sort<'a>,
) -> Result<Option<Sort<'a>>, AllocError>
    ensures { IfOk result (IsMadeOfOne (unary.Sign (sign.Symbol prefix)) (sort_of operand.now)) }
{
    match prefix {
        Prefix::Power | Prefix::Finset => subsets(arena, operand),
        Prefix::Size => Ok(given(operand, Need::Set, Sort::Typed(int_type()))),
        Prefix::Domain => domain(arena, operand),
        Prefix::Range => range(arena, operand),
    }
}

#[tactic(auto, unfolding(crate::specs::RuleViews::IsMadeOfOne))]
fn domain<'a>(arena: &'a Bump, operand: &Sort<'a>) -> Result<Option<Sort<'a>>, AllocError>
    ensures { IfOk result (IsMadeOfOne (unary.Sign (sign.Symbol prefix.Domain)) (sort_of operand.now)) }
{
    let Some((from, _)) = operand.sides() else {
        return Ok(None);
    };
    Ok(Some(set_sort(arena, from.share()?)?))
}

#[tactic(auto, unfolding(crate::specs::RuleViews::IsMadeOfOne))]
fn range<'a>(arena: &'a Bump, operand: &Sort<'a>) -> Result<Option<Sort<'a>>, AllocError>
    ensures { IfOk result (IsMadeOfOne (unary.Sign (sign.Symbol prefix.Range)) (sort_of operand.now)) }
{
    let Some((_, into)) = operand.sides() else {
        return Ok(None);
    };
    Ok(Some(set_sort(arena, into.share()?)?))
}

#[tactic(auto, unfolding(crate::specs::RuleViews::IsMadeOfOne))]
fn subsets<'a>(arena: &'a Bump, operand: &Sort<'a>) -> Result<Option<Sort<'a>>, AllocError>
    ensures all { IfOk result (IsMadeOfOne (unary.Sign (sign.Symbol prefix.Power)) (sort_of operand.now)) }
    ensures finite { IfOk result (IsMadeOfOne (unary.Sign (sign.Symbol prefix.Finset)) (sort_of operand.now)) }
{
    let Some(ztype) = operand.ztype() else {
        return Ok(None);
    };
    if !ztype.is_set() {
        return Ok(None);
    }
    Ok(Some(set_sort(arena, ztype.share()?)?))
}

fn set_sort<'a>(arena: &'a Bump, member: ZType<'a>) -> Result<Sort<'a>, AllocError>
    ensures { IfOk result (λ z. sort_of z ≡ set_sort (type_of member.entry)) }
{
    Ok(Sort::Typed(set_type(arena, member)?))
}

fn set_of_numbers<'a>(arena: &'a Bump) -> Result<Sort<'a>, AllocError>
    ensures { IfOk result (λ z. sort_of z ≡ set_sort int) }
{
    set_sort(arena, int_type())
}

#[tactic(auto, using(zf_term::proofs::TypesSeen::seen))]
fn int_type<'a>() -> ZType<'a>
    ensures { type_of result ≡ int }
{
    ZType::Int
}

fn relation_sort<'a>(
    arena: &'a Bump,
    from: &ZType<'a>,
    into: &ZType<'a>,
) -> Result<Sort<'a>, AllocError>
    ensures { IfOk result (λ z. sort_of z ≡ relation_sort (type_of from.now) (type_of into.now)) }
{
    set_sort(arena, pair_type(arena, from.share()?, into.share()?)?)
}

/// The sort of a constant.
pub fn constant_sort<'a>(arena: &'a Bump, constant: Constant) -> Result<Sort<'a>, AllocError>
    ensures { IfOk result (λ z. sort_of z ≡ spec.constant_sort constant) }
{
    match constant {
        Constant::True | Constant::False => Ok(Sort::Predicate),
        Constant::Integers | Constant::Naturals | Constant::Positives => set_of_numbers(arena),
    }
}

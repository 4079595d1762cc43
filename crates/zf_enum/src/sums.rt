//! Relations between sums, and the places of a range that they leave.
ghost use Rattle.std.specs.Prelude.{◌≡◌, ◌<◌, ℕ, ℤ, pos, ◌-ℤ◌, ◌≤ℤ◌, List, length, false, true, AllPairs, Contains, FitsSigned, IfOk, IfSome, IsTrue, OnOk, Some, slice_get};
ghost use Rattle.zf_enum.specs.Prelude.{w32, Less, is_membership, resolved_of, ResolvedTree, Int, Is, value_order, Holds, InfixOutcome, AreAscending, AreWithin, StaysIn, environment_of};
ghost use Rattle.zf_tree.specs.declared.operator.Sign.TheVariants.{Minus};
ghost use Rattle.zf_plan.specs.Choices.{Leaves};
ghost use Rattle.zf_enum.specs.Property as spec;
ghost use Rattle.zf_enum.specs.{AreRuledOut, IsDifferenceOf, IsIntervalAhead, IsIntervalOf, IsIntervalOver, IsRuledOut, IsSmall};
ghost use Rattle.zf_enum.specs.Spans.{Spans};

use crate::due::needs_first;
use crate::fixing::{is_equality, is_named, relation_of};
use crate::interval::{Interval, Untold};
use crate::shown::Shown;
use std::alloc::AllocError;
use zf_meaning::{Env, value_of};
use zf_reference::Reference;
use zf_term::Resolved;
use zf_tree::{Infix, Operator, Relation, Sign, Unary};
use zf_value::{Outcome, Value};
use zf_walk::{Picked, Range};

// ---- which relations are asked

/// Whether a relation compares sums of which a component is a summand.
pub(crate) fn balances(term: &Resolved<'_>, component: usize) -> bool {
    let Some(it) = relation_of(term) else {
        return false;
    };
    compares(it.relation)
        && !(is_bare(it.left) && is_bare(it.right))
        && (is_summand(it.left, component) || is_summand(it.right, component))
}

/// Whether the predicate is an equation.
pub(crate) fn equates(term: &Resolved<'_>) -> bool {
    match relation_of(term) {
        Some(it) => is_equality(it.relation),
        None => false,
    }
}

/// Whether a relation is one of numbers, or an equation.
pub fn compares(relation: Relation) -> bool {
    match relation {
        Relation::Equal => true,
        Relation::Less => true,
        Relation::AtMost => true,
        Relation::Greater => true,
        Relation::AtLeast => true,
        _ => false,
    }
}

/// Whether the term is a name or a number.
fn is_bare(term: &Resolved<'_>) -> bool {
    matches!(term, Resolved::Name(_, _) | Resolved::Number(_, _))
}

/// Whether a component stands in a sum, by itself or as a factor.
#[cycle(is_summand)]
fn is_summand(term: &Resolved<'_>, component: usize) -> bool {
    match term {
        Resolved::Name(_, reference) => is_named(*reference, component),
        Resolved::Bracket(_, inner) => is_summand(inner.get(), component),
        Resolved::Unary(_, Unary::Sign(Sign::Minus), of) => is_summand(of.get(), component),
        Resolved::Binary(_, Operator::Function(op), left, right) => {
            adds(*op) && (is_summand(left.get(), component) || is_summand(right.get(), component))
        }
        _ => false,
    }
}

fn is_minus(sign: Sign) -> bool
    ensures { IsTrue result → sign ≡ Minus }
{
    matches!(sign, Sign::Minus)
}

fn adds(op: Infix) -> bool {
    matches!(op, Infix::Plus | Infix::Minus | Infix::Times)
}

// ---- what they leave

/// Gathers the places of the next range with which a relation between sums may hold. Answers false where it isn't known, or where these are many.
pub(crate) fn gather_balanced<'a>(
    term: &Resolved<'a>,
    ranges: &[Range<Value>],
    places: &[usize],
    env: &Env<'_, 'a>,
    gathered: &mut Vec<usize>,
) -> Result<bool, AllocError>
    requires ascending { AreAscending value_order ranges.now }
    requires within { AreWithin ranges.now places.now }
    requires deeper { length places.now < length ranges.now }
    ensures stay { StaysIn gathered.old.items gathered.new.items }
    ensures leaves { IfOk result (λ found. IsTrue found → (ts : List ResolvedTree) (leaf : ℕ) → slice_get ts leaf ≡ Some (resolved_of term.now) → Leaves (spec.property (environment_of env.now) ts) leaf ranges.now places.now gathered.new.items) }
{
    let Some(it) = relation_of(term) else {
        return Ok(false);
    };
    let next = places.len();
    match difference(it.left, it.right, ranges, places, env) {
        Ok(interval) => gather_possible(it.relation, interval, &ranges[next], gathered),
        Err(Untold::Unknown) => Ok(false),
        Err(Untold::OutOfMemory) => Err(AllocError),
    }
}

/// The difference of two expressions.
fn difference<'a>(
    left: &Resolved<'a>,
    right: &Resolved<'a>,
    ranges: &[Range<Value>],
    places: &[usize],
    env: &Env<'_, 'a>,
) -> Result<Interval, Untold>
    requires ascending { AreAscending value_order ranges.now }
    requires within { AreWithin ranges.now places.now }
    ensures { IfOk result (IsDifferenceOf (environment_of env.now) (resolved_of left.now) (resolved_of right.now) ranges.now places.now) }
{
    let left = interval_of(left, ranges, places, env)?;
    let right = interval_of(right, ranges, places, env)?;
    left.minus(right)
}

/// Gathers the places of a range with which a relation of this difference to 0 may hold, unless these are many.
fn gather_possible(
    relation: Relation,
    interval: Interval,
    range: &Range<Value>,
    gathered: &mut Vec<usize>,
) -> Result<bool, AllocError>
    ensures stay { StaysIn gathered.old.items gathered.new.items }
    ensures ruled_out { IfOk result (λ found. IsTrue found → AreRuledOut relation interval range.now gathered.new.items) }
{
    if !are_few(relation, interval, range) {
        return Ok(false);
    }
    for place in 0..range.values.len() {
        gather_if_possible(relation, interval, &range.values[place], place, gathered)?;
    }
    Ok(true)
}

/// Gathers the place of a value with which a relation of this difference to 0 may hold.
fn gather_if_possible(
    relation: Relation,
    interval: Interval,
    value: &Value,
    place: usize,
    gathered: &mut Vec<usize>,
) -> Result<(), AllocError>
    ensures stay { StaysIn gathered.old.items gathered.new.items }
    ensures kept { OnOk result ((Contains gathered.new.items place → ⊥) → IsRuledOut relation interval value.now) }
{
    if !is_possible_with(relation, interval, value) {
        return Ok(());
    }
    gathered.push(place)?;
    Ok(())
}

/// Whether a relation of this difference to 0 may hold with few values of a range: at most 64, and half of them.
fn are_few(relation: Relation, interval: Interval, range: &Range<Value>) -> bool {
    let end = range.values.len();
    let mut count: usize = 0;
    for place in 0..end {
        if is_possible_with(relation, interval, &range.values[place]) {
            count = count.saturating_add(1);
        }
    }
    count <= 64 && count <= end / 2
}

/// Whether a relation of this difference to 0 may hold with a value.
fn is_possible_with(relation: Relation, interval: Interval, value: &Value) -> bool
    ensures { result ≡ false → IsRuledOut relation interval value.now }
{
    let Some(n) = small(value) else {
        return true;
    };
    is_possible(
        relation,
        interval.at(n, interval.low),
        interval.at(n, interval.high),
    )
}

/// Whether the relation may hold between numbers whose difference lies from one to another.
fn is_possible(relation: Relation, low: i64, high: i64) -> bool
    ensures membership { result ≡ false → is_membership relation ≡ false }
    ensures ruled_out { result ≡ false → (a b : ℤ) → (low ≤ℤ (a -ℤ b)) → ((a -ℤ b) ≤ℤ high) → Holds relation (Int a) (Int b) → ⊥ }
{
    match relation {
        Relation::Equal => low <= 0 && 0 <= high,
        Relation::Less => low < 0,
        Relation::AtMost => low <= 0,
        Relation::Greater => 0 < high,
        Relation::AtLeast => 0 <= high,
        _ => true,
    }
}

// ---- sums

/// What a sum comes to with a value of the next component, whatever the values after it are.
#[cycle(spanning)]
#[tactic(auto, using(zf_term::proofs::ResolvedSeen::seen))]
fn interval_of<'a>(
    term: &Resolved<'a>,
    ranges: &[Range<Value>],
    places: &[usize],
    env: &Env<'_, 'a>,
) -> Result<Interval, Untold>
    requires ascending { AreAscending value_order ranges.now }
    requires within { AreWithin ranges.now places.now }
    ensures { IfOk result (IsIntervalOf (environment_of env.now) (resolved_of term.now) ranges.now places.now) }
{
    match term {
        Resolved::Name(_, reference) => match *reference {
            Reference::Component(place) if place >= places.len() => {
                interval_ahead(place, ranges, places.len())
            }
            _ => interval_of_value(term, ranges, places, env),
        },
        Resolved::Number(_, n) => interval_of_number(*n),
        Resolved::Bracket(_, inner) => interval_of(inner.get(), ranges, places, env),
        Resolved::Unary(_, op, of) => match op {
            Unary::Sign(sign) => {
                if !is_minus(*sign) {
                    return interval_of_value(term, ranges, places, env);
                }
                let of = interval_of(of.get(), ranges, places, env)?;
                of.multiplied(-1)
            }
            _ => interval_of_value(term, ranges, places, env),
        },
        Resolved::Binary(_, op, left, right) => match op {
            Operator::Function(op) => {
                if !adds(*op) {
                    return interval_of_value(term, ranges, places, env);
                }
                let left = interval_of(left.get(), ranges, places, env)?;
                let right = interval_of(right.get(), ranges, places, env)?;
                combined(*op, left, right)
            }
            _ => interval_of_value(term, ranges, places, env),
        },
        _ => interval_of_value(term, ranges, places, env),
    }
}

/// The value of an expression that needs no more values than those that are bound.
fn interval_of_value<'a>(
    term: &Resolved<'a>,
    ranges: &[Range<Value>],
    places: &[usize],
    env: &Env<'_, 'a>,
) -> Result<Interval, Untold>
    requires within { AreWithin ranges.now places.now }
    ensures { IfOk result (IsIntervalOf (environment_of env.now) (resolved_of term.now) ranges.now places.now) }
{
    if !needs_first(term, places.len(), ranges.len()) {
        return Err(Untold::Unknown);
    }
    let row = Picked::new(ranges, places);
    let shown = Shown { row: &row };
    let outcome = value_of(term, &shown, env)?;
    interval_of_outcome(&outcome)
}

fn interval_of_outcome(outcome: &Outcome) -> Result<Interval, Untold>
    ensures { IfOk result (λ s. (n : ℤ) × (outcome.now ≡ Is (Int n)) × ((v : ℤ) → Spans s v n)) }
{
    let Outcome::Is(value) = outcome else {
        return Err(Untold::Unknown);
    };
    match small(value) {
        Some(n) => Ok(Interval::point(n)),
        None => Err(Untold::Unknown),
    }
}

fn interval_of_number(n: u64) -> Result<Interval, Untold>
    ensures { IfOk result (λ s. FitsSigned w32 (pos n) × ((v : ℤ) → Spans s v (pos n))) }
{
    match i32::try_from(n) {
        Ok(n) => Ok(Interval::point(n)),
        Err(_) => Err(Untold::Unknown),
    }
}

/// The value of the next component, or any that one after it may have.
fn interval_ahead(place: usize, ranges: &[Range<Value>], next: usize) -> Result<Interval, Untold>
    requires ascending { AreAscending value_order ranges.now }
    ensures { IfOk result (IsIntervalAhead ranges.now next place) }
{
    if place == next {
        return Ok(Interval {
            times: 1,
            low: 0,
            high: 0,
        });
    }
    if place < ranges.len() {
        return interval_over(&ranges[place]);
    }
    Err(Untold::Unknown)
}

/// Any value of a range.
fn interval_over(range: &Range<Value>) -> Result<Interval, Untold>
    requires { AllPairs (λ v w. value_order v w ≡ Less) range.now }
    ensures { IfOk result (IsIntervalOver range.now) }
{
    let count = range.values.len();
    if count == 0 {
        return Err(Untold::Unknown);
    }
    let Some(low) = small(&range.values[0]) else {
        return Err(Untold::Unknown);
    };
    let Some(high) = small(&range.values[count - 1]) else {
        return Err(Untold::Unknown);
    };
    Ok(Interval {
        times: 0,
        low,
        high,
    })
}

/// The number of 32 bits that a value is, if it is one.
fn small(value: &Value) -> Option<i32>
    ensures { IfSome result (λ n. value.now ≡ Int n) }
{
    let Some(n) = value.number() else {
        return None;
    };
    match i32::try_from(n) {
        Ok(n) => Some(n),
        Err(_) => None,
    }
}

/// What an operation makes of two numbers.
fn combined(op: Infix, left: Interval, right: Interval) -> Result<Interval, Untold>
    ensures { IfOk result (λ s. IsSmall s × ((v m n : ℤ) → FitsSigned w32 v → Spans left v m → Spans right v n → (k : ℤ) × InfixOutcome op (Int m) (Int n) (Is (Int k)) × Spans s v k)) }
{
    match op {
        Infix::Plus => left.plus(right),
        Infix::Minus => left.minus(right),
        Infix::Times => left.product(right),
        _ => Err(Untold::Unknown),
    }
}

//! Searches that end before they ask for what is costly, since no value of a component passes a conjunct.
use std::alloc::AllocError;
use zf_enum::{Repeated, compares, is_there, last_up_to, relation_of};
use zf_meaning::{Env, truth_of};
use zf_term::{Links, Resolved, Terms};
use zf_tree::{Infix, Listed, Operator, Prefix, Sign, Unary};
use zf_value::{Truth, Value};
use zf_walk::Range;

/// The most values that are tried of all components.
const MOST_VALUES: usize = 4096;

/// Whether there are costly leaves, and the search ends before it asks for one: no value of a component that isn't held passes a leaf that has to hold and names that component alone.
pub(crate) fn is_hopeless<'a>(
    required: &[usize],
    leaves: &[Resolved<'a>],
    ranges: &[Range<Value>],
    held: &[Option<Value>],
    env: &Env<'_, 'a>,
) -> Result<bool, AllocError> {
    let first = first_costly(leaves);
    if first == usize::MAX {
        return Ok(false);
    }
    let most = MOST_VALUES / required.len().max(1);
    for leaf in required {
        let Some(term) = leaves.get(*leaf) else {
            continue;
        };
        let Some(component) = only_named(term) else {
            continue;
        };
        let asked = turn(component.saturating_add(1), *leaf, leaves.len());
        if asked < first
            && !matches!(held.get(component), Some(Some(_)))
            && excludes_all(term, component, ranges, most, env)?
        {
            return Ok(true);
        }
    }
    Ok(false)
}

/// Whether no value of the component passes the leaf, if it has at most so many.
fn excludes_all<'a>(
    term: &Resolved<'a>,
    component: usize,
    ranges: &[Range<Value>],
    most: usize,
    env: &Env<'_, 'a>,
) -> Result<bool, AllocError> {
    let Some(range) = ranges.get(component) else {
        return Ok(false);
    };
    if range.values.len() > most {
        return Ok(false);
    }
    let count = component.saturating_add(1);
    for value in &range.values {
        let row = Repeated { value, count };
        if !matches!(truth_of(term, &row, env)?, Truth::False) {
            return Ok(false);
        }
    }
    Ok(true)
}

/// The one component that a term names.
fn only_named(term: &Resolved<'_>) -> Option<usize> {
    let component = last_up_to(term, usize::MAX)?;
    match component.checked_sub(1) {
        Some(before) if last_up_to(term, before).is_some() => None,
        _ => Some(component),
    }
}

/// When the search first asks for a costly leaf; if there is none, the greatest number.
fn first_costly(leaves: &[Resolved<'_>]) -> usize {
    let mut first = usize::MAX;
    for leaf in 0..leaves.len() {
        let term = &leaves[leaf];
        if is_costly(term) {
            first = first.min(turn(bound_of(term), leaf, leaves.len()));
        }
    }
    first
}

/// When the search asks for this leaf of so many, where so many first components have values by then.
fn turn(bound: usize, leaf: usize, leaves: usize) -> usize {
    bound.saturating_mul(leaves).saturating_add(leaf)
}

/// How many first components have values when the search asks for a leaf. It may ask for one that narrows a range before any has.
fn bound_of(term: &Resolved<'_>) -> usize {
    match last_up_to(term, usize::MAX) {
        Some(place) if !may_narrow(term) => place.saturating_add(1),
        _ => 0,
    }
}

/// Whether a leaf may narrow the range of a component.
fn may_narrow(term: &Resolved<'_>) -> bool {
    match term {
        Resolved::Quantified(quantifier, _, _, _, _) => is_there(*quantifier),
        _ => match relation_of(term) {
            Some(it) => compares(it.relation),
            None => false,
        },
    }
}

/// Whether it may take long to find the truth or the outcome of a term: it binds variables, or makes a set from bounds or other sets.
#[cycle(costly)]
fn is_costly(term: &Resolved<'_>) -> bool {
    match term {
        Resolved::Comprehension(_, _, _, _) => true,
        Resolved::Quantified(_, _, _, _, _) => true,
        Resolved::Listed(_, Listed::Product, _) => true,
        Resolved::Listed(_, _, items) => has_costly(items),
        Resolved::Unary(_, Unary::Sign(Sign::Symbol(Prefix::Power)), _) => true,
        Resolved::Unary(_, Unary::Sign(Sign::Symbol(Prefix::Finset)), _) => true,
        Resolved::Unary(_, _, of) => is_costly(of.get()),
        Resolved::Binary(_, Operator::Generic(_), _, _) => true,
        Resolved::Binary(_, Operator::Function(Infix::UpTo), _, _) => true,
        Resolved::Binary(_, _, left, right) => is_costly(left.get()) || is_costly(right.get()),
        Resolved::Bracket(_, inner) => is_costly(inner.get()),
        Resolved::Chain(_, first, links) => is_costly(first.get()) || links_costly(links),
        _ => false,
    }
}

#[cycle(costly)]
fn has_costly(items: &Terms<'_>) -> bool {
    for term in items.as_slice() {
        if is_costly(term) {
            return true;
        }
    }
    false
}

#[cycle(costly)]
fn links_costly(links: &Links<'_>) -> bool {
    for link in links.as_slice() {
        if is_costly(&link.right) {
            return true;
        }
    }
    false
}

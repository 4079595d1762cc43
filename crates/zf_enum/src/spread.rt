//! Expressions that a quantifier equates a component with, for some values of its variables.
ghost use Rattle.std.specs.Prelude.{◌≡◌, ◌<◌, ◌^◌, ℕ, List, Some, IfOk, IfSome, OnOk, IsTrue, map, slice_get};
ghost use Rattle.zf_enum.specs.Prelude.{absent, comprehension, present, range_of, ranges, resolved_of, ResolvedTree};
ghost use Rattle.zf_enum.specs.Property as spec;
ghost use Rattle.zf_enum.specs.{AddsSpreads, AreSpreads, AsksFor, Equates, IsSetOver, IsSpread, IsThere};

use crate::due::due;
use crate::fixing::fixing;
use bumpalo::Bump;
use std::alloc::{AllocError, Global};
use zf_data::arena::{Boxed, Items};
use zf_resolved::copy;
use zf_term::{Part, Range, Resolved};
use zf_tree::{Connective, Operator, Quantifier, Span};

/// The set of what a conjunct that asks for values of variables equates a component with.
#[derive(Drop)]
pub(crate) struct Spread<'a> {
    pub(crate) conjunct: usize,
    pub(crate) component: usize,
    pub(crate) set: Resolved<'a>,
}

/// The sets of these conjuncts.
pub(crate) fn spreads<'a>(
    alloc: Global,
    arena: &'a Bump,
    conjuncts: &[Resolved<'a>],
) -> Result<Vec<Spread<'a>>, AllocError>
    requires { (c : ℕ) → spec.due_of (slice_get (map resolved_of conjuncts.now) c) < 2 ^ 64 }
    ensures { IfOk result (λ found. AreSpreads (map resolved_of conjuncts.now) found.items) }
{
    let mut found = Vec::new(alloc);
    for conjunct in 0..conjuncts.len() {
        add_spreads(arena, conjunct, &conjuncts[conjunct], &mut found)?;
    }
    Ok(found)
}

/// Adds the sets of a conjunct.
fn add_spreads<'a>(
    arena: &'a Bump,
    conjunct: usize,
    term: &Resolved<'a>,
    found: &mut Vec<Spread<'a>>,
) -> Result<(), AllocError>
    requires { spec.due (resolved_of term.now) < 2 ^ 64 }
    ensures { OnOk result (AddsSpreads (resolved_of term.now) conjunct found.old.items found.new.items) }
{
    for component in 0..due(term) {
        add_spread(arena, conjunct, component, term, found)?;
    }
    Ok(())
}

/// Adds the set of a conjunct and a component, if there is one.
fn add_spread<'a>(
    arena: &'a Bump,
    conjunct: usize,
    component: usize,
    term: &Resolved<'a>,
    found: &mut Vec<Spread<'a>>,
) -> Result<(), AllocError>
    ensures { OnOk result (AddsSpreads (resolved_of term.now) conjunct found.old.items found.new.items) }
{
    let Some(set) = spread_of(arena, term, component)? else {
        return Ok(());
    };
    found.push(Spread {
        conjunct,
        component,
        set,
    })?;
    Ok(())
}

/// The set of a conjunct and a component, if there is one.
pub(crate) fn spread_at<'s, 'a>(
    spreads: &'s [Spread<'a>],
    conjunct: usize,
    component: usize,
) -> Option<&'s Resolved<'a>>
    ensures { (ts : List ResolvedTree) → AreSpreads ts spreads.now → IfSome result (λ set. IfSome (slice_get ts conjunct) (λ p. IsSpread p component (resolved_of set.now))) }
{
    for spread in spreads {
        if spread.conjunct == conjunct && spread.component == component {
            return Some(&spread.set);
        }
    }
    None
}

/// The set of what a predicate equates the component with, if it asks for values of variables.
fn spread_of<'a>(
    arena: &'a Bump,
    term: &Resolved<'a>,
    component: usize,
) -> Result<Option<Resolved<'a>>, AllocError>
    ensures { IfOk result (λ found. IfSome found (λ set. IsSpread (resolved_of term.now) component (resolved_of set))) }
{
    let Some(side) = asked(term, component) else {
        return Ok(None);
    };
    let member = copy(side, arena)?;
    set_over(arena, term, member)
}

/// The expression that a predicate equates the component with, if it asks for values of variables.
#[tactic(auto, using(zf_term::proofs::ResolvedSeen::seen))]
fn asked<'t, 'a>(term: &'t Resolved<'a>, component: usize) -> Option<&'t Resolved<'a>>
    ensures { IfSome result (λ side. AsksFor (resolved_of term.now) component (resolved_of side.now)) }
{
    let Resolved::Quantified(quantifier, _, _, _, body) = term else {
        return None;
    };
    if !is_there(*quantifier) {
        return None;
    }
    equated(body.get(), component)
}

/// The set of what a term comes to over the ranges of a quantifier.
#[tactic(auto, using(zf_term::proofs::ResolvedSeen::seen))]
fn set_over<'a>(
    arena: &'a Bump,
    whole: &Resolved<'a>,
    term: Resolved<'a>,
) -> Result<Option<Resolved<'a>>, AllocError>
    ensures { IfOk result (λ found. IfSome found (λ set. IsSetOver (resolved_of whole.now) (resolved_of term.entry) (resolved_of set))) }
{
    let Resolved::Quantified(_, span, variables, _, _) = whole else {
        return Ok(None);
    };
    let variables = copied_ranges(arena, variables.as_slice())?;
    let set = set_of_rows(arena, *span, variables, term)?;
    Ok(Some(set))
}

/// The set of what a term comes to over these ranges.
#[tactic(auto, using(zf_term::proofs::ResolvedSeen::seen))]
fn set_of_rows<'a>(
    arena: &'a Bump,
    span: Span,
    variables: Boxed<'a, Items<'a, Range<'a>>>,
    term: Resolved<'a>,
) -> Result<Resolved<'a>, AllocError>
    ensures { IfOk result (λ set. resolved_of set ≡ comprehension span (ranges (map range_of variables.entry)) absent (present (resolved_of term.entry))) }
{
    let filter: Part<'a> = Boxed::new(arena, None)?;
    let inner = Boxed::new(arena, term)?;
    let member: Part<'a> = Boxed::new(arena, Some(inner))?;
    Ok(Resolved::Comprehension(span, variables, filter, member))
}

/// The same ranges.
fn copied_ranges<'a>(
    arena: &'a Bump,
    variables: &[Range<'a>],
) -> Result<Boxed<'a, Items<'a, Range<'a>>>, AllocError>
    ensures { IfOk result (λ s. map range_of s ≡ map range_of variables.now) }
{
    let mut all = Items::with_room(arena, variables.len())?;
    for range in variables {
        all.push(copied_range(arena, range)?)?;
    }
    Boxed::new(arena, all)
}

#[tactic(auto, using(zf_term::proofs::ResolvedSeen::parts_seen))]
fn copied_range<'a>(arena: &'a Bump, range: &Range<'a>) -> Result<Range<'a>, AllocError>
    ensures { IfOk result (λ r. range_of r ≡ range_of range.now) }
{
    Ok(Range {
        variables: range.variables,
        set: copy(&range.set, arena)?,
    })
}

/// Whether a quantifier asks for a row.
pub fn is_there(quantifier: Quantifier) -> bool
    ensures { IsTrue result → IsThere quantifier }
{
    !matches!(quantifier, Quantifier::ForAll)
}

/// The expression that a predicate equates the component with, or a side of it that has to hold.
#[cycle(equated)]
#[tactic(auto, using(zf_term::proofs::ResolvedSeen::seen))]
fn equated<'t, 'a>(term: &'t Resolved<'a>, component: usize) -> Option<&'t Resolved<'a>>
    ensures { IfSome result (λ side. Equates (resolved_of term.now) component (resolved_of side.now)) }
{
    match term {
        Resolved::Bracket(_, inner) => equated(inner.get(), component),
        Resolved::Binary(_, op, left, right) => match op {
            Operator::Connective(connective) => match connective {
                Connective::And => {
                    let first = equated(left.get(), component);
                    if first.is_some() {
                        return first;
                    }
                    equated(right.get(), component)
                }
                Connective::Or => None,
                Connective::Implies => None,
                Connective::Iff => None,
            },
            _ => None,
        },
        _ => fixing(term, component),
    }
}

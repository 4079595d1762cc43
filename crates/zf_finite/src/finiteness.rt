//! Which schemas are finite.
ghost use Rattle.std.specs.Prelude.{◌≡◌, OnOk, IfErr, Some, flat_map, map};
ghost use Rattle.zf_term.specs.{comp_of, conjunct_of, globals_of, schema_of, set_of, sets_of};
ghost use Rattle.zf_extent.specs.{first, unless};
ghost use Rattle.zf_extent.specs.Extents as extents;
ghost use Rattle.std.specs.Option.{option_or};
ghost use Rattle.zf_finite.specs.Finite as spec;
ghost use Rattle.zf_finite.specs.{IsFinite};

use crate::not_finite::NotFinite;
use zf_data::arena::{Chunked, Items};
use zf_extent::{Offender, direct, offending_after, offending_within_after};
use zf_term::{Component, Conjunct, Domain, Flat, Globals};
use zf_tree::Span;

/// Whether the schema is finite, after the globals that it is made of, with this greatest number or without one.
pub fn finite<'a>(
    numbers: Option<u16>,
    schema: &Flat<'a>,
    globals: &Globals<'a>,
) -> Result<(), NotFinite<'a>>
    ensures ok { OnOk result (IsFinite numbers (globals_of globals.now) (schema_of schema.now)) }
    ensures err { IfErr result (λ e. first (spec.causes numbers (globals_of globals.now) (schema_of schema.now)) ≡ Some e) }
{
    match components_cause(numbers, schema.components.as_slice(), globals) {
        Some(cause) => Err(cause),
        None => match conjuncts_offender(numbers, &schema.conjuncts, globals) {
            Some(offender) => Err(NotFinite::Offends(offender)),
            None => Ok(()),
        },
    }
}

/// The first that makes the components infinite.
fn components_cause<'a>(
    numbers: Option<u16>,
    components: &[Component<'a>],
    globals: &Globals<'a>,
) -> Option<NotFinite<'a>>
    ensures { result ≡ first (flat_map (spec.comp_causes numbers (globals_of globals.now)) (map comp_of components.now)) }
{
    for component in components {
        match component_cause(numbers, component, globals) {
            Some(cause) => return Some(cause),
            None => {}
        }
    }
    None
}

/// That nothing bounds the component, or the first in its declared sets that offends.
fn component_cause<'a>(
    numbers: Option<u16>,
    component: &Component<'a>,
    globals: &Globals<'a>,
) -> Option<NotFinite<'a>>
    ensures { result ≡ first (spec.comp_causes numbers (globals_of globals.now) (comp_of component.now)) }
{
    let sets = component.domains.get();
    if !is_bounded(numbers, sets, globals) {
        return Some(NotFinite::Unbounded(first_plain(sets), component.name.share()));
    }
    match sets_offender(numbers, sets, globals) {
        Some(offender) => Some(NotFinite::Offends(offender)),
        None => None,
    }
}

/// Whether one of the declared sets bounds a component.
pub fn is_bounded<'a>(
    numbers: Option<u16>,
    domains: &Chunked<'a, Domain<'a>>,
    globals: &Globals<'a>,
) -> bool
    ensures { result ≡ spec.one_bounds numbers (globals_of globals.now) (sets_of (map set_of domains.now)) }
{
    for domain in domains.iter() {
        if bounds(numbers, domain, globals) {
            return true;
        }
    }
    false
}

/// The first in the declared sets that offends, if no number is the greatest.
fn sets_offender<'a>(
    numbers: Option<u16>,
    domains: &Chunked<'a, Domain<'a>>,
    globals: &Globals<'a>,
) -> Option<Offender>
    ensures { result ≡ first (unless numbers (spec.all_set_offenders (globals_of globals.now) (sets_of (map set_of domains.now)))) }
{
    match numbers {
        Some(_) => None,
        None => offender_in(domains, globals),
    }
}

/// The first in the declared sets that offends.
fn offender_in<'a>(domains: &Chunked<'a, Domain<'a>>, globals: &Globals<'a>) -> Option<Offender>
    ensures { result ≡ first (spec.all_set_offenders (globals_of globals.now) (sets_of (map set_of domains.now))) }
{
    let mut offender = None;
    for domain in domains.iter() {
        offender = set_offending_after(domain, offender, globals);
    }
    offender
}

/// Where the first set of a declaration stands; an empty span at 0, if there is none.
pub fn first_plain<'a>(domains: &Chunked<'a, Domain<'a>>) -> Span
    ensures { result ≡ spec.first_plain (sets_of (map set_of domains.now)) }
{
    plain_in(domains).unwrap_or(Span { start: 0, stop: 0 })
}

/// Where the first set of a declaration stands, if there is one.
fn plain_in<'a>(domains: &Chunked<'a, Domain<'a>>) -> Option<Span>
    ensures { result ≡ first (spec.all_plain_spans (sets_of (map set_of domains.now))) }
{
    let mut span = None;
    for domain in domains.iter() {
        span = plain_after(domain, span);
    }
    span
}

/// The first in the conjuncts that offends, if no number is the greatest.
fn conjuncts_offender<'a>(
    numbers: Option<u16>,
    conjuncts: &Chunked<'a, Conjunct<'a>>,
    globals: &Globals<'a>,
) -> Option<Offender>
    ensures { result ≡ first (flat_map (λ t. unless numbers (extents.offending (globals_of globals.now) t)) (map conjunct_of conjuncts.now)) }
{
    match numbers {
        Some(_) => None,
        None => offender_among(conjuncts, globals),
    }
}

/// The first in the conjuncts that offends.
fn offender_among<'a>(
    conjuncts: &Chunked<'a, Conjunct<'a>>,
    globals: &Globals<'a>,
) -> Option<Offender>
    ensures { result ≡ first (flat_map (extents.offending (globals_of globals.now)) (map conjunct_of conjuncts.now)) }
{
    let mut offender = None;
    for conjunct in conjuncts.iter() {
        offender = offending_after(conjunct, offender, globals);
    }
    offender
}

/// Whether the declared set bounds a component.
#[cycle(bounds)]
#[tactic(auto, using(zf_term::proofs::SetsSeen::seen))]
pub fn bounds<'a>(numbers: Option<u16>, domain: &Domain<'a>, globals: &Globals<'a>) -> bool
    ensures { result ≡ spec.bounds numbers (globals_of globals.now) (set_of domain.now) }
{
    match domain {
        Domain::Plain(set) => numbers.is_some() || direct(set.get(), globals).is_none(),
        Domain::Carrier(ztype) => numbers.is_some() || !ztype.has_numbers(),
        Domain::Either(left, right) => one_bounds(numbers, left.get(), globals)
            && one_bounds(numbers, right.get(), globals),
    }
}

#[cycle(bounds)]
fn one_bounds<'a>(
    numbers: Option<u16>,
    domains: &Items<'a, Domain<'a>>,
    globals: &Globals<'a>,
) -> bool
    ensures { result ≡ spec.one_bounds numbers (globals_of globals.now) (sets_of (map set_of domains.now)) }
{
    for domain in domains.as_slice() {
        if bounds(numbers, domain, globals) {
            return true;
        }
    }
    false
}

#[cycle(plain)]
#[tactic(auto, using(zf_term::proofs::SetsSeen::seen, crate::proofs::FirstCauses::both_after))]
fn plain_after<'a>(domain: &Domain<'a>, found: Option<Span>) -> Option<Span>
    ensures { result ≡ option_or found (first (spec.plain_spans (set_of domain.now))) }
{
    match domain {
        Domain::Plain(set) => found.or(Some(set.get().span())),
        Domain::Carrier(_) => found,
        Domain::Either(left, right) => all_plain_after(
            right.get(),
            all_plain_after(left.get(), found),
        ),
    }
}

#[cycle(plain)]
fn all_plain_after<'a>(domains: &Items<'a, Domain<'a>>, found: Option<Span>) -> Option<Span>
    ensures { result ≡ option_or found (first (spec.all_plain_spans (sets_of (map set_of domains.now)))) }
{
    let mut span = found;
    for domain in domains.as_slice() {
        span = plain_after(domain, span);
    }
    span
}

/// What was found before, or the first in the declared set that offends.
#[cycle(sets)]
#[tactic(auto, using(zf_term::proofs::SetsSeen::seen, crate::proofs::FirstCauses::both_after))]
fn set_offending_after<'a>(
    domain: &Domain<'a>,
    found: Option<Offender>,
    globals: &Globals<'a>,
) -> Option<Offender>
    ensures { result ≡ option_or found (first (spec.set_offenders (globals_of globals.now) (set_of domain.now))) }
{
    match domain {
        Domain::Plain(set) => offending_within_after(set.get(), found, globals),
        Domain::Carrier(_) => found,
        Domain::Either(left, right) => {
            let offender = all_offending_after(left.get(), found, globals);
            all_offending_after(right.get(), offender, globals)
        }
    }
}

#[cycle(sets)]
fn all_offending_after<'a>(
    domains: &Items<'a, Domain<'a>>,
    found: Option<Offender>,
    globals: &Globals<'a>,
) -> Option<Offender>
    ensures { result ≡ option_or found (first (spec.all_set_offenders (globals_of globals.now) (sets_of (map set_of domains.now)))) }
{
    let mut offender = found;
    for domain in domains.as_slice() {
        offender = set_offending_after(domain, offender, globals);
    }
    offender
}

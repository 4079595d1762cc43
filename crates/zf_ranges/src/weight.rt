//! How many values a declared set may have, as far as it can be decided without listing them. It decides what is listed and tried, and nothing that is found.

use std::alloc::AllocError;
use zf_meaning::{Env, Row, described_in};
use zf_outcome::{Described, Found};
use zf_term::{Domain, Range, Resolved};
use zf_value::{Lent, Value};

/// The weight of a declared set; the greatest where it is not known.
pub(crate) fn weight<'a>(domain: &Domain<'a>, env: &Env<'_, 'a>) -> Result<usize, AllocError> {
    match domain {
        Domain::Plain(set) => plain_weight(set.get(), env),
        Domain::Carrier(_) => Ok(usize::MAX),
        Domain::Either(_, _) => Ok(usize::MAX),
    }
}

fn plain_weight<'a>(set: &Resolved<'a>, env: &Env<'_, 'a>) -> Result<usize, AllocError> {
    let none: &[Value] = &[];
    set_weight(set, &none, env)
}

/// How many rows the ranges of variables may have.
pub fn rows_weight<'a, R: Row>(
    ranges: &[Range<'a>],
    row: &R,
    env: &Env<'_, 'a>,
) -> Result<usize, AllocError> {
    let mut rows: usize = 1;
    for range in ranges {
        let values = set_weight(&range.set, row, env)?;
        rows = rows.saturating_mul(values.saturating_pow(exponent(range.variables)));
    }
    Ok(rows)
}

fn set_weight<'a, R: Row>(
    set: &Resolved<'a>,
    row: &R,
    env: &Env<'_, 'a>,
) -> Result<usize, AllocError> {
    match described_in(set, row, env) {
        Ok(described) => Ok(weight_of(&described)),
        Err(refused) => Err(refused),
    }
}

fn weight_of(set: &Described<'_>) -> usize {
    match set {
        Described::Plain(found) => found_weight(found),
        Described::Power(of) => 2usize.saturating_pow(exponent(of.members().len())),
        Described::Arrows(_, from, to) => {
            to.members()
                .len()
                .saturating_add(1)
                .saturating_pow(exponent(from.members().len()))
        }
        Described::Interval(from, to) => usize::try_from(to.saturating_sub(*from)).unwrap_or(0),
        Described::Product(sets) => product_weight(sets.as_slice()),
    }
}

fn found_weight(found: &Found<'_>) -> usize {
    match found {
        Found::Is(set) => set.get().members().len(),
        Found::Undefined => 0,
        Found::Out => usize::MAX,
    }
}

/// The number, counted no further than 64.
fn exponent(count: usize) -> u32 {
    match u32::try_from(count) {
        Ok(count) => count.min(64),
        Err(_) => 64,
    }
}

fn product_weight(sets: &[Lent<'_>]) -> usize {
    let mut weight: usize = 1;
    for set in sets {
        weight = weight.saturating_mul(set.get().members().len());
    }
    weight
}

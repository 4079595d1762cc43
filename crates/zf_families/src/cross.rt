//! Products.
ghost use Rattle.std.specs.Prelude.{◌≡◌, ◌+◌, ◌↔◌, ◌⊎◌, IsTrue, IfOk, map, min};
ghost use Rattle.zf_value.specs.declared.plain.Value as plain;
ghost use Rattle.zf_value.specs.{AreFrom, IsAscending, IsCross, members};
ghost use Rattle.std.specs.List.{AllByRecursion};
ghost use Rattle.zf_families.specs.{fits_any, IsTupleFrom, sizes, whole};

use crate::count;
use crate::rows::{Fits, copied, set_of_tuples, whole_rows};
use std::alloc::{AllocError, Global};
use zf_value::set::is_member;
use zf_value::{Items, Lent, Outcome, SET_MAX, Value};

/// `s_1 \cross s_2 \cross ..`, of sets.
pub fn cross(alloc: Global, sets: &[Lent<'_>]) -> Result<Outcome, AllocError>
    ensures { IfOk result (IsCross sets.now) }
{
    if is_cross_out(sets) {
        return Ok(Outcome::Out);
    }
    let rows = tuple_rows(alloc, sets)?;
    set_of_tuples(alloc, rows)
}

/// Whether the product has more members than a set may have.
pub fn is_cross_out(sets: &[Lent<'_>]) -> bool
    ensures out { IsTrue result ↔ IsCross sets.now Outcome.Out }
    ensures there { IsTrue result ⊎ ((v : plain.Value) × IsCross sets.now (Outcome.Is v)) }
{
    size(sets) > SET_MAX
}

/// Whether the value is a tuple of members of these sets.
pub fn is_in_cross(v: &Value, sets: &[Lent<'_>]) -> bool
    ensures { IsTrue result ↔ IsTupleFrom sets.now v.now }
{
    match v.as_tuple() {
        Some(parts) => are_from(parts, sets),
        None => false,
    }
}

/// Whether each is a member of the set at its place.
fn are_from(parts: &[Value], sets: &[Lent<'_>]) -> bool
    ensures { IsTrue result ↔ AreFrom parts.now sets.now }
{
    if parts.len() != sets.len() {
        return false;
    }
    for place in 0..parts.len() {
        if !is_member(&parts[place], sets[place].get()) {
            return false;
        }
    }
    true
}

/// How many members the product has, counted no further than one more than a set may have.
fn size(sets: &[Lent<'_>]) -> usize
    ensures is { result ≡ min (sizes (λ n. n) (map members sets.now)) (SET_MAX + 1) }
    ensures ascending { AllByRecursion (λ s. IsAscending (members s)) sets.now }
{
    let mut size = 1;
    for set in sets {
        size = count::product(size, set.get().members().len());
    }
    size
}

/// The tuples as rows. Where a set is empty there are none, however many the others would make.
fn tuple_rows(alloc: Global, sets: &[Lent<'_>]) -> Result<Vec<Items<Value>>, AllocError>
    ensures is { IfOk result (λ rows. rows.items ≡ whole fits_any (map members sets.now)) }
    ensures ascending { IfOk result (λ rows. AllByRecursion (λ s. IsAscending (members s)) sets.now) }
{
    if size(sets) == 0 {
        return Ok(Vec::new(alloc));
    }
    let layers = member_layers(alloc, sets)?;
    whole_rows(alloc, Fits::Any, layers.as_slice())
}

/// The members of each set.
fn member_layers(alloc: Global, sets: &[Lent<'_>]) -> Result<Vec<Items<Value>>, AllocError>
    ensures { IfOk result (λ layers. layers.items ≡ map members sets.now) }
{
    let mut layers = Vec::new(alloc);
    for set in sets {
        layers.push(copied(alloc, set.get().members())?)?;
    }
    Ok(layers)
}

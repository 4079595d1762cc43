//! Relations, functions and injections from a set to a set, by the kind of their arrow.
ghost use Rattle.std.specs.Prelude.{◌≡◌, [], ◌∷◌, ◌+◌, ◌↔◌, ◌⊎◌, IsTrue, IfOk, length, map, min};
ghost use Rattle.zf_value.specs.declared.plain.Value as plain;
ghost use Rattle.zf_value.specs.{IsAscending, members, pair};
ghost use Rattle.zf_families.specs.{AreArrows, arrow_count, arrow_rows, fitting, IsArrow, pairs, some};
ghost use Rattle.zf_tree.specs.declared.symbol.Arrow.TheVariants as kind;

use crate::count;
use crate::members::are_of_kind;
use crate::rows::{
    Fits, one_row_of, pair, pair_layers, product, set_of_sets, single_layers, some_rows, whole_rows,
};
use std::alloc::{AllocError, Global};
use zf_tree::Arrow;
use zf_value::{Items, Outcome, SET_MAX, Value};

/// `a \rel b`, or with another arrow.
pub fn arrows(alloc: Global, kind: Arrow, a: &Value, b: &Value) -> Result<Outcome, AllocError>
    ensures { IfOk result (AreArrows kind (members a.now) (members b.now)) }
{
    if are_arrows_out(kind, a, b) {
        return Ok(Outcome::Out);
    }
    let rows = rows_of(alloc, kind, a.members(), b.members())?;
    set_of_sets(alloc, rows)
}

/// Whether there are more of the kind from a to b than a set may have members.
pub fn are_arrows_out(kind: Arrow, a: &Value, b: &Value) -> bool
    ensures out { IsTrue result ↔ AreArrows kind (members a.now) (members b.now) Outcome.Out }
    ensures there { IsTrue result ⊎ ((v : plain.Value) × AreArrows kind (members a.now) (members b.now) (Outcome.Is v)) }
{
    count_of(kind, a.members(), b.members()) > SET_MAX
}

/// Whether the value is a relation of the kind from a to b.
pub fn is_arrow(kind: Arrow, v: &Value, a: &Value, b: &Value) -> bool
    ensures { IsTrue result ↔ IsArrow kind (members a.now) (members b.now) v.now }
{
    match v.as_set() {
        Some(r) => are_of_kind(kind, r, a, b),
        None => false,
    }
}

/// How many there are, counted no further than one more than a set may have.
fn count_of(kind: Arrow, a: &[Value], b: &[Value]) -> usize
    ensures { result ≡ min (arrow_count kind (length a.now) (length b.now)) (SET_MAX + 1) }
{
    match kind {
        Arrow::Relation => count::power(2, count::product(a.len(), b.len())),
        Arrow::PartialFunction => count::power(b.len() + 1, a.len()),
        Arrow::TotalFunction => count::power(b.len(), a.len()),
        Arrow::PartialInjection => count::partial_injections(a.len(), b.len()),
        Arrow::TotalInjection => count::falling(b.len(), a.len()),
    }
}

/// Each as a row of pairs.
fn rows_of(
    alloc: Global,
    kind: Arrow,
    a: &[Value],
    b: &[Value],
) -> Result<Vec<Items<Value>>, AllocError>
    requires { IsAscending b.now }
    ensures { IfOk result (λ rows. rows.items ≡ arrow_rows kind a.now b.now) }
{
    match kind {
        Arrow::Relation => relation_rows(alloc, a, b),
        Arrow::PartialFunction => partial_rows(alloc, Fits::Any, a, b),
        Arrow::TotalFunction => total_rows(alloc, a, b),
        Arrow::PartialInjection => partial_injection_rows(alloc, a, b),
        Arrow::TotalInjection => total_injection_rows(alloc, a, b),
    }
}

fn relation_rows(alloc: Global, a: &[Value], b: &[Value]) -> Result<Vec<Items<Value>>, AllocError>
    ensures { IfOk result (λ rows. rows.items ≡ arrow_rows kind.Relation a.now b.now) }
{
    let pairs = product(alloc, a, b)?;
    let layers = single_layers(alloc, pairs.as_slice())?;
    some_rows(alloc, Fits::Any, layers.as_slice())
}

fn partial_rows(
    alloc: Global,
    fits: Fits,
    a: &[Value],
    b: &[Value],
) -> Result<Vec<Items<Value>>, AllocError>
    ensures { IfOk result (λ rows. rows.items ≡ [] ∷ some (fitting fits) (map (pairs b.now) a.now)) }
{
    let layers = pair_layers(alloc, a, b)?;
    some_rows(alloc, fits, layers.as_slice())
}

/// The functions. To one member there is one, which is not built pair by pair from shorter ones.
fn total_rows(alloc: Global, a: &[Value], b: &[Value]) -> Result<Vec<Items<Value>>, AllocError>
    ensures { IfOk result (λ rows. rows.items ≡ arrow_rows kind.TotalFunction a.now b.now) }
{
    if let [y] = b {
        return one_row_of(alloc, constant(alloc, a, y)?);
    }
    let layers = pair_layers(alloc, a, b)?;
    whole_rows(alloc, Fits::Any, layers.as_slice())
}

/// The pairs that take each member to the one value.
fn constant(alloc: Global, a: &[Value], y: &Value) -> Result<Vec<Value>, AllocError>
    ensures { IfOk result (λ row. row.items ≡ map (λ x. pair x y.now) a.now) }
{
    let mut row = Vec::new(alloc);
    for x in a {
        row.push(pair(alloc, x, y)?)?;
    }
    Ok(row)
}

/// The partial injections. To one member they are the single pairs, which are not tried with one another.
fn partial_injection_rows(
    alloc: Global,
    a: &[Value],
    b: &[Value],
) -> Result<Vec<Items<Value>>, AllocError>
    ensures { IfOk result (λ rows. rows.items ≡ arrow_rows kind.PartialInjection a.now b.now) }
{
    match b {
        [y] => single_pairs(alloc, a, y),
        _ => partial_rows(alloc, Fits::Apart, a, b),
    }
}

/// The total injections. From a larger set there are none, however many a part of it would make.
fn total_injection_rows(
    alloc: Global,
    a: &[Value],
    b: &[Value],
) -> Result<Vec<Items<Value>>, AllocError>
    requires { IsAscending b.now }
    ensures { IfOk result (λ rows. rows.items ≡ arrow_rows kind.TotalInjection a.now b.now) }
{
    if a.len() > b.len() {
        return Ok(Vec::new(alloc));
    }
    let layers = pair_layers(alloc, a, b)?;
    whole_rows(alloc, Fits::Apart, layers.as_slice())
}

/// The empty row, and for each member the pair alone that takes it to the one value.
fn single_pairs(alloc: Global, a: &[Value], y: &Value) -> Result<Vec<Items<Value>>, AllocError>
    ensures { IfOk result (λ rows. rows.items ≡ [] ∷ map (λ x. pair x y.now ∷ []) a.now) }
{
    let mut rows = one_row_of(alloc, Vec::new(alloc))?;
    for x in a {
        let mut row = Vec::new(alloc);
        row.push(pair(alloc, x, y)?)?;
        rows.push(Items::of(alloc, row)?)?;
    }
    Ok(rows)
}

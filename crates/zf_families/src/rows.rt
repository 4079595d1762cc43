//! Rows that take an item of each of some layers, and the sets that are made of them.
ghost use Rattle.std.specs.Prelude.{◌≡◌, ◌<◌, [], ◌∷◌, ◌++◌, map, drop, vec_len, IfOk, OnOk};
ghost use Rattle.std.specs.List.{flat_map};
ghost use Rattle.std.specs.Ordering.{is_eq};
ghost use Rattle.zf_value.specs.{IsAscending, pair, value_order};
ghost use Rattle.zf_value.specs.declared.plain.Value.{Tuple, SetOf};
ghost use Rattle.zf_families.specs.Selections as rows;
ghost use Rattle.zf_families.specs.{AreSets, extended, extensions, fitting, pairs, singles, some, whole};

use std::alloc::{AllocError, Global};
use zf_value::{Form, Items, Outcome, Value};

/// Which items may stand before a row.
#[derive(Clone, Copy)]
pub enum Fits {
    Any,
    /// A pair whose second is that of no pair of the row.
    Apart,
}

/// The rows that take one item of each layer.
pub fn whole_rows(
    alloc: Global,
    fits: Fits,
    layers: &[Items<Value>],
) -> Result<Vec<Items<Value>>, AllocError>
    ensures { IfOk result (λ rows. rows.items ≡ whole (fitting fits) layers.now) }
{
    let mut rows = one_row(alloc)?;
    let mut place = layers.len();
    while place > 0 {
        place -= 1;
        let mut next = Vec::new(alloc);
        extend(
            alloc,
            fits,
            layers[place].as_slice(),
            rows.as_slice(),
            &mut next,
        )?;
        rows = next;
    }
    Ok(rows)
}

/// The rows that take at most one item of each layer, the empty row first.
pub fn some_rows(
    alloc: Global,
    fits: Fits,
    layers: &[Items<Value>],
) -> Result<Vec<Items<Value>>, AllocError>
    ensures { IfOk result (λ rows. rows.items ≡ [] ∷ some (fitting fits) layers.now) }
{
    let mut rows = one_row(alloc)?;
    let mut place = layers.len();
    while place > 0 {
        place -= 1;
        rows = with_more(alloc, fits, layers[place].as_slice(), rows)?;
    }
    Ok(rows)
}

/// The empty row alone.
fn one_row(alloc: Global) -> Result<Vec<Items<Value>>, AllocError>
    ensures { IfOk result (λ rows. rows.items ≡ [] ∷ []) }
{
    one_row_of(alloc, Vec::new(alloc))
}

/// The row alone.
pub fn one_row_of(alloc: Global, row: Vec<Value>) -> Result<Vec<Items<Value>>, AllocError>
    ensures { IfOk result (λ rows. rows.items ≡ row.items ∷ []) }
{
    let mut rows = Vec::new(alloc);
    rows.push(Items::of(alloc, row)?)?;
    Ok(rows)
}

/// The empty row, the rows that begin in the layer, and the others of these.
fn with_more(
    alloc: Global,
    fits: Fits,
    layer: &[Value],
    mut rows: Vec<Items<Value>>,
) -> Result<Vec<Items<Value>>, AllocError>
    requires { 0 < vec_len rows }
    ensures { IfOk result (λ next. next.items ≡ [] ∷ (extensions (fitting fits) layer.now rows.items ++ drop 1 rows.items)) }
{
    let mut next = one_row(alloc)?;
    extend(alloc, fits, layer, rows.as_slice(), &mut next)?;
    let mut others = rows.split_off(1)?;
    next.append(&mut others)?;
    Ok(next)
}

/// Puts each item of the layer before each of the rows that it fits, after what is there.
fn extend(
    alloc: Global,
    fits: Fits,
    layer: &[Value],
    rows: &[Items<Value>],
    next: &mut Vec<Items<Value>>,
) -> Result<(), AllocError>
    ensures { OnOk result (next.new.items ≡ next.old.items ++ extensions (fitting fits) layer.now rows.now) }
{
    for p in layer {
        extend_by(alloc, fits, p, rows, next)?;
    }
    Ok(())
}

/// Puts the item before each of the rows that it fits, after what is there.
fn extend_by(
    alloc: Global,
    fits: Fits,
    p: &Value,
    rows: &[Items<Value>],
    next: &mut Vec<Items<Value>>,
) -> Result<(), AllocError>
    ensures { OnOk result (next.new.items ≡ next.old.items ++ extended (fitting fits) rows.now p.now) }
{
    for row in rows {
        if is_fit(fits, p, row.as_slice()) {
            next.push(begun(alloc, p, row.as_slice())?)?;
        }
    }
    Ok(())
}

/// The item, and the row after it.
fn begun(alloc: Global, p: &Value, row: &[Value]) -> Result<Items<Value>, AllocError>
    ensures { IfOk result (λ r. r ≡ p.now ∷ row.now) }
{
    let mut items = Vec::with_capacity(alloc, row.len() + 1)?;
    items.push(p.copy(alloc)?)?;
    for q in row {
        items.push(q.copy(alloc)?)?;
    }
    Items::of(alloc, items)
}

/// The list of these values.
pub fn copied(alloc: Global, values: &[Value]) -> Result<Items<Value>, AllocError>
    ensures { IfOk result (λ r. r ≡ values.now) }
{
    let mut items = Vec::with_capacity(alloc, values.len())?;
    for value in values {
        items.push(value.copy(alloc)?)?;
    }
    Items::of(alloc, items)
}

fn is_fit(fits: Fits, p: &Value, row: &[Value]) -> bool
    ensures { result ≡ fitting fits p.now row.now }
{
    match fits {
        Fits::Any => true,
        Fits::Apart => is_apart(p, row),
    }
}

/// Whether the second of the pair is that of no pair of the row.
pub fn is_apart(p: &Value, row: &[Value]) -> bool
    ensures { result ≡ rows.fits_apart p.now row.now }
{
    for q in row {
        if have_one_second(p, q) {
            return false;
        }
    }
    true
}

/// Whether the seconds of two pairs are one.
fn have_one_second(p: &Value, q: &Value) -> bool
    ensures { result ≡ is_eq (value_order (rows.second p.now) (rows.second q.now)) }
{
    second(p).equals(second(q))
}

/// The second of a pair; of what is no pair, that itself.
fn second(p: &Value) -> &Value
    ensures { result.now ≡ rows.second p.now }
{
    match p.form() {
        Form::Tuple(items) => match items.as_slice() {
            [_, y] => y,
            _ => p,
        },
        _ => p,
    }
}

/// A layer for each member, which holds that alone.
pub fn single_layers(alloc: Global, a: &[Value]) -> Result<Vec<Items<Value>>, AllocError>
    ensures { IfOk result (λ layers. layers.items ≡ singles a.now) }
{
    let mut layers = Vec::new(alloc);
    for x in a {
        layers.push(begun(alloc, x, &[])?)?;
    }
    Ok(layers)
}

/// A layer for each member of the first set: its pairs with those of the second.
pub fn pair_layers(alloc: Global, a: &[Value], b: &[Value]) -> Result<Vec<Items<Value>>, AllocError>
    ensures { IfOk result (λ layers. layers.items ≡ map (pairs b.now) a.now) }
{
    let mut layers = Vec::new(alloc);
    for x in a {
        let mut layer = Vec::new(alloc);
        append_pairs(alloc, x, b, &mut layer)?;
        layers.push(Items::of(alloc, layer)?)?;
    }
    Ok(layers)
}

/// The pairs of the members of the two sets.
pub fn product(alloc: Global, a: &[Value], b: &[Value]) -> Result<Vec<Value>, AllocError>
    ensures { IfOk result (λ ps. ps.items ≡ flat_map (pairs b.now) a.now) }
{
    let mut all = Vec::new(alloc);
    for x in a {
        append_pairs(alloc, x, b, &mut all)?;
    }
    Ok(all)
}

/// The pairs of the value with the members of the set, after what is there.
fn append_pairs(
    alloc: Global,
    x: &Value,
    b: &[Value],
    all: &mut Vec<Value>,
) -> Result<(), AllocError>
    ensures { OnOk result (all.new.items ≡ all.old.items ++ pairs b.now x.now) }
{
    for y in b {
        all.push(pair(alloc, x, y)?)?;
    }
    Ok(())
}

pub fn pair(alloc: Global, x: &Value, y: &Value) -> Result<Value, AllocError>
    ensures { IfOk result (λ p. p ≡ pair x.now y.now) }
{
    let mut parts = Vec::with_capacity(alloc, 2)?;
    parts.push(x.copy(alloc)?)?;
    parts.push(y.copy(alloc)?)?;
    Ok(Value {
        form: Form::Tuple(Items::of(alloc, parts)?),
    })
}

/// The set of the sets that have these members.
pub fn set_of_sets(alloc: Global, rows: Vec<Items<Value>>) -> Result<Outcome, AllocError>
    requires { AreSets rows.items }
    ensures { IfOk result (λ o. o ≡ Outcome.Is (SetOf (map SetOf rows.items))) }
{
    let mut members = Vec::with_capacity(alloc, rows.len())?;
    for row in rows {
        members.push(Value {
            form: Form::SetOf(row),
        })?;
    }
    Ok(Outcome::Is(Value {
        form: Form::SetOf(Items::of(alloc, members)?),
    }))
}

/// The set of the tuples that have these parts.
pub fn set_of_tuples(alloc: Global, rows: Vec<Items<Value>>) -> Result<Outcome, AllocError>
    requires { IsAscending (map Tuple rows.items) }
    ensures { IfOk result (λ o. o ≡ Outcome.Is (SetOf (map Tuple rows.items))) }
{
    let mut members = Vec::with_capacity(alloc, rows.len())?;
    for row in rows {
        members.push(Value {
            form: Form::Tuple(row),
        })?;
    }
    Ok(Outcome::Is(Value {
        form: Form::SetOf(Items::of(alloc, members)?),
    }))
}

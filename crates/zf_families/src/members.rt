//! What the members of a relation are, tested without building anything.
ghost use Rattle.std.specs.Prelude.{◌≡◌, ◌↔◌, IsTrue};
ghost use Rattle.zf_value.specs.{IsAscending, IsBetween, members};
ghost use Rattle.zf_families.specs.Tests as tests;
ghost use Rattle.zf_tree.specs.declared.symbol.Arrow.TheVariants as kind;
ghost use Rattle.zf_families.specs.{firsts_rise, IsArrowFrom, IsGraph, IsPairFrom, IsPairOn, seconds_apart};

use crate::rows::is_apart;
use zf_tree::Arrow;
use zf_value::set::is_member;
use zf_value::{Form, Value};

/// Whether the pairs go from the one set to the other.
fn is_between(r: &[Value], a: &Value, b: &Value) -> bool
    ensures { IsTrue result ↔ IsBetween (members a.now) (members b.now) r.now }
{
    for z in r {
        if !is_pair_from(z, a, b) {
            return false;
        }
    }
    true
}

fn is_pair_from(z: &Value, a: &Value, b: &Value) -> bool
    ensures { IsTrue result ↔ IsPairFrom (members a.now) (members b.now) z.now }
{
    match z.pair() {
        Some((x, y)) => is_member(x, a) && is_member(y, b),
        None => false,
    }
}

/// Whether the pairs take each member of the one set, in its order, to a member of the other.
fn is_graph(r: &[Value], a: &[Value], b: &Value) -> bool
    ensures { IsTrue result ↔ IsGraph (members b.now) a.now r.now }
{
    if r.len() != a.len() {
        return false;
    }
    for place in 0..r.len() {
        if !is_pair_on(&r[place], &a[place], b) {
            return false;
        }
    }
    true
}

fn is_pair_on(z: &Value, x: &Value, b: &Value) -> bool
    ensures { IsTrue result ↔ IsPairOn x.now (members b.now) z.now }
{
    match z.pair() {
        Some((u, y)) => u.equals(x) && is_member(y, b),
        None => false,
    }
}

/// Whether each of the pairs has a greater first than the one before it.
fn do_firsts_rise(r: &[Value]) -> bool
    ensures { result ≡ firsts_rise r.now }
{
    for place in 1..r.len() {
        if !first(&r[place - 1]).cmp(first(&r[place])).is_lt() {
            return false;
        }
    }
    true
}

/// The first of a pair; of what is no pair, that itself.
fn first(z: &Value) -> &Value
    ensures { result.now ≡ tests.first z.now }
{
    match z.form() {
        Form::Tuple(items) => match items.as_slice() {
            [x, _] => x,
            _ => z,
        },
        _ => z,
    }
}

/// Whether no two of the pairs have one second.
fn are_seconds_apart(r: &[Value]) -> bool
    ensures { result ≡ seconds_apart r.now }
{
    for place in 0..r.len() {
        if !is_apart(&r[place], &r[place + 1..]) {
            return false;
        }
    }
    true
}

/// Whether the pairs are a function between the two sets.
fn is_function(r: &[Value], a: &Value, b: &Value) -> bool
    requires { IsAscending r.now }
    ensures { IsTrue result ↔ IsArrowFrom kind.PartialFunction (members a.now) (members b.now) r.now }
{
    is_between(r, a, b) && do_firsts_rise(r)
}

/// Whether the pairs are a relation of the kind between the two sets.
pub fn are_of_kind(kind: Arrow, r: &[Value], a: &Value, b: &Value) -> bool
    requires { IsAscending r.now }
    ensures { IsTrue result ↔ IsArrowFrom kind (members a.now) (members b.now) r.now }
{
    match kind {
        Arrow::Relation => is_between(r, a, b),
        Arrow::PartialFunction => is_function(r, a, b),
        Arrow::TotalFunction => is_graph(r, a.members(), b),
        Arrow::PartialInjection => is_function(r, a, b) && are_seconds_apart(r),
        Arrow::TotalInjection => is_graph(r, a.members(), b) && are_seconds_apart(r),
    }
}

//! Which values are of a type.
ghost use Rattle.std.specs.Prelude.{◌↔◌, ◌<◌, IsTrue, IsSomeAnd, map};
ghost use Rattle.zf_ranges.specs.Prelude.{power, product, type_of, types, Elem, AreOfTypes, environment_of, IsExistingElement, IsOfType, type_number};
ghost use Rattle.zf_ranges.specs.{AreAllOf, IsNumberHere};

use crate::kept::Test;
use zf_meaning::{Env, number_named};
use zf_term::ZType;
use zf_value::{Form, SET_MAX, Value};

/// Whether a value is of a type.
#[derive(Drop)]
pub(crate) struct OfType<'t, 'e, 'g, 'a> {
    pub(crate) ztype: &'t ZType<'a>,
    pub(crate) env: &'e Env<'g, 'a>,
}

impl<'t, 'e, 'g, 'a> Test for OfType<'t, 'e, 'g, 'a> {
    ghost use Rattle.zf_term.specs.TypeViews.{type_of};
    ghost use Rattle.zf_meaning.specs.Envs.{environment_of};
    ghost use Rattle.zf_meaning.specs.Rows.{IsOfType};

    ghost passes = { λ t v. IsOfType (environment_of t.env.now) (type_of t.ztype.now) v };

    ghost ready = { λ t. Unit {0} };

    fn admits(&self, value: &Value) -> bool {
        is_of_type(self.ztype, value, self.env)
    }
}

#[cycle(of_type)]
#[tactic(auto, using(zf_term::proofs::TypesSeen::seen))]
fn is_of_type(ztype: &ZType<'_>, value: &Value, env: &Env<'_, '_>) -> bool
    ensures { IsTrue result ↔ IsOfType (environment_of env.now) (type_of ztype.now) value.now }
{
    match ztype {
        ZType::Int => is_number(value),
        ZType::Basic(name) => is_element(value, name.as_slice(), env),
        ZType::Power(member) => is_set_of(member.get(), value, env),
        ZType::Product(parts) => is_tuple_of(parts.get().as_slice(), value, env),
    }
}

/// Whether the value is a set of values of the type, of no more than a set may have.
#[cycle(of_type)]
fn is_set_of(ztype: &ZType<'_>, value: &Value, env: &Env<'_, '_>) -> bool
    ensures { IsTrue result ↔ IsOfType (environment_of env.now) (power (type_of ztype.now)) value.now }
{
    match value.as_set() {
        Some(members) => are_all_of(ztype, members, env),
        None => false,
    }
}

#[cycle(of_type)]
fn are_all_of(ztype: &ZType<'_>, values: &[Value], env: &Env<'_, '_>) -> bool
    ensures { IsTrue result ↔ AreAllOf (environment_of env.now) (type_of ztype.now) values.now }
{
    if values.len() > SET_MAX {
        return false;
    }
    for value in values {
        if !is_of_type(ztype, value, env) {
            return false;
        }
    }
    true
}

/// Whether the value is a tuple of a value of each type.
#[cycle(of_type)]
fn is_tuple_of(ztypes: &[ZType<'_>], value: &Value, env: &Env<'_, '_>) -> bool
    ensures { IsTrue result ↔ IsOfType (environment_of env.now) (product (types (map type_of ztypes.now))) value.now }
{
    match value.as_tuple() {
        Some(parts) => are_each_of(ztypes, parts, env),
        None => false,
    }
}

#[cycle(of_type)]
fn are_each_of(ztypes: &[ZType<'_>], values: &[Value], env: &Env<'_, '_>) -> bool
    ensures { IsTrue result ↔ AreOfTypes (environment_of env.now) (types (map type_of ztypes.now)) values.now }
{
    if values.len() != ztypes.len() {
        return false;
    }
    for place in 0..values.len() {
        if !is_of_type(&ztypes[place], &values[place], env) {
            return false;
        }
    }
    true
}

fn is_number(value: &Value) -> bool
    ensures { IsTrue result ↔ IsNumberHere value.now }
{
    match value.number() {
        Some(number) => {
            let _number = number;
            true
        }
        None => false,
    }
}

fn is_element(value: &Value, name: &[u8], env: &Env<'_, '_>) -> bool
    ensures { IsTrue result ↔ IsExistingElement (environment_of env.now) (type_number (environment_of env.now) name.now) value.now }
{
    match &value.form {
        Form::Elem(number, index) => is_among(*number, *index, name, env),
        _ => false,
    }
}

/// Whether there is such an element, and its type is the one of this name.
fn is_among(number: u32, index: u64, name: &[u8], env: &Env<'_, '_>) -> bool
    ensures { IsTrue result ↔ IsExistingElement (environment_of env.now) (type_number (environment_of env.now) name.now) (Elem number index) }
{
    match number_named(env.globals(), name) {
        Some(named) => named == number as usize && is_below(index, env.size(number)),
        None => false,
    }
}

fn is_below(index: u64, size: Option<u64>) -> bool
    ensures { IsTrue result ↔ IsSomeAnd size (λ k. index < k) }
{
    match size {
        Some(size) => index < size,
        None => false,
    }
}

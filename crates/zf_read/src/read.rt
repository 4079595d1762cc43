//! Values and bindings as they are read back.
ghost use Rattle.std.specs.Prelude.{◌↔◌, ◌+◌, ◌≤◌, ◌++◌, [], ◌∷◌, length, map, drop, IsTrue, IfOk, IfErr};
ghost use Rattle.zf_read.specs.Prelude.{environment_of, comp_of, int, power, product, schema_of, type_of, types, IsAscending};
ghost use Rattle.zf_read.specs.{AreMembersAt, AreNoMembers, AreNoParts, ArePartsAt, IfMisfit, IsComponentAt, IsLineOf, IsNext, IsNoComponent, IsNoLine, IsNoNext, IsNoValue, IsValueAt};

use crate::elements::read_element;
use crate::expected::{Expected, of_type, unnamed};
use crate::fault::AfterFault;
use crate::words::{is_in_word, item, misfit, separated, signed, stands, word_at};
use std::alloc::Global;
use zf_meaning::Env;
use zf_print::Spelling;
use zf_term::{Component, Flat, ZType};
use zf_value::{Form, Items, SET_MAX, Value};

/// What is read at a place, and the place after it.
pub(crate) type Read<T> = Result<(T, usize), AfterFault>;

/// A line that is read, the types that its elements are of, and how these are spelled.
#[derive(Drop)]
pub(crate) struct Line<'t, 'e, 'g, 'a> {
    pub alloc: Global,
    pub text: &'t [u8],
    pub env: &'e Env<'g, 'a>,
    pub spellings: &'t [Spelling],
}

/// The row whose line the text is.
pub fn read_binding(
    alloc: Global,
    text: &[u8],
    flat: &Flat<'_>,
    env: &Env<'_, '_>,
    spellings: &[Spelling],
) -> Result<Vec<Value>, AfterFault>
    ensures read { IfOk result (λ row. IsLineOf spellings.now (environment_of env.now) (schema_of flat.now).comps text.now row.items) }
    ensures refused { IfErr result (IfMisfit (IsNoLine spellings.now (environment_of env.now) (schema_of flat.now).comps text.now)) }
{
    let line = Line {
        alloc,
        text,
        env,
        spellings,
    };
    let components = flat.components.as_slice();
    let mut row = Vec::new(alloc);
    let mut place = 0;
    for count in 0..components.len() {
        let start = separated(text, place, count, b"\", \"")?;
        let (value, end) = read_component(&line, start, &components[count])?;
        row.push(value)?;
        place = end;
    }
    if place < text.len() {
        return Err(AfterFault::NotABinding(place, Expected::Words(b"the end")));
    }
    Ok(row)
}

/// The value of the component at the place, and the place after it.
pub(crate) fn read_component(
    line: &Line<'_, '_, '_, '_>,
    place: usize,
    component: &Component<'_>,
) -> Read<Value>
    requires { place ≤ length line.now.text.now }
    ensures read { IfOk result (λ p. IsComponentAt line.now.spellings.now (environment_of line.now.env.now) (comp_of component.now) line.now.text.now place p.0 p.1) }
    ensures refused { IfErr result (IfMisfit (IsNoComponent line.now.spellings.now (environment_of line.now.env.now) (comp_of component.now) (drop place line.now.text.now))) }
{
    let name = component.name.as_slice();
    if !stands(line.text, place, name) {
        return Err(unnamed(line.alloc, misfit(line.text, place, name), name));
    }
    let behind_name = place + name.len();
    if !stands(line.text, behind_name, b" == ") {
        return Err(unequal(line, place, name));
    }
    read_value(line, behind_name + 4, &component.ztype)
}

/// The fault of a name that goes on, or else of what follows it.
fn unequal(line: &Line<'_, '_, '_, '_>, place: usize, name: &[u8]) -> AfterFault
    requires { place + length name.now ≤ length line.now.text.now }
{
    let behind_name = place + name.len();
    if behind_name < line.text.len() && is_in_word(line.text[behind_name]) {
        return unnamed(line.alloc, place, name);
    }
    let misfit = misfit(line.text, behind_name, b" == ");
    AfterFault::NotABinding(misfit, Expected::Words(b"\" == \""))
}

/// The value of the type at the place, and the place after it.
#[cycle(read)]
fn read_value(line: &Line<'_, '_, '_, '_>, place: usize, ztype: &ZType<'_>) -> Read<Value>
    requires { place ≤ length line.now.text.now }
    ensures read { IfOk result (λ p. IsValueAt line.now.spellings.now (environment_of line.now.env.now) (type_of ztype.now) line.now.text.now place p.0 p.1) }
    ensures refused { IfErr result (IfMisfit (IsNoValue line.now.spellings.now (environment_of line.now.env.now) (type_of ztype.now) (drop place line.now.text.now))) }
{
    match read_form(line, place, ztype) {
        Ok(read) => Ok(read),
        Err(fault) => Err(of_type(line.alloc, fault, ztype)),
    }
}

/// The same; a fault does not name the type.
#[cycle(read)]
#[tactic(auto, using(zf_term::proofs::TypesSeen::seen))]
fn read_form(line: &Line<'_, '_, '_, '_>, place: usize, ztype: &ZType<'_>) -> Read<Value>
    requires { place ≤ length line.now.text.now }
    ensures read { IfOk result (λ p. IsValueAt line.now.spellings.now (environment_of line.now.env.now) (type_of ztype.now) line.now.text.now place p.0 p.1) }
    ensures refused { IfErr result (IfMisfit (IsNoValue line.now.spellings.now (environment_of line.now.env.now) (type_of ztype.now) (drop place line.now.text.now))) }
{
    match ztype {
        ZType::Int => read_number(line, place),
        ZType::Basic(name) => read_element(line, place, name.as_slice()),
        ZType::Power(member) => read_set(line, place, member.get()),
        ZType::Product(parts) => read_tuple(line, place, parts.get().as_slice()),
    }
}

fn read_number(line: &Line<'_, '_, '_, '_>, place: usize) -> Read<Value>
    requires { place ≤ length line.now.text.now }
    ensures read { IfOk result (λ p. IsValueAt line.now.spellings.now (environment_of line.now.env.now) int line.now.text.now place p.0 p.1) }
    ensures refused { IfErr result (IfMisfit (IsNoValue line.now.spellings.now (environment_of line.now.env.now) int (drop place line.now.text.now))) }
{
    let word = word_at(line.text, place);
    match signed(word) {
        Some(number) => {
            let form = Form::Int(number);
            Ok((Value { form }, place + word.len()))
        }
        None => {
            let misfit = misfit(line.text, place, b"-");
            Err(AfterFault::NotABinding(misfit, Expected::Value))
        }
    }
}

#[cycle(read)]
fn read_tuple(line: &Line<'_, '_, '_, '_>, place: usize, parts: &[ZType<'_>]) -> Read<Value>
    requires { place ≤ length line.now.text.now }
    ensures read { IfOk result (λ p. IsValueAt line.now.spellings.now (environment_of line.now.env.now) (product (types (map type_of parts.now))) line.now.text.now place p.0 p.1) }
    ensures refused { IfErr result (IfMisfit (IsNoValue line.now.spellings.now (environment_of line.now.env.now) (product (types (map type_of parts.now))) (drop place line.now.text.now))) }
{
    let start = item(line.text, place, b"(", Expected::Value)?;
    let (values, end) = read_parts(line, start, parts)?;
    let form = Form::Tuple(Items::of(line.alloc, values)?);
    Ok((Value { form }, end))
}

/// The parts of a tuple, up to its end.
#[cycle(read)]
fn read_parts(line: &Line<'_, '_, '_, '_>, place: usize, parts: &[ZType<'_>]) -> Read<Vec<Value>>
    requires { place ≤ length line.now.text.now }
    ensures read { IfOk result (λ p. ArePartsAt line.now.spellings.now (environment_of line.now.env.now) (types (map type_of parts.now)) line.now.text.now place p.0.items p.1) }
    ensures refused { IfErr result (IfMisfit (AreNoParts line.now.spellings.now (environment_of line.now.env.now) (types (map type_of parts.now)) 0 (drop place line.now.text.now))) }
{
    let mut values = Vec::new(line.alloc);
    let mut at = place;
    for count in 0..parts.len() {
        let start = separated(line.text, at, count, b"\", \"")?;
        let (value, end) = read_value(line, start, &parts[count])?;
        values.push(value)?;
        at = end;
    }
    let end = item(line.text, at, b")", Expected::Words(b"\")\""))?;
    Ok((values, end))
}

#[cycle(read)]
fn read_set(line: &Line<'_, '_, '_, '_>, place: usize, member: &ZType<'_>) -> Read<Value>
    requires { place ≤ length line.now.text.now }
    ensures read { IfOk result (λ p. IsValueAt line.now.spellings.now (environment_of line.now.env.now) (power (type_of member.now)) line.now.text.now place p.0 p.1) }
    ensures refused { IfErr result (IfMisfit (IsNoValue line.now.spellings.now (environment_of line.now.env.now) (power (type_of member.now)) (drop place line.now.text.now))) }
{
    let start = item(line.text, place, b"{", Expected::Value)?;
    let (members, end) = read_members(line, start, member)?;
    let form = Form::SetOf(Items::of(line.alloc, members)?);
    Ok((Value { form }, end))
}

/// The members of a set, up to its end.
#[cycle(read)]
fn read_members(line: &Line<'_, '_, '_, '_>, place: usize, member: &ZType<'_>) -> Read<Vec<Value>>
    requires { place ≤ length line.now.text.now }
    ensures read { IfOk result (λ p. AreMembersAt line.now.spellings.now (environment_of line.now.env.now) (type_of member.now) line.now.text.now place p.0.items p.1) }
    ensures refused { IfErr result (IfMisfit (AreNoMembers line.now.spellings.now (environment_of line.now.env.now) (type_of member.now) [] (drop place line.now.text.now))) }
{
    let mut members = Vec::new(line.alloc);
    let mut at = place;
    for count in 0..SET_MAX {
        if stands(line.text, at, b"}") {
            return Ok((members, at + 1));
        }
        let start = separated(line.text, at, count, b"\", \" or \"}\"")?;
        let (value, end) = read_next(line, start, member, &members)?;
        members.push(value)?;
        at = end;
    }
    let end = item(line.text, at, b"}", Expected::Words(b"\"}\""))?;
    Ok((members, end))
}

/// One more member of a set.
#[cycle(read)]
fn read_next(
    line: &Line<'_, '_, '_, '_>,
    place: usize,
    member: &ZType<'_>,
    members: &[Value],
) -> Read<Value>
    requires place { place ≤ length line.now.text.now }
    requires ascending { IsAscending members.now }
    ensures read { IfOk result (λ p. IsNext line.now.spellings.now (environment_of line.now.env.now) (type_of member.now) members.now line.now.text.now place p.0 p.1) }
    ensures refused { IfErr result (IfMisfit (IsNoNext line.now.spellings.now (environment_of line.now.env.now) (type_of member.now) members.now (drop place line.now.text.now))) }
{
    let (value, end) = read_value(line, place, member)?;
    if is_above(members, &value) {
        Ok((value, end))
    } else {
        let greater = Expected::Words(b"a greater member");
        Err(AfterFault::NotABinding(place, greater))
    }
}

/// Whether the value is above the members.
fn is_above(members: &[Value], value: &Value) -> bool
    requires { IsAscending members.now }
    ensures { IsTrue result ↔ IsAscending (members.now ++ value.now ∷ []) }
{
    match members.last() {
        Some(last) => last.cmp(value).is_lt(),
        None => true,
    }
}

//! Values and rows as they are printed.
ghost use Rattle.std.specs.Prelude.{◌≡◌, ◌<◌, ◌∷◌, ◌++◌, [], ℕ, List, OnOk, map};
ghost use Rattle.std.specs.Fmt.{decimal, signed_decimal};
ghost use Rattle.zf_term.specs.{comp_of, schema_of};
ghost use Rattle.zf_print.specs.{comma_before, component_in, components_in, element_in, element_text, name_in, parted, row_text, set_in, spelled, tuple_in, value_in};

use crate::spelling::Spelling;
use itoa::Buffer;
use std::alloc::AllocError;
use zf_format::{Format, append_string};
use zf_meaning::Row;
use zf_term::{Component, Flat};
use zf_value::{Form, Value};

/// Appends a row, without the end of a line. A refusal leaves a part of it.
pub fn append_row<R: Row>(
    text: &mut Vec<u8>,
    format: Format,
    flat: &Flat<'_>,
    spellings: &[Spelling],
    row: &R,
) -> Result<(), AllocError>
    ensures { OnOk result (text.new.items ≡ text.old.items ++ row_text format spellings.now (schema_of flat.now).comps (R.values row.now)) }
{
    match format {
        Format::Lines => append_components(text, format, flat, spellings, row),
        Format::Objects => {
            text.push(b'{')?;
            append_components(text, format, flat, spellings, row)?;
            text.push(b'}')?;
            Ok(())
        }
    }
}

/// Appends the components of a row.
fn append_components<R: Row>(
    text: &mut Vec<u8>,
    format: Format,
    flat: &Flat<'_>,
    spellings: &[Spelling],
    row: &R,
) -> Result<(), AllocError>
    ensures { OnOk result (text.new.items ≡ text.old.items ++ parted (components_in format spellings.now (schema_of flat.now).comps (R.values row.now))) }
{
    let components = flat.components.as_slice();
    for place in 0..components.len() {
        if place == row.len() {
            return Ok(());
        }
        append_separator(text, place)?;
        append_component(text, format, spellings, &components[place], row.get(place))?;
    }
    Ok(())
}

fn append_component(
    text: &mut Vec<u8>,
    format: Format,
    spellings: &[Spelling],
    component: &Component<'_>,
    value: &Value,
) -> Result<(), AllocError>
    ensures { OnOk result (text.new.items ≡ text.old.items ++ component_in format spellings.now (comp_of component.now) value.now) }
{
    append_name(text, format, component.name.as_slice())?;
    append_value(text, format, spellings, value)
}

/// Appends the name of a component, before its value. A refusal leaves a part of it.
pub fn append_name(text: &mut Vec<u8>, format: Format, name: &[u8]) -> Result<(), AllocError>
    ensures { OnOk result (text.new.items ≡ text.old.items ++ name_in format name.now) }
{
    match format {
        Format::Lines => {
            text.extend_from_slice(name)?;
            text.extend_from_slice(b" == ")
        }
        Format::Objects => {
            append_string(text, name)?;
            text.extend_from_slice(b": ")
        }
    }
}

/// Appends what stands before a part, after so many others.
fn append_separator(text: &mut Vec<u8>, count: usize) -> Result<(), AllocError>
    ensures { OnOk result (text.new.items ≡ text.old.items ++ comma_before count) }
{
    if count == 0 {
        return Ok(());
    }
    text.push(b',')?;
    text.push(b' ')?;
    Ok(())
}

/// Appends a value. A refusal leaves a part of it.
#[cycle(append)]
#[tactic(auto, using(crate::proofs::TextsSeen::seen))]
pub fn append_value(
    text: &mut Vec<u8>,
    format: Format,
    spellings: &[Spelling],
    value: &Value,
) -> Result<(), AllocError>
    ensures { OnOk result (text.new.items ≡ text.old.items ++ value_in format spellings.now value.now) }
{
    match &value.form {
        Form::Int(n) => append_number(text, *n),
        Form::Elem(number, place) => append_element(text, format, spellings, *number, *place),
        Form::Tuple(parts) => {
            let brackets = tuple_brackets(format);
            append_parts(text, format, spellings, brackets, parts.as_slice())
        }
        Form::SetOf(members) => {
            let brackets = set_brackets(format);
            append_parts(text, format, spellings, brackets, members.as_slice())
        }
    }
}

/// The brackets of a tuple.
fn tuple_brackets(format: Format) -> (u8, u8)
    ensures { (parts : List (List ℕ)) → tuple_in format parts ≡ result.0 ∷ parted parts ++ result.1 ∷ [] }
{
    match format {
        Format::Lines => (b'(', b')'),
        Format::Objects => (b'[', b']'),
    }
}

/// The brackets of a set.
fn set_brackets(format: Format) -> (u8, u8)
    ensures { (members : List (List ℕ)) → set_in format members ≡ result.0 ∷ parted members ++ result.1 ∷ [] }
{
    match format {
        Format::Lines => (b'{', b'}'),
        Format::Objects => (b'[', b']'),
    }
}

/// Appends several values, in brackets.
#[cycle(append)]
fn append_parts(
    text: &mut Vec<u8>,
    format: Format,
    spellings: &[Spelling],
    brackets: (u8, u8),
    parts: &[Value],
) -> Result<(), AllocError>
    ensures { OnOk result (text.new.items ≡ text.old.items ++ (brackets.0 ∷ parted (map (value_in format spellings.now) parts.now) ++ brackets.1 ∷ [])) }
{
    text.push(brackets.0)?;
    for place in 0..parts.len() {
        append_separator(text, place)?;
        append_value(text, format, spellings, &parts[place])?;
    }
    text.push(brackets.1)?;
    Ok(())
}

fn append_number(text: &mut Vec<u8>, number: i64) -> Result<(), AllocError>
    ensures { OnOk result (text.new.items ≡ text.old.items ++ signed_decimal number) }
{
    if (0..10).contains(&number) {
        return append_digit(text, number as u8);
    }
    text.extend_from_slice(Buffer::new().format(number).as_bytes())
}

/// Appends a number of one digit.
fn append_digit(text: &mut Vec<u8>, digit: u8) -> Result<(), AllocError>
    requires { digit < 10 }
    ensures { OnOk result (text.new.items ≡ text.old.items ++ decimal digit) }
{
    text.push(b'0' + digit)?;
    Ok(())
}

fn append_element(
    text: &mut Vec<u8>,
    format: Format,
    spellings: &[Spelling],
    number: u32,
    place: u64,
) -> Result<(), AllocError>
    ensures { OnOk result (text.new.items ≡ text.old.items ++ element_in format (element_text spellings.now number place)) }
{
    match format {
        Format::Lines => append_element_text(text, spellings, number, place),
        Format::Objects => {
            let mut name = Vec::new(*text.allocator());
            append_element_text(&mut name, spellings, number, place)?;
            append_string(text, &name)
        }
    }
}

fn append_element_text(
    text: &mut Vec<u8>,
    spellings: &[Spelling],
    number: u32,
    place: u64,
) -> Result<(), AllocError>
    ensures { OnOk result (text.new.items ≡ text.old.items ++ element_text spellings.now number place) }
{
    match spellings.get(number as usize) {
        Some(spelling) => append_spelled(text, spelling, place),
        None => Ok(()),
    }
}

fn append_spelled(text: &mut Vec<u8>, spelling: &Spelling, place: u64) -> Result<(), AllocError>
    ensures { OnOk result (text.new.items ≡ text.old.items ++ spelled spelling.now place) }
{
    match spelling {
        Spelling::Numbered(name) => {
            text.extend_from_slice(name.as_slice())?;
            text.extend_from_slice(b".")?;
            text.extend_from_slice(Buffer::new().format(place as u128 + 1).as_bytes())
        }
        Spelling::Named(names) => match names.as_slice().get(place as usize) {
            Some(name) => text.extend_from_slice(name.as_slice()),
            None => Ok(()),
        },
    }
}

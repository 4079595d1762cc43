//! What a text defines, as it is printed.
ghost use Rattle.std.specs.Prelude.{◌≡◌, ◌++◌, codes, IfOk, OnOk, flat_map, map};
ghost use Rattle.zf_term.specs.{comp_of, definition_of, globals_of, schema_of, type_of, type_text};
ghost use Rattle.zf_checker.specs.Listing as spec;

use std::alloc::{AllocError, Global};
use zf_data::Text;
use zf_data::arena::Lent;
use zf_term::type_text::append_type;
use zf_term::{Component, Entry, Flat, Globals, ZType};

/// The text of all that is defined, in the order of definition.
pub fn listing(alloc: Global, globals: &Globals) -> Result<Text, AllocError>
    ensures { IfOk result (λ t. t ≡ spec.listing (globals_of globals.now)) }
{
    let mut bytes = Vec::new(alloc);
    for (name, entry) in globals.entries.iter() {
        append_entry(&mut bytes, name.as_slice(), entry)?;
    }
    let text = Text::of(alloc, bytes.as_slice())?;
    Ok(text)
}

/// Appends the lines of a name. As for all that follow, a refusal leaves a part of them.
fn append_entry(text: &mut Vec<u8>, name: &[u8], entry: &Entry) -> Result<(), AllocError>
    ensures { OnOk result (text.new.items ≡ text.old.items ++ spec.definition_text name.now (definition_of entry.now)) }
{
    match entry {
        Entry::Given(_) => append_given(text, name),
        Entry::Free(_, constructors) => append_free(text, name, constructors.as_slice()),
        Entry::Constructor(_, _, _) => Ok(()),
        Entry::Abbrev(ztype, _, _) => append_abbreviation(text, name, ztype),
        Entry::Schema(schema) => append_schema(text, name, schema.flat()),
    }
}

/// `Given N`
fn append_given(text: &mut Vec<u8>, name: &[u8]) -> Result<(), AllocError>
    ensures { OnOk result (text.new.items ≡ text.old.items ++ (codes "Given " ++ name.now ++ codes "\n")) }
{
    text.extend_from_slice(b"Given ")?;
    text.extend_from_slice(name)?;
    text.extend_from_slice(b"\n")
}

/// `Free T ::= a | b`
fn append_free(text: &mut Vec<u8>, name: &[u8], constructors: &[Lent<'_>]) -> Result<(), AllocError>
    ensures { OnOk result (text.new.items ≡ text.old.items ++ (codes "Free " ++ name.now ++ codes " ::= " ++ spec.choices_text constructors.now ++ codes "\n")) }
{
    text.extend_from_slice(b"Free ")?;
    text.extend_from_slice(name)?;
    text.extend_from_slice(b" ::= ")?;
    append_choices(text, constructors)?;
    text.extend_from_slice(b"\n")
}

/// The names with ` | ` between each two.
fn append_choices(text: &mut Vec<u8>, names: &[Lent<'_>]) -> Result<(), AllocError>
    ensures { OnOk result (text.new.items ≡ text.old.items ++ spec.choices_text names.now) }
{
    for i in 0..names.len() {
        if i > 0 {
            text.extend_from_slice(b" | ")?;
        }
        text.extend_from_slice(names[i].as_slice())?;
    }
    Ok(())
}

/// `Abbreviation X: T`
fn append_abbreviation(text: &mut Vec<u8>, name: &[u8], ztype: &ZType) -> Result<(), AllocError>
    ensures { OnOk result (text.new.items ≡ text.old.items ++ (codes "Abbreviation " ++ name.now ++ codes ": " ++ type_text (type_of ztype.now) ++ codes "\n")) }
{
    text.extend_from_slice(b"Abbreviation ")?;
    append_typed(text, name, ztype)
}

/// `X: T`, with its newline.
fn append_typed(text: &mut Vec<u8>, name: &[u8], ztype: &ZType) -> Result<(), AllocError>
    ensures { OnOk result (text.new.items ≡ text.old.items ++ (name.now ++ codes ": " ++ type_text (type_of ztype.now) ++ codes "\n")) }
{
    text.extend_from_slice(name)?;
    text.extend_from_slice(b": ")?;
    append_type(text, ztype)?;
    text.extend_from_slice(b"\n")
}

/// `Schema S`, a line for each component, and `End`.
fn append_schema(text: &mut Vec<u8>, name: &[u8], schema: &Flat) -> Result<(), AllocError>
    ensures { OnOk result (text.new.items ≡ text.old.items ++ (codes "Schema " ++ name.now ++ codes "\n" ++ flat_map spec.component_line (schema_of schema.now).comps ++ codes "End\n")) }
{
    text.extend_from_slice(b"Schema ")?;
    text.extend_from_slice(name)?;
    text.extend_from_slice(b"\n")?;
    append_components(text, schema.components.as_slice())?;
    text.extend_from_slice(b"End\n")
}

fn append_components(text: &mut Vec<u8>, components: &[Component]) -> Result<(), AllocError>
    ensures { OnOk result (text.new.items ≡ text.old.items ++ flat_map spec.component_line (map comp_of components.now)) }
{
    for component in components {
        append_component(text, component)?;
    }
    Ok(())
}

/// `x: T` after four spaces.
fn append_component(text: &mut Vec<u8>, component: &Component) -> Result<(), AllocError>
    ensures { OnOk result (text.new.items ≡ text.old.items ++ spec.component_line (comp_of component.now)) }
{
    text.extend_from_slice(b"    ")?;
    append_typed(text, component.name.as_slice(), &component.ztype)
}

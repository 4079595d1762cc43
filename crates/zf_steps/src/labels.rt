//! What a graph for Graphviz has between quotes.
ghost use Rattle.std.specs.Prelude.{◌≡◌, ◌++◌, OnOk, codes};
ghost use Rattle.zf_steps.specs.Prelude.{comp_of, schema_of, component_text};
ghost use Rattle.zf_steps.specs.{column_text, label_byte, label_of};

use std::alloc::AllocError;
use zf_format::Format;
use zf_meaning::Row;
use zf_print::{Spelling, append_name, append_value};
use zf_term::{Component, Flat};
use zf_value::Value;

/// Appends each component of a row on a line of its own. A refusal leaves a part of it.
pub fn append_column<R: Row>(
    text: &mut Vec<u8>,
    flat: &Flat<'_>,
    elements: &[Spelling],
    row: &R,
) -> Result<(), AllocError>
    ensures { OnOk result (text.new.items ≡ text.old.items ++ column_text elements.now (schema_of flat.now).comps (R.values row.now)) }
{
    let components = flat.components.as_slice();
    for place in 0..components.len() {
        if place == row.len() {
            return Ok(());
        }
        append_component(text, elements, &components[place], row.get(place))?;
    }
    Ok(())
}

/// Appends a component with its value, and a newline.
fn append_component(
    text: &mut Vec<u8>,
    elements: &[Spelling],
    component: &Component<'_>,
    value: &Value,
) -> Result<(), AllocError>
    ensures { OnOk result (text.new.items ≡ text.old.items ++ (component_text elements.now (comp_of component.now) value.now ++ codes "\n")) }
{
    append_name(text, Format::Lines, component.name.as_slice())?;
    append_value(text, Format::Lines, elements, value)?;
    text.extend_from_slice(b"\n")
}

/// Appends a text as it stands in a label. A refusal leaves a part of it.
pub fn append_as_label(line: &mut Vec<u8>, text: &[u8]) -> Result<(), AllocError>
    ensures { OnOk result (line.new.items ≡ line.old.items ++ label_of text.now) }
{
    for byte in text {
        append_byte(line, *byte)?;
    }
    Ok(())
}

/// Appends what stands for a byte in a label.
fn append_byte(line: &mut Vec<u8>, byte: u8) -> Result<(), AllocError>
    ensures { OnOk result (line.new.items ≡ line.old.items ++ label_byte byte) }
{
    match byte {
        b'"' => line.extend_from_slice(b"\\\""),
        b'\\' => line.extend_from_slice(b"\\\\"),
        b'\n' => line.extend_from_slice(b"\\l"),
        b'&' => line.extend_from_slice(b"&amp;"),
        _ => {
            line.push(byte)?;
            Ok(())
        }
    }
}

//! Rows in parts: what is held of a schema where the state has these values, and the values at places of a binding.
ghost use Rattle.std.specs.Prelude.{◌≡◌, ◌++◌, IfOk, OnOk};
ghost use Rattle.zf_steps.specs.{held_by, operation_of, source_value, stop_object, stop_text, stopped};

use crate::form::Form;
use crate::given::Schematic;
use crate::layout::Layout;
use crate::system::Operation;
use std::alloc::{AllocError, Global};
use zf_format::append_string;
use zf_meaning::Row;
use zf_print::Spelling;
use zf_value::Value;

/// The values that are held of a schema's components where the state before has these values.
pub fn held_by(
    alloc: Global,
    sources: &[Option<usize>],
    values: &[Value],
) -> Result<Vec<Option<Value>>, AllocError>
    ensures { IfOk result (λ held. held.items ≡ held_by sources.now values.now) }
{
    let mut held = Vec::with_capacity(alloc, sources.len())?;
    for source in sources {
        held.push(source_value(alloc, values, *source)?)?;
    }
    Ok(held)
}

/// The value of this component of the state, if it is one.
fn source_value(
    alloc: Global,
    values: &[Value],
    source: Option<usize>,
) -> Result<Option<Value>, AllocError>
    ensures { IfOk result (λ held. held ≡ source_value values.now source) }
{
    match source {
        None => Ok(None),
        Some(place) => match values.get(place) {
            None => Ok(None),
            Some(value) => Ok(Some(value.copy(alloc)?)),
        },
    }
}

/// Lays out what is said of a binding that is out.
pub fn lay_out_stop<F: Schematic, R: Row>(
    text: &mut Vec<u8>,
    form: Form,
    elements: &[Spelling],
    operation: &Operation<'_, F>,
    row: &R,
) -> Result<(), AllocError>
    ensures { OnOk result (text.new.items ≡ stopped form elements.now (operation_of F.schema operation.now) (R.values row.now)) }
{
    text.clear();
    match form {
        Form::Lines => append_stop(text, elements, operation, row),
        Form::Graph => append_stop(text, elements, operation, row),
        Form::Objects => append_stop_object(text, elements, operation, row),
    }
}

/// Appends `OPERATION: BINDING`.
fn append_stop<F: Schematic, R: Row>(
    text: &mut Vec<u8>,
    elements: &[Spelling],
    operation: &Operation<'_, F>,
    row: &R,
) -> Result<(), AllocError>
    ensures { OnOk result (text.new.items ≡ text.old.items ++ stop_text elements.now (operation_of F.schema operation.now) (R.values row.now)) }
{
    text.extend_from_slice(operation.name)?;
    text.extend_from_slice(b": ")?;
    operation
        .schema
        .append_row(text, elements, Layout::Line, row)
}

/// Appends `{"operation": "OPERATION", "binding": {..}}`.
fn append_stop_object<F: Schematic, R: Row>(
    text: &mut Vec<u8>,
    elements: &[Spelling],
    operation: &Operation<'_, F>,
    row: &R,
) -> Result<(), AllocError>
    ensures { OnOk result (text.new.items ≡ text.old.items ++ stop_object elements.now (operation_of F.schema operation.now) (R.values row.now)) }
{
    text.extend_from_slice(b"{\"operation\": ")?;
    append_string(text, operation.name)?;
    text.extend_from_slice(b", \"binding\": ")?;
    operation
        .schema
        .append_row(text, elements, Layout::Object, row)?;
    text.extend_from_slice(b"}")
}

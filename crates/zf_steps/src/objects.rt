//! The objects of states and steps, each with its newline.
ghost use Rattle.std.specs.Prelude.{◌≡◌, ◌-◌, ◌^◌, ◌++◌, ℕ, OnOk, Some, min, slice_get};
ghost use Rattle.zf_steps.specs.Prelude.{broken, ending_of, result_of};
ghost use Rattle.zf_steps.specs.declared.node.Node.TheVariants.{State};
ghost use Rattle.zf_steps.specs.{count_object, ending_object, operation_of, result_object, state_object, step_members, step_object, stray_object, stuck_object, system_of};

use crate::given::{Schematic, Surrounding};
use crate::layout::Layout;
use crate::lines::{append_between, append_number, append_steps};
use crate::node::Label;
use crate::system::{Operation, System};
use std::alloc::AllocError;
use zf_format::append_string;
use zf_reach::{Ending, Finding};
use zf_value::Value;

/// Appends `{"state": 2, "binding": {..}}`. A refusal leaves a part of it.
pub fn append_state_object<E: Surrounding, F: Schematic>(
    line: &mut Vec<u8>,
    system: &System<'_, '_, F>,
    number: usize,
    values: &[Value],
) -> Result<(), AllocError>
    ensures { OnOk result (line.new.items ≡ line.old.items ++ state_object (system_of E.environment F.schema system.now) 0 number (State values.now)) }
{
    line.extend_from_slice(b"{\"state\": ")?;
    append_number(line, number)?;
    line.extend_from_slice(b", \"binding\": ")?;
    system
        .test
        .label
        .append_row(line, system.elements, Layout::Object, &values)?;
    line.extend_from_slice(b"}\n")
}

/// Appends `{"step": 1, "operation": "OPERATION", "to": 2, "binding": {..}}`. A refusal leaves a part of it.
pub fn append_step_object<E: Surrounding, F: Schematic>(
    line: &mut Vec<u8>,
    system: &System<'_, '_, F>,
    from: usize,
    label: &Label,
    number: usize,
) -> Result<(), AllocError>
    ensures { OnOk result (line.new.items ≡ line.old.items ++ step_object (system_of E.environment F.schema system.now) from label.now number) }
{
    if from == 0 {
        return Ok(());
    }
    line.extend_from_slice(b"{\"step\": ")?;
    append_number(line, from)?;
    append_members::<E, F>(line, system, label, number)?;
    line.extend_from_slice(b"}\n")
}

/// Appends `, "operation": "OPERATION", "to": 2, "binding": {..}`.
fn append_members<E: Surrounding, F: Schematic>(
    line: &mut Vec<u8>,
    system: &System<'_, '_, F>,
    label: &Label,
    number: usize,
) -> Result<(), AllocError>
    ensures { OnOk result (line.new.items ≡ line.old.items ++ step_members (system_of E.environment F.schema system.now) (slice_get (system_of E.environment F.schema system.now).operations label.now.operation) number label.now.values) }
{
    match system.operations.get(label.operation) {
        None => {
            line.extend_from_slice(b", \"to\": ")?;
            append_number(line, number)
        }
        Some(operation) => {
            append_named_members::<E, F>(line, system, operation, number, label.values.as_slice())
        }
    }
}

/// Appends `, "operation": "OPERATION", "to": 2, "binding": {..}` of an operation.
fn append_named_members<E: Surrounding, F: Schematic>(
    line: &mut Vec<u8>,
    system: &System<'_, '_, F>,
    operation: &Operation<'_, F>,
    number: usize,
    values: &[Value],
) -> Result<(), AllocError>
    ensures { OnOk result (line.new.items ≡ line.old.items ++ step_members (system_of E.environment F.schema system.now) (Some (operation_of F.schema operation.now)) number values.now) }
{
    line.extend_from_slice(b", \"operation\": ")?;
    append_string(line, operation.name)?;
    line.extend_from_slice(b", \"to\": ")?;
    append_number(line, number)?;
    line.extend_from_slice(b", \"binding\": ")?;
    operation
        .label
        .append_row(line, system.elements, Layout::Object, &values)
}

/// Appends that a state is a stray.
pub fn append_stray_object(line: &mut Vec<u8>, number: usize) -> Result<(), AllocError>
    ensures { OnOk result (line.new.items ≡ line.old.items ++ stray_object number) }
{
    append_between(line, b"{\"stray\": ", number, b"}\n")
}

/// Appends that a state has no steps, and nothing where there is no state.
pub fn append_stuck_object(line: &mut Vec<u8>, number: usize) -> Result<(), AllocError>
    ensures { OnOk result (line.new.items ≡ line.old.items ++ stuck_object number) }
{
    if number == 0 {
        return Ok(());
    }
    append_between(line, b"{\"stuck\": ", number, b"}\n")
}

/// Appends how an exploration ended, and the counts.
pub fn append_last_objects(
    line: &mut Vec<u8>,
    ending: Ending,
    stop: &[u8],
    nodes: usize,
    edges: u64,
) -> Result<(), AllocError>
    ensures { OnOk result ((n : ℕ) → edges ≡ min n (2 ^ 64 - 1) → line.new.items ≡ line.old.items ++ ending_object (ending_of ending stop.now) ++ count_object nodes n) }
{
    append_ending_object(line, ending, stop)?;
    append_count_object(line, nodes, edges)
}

/// Appends how a search ended, and the counts.
pub fn append_verdict_objects(
    line: &mut Vec<u8>,
    finding: Finding,
    stop: &[u8],
    nodes: usize,
    edges: u64,
) -> Result<(), AllocError>
    ensures { OnOk result ((n : ℕ) → edges ≡ min n (2 ^ 64 - 1) → line.new.items ≡ line.old.items ++ result_object (result_of finding stop.now) ++ count_object nodes n) }
{
    append_result_object(line, finding, stop)?;
    append_count_object(line, nodes, edges)
}

/// Appends how an exploration ended.
fn append_ending_object(line: &mut Vec<u8>, ending: Ending, stop: &[u8]) -> Result<(), AllocError>
    ensures { OnOk result (line.new.items ≡ line.old.items ++ ending_object (ending_of ending stop.now)) }
{
    match ending {
        Ending::Ended => line.extend_from_slice(b"{\"end\": true}\n"),
        Ending::Paused => line.extend_from_slice(b"{\"more\": true}\n"),
        Ending::Broken => append_broken_object(line, stop),
    }
}

/// Appends how a search ended.
fn append_result_object(line: &mut Vec<u8>, finding: Finding, stop: &[u8]) -> Result<(), AllocError>
    ensures { OnOk result (line.new.items ≡ line.old.items ++ result_object (result_of finding stop.now)) }
{
    match finding {
        Finding::Found => line.extend_from_slice(b"{\"found\": true}\n"),
        Finding::Missing => line.extend_from_slice(b"{\"not found\": true}\n"),
        Finding::OpenEnded => line.extend_from_slice(b"{\"more\": true}\n"),
        Finding::Untold => append_broken_object(line, stop),
    }
}

/// Appends what can't be decided.
fn append_broken_object(line: &mut Vec<u8>, stop: &[u8]) -> Result<(), AllocError>
    ensures { OnOk result (line.new.items ≡ line.old.items ++ ending_object (broken stop.now)) }
{
    line.extend_from_slice(b"{\"out of bounds at\": ")?;
    line.extend_from_slice(stop)?;
    line.extend_from_slice(b"}\n")
}

/// Appends `{"states": 2, "steps": 1}`.
fn append_count_object(line: &mut Vec<u8>, nodes: usize, edges: u64) -> Result<(), AllocError>
    ensures { OnOk result ((n : ℕ) → edges ≡ min n (2 ^ 64 - 1) → line.new.items ≡ line.old.items ++ count_object nodes n) }
{
    append_between(line, b"{\"states\": ", nodes, b", \"steps\": ")?;
    append_steps(line, edges)?;
    line.extend_from_slice(b"}\n")
}

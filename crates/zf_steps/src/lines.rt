//! The lines of states and steps, each with its newline.
ghost use Rattle.std.specs.Prelude.{◌≡◌, ◌-◌, ◌^◌, ◌++◌, ℕ, OnOk, Some, decimal, min, slice_get};
ghost use Rattle.zf_steps.specs.Prelude.{broken, ending_of};
ghost use Rattle.zf_steps.specs.declared.node.Node.TheVariants.{State};
ghost use Rattle.zf_steps.specs.{count_line, ending_line, label_text, operation_of, operation_text, state_line, step_line, stuck_line, system_of};

use crate::given::{Schematic, Surrounding};
use crate::layout::Layout;
use crate::node::Label;
use crate::system::{Operation, System};
use itoa::Buffer;
use std::alloc::AllocError;
use zf_reach::Ending;
use zf_value::Value;

/// Appends `state 2: BINDING`. A refusal leaves a part of it.
pub fn append_state<E: Surrounding, F: Schematic>(
    line: &mut Vec<u8>,
    system: &System<'_, '_, F>,
    number: usize,
    values: &[Value],
) -> Result<(), AllocError>
    ensures { OnOk result (line.new.items ≡ line.old.items ++ state_line (system_of E.environment F.schema system.now) 0 number (State values.now)) }
{
    line.extend_from_slice(b"state ")?;
    append_number(line, number)?;
    line.extend_from_slice(b": ")?;
    system
        .test
        .label
        .append_row(line, system.elements, Layout::Line, &values)?;
    line.extend_from_slice(b"\n")
}

/// Appends `step 1 OPERATION 2: LABEL`. A refusal leaves a part of it.
pub fn append_step<E: Surrounding, F: Schematic>(
    line: &mut Vec<u8>,
    system: &System<'_, '_, F>,
    from: usize,
    label: &Label,
    number: usize,
) -> Result<(), AllocError>
    ensures { OnOk result (line.new.items ≡ line.old.items ++ step_line (system_of E.environment F.schema system.now) from label.now number) }
{
    if from == 0 {
        return Ok(());
    }
    line.extend_from_slice(b"step ")?;
    append_number(line, from)?;
    line.extend_from_slice(b" ")?;
    append_operation::<E, F>(line, system, label, number)?;
    line.extend_from_slice(b"\n")
}

/// Appends `OPERATION 2: LABEL`.
fn append_operation<E: Surrounding, F: Schematic>(
    line: &mut Vec<u8>,
    system: &System<'_, '_, F>,
    label: &Label,
    number: usize,
) -> Result<(), AllocError>
    ensures { OnOk result (line.new.items ≡ line.old.items ++ operation_text (system_of E.environment F.schema system.now) (slice_get (system_of E.environment F.schema system.now).operations label.now.operation) number label.now.values) }
{
    match system.operations.get(label.operation) {
        None => {
            line.extend_from_slice(b" ")?;
            append_number(line, number)
        }
        Some(operation) => {
            append_named::<E, F>(line, system, operation, number, label.values.as_slice())
        }
    }
}

/// Appends `OPERATION 2: LABEL` of an operation.
fn append_named<E: Surrounding, F: Schematic>(
    line: &mut Vec<u8>,
    system: &System<'_, '_, F>,
    operation: &Operation<'_, F>,
    number: usize,
    values: &[Value],
) -> Result<(), AllocError>
    ensures { OnOk result (line.new.items ≡ line.old.items ++ operation_text (system_of E.environment F.schema system.now) (Some (operation_of F.schema operation.now)) number values.now) }
{
    line.extend_from_slice(operation.name)?;
    line.extend_from_slice(b" ")?;
    append_number(line, number)?;
    append_label::<E, F>(line, system, operation, values)
}

/// Appends `: BINDING` of what else a step has, and nothing where it has nothing.
pub fn append_label<E: Surrounding, F: Schematic>(
    line: &mut Vec<u8>,
    system: &System<'_, '_, F>,
    operation: &Operation<'_, F>,
    values: &[Value],
) -> Result<(), AllocError>
    ensures { OnOk result (line.new.items ≡ line.old.items ++ label_text (system_of E.environment F.schema system.now) (operation_of F.schema operation.now).label values.now) }
{
    if values.is_empty() {
        return Ok(());
    }
    line.extend_from_slice(b": ")?;
    operation
        .label
        .append_row(line, system.elements, Layout::Line, &values)
}

/// Appends `end`, `more`, or what can't be decided.
pub fn append_ending(line: &mut Vec<u8>, ending: Ending, stop: &[u8]) -> Result<(), AllocError>
    ensures { OnOk result (line.new.items ≡ line.old.items ++ ending_line (ending_of ending stop.now)) }
{
    match ending {
        Ending::Ended => line.extend_from_slice(b"end\n"),
        Ending::Paused => line.extend_from_slice(b"more\n"),
        Ending::Broken => append_broken(line, stop),
    }
}

/// Appends what can't be decided.
fn append_broken(line: &mut Vec<u8>, stop: &[u8]) -> Result<(), AllocError>
    ensures { OnOk result (line.new.items ≡ line.old.items ++ ending_line (broken stop.now)) }
{
    line.extend_from_slice(b"out of bounds at: ")?;
    line.extend_from_slice(stop)?;
    line.extend_from_slice(b"\n")
}

/// Appends `2 states, 1 steps`.
pub fn append_counts(line: &mut Vec<u8>, nodes: usize, edges: u64) -> Result<(), AllocError>
    ensures { OnOk result ((n : ℕ) → edges ≡ min n (2 ^ 64 - 1) → line.new.items ≡ line.old.items ++ count_line nodes n) }
{
    append_number(line, nodes)?;
    line.extend_from_slice(b" states, ")?;
    append_steps(line, edges)?;
    line.extend_from_slice(b" steps\n")
}

/// Appends a number of steps.
pub fn append_steps(line: &mut Vec<u8>, edges: u64) -> Result<(), AllocError>
    ensures { OnOk result (line.new.items ≡ line.old.items ++ decimal edges) }
{
    line.extend_from_slice(Buffer::new().format(edges).as_bytes())
}

/// Appends how it ended, and the counts.
pub fn append_last_lines(
    line: &mut Vec<u8>,
    ending: Ending,
    stop: &[u8],
    nodes: usize,
    edges: u64,
) -> Result<(), AllocError>
    ensures { OnOk result ((n : ℕ) → edges ≡ min n (2 ^ 64 - 1) → line.new.items ≡ line.old.items ++ ending_line (ending_of ending stop.now) ++ count_line nodes n) }
{
    append_ending(line, ending, stop)?;
    append_counts(line, nodes, edges)
}

/// Appends `stuck 2`, and nothing where there is no state.
pub fn append_stuck_line(line: &mut Vec<u8>, number: usize) -> Result<(), AllocError>
    ensures { OnOk result (line.new.items ≡ line.old.items ++ stuck_line number) }
{
    if number == 0 {
        return Ok(());
    }
    append_between(line, b"stuck ", number, b"\n")
}

/// Appends a number between two texts.
pub fn append_between(
    line: &mut Vec<u8>,
    before: &[u8],
    number: usize,
    after: &[u8],
) -> Result<(), AllocError>
    ensures { OnOk result (line.new.items ≡ line.old.items ++ before.now ++ decimal number ++ after.now) }
{
    line.extend_from_slice(before)?;
    append_number(line, number)?;
    line.extend_from_slice(after)
}

/// Appends a number.
pub fn append_number(line: &mut Vec<u8>, number: usize) -> Result<(), AllocError>
    ensures { OnOk result (line.new.items ≡ line.old.items ++ decimal number) }
{
    line.extend_from_slice(Buffer::new().format(number).as_bytes())
}

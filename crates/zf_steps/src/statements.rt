//! The statements of a graph for Graphviz: its nodes are the states, by their numbers, its edges the steps.
ghost use Rattle.std.specs.Prelude.{◌≡◌, ◌-◌, ◌^◌, ◌++◌, ℕ, OnOk, Some, codes, decimal, min, slice_get};
ghost use Rattle.zf_steps.specs.Prelude.{ending_of, result_of};
ghost use Rattle.zf_steps.specs.declared.node.Node.TheVariants.{State};
ghost use Rattle.zf_steps.specs.{column_text, count_line, edge_statement, ending_line, frame_text, graph_head, graph_last, label_of, node_statement, operation_of, result_line, step_text, stray_statement, stuck_statement, system_of};

use crate::given::{Schematic, Surrounding};
use crate::labels::append_as_label;
use crate::layout::Layout;
use crate::lines::{append_counts, append_ending, append_label, append_number};
use crate::node::Label;
use crate::results::append_result;
use crate::system::{Operation, System};
use std::alloc::AllocError;
use zf_reach::{Ending, Finding};
use zf_value::Value;

/// Appends what stands before the statements.
pub fn append_graph_head(line: &mut Vec<u8>) -> Result<(), AllocError>
    ensures { OnOk result (line.new.items ≡ line.old.items ++ graph_head) }
{
    line.extend_from_slice(b"digraph {\n  node [shape=box, style=filled, fillcolor=white];\n")
}

/// Appends `2 [label="BINDING"];`. A refusal leaves a part of it.
pub fn append_node_statement<E: Surrounding, F: Schematic>(
    line: &mut Vec<u8>,
    system: &System<'_, '_, F>,
    from: usize,
    number: usize,
    values: &[Value],
) -> Result<(), AllocError>
    ensures { OnOk result (line.new.items ≡ line.old.items ++ node_statement (system_of E.environment F.schema system.now) from number (State values.now)) }
{
    line.extend_from_slice(b"  ")?;
    append_number(line, number)?;
    line.extend_from_slice(b" [label=\"")?;
    append_state_label(line, system, values)?;
    line.extend_from_slice(b"\"")?;
    append_frame(line, from)?;
    line.extend_from_slice(b"];\n")
}

/// Appends the components of a state, as they stand in a label.
fn append_state_label<F: Schematic>(
    line: &mut Vec<u8>,
    system: &System<'_, '_, F>,
    values: &[Value],
) -> Result<(), AllocError>
    ensures { OnOk result (line.new.items ≡ line.old.items ++ label_of (column_text system.now.elements.now (F.schema system.now.test.label.now).comps values.now)) }
{
    let mut text = Vec::new(system.alloc);
    system
        .test
        .label
        .append_row(&mut text, system.elements, Layout::Column, &values)?;
    append_as_label(line, text.as_slice())
}

/// Appends that a state has a double frame, where it is initial.
fn append_frame(line: &mut Vec<u8>, from: usize) -> Result<(), AllocError>
    ensures { OnOk result (line.new.items ≡ line.old.items ++ frame_text from) }
{
    if from == 0 {
        return line.extend_from_slice(b", peripheries=2");
    }
    Ok(())
}

/// Appends `1 -> 2 [label="OPERATION: BINDING"];`. A refusal leaves a part of it.
pub fn append_edge_statement<E: Surrounding, F: Schematic>(
    line: &mut Vec<u8>,
    system: &System<'_, '_, F>,
    from: usize,
    label: &Label,
    number: usize,
) -> Result<(), AllocError>
    ensures { OnOk result (line.new.items ≡ line.old.items ++ edge_statement (system_of E.environment F.schema system.now) from label.now number) }
{
    if from == 0 {
        return Ok(());
    }
    line.extend_from_slice(b"  ")?;
    append_number(line, from)?;
    line.extend_from_slice(b" -> ")?;
    append_number(line, number)?;
    line.extend_from_slice(b" [label=\"")?;
    append_step_label::<E, F>(line, system, label)?;
    line.extend_from_slice(b"\"];\n")
}

/// Appends `OPERATION: BINDING`, as it stands in a label.
fn append_step_label<E: Surrounding, F: Schematic>(
    line: &mut Vec<u8>,
    system: &System<'_, '_, F>,
    label: &Label,
) -> Result<(), AllocError>
    ensures { OnOk result (line.new.items ≡ line.old.items ++ label_of (step_text (system_of E.environment F.schema system.now) (slice_get (system_of E.environment F.schema system.now).operations label.now.operation) label.now.values)) }
{
    let mut text = Vec::new(system.alloc);
    append_step_text::<E, F>(&mut text, system, label)?;
    append_as_label(line, text.as_slice())
}

/// Appends `OPERATION: BINDING`.
fn append_step_text<E: Surrounding, F: Schematic>(
    text: &mut Vec<u8>,
    system: &System<'_, '_, F>,
    label: &Label,
) -> Result<(), AllocError>
    ensures { OnOk result (text.new.items ≡ text.old.items ++ step_text (system_of E.environment F.schema system.now) (slice_get (system_of E.environment F.schema system.now).operations label.now.operation) label.now.values) }
{
    match system.operations.get(label.operation) {
        None => Ok(()),
        Some(operation) => {
            append_operation_text::<E, F>(text, system, operation, label.values.as_slice())
        }
    }
}

/// Appends `OPERATION: BINDING` of an operation.
fn append_operation_text<E: Surrounding, F: Schematic>(
    text: &mut Vec<u8>,
    system: &System<'_, '_, F>,
    operation: &Operation<'_, F>,
    values: &[Value],
) -> Result<(), AllocError>
    ensures { OnOk result (text.new.items ≡ text.old.items ++ step_text (system_of E.environment F.schema system.now) (Some (operation_of F.schema operation.now)) values.now) }
{
    text.extend_from_slice(operation.name)?;
    append_label::<E, F>(text, system, operation, values)
}

/// Appends that a state is a stray.
pub fn append_stray_statement(line: &mut Vec<u8>, number: usize) -> Result<(), AllocError>
    ensures { OnOk result (line.new.items ≡ line.old.items ++ stray_statement number) }
{
    append_statement(line, number, b" [style=\"filled,dashed\"];\n")
}

/// Appends that a state has no steps.
pub fn append_stuck_statement(line: &mut Vec<u8>, number: usize) -> Result<(), AllocError>
    ensures { OnOk result (line.new.items ≡ line.old.items ++ stuck_statement number) }
{
    if number == 0 {
        return Ok(());
    }
    append_statement(line, number, b" [fillcolor=lightgrey];\n")
}

/// Appends this of a state.
fn append_statement(line: &mut Vec<u8>, number: usize, text: &[u8]) -> Result<(), AllocError>
    ensures { OnOk result (line.new.items ≡ line.old.items ++ (codes "  " ++ decimal number ++ text.now)) }
{
    line.extend_from_slice(b"  ")?;
    append_number(line, number)?;
    line.extend_from_slice(text)
}

/// Appends how it ended and the counts, as comments, and the end of the graph.
pub fn append_graph_last(
    line: &mut Vec<u8>,
    ending: Ending,
    stop: &[u8],
    nodes: usize,
    edges: u64,
) -> Result<(), AllocError>
    ensures { OnOk result ((n : ℕ) → edges ≡ min n (2 ^ 64 - 1) → line.new.items ≡ line.old.items ++ graph_last (ending_line (ending_of ending stop.now)) (count_line nodes n)) }
{
    line.extend_from_slice(b"  // ")?;
    append_ending(line, ending, stop)?;
    append_count_comment(line, nodes, edges)
}

/// Appends how a search ended and the counts, as comments, and the end of the graph.
pub fn append_graph_verdict(
    line: &mut Vec<u8>,
    finding: Finding,
    stop: &[u8],
    nodes: usize,
    edges: u64,
) -> Result<(), AllocError>
    ensures { OnOk result ((n : ℕ) → edges ≡ min n (2 ^ 64 - 1) → line.new.items ≡ line.old.items ++ graph_last (result_line (result_of finding stop.now)) (count_line nodes n)) }
{
    line.extend_from_slice(b"  // ")?;
    append_result(line, finding, stop)?;
    append_count_comment(line, nodes, edges)
}

/// Appends the counts, as a comment, and the end of the graph.
fn append_count_comment(line: &mut Vec<u8>, nodes: usize, edges: u64) -> Result<(), AllocError>
    ensures { OnOk result ((n : ℕ) → edges ≡ min n (2 ^ 64 - 1) → line.new.items ≡ line.old.items ++ codes "  // " ++ count_line nodes n ++ codes "}\n") }
{
    line.extend_from_slice(b"  // ")?;
    append_counts(line, nodes, edges)?;
    line.extend_from_slice(b"}\n")
}

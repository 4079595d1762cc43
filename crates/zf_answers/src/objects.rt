//! The objects that say why a schema has no binding, each with its newline.
ghost use Rattle.std.specs.Prelude.{◌≡◌, ◌++◌, OnOk, codes, map};
ghost use Rattle.zf_answers.specs.Prelude.{comma_before, member, parted, place_members};
ghost use Rattle.zf_answers.specs.Objects as spec;
ghost use Rattle.zf_answers.specs.{part_text, schema_in};

use crate::parts::{append_part, line_at, place_of, range_of};
use crate::subject::Subject;
use itoa::Buffer;
use std::alloc::AllocError;
use zf_format::Format;
use zf_lines::Style;
use zf_messages::{At, Report, append_detail_members, append_member, append_place_members, quoted};
use zf_print::append_value;
use zf_value::Outcome;
use zf_why::{Operand, Operands, Part, Side, Told};

/// Appends that a component is empty. As for all that follow, a refusal leaves a part of it.
pub fn append_empty_object(
    text: &mut Vec<u8>,
    file: &[u8],
    at: At,
    name: &[u8],
) -> Result<(), AllocError>
    ensures { OnOk result (text.new.items ≡ text.old.items ++ (codes "{" ++ place_members file.now at ++ member (codes "empty") name.now ++ codes "}\n")) }
{
    text.extend_from_slice(b"{")?;
    append_place_members(text, file, at)?;
    append_member(text, b"empty", name)?;
    text.extend_from_slice(b"}\n")
}

/// Appends what is reported of a conjunct.
pub fn append_told_object(
    text: &mut Vec<u8>,
    subject: &Subject<'_, '_, '_>,
    report: Report<'_>,
    told: &Told,
) -> Result<(), AllocError>
    ensures { OnOk result (text.new.items ≡ text.old.items ++ spec.told_object report.entry.details report.entry.file.now report.entry.source.now (schema_in subject.now).comps subject.now.style.now.elements.now told.now) }
{
    let at = At::Line(line_at(report.source, place_of(&told.part)));
    text.extend_from_slice(b"{")?;
    append_place_members(text, report.file, at)?;
    append_source(text, subject, report.source, &told.part)?;
    append_told_members(text, subject, report, told)?;
    text.extend_from_slice(b"}\n")
}

/// Appends what follows the predicate: its lines, its sides, and its operands.
fn append_told_members(
    text: &mut Vec<u8>,
    subject: &Subject<'_, '_, '_>,
    report: Report<'_>,
    told: &Told,
) -> Result<(), AllocError>
    ensures { OnOk result (text.new.items ≡ text.old.items ++ spec.told_members report.entry.details report.entry.source.now (schema_in subject.now).comps subject.now.style.now.elements.now told.now) }
{
    let range = range_of(subject.style.alloc, report, &told.part)?;
    append_detail_members(text, range.as_slice())?;
    append_sides(text, subject, report.source, &told.sides)?;
    append_operands(text, subject.style, report.source, &told.operands)
}

/// Appends `"source": PREDICATE`.
fn append_source(
    text: &mut Vec<u8>,
    subject: &Subject<'_, '_, '_>,
    source: &[u8],
    part: &Part,
) -> Result<(), AllocError>
    ensures { OnOk result (text.new.items ≡ text.old.items ++ member (codes "source") (part_text source.now (schema_in subject.now).comps part.now)) }
{
    let mut predicate = Vec::new(subject.style.alloc);
    append_part(&mut predicate, subject, source, part)?;
    append_member(text, b"source", &predicate)
}

/// Appends the sides of a disjunction, if it is one.
fn append_sides(
    text: &mut Vec<u8>,
    subject: &Subject<'_, '_, '_>,
    source: &[u8],
    sides: &[Side],
) -> Result<(), AllocError>
    ensures { OnOk result (text.new.items ≡ text.old.items ++ spec.sides_member source.now (schema_in subject.now).comps sides.now) }
{
    if sides.is_empty() {
        return Ok(());
    }
    text.extend_from_slice(b", \"sides\": [")?;
    append_side_objects(text, subject, source, sides)?;
    text.extend_from_slice(b"]")
}

fn append_side_objects(
    text: &mut Vec<u8>,
    subject: &Subject<'_, '_, '_>,
    source: &[u8],
    sides: &[Side],
) -> Result<(), AllocError>
    ensures { OnOk result (text.new.items ≡ text.old.items ++ parted (map (spec.side_object source.now (schema_in subject.now).comps) sides.now)) }
{
    for place in 0..sides.len() {
        append_separator(text, place)?;
        append_side(text, subject, source, &sides[place])?;
    }
    Ok(())
}

/// Appends one side, with its predicates.
fn append_side(
    text: &mut Vec<u8>,
    subject: &Subject<'_, '_, '_>,
    source: &[u8],
    side: &Side,
) -> Result<(), AllocError>
    ensures { OnOk result (text.new.items ≡ text.old.items ++ spec.side_object source.now (schema_in subject.now).comps side.now) }
{
    let name = quoted(subject.style.alloc, source, side.span)?;
    text.extend_from_slice(b"{")?;
    append_member(text, b"side", &name)?;
    text.extend_from_slice(b", \"predicates\": [")?;
    append_part_objects(text, subject, source, &side.blamed)?;
    text.extend_from_slice(b"]}")
}

fn append_part_objects(
    text: &mut Vec<u8>,
    subject: &Subject<'_, '_, '_>,
    source: &[u8],
    parts: &[Part],
) -> Result<(), AllocError>
    ensures { OnOk result (text.new.items ≡ text.old.items ++ parted (map (spec.part_object source.now (schema_in subject.now).comps) parts.now)) }
{
    for place in 0..parts.len() {
        append_separator(text, place)?;
        append_part_object(text, subject, source, &parts[place])?;
    }
    Ok(())
}

/// Appends `{"line": LINE, "source": PREDICATE}`.
fn append_part_object(
    text: &mut Vec<u8>,
    subject: &Subject<'_, '_, '_>,
    source: &[u8],
    part: &Part,
) -> Result<(), AllocError>
    ensures { OnOk result (text.new.items ≡ text.old.items ++ spec.part_object source.now (schema_in subject.now).comps part.now) }
{
    let mut number = Buffer::new();
    let line = line_at(source, place_of(part));
    text.extend_from_slice(b"{\"line\": ")?;
    text.extend_from_slice(number.format(line).as_bytes())?;
    text.extend_from_slice(b", ")?;
    append_source(text, subject, source, part)?;
    text.extend_from_slice(b"}")
}

/// Appends what stands before an object, after so many others.
fn append_separator(text: &mut Vec<u8>, count: usize) -> Result<(), AllocError>
    ensures { OnOk result (text.new.items ≡ text.old.items ++ comma_before count) }
{
    if count == 0 {
        return Ok(());
    }
    text.extend_from_slice(b", ")
}

/// Appends both operands of a relation, if they are reported.
fn append_operands(
    text: &mut Vec<u8>,
    style: &Style<'_>,
    source: &[u8],
    operands: &Option<Operands>,
) -> Result<(), AllocError>
    ensures { OnOk result (text.new.items ≡ text.old.items ++ spec.operands_members source.now style.now.elements.now operands.now) }
{
    let Some(operands) = operands else {
        return Ok(());
    };
    text.extend_from_slice(b", \"left\": ")?;
    append_outcome(text, style, &operands.left)?;
    text.extend_from_slice(b", \"right\": ")?;
    append_operand(text, style, source, &operands.right)
}

/// Appends what an operand comes to, or how the source has it.
fn append_operand(
    text: &mut Vec<u8>,
    style: &Style<'_>,
    source: &[u8],
    operand: &Operand,
) -> Result<(), AllocError>
    ensures { OnOk result (text.new.items ≡ text.old.items ++ spec.operand_object source.now style.now.elements.now operand.now) }
{
    match operand {
        Operand::Comes(outcome) => append_outcome(text, style, outcome),
        Operand::Stands(span) => {
            let there = quoted(style.alloc, source, *span)?;
            text.extend_from_slice(b"{")?;
            append_member(text, b"set", &there)?;
            text.extend_from_slice(b"}")
        }
    }
}

fn append_outcome(
    text: &mut Vec<u8>,
    style: &Style<'_>,
    outcome: &Outcome,
) -> Result<(), AllocError>
    ensures { OnOk result (text.new.items ≡ text.old.items ++ spec.outcome_object style.now.elements.now outcome.now) }
{
    match outcome {
        Outcome::Is(value) => append_value(text, Format::Objects, style.elements, value),
        Outcome::Undefined => text.extend_from_slice(b"null"),
        Outcome::Out => text.extend_from_slice(b"{\"out of bounds\": true}"),
    }
}

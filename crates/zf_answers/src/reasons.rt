//! The lines that say why a schema has no binding.
ghost use Rattle.std.specs.Prelude.{◌≡◌, ◌++◌, IfOk, OnOk, codes, length};
ghost use Rattle.std.specs.List.{flat_map};
ghost use Rattle.zf_answers.specs.Prelude.{chosen_of, comp_of, Lines, place_text};
ghost use Rattle.zf_answers.specs.Reasons as spec;
ghost use Rattle.zf_answers.specs.{cause_lines, reasons, schema_in};
ghost use Rattle.zf_answers.specs.Subjects.{IsOfSchema};

use crate::endings::append_no_binding;
use crate::objects::{append_empty_object, append_told_object};
use crate::parts::{append_operand, append_outcome, append_part, line_at, place_of, range_of};
use crate::subject::Subject;
use std::alloc::AllocError;
use zf_finite::first_plain;
use zf_format::Format;
use zf_messages::{At, Report, append_detail_lines, append_place, quoted};
use zf_term::Component;
use zf_why::{Cause, Operands, Part, Side, Told};

/// The lines of a cause, and the last one.
pub fn cause_lines(
    subject: &Subject<'_, '_, '_>,
    report: Report<'_>,
    cause: &Cause,
) -> Result<Vec<u8>, AllocError>
    requires { IsOfSchema (schema_in subject.now) cause.now }
    ensures { IfOk result (λ v. v.items ≡ cause_lines subject.now.style.now.format report.entry.details report.entry.file.now report.entry.source.now subject.now.style.now.elements.now (schema_in subject.now) cause.now) }
{
    let mut lines = Vec::new(subject.style.alloc);
    append_reasons(&mut lines, subject, report, cause)?;
    append_no_binding(&mut lines, subject.style.format, cause)?;
    Ok(lines)
}

/// The components without a value, or what is reported of the conjuncts that are to blame.
fn append_reasons(
    lines: &mut Vec<u8>,
    subject: &Subject<'_, '_, '_>,
    report: Report<'_>,
    cause: &Cause,
) -> Result<(), AllocError>
    requires { IsOfSchema (schema_in subject.now) cause.now }
    ensures { OnOk result (lines.new.items ≡ lines.old.items ++ reasons subject.now.style.now.format report.entry.details report.entry.file.now report.entry.source.now subject.now.style.now.elements.now (schema_in subject.now) cause.now) }
{
    match cause {
        Cause::Empty(empty) => append_all_empty(lines, subject, report, empty),
        Cause::Alone(told) | Cause::Together(told) => append_all_told(lines, subject, report, told),
    }
}

// ---- components without a value

/// That each of the chosen components has no value.
fn append_all_empty(
    lines: &mut Vec<u8>,
    subject: &Subject<'_, '_, '_>,
    report: Report<'_>,
    chosen: &[bool],
) -> Result<(), AllocError>
    requires { length chosen.now ≡ length (schema_in subject.now).comps }
    ensures { OnOk result (lines.new.items ≡ lines.old.items ++ spec.empty_lines subject.now.style.now.format report.entry.file.now report.entry.source.now (chosen_of (schema_in subject.now).comps chosen.now)) }
{
    let components = subject.schema.components.as_slice();
    for place in 0..components.len() {
        if chosen[place] {
            append_empty(lines, subject.style.format, report, &components[place])?;
        }
    }
    Ok(())
}

/// That a component is empty.
fn append_empty(
    lines: &mut Vec<u8>,
    format: Format,
    report: Report<'_>,
    component: &Component<'_>,
) -> Result<(), AllocError>
    ensures { OnOk result (lines.new.items ≡ lines.old.items ++ spec.empty_line format report.entry.file.now report.entry.source.now (comp_of component.now)) }
{
    let span = first_plain(component.domains.get());
    let at = At::Line(line_at(report.source, span));
    let name = component.name.as_slice();
    match format {
        Format::Lines => append_empty_line(lines, report.file, at, name),
        Format::Objects => append_empty_object(lines, report.file, at, name),
    }
}

/// `FILE:LINE: x: empty`
fn append_empty_line(
    lines: &mut Vec<u8>,
    file: &[u8],
    at: At,
    name: &[u8],
) -> Result<(), AllocError>
    ensures { OnOk result (lines.new.items ≡ lines.old.items ++ (place_text file.now at ++ name.now ++ codes ": empty\n")) }
{
    append_place(lines, file, at)?;
    lines.extend_from_slice(name)?;
    lines.extend_from_slice(b": empty\n")
}

// ---- conjuncts

/// What is reported of conjuncts.
fn append_all_told(
    lines: &mut Vec<u8>,
    subject: &Subject<'_, '_, '_>,
    report: Report<'_>,
    told: &[Told],
) -> Result<(), AllocError>
    ensures { OnOk result (lines.new.items ≡ lines.old.items ++ spec.told_lines subject.now.style.now.format report.entry.details report.entry.file.now report.entry.source.now (schema_in subject.now).comps subject.now.style.now.elements.now told.now) }
{
    for one in told {
        append_told(lines, subject, report, one)?;
    }
    Ok(())
}

/// What is reported of a conjunct.
fn append_told(
    lines: &mut Vec<u8>,
    subject: &Subject<'_, '_, '_>,
    report: Report<'_>,
    told: &Told,
) -> Result<(), AllocError>
    ensures { OnOk result (lines.new.items ≡ lines.old.items ++ spec.told_line subject.now.style.now.format report.entry.details report.entry.file.now report.entry.source.now (schema_in subject.now).comps subject.now.style.now.elements.now told.now) }
{
    match subject.style.format {
        Format::Lines => append_told_line(lines, subject, report, told),
        Format::Objects => append_told_object(lines, subject, report, told),
    }
}

/// `FILE:LINE: PREDICATE`, its lines, and those of the sides of a disjunction or of both operands.
fn append_told_line(
    lines: &mut Vec<u8>,
    subject: &Subject<'_, '_, '_>,
    report: Report<'_>,
    told: &Told,
) -> Result<(), AllocError>
    ensures { OnOk result (lines.new.items ≡ lines.old.items ++ spec.told_line Lines report.entry.details report.entry.file.now report.entry.source.now (schema_in subject.now).comps subject.now.style.now.elements.now told.now) }
{
    append_part_line(lines, subject, report, &told.part)?;
    let range = range_of(subject.style.alloc, report, &told.part)?;
    append_detail_lines(lines, range.as_slice())?;
    append_sides(lines, subject, report, &told.sides)?;
    append_operands(lines, subject, report, &told.operands)
}

/// `FILE:LINE: PREDICATE`
fn append_part_line(
    lines: &mut Vec<u8>,
    subject: &Subject<'_, '_, '_>,
    report: Report<'_>,
    part: &Part,
) -> Result<(), AllocError>
    ensures { OnOk result (lines.new.items ≡ lines.old.items ++ spec.part_line report.entry.file.now report.entry.source.now (schema_in subject.now).comps part.now) }
{
    let at = At::Line(line_at(report.source, place_of(part)));
    append_place(lines, report.file, at)?;
    append_part(lines, subject, report.source, part)?;
    lines.extend_from_slice(b"\n")
}

/// The lines of the sides of a disjunction.
fn append_sides(
    lines: &mut Vec<u8>,
    subject: &Subject<'_, '_, '_>,
    report: Report<'_>,
    sides: &[Side],
) -> Result<(), AllocError>
    ensures { OnOk result (lines.new.items ≡ lines.old.items ++ flat_map (spec.side_lines report.entry.file.now report.entry.source.now (schema_in subject.now).comps) sides.now) }
{
    for side in sides {
        append_side(lines, subject, report, side)?;
    }
    Ok(())
}

/// `    SIDE: FILE:LINE: PREDICATE` for each predicate of a side.
fn append_side(
    lines: &mut Vec<u8>,
    subject: &Subject<'_, '_, '_>,
    report: Report<'_>,
    side: &Side,
) -> Result<(), AllocError>
    ensures { OnOk result (lines.new.items ≡ lines.old.items ++ spec.side_lines report.entry.file.now report.entry.source.now (schema_in subject.now).comps side.now) }
{
    let name = quoted(subject.style.alloc, report.source, side.span)?;
    for part in &side.blamed {
        append_name_of_side(lines, &name)?;
        append_part_line(lines, subject, report, part)?;
    }
    Ok(())
}

/// `    SIDE: `
fn append_name_of_side(lines: &mut Vec<u8>, name: &[u8]) -> Result<(), AllocError>
    ensures { OnOk result (lines.new.items ≡ lines.old.items ++ (codes "    " ++ name.now ++ codes ": ")) }
{
    lines.extend_from_slice(b"    ")?;
    lines.extend_from_slice(name)?;
    lines.extend_from_slice(b": ")
}

/// What both operands of a relation come to, if they are reported.
fn append_operands(
    lines: &mut Vec<u8>,
    subject: &Subject<'_, '_, '_>,
    report: Report<'_>,
    operands: &Option<Operands>,
) -> Result<(), AllocError>
    ensures { OnOk result (lines.new.items ≡ lines.old.items ++ spec.operands_lines report.entry.source.now subject.now.style.now.elements.now operands.now) }
{
    let Some(operands) = operands else {
        return Ok(());
    };
    lines.extend_from_slice(b"    left: ")?;
    append_outcome(lines, subject.style, &operands.left)?;
    lines.extend_from_slice(b"\n    right: ")?;
    append_operand(lines, subject.style, report.source, &operands.right)?;
    lines.extend_from_slice(b"\n")
}

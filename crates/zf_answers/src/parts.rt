//! What `why` shows a conjunct by.
ghost use Rattle.std.specs.Prelude.{◌≡◌, ◌++◌, IfOk, OnOk};
ghost use Rattle.zf_answers.specs.Prelude.{line_at};
ghost use Rattle.zf_answers.specs.Parts as spec;
ghost use Rattle.zf_answers.specs.{schema_in};

use crate::subject::Subject;
use std::alloc::{AllocError, Global};
use zf_data::Items;
use zf_format::Format;
use zf_lines::Style;
use zf_messages::{Detail, Report, add_line_range, line_of, quoted};
use zf_print::append_value;
use zf_tree::Span;
use zf_value::Outcome;
use zf_why::{Operand, Part};

/// The line on which a part of the source begins.
pub fn line_at(source: &[u8], span: Span) -> u64
    ensures { result ≡ line_at source.now span.start }
{
    line_of(source, span.start)
}

/// Where it stands.
pub fn place_of(part: &Part) -> Span
    ensures { result ≡ spec.part_place part.now }
{
    match part {
        Part::Text(span) => *span,
        Part::Unchanged(span, _, _) => *span,
        Part::Member(_, span) => *span,
    }
}

/// Appends the predicate as the source has it, on one line; `S: x' = x` where it comes of `\Xi S`; `x : T` where it comes of a
/// declaration.
pub fn append_part(
    text: &mut Vec<u8>,
    subject: &Subject<'_, '_, '_>,
    source: &[u8],
    part: &Part,
) -> Result<(), AllocError>
    ensures { OnOk result (text.new.items ≡ text.old.items ++ spec.part_text source.now (schema_in subject.now).comps part.now) }
{
    let there = quoted(subject.style.alloc, source, place_of(part))?;
    match part {
        Part::Text(_) => text.extend_from_slice(&there),
        Part::Unchanged(_, before, after) => {
            text.extend_from_slice(&there)?;
            text.extend_from_slice(b": ")?;
            append_name(text, subject, *after)?;
            text.extend_from_slice(b" = ")?;
            append_name(text, subject, *before)
        }
        Part::Member(component, _) => {
            append_name(text, subject, *component)?;
            text.extend_from_slice(b" : ")?;
            text.extend_from_slice(&there)
        }
    }
}

/// The name of the component at a place.
fn append_name(
    text: &mut Vec<u8>,
    subject: &Subject<'_, '_, '_>,
    place: usize,
) -> Result<(), AllocError>
    ensures { OnOk result (text.new.items ≡ text.old.items ++ spec.name_in (schema_in subject.now).comps place) }
{
    let components = subject.schema.components.as_slice();
    if place < components.len() {
        return text.extend_from_slice(components[place].name.as_slice());
    }
    Ok(())
}

/// With details, the lines of a predicate that goes over more than one.
pub fn range_of(alloc: Global, report: Report<'_>, part: &Part) -> Result<Items<Detail>, AllocError>
    ensures { IfOk result (λ range. range ≡ spec.range_details report.entry.details report.entry.source.now part.now) }
{
    let mut range = Items::new(alloc);
    if report.details {
        let span = place_of(part);
        let first = line_of(report.source, span.start);
        let last = line_of(report.source, span.stop);
        add_line_range(&mut range, alloc, first, last)?;
    }
    Ok(range)
}

/// Appends what an operand comes to, or how the source has it.
pub fn append_operand(
    text: &mut Vec<u8>,
    style: &Style<'_>,
    source: &[u8],
    operand: &Operand,
) -> Result<(), AllocError>
    ensures { OnOk result (text.new.items ≡ text.old.items ++ spec.operand_text source.now style.now.elements.now operand.now) }
{
    match operand {
        Operand::Comes(outcome) => append_outcome(text, style, outcome),
        Operand::Stands(span) => {
            let there = quoted(style.alloc, source, *span)?;
            text.extend_from_slice(&there)
        }
    }
}

/// Appends what an expression comes to, as `show` writes values.
pub fn append_outcome(
    text: &mut Vec<u8>,
    style: &Style<'_>,
    outcome: &Outcome,
) -> Result<(), AllocError>
    ensures { OnOk result (text.new.items ≡ text.old.items ++ spec.outcome_text style.now.elements.now outcome.now) }
{
    match outcome {
        Outcome::Is(value) => append_value(text, Format::Lines, style.elements, value),
        Outcome::Undefined => text.extend_from_slice(b"undefined"),
        Outcome::Out => text.extend_from_slice(b"out of bounds"),
    }
}

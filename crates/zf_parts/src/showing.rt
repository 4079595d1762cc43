//! The lines of parts.
ghost use Rattle.std.specs.Prelude.{◌≡◌, ℕ, List, IfOk, OnOk, OnErr};
ghost use Rattle.zf_parts.specs.Prelude.{Appends, option_copied, AppendsFront, device_of, failures_of, HasLimit, IsAtStart, read_failures, row_line, write_failures, schema_of};
ghost use Rattle.zf_parts.specs.{part_wording, StopsKept, StopsParts, WritesKept, WritesParts};

use crate::asked::{Parts, Wanted};
use crate::collecting::{Collected, collect};
use crate::last::{write_last, write_out};
use crate::listing::write_met;
use crate::meeting::meet_all;
use crate::weights::weights_of;
use std::io::Write;
use zf_enum::{Ranged, Search};
use zf_lines::{Counted, RunFault, Status, Style, append_row_line, is_spent, one_less, write_text};
use zf_term::Flat;
use zf_value::Value;

/// Writes the lines of the parts that the bindings ahead have, and the last line.
pub fn show_parts<S: Ranged, W: Write>(
    style: &Style<'_>,
    parts: Parts<'_, '_>,
    search: &mut S,
    limit: Option<u64>,
    writer: &mut Counted<W>,
) -> Result<Status, RunFault>
    requires unfailed { failures_of writer.old ≡ 0 }
    requires start { IsAtStart (schema_of parts.flat.now) (S.Search.goal search.old) (S.Search.stage search.old) }
    requires limited { HasLimit limit }
    ensures ok { IfOk result (λ status. (text : List ℕ) × WritesParts (part_wording style.now.format style.now.elements.now (schema_of parts.entry.schema.now).comps (schema_of parts.entry.flat.now).comps) limit (S.Search.goal search.old).environment (schema_of parts.entry.flat.now) (S.Search.stage search.old) parts.entry.places.now (option_copied parts.entry.after) text status × Appends (W.contents (device_of writer.old)) (W.contents (device_of writer.new)) text) }
    ensures err { OnErr result (StopsParts (part_wording style.now.format style.now.elements.now (schema_of parts.entry.schema.now).comps (schema_of parts.entry.flat.now).comps) limit (S.Search.goal search.old).environment (schema_of parts.entry.flat.now) (S.Search.stage search.old) parts.entry.places.now (option_copied parts.entry.after) (W.contents (device_of writer.old)) (W.contents (device_of writer.new))) }
    ensures count { failures_of writer.new ≡ write_failures result }
    ensures unread { read_failures result ≡ 0 }
{
    match weights_of(style.alloc, search.ranges(), parts.places)? {
        None => show_collected(style, parts, search, limit, writer),
        Some(weights) => {
            let met = meet_all(style.alloc, parts, weights, search)?;
            write_met(style, Wanted { parts, limit }, search, &met, writer)
        }
    }
}

/// The same where they are kept by their values.
fn show_collected<S: Search, W: Write>(
    style: &Style<'_>,
    parts: Parts<'_, '_>,
    search: &mut S,
    limit: Option<u64>,
    writer: &mut Counted<W>,
) -> Result<Status, RunFault>
    requires unfailed { failures_of writer.old ≡ 0 }
    requires start { IsAtStart (schema_of parts.flat.now) (S.goal search.old) (S.stage search.old) }
    requires limited { HasLimit limit }
    ensures ok { IfOk result (λ status. (text : List ℕ) × WritesParts (part_wording style.now.format style.now.elements.now (schema_of parts.entry.schema.now).comps (schema_of parts.entry.flat.now).comps) limit (S.goal search.old).environment (schema_of parts.entry.flat.now) (S.stage search.old) parts.entry.places.now (option_copied parts.entry.after) text status × Appends (W.contents (device_of writer.old)) (W.contents (device_of writer.new)) text) }
    ensures err { OnErr result (StopsParts (part_wording style.now.format style.now.elements.now (schema_of parts.entry.schema.now).comps (schema_of parts.entry.flat.now).comps) limit (S.goal search.old).environment (schema_of parts.entry.flat.now) (S.stage search.old) parts.entry.places.now (option_copied parts.entry.after) (W.contents (device_of writer.old)) (W.contents (device_of writer.new))) }
    ensures count { failures_of writer.new ≡ write_failures result }
    ensures unread { read_failures result ≡ 0 }
{
    let collected = collect(style.alloc, parts, search)?;
    write_parts(style, parts, &collected, limit, writer)
}

/// Writes the lines of parts up to the last one that is written, and the last line.
fn write_parts<W: Write>(
    style: &Style<'_>,
    parts: Parts<'_, '_>,
    collected: &Collected,
    limit: Option<u64>,
    writer: &mut Counted<W>,
) -> Result<Status, RunFault>
    requires unfailed { failures_of writer.old ≡ 0 }
    requires limited { HasLimit limit }
    ensures ok { IfOk result (λ status. WritesKept (part_wording style.now.format style.now.elements.now (schema_of parts.entry.schema.now).comps (schema_of parts.entry.flat.now).comps) limit collected.now.entries status (W.contents (device_of writer.old)) (W.contents (device_of writer.new))) }
    ensures err { OnErr result (StopsKept (part_wording style.now.format style.now.elements.now (schema_of parts.entry.schema.now).comps (schema_of parts.entry.flat.now).comps) limit collected.now.entries (W.contents (device_of writer.old)) (W.contents (device_of writer.new))) }
    ensures count { failures_of writer.new ≡ write_failures result }
    ensures unread { read_failures result ≡ 0 }
{
    let mut line = Vec::new(style.alloc);
    let mut left = limit;
    for (values, row) in collected.iter() {
        match row {
            Some(row) => return write_out(&mut line, style, parts.flat, &row.as_slice(), writer),
            None => write_part(&mut line, style, parts.schema, values.as_slice(), writer)?,
        }
        left = one_less(left);
        if is_spent(left) {
            return write_last(&mut line, style, true, writer);
        }
    }
    write_last(&mut line, style, false, writer)
}

/// Writes the line of a part.
fn write_part<W: Write>(
    line: &mut Vec<u8>,
    style: &Style<'_>,
    schema: &Flat<'_>,
    values: &[Value],
    writer: &mut Counted<W>,
) -> Result<(), RunFault>
    requires unfailed { failures_of writer.old ≡ 0 }
    ensures ok { OnOk result (Appends (W.contents (device_of writer.old)) (W.contents (device_of writer.new)) (row_line style.now.format style.now.elements.now (schema_of schema.now).comps values.now)) }
    ensures err { OnErr result (AppendsFront (W.contents (device_of writer.old)) (W.contents (device_of writer.new)) (row_line style.now.format style.now.elements.now (schema_of schema.now).comps values.now)) }
    ensures count { failures_of writer.new ≡ write_failures result }
    ensures unread { read_failures result ≡ 0 }
{
    line.clear();
    append_row_line(line, style.format, schema, style.elements, &values)?;
    write_text(writer, line)
}

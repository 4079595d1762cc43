//! The lines of parts that were met, by their numbers.
ghost use Rattle.std.specs.Prelude.{◌≡◌, ℕ, List, IfOk, OnOk, OnErr};
ghost use Rattle.zf_parts.specs.Prelude.{Appends, option_copied, AppendsFront, device_of, failures_of, HasLimit, read_failures, write_failures, schema_of};
ghost use Rattle.zf_parts.specs.{AreAllMarked, end_status, end_text, part_wording, StopsParts, WritesParts};

use crate::asked::Wanted;
use crate::last::{write_last, write_out};
use crate::meeting::Met;
use crate::part_row::PartRow;
use std::io::Write;
use zf_enum::Ranged;
use zf_lines::show::write_row;
use zf_lines::{Counted, Printed, RunFault, Status, Style, is_spent, one_less};
use zf_term::Flat;
use zf_value::{Items, Value};

/// Writes the lines of the parts that were met, and the last line.
pub fn write_met<S: Ranged, W: Write>(
    style: &Style<'_>,
    wanted: Wanted<'_, '_>,
    search: &S,
    met: &Met,
    writer: &mut Counted<W>,
) -> Result<Status, RunFault>
    requires unfailed { failures_of writer.old ≡ 0 }
    requires limited { HasLimit wanted.limit }
    requires marked { AreAllMarked (S.Search.goal search.now).environment (schema_of wanted.parts.flat.now) (S.Search.stage search.now) wanted.parts.places.now (option_copied wanted.parts.after) met.now }
    ensures ok { IfOk result (λ status. (text : List ℕ) × WritesParts (part_wording style.now.format style.now.elements.now (schema_of wanted.entry.parts.schema.now).comps (schema_of wanted.entry.parts.flat.now).comps) wanted.entry.limit (S.Search.goal search.now).environment (schema_of wanted.entry.parts.flat.now) (S.Search.stage search.now) wanted.entry.parts.places.now (option_copied wanted.entry.parts.after) text status × Appends (W.contents (device_of writer.old)) (W.contents (device_of writer.new)) text) }
    ensures err { OnErr result (StopsParts (part_wording style.now.format style.now.elements.now (schema_of wanted.entry.parts.schema.now).comps (schema_of wanted.entry.parts.flat.now).comps) wanted.entry.limit (S.Search.goal search.now).environment (schema_of wanted.entry.parts.flat.now) (S.Search.stage search.now) wanted.entry.parts.places.now (option_copied wanted.entry.parts.after) (W.contents (device_of writer.old)) (W.contents (device_of writer.new))) }
    ensures count { failures_of writer.new ≡ write_failures result }
    ensures unread { read_failures result ≡ 0 }
{
    let parts = wanted.parts;
    let mut printed = Printed::new(style, parts.schema)?;
    let mut line = Vec::new(style.alloc);
    let ranges = search.ranges();
    let mut row = PartRow::new(style.alloc, ranges, parts.places)?;
    let mut left = wanted.limit;
    let mut last = 0;
    let mut from = 0;
    'parts: loop {
        let number = met.marks.next(from, met.end);
        if number == met.end {
            return write_end(&mut line, style, parts.flat, &met.out, writer);
        }
        row.go_on(number - last);
        write_row(&mut printed, style, parts.schema, &row, writer)?;
        left = one_less(left);
        if is_spent(left) {
            return write_last(&mut line, style, true, writer);
        }
        last = number;
        from = number + 1;
    }
}

/// Writes that a row is out of bounds, if there is one, or that no part is left.
fn write_end<W: Write>(
    line: &mut Vec<u8>,
    style: &Style<'_>,
    flat: &Flat<'_>,
    out: &Option<Items<Value>>,
    writer: &mut Counted<W>,
) -> Result<Status, RunFault>
    requires unfailed { failures_of writer.old ≡ 0 }
    ensures ok { OnOk result (Appends (W.contents (device_of writer.old)) (W.contents (device_of writer.new)) (end_text style.now.format style.now.elements.now (schema_of flat.now).comps out.now)) }
    ensures status { IfOk result (λ status. status ≡ end_status out.now) }
    ensures err { OnErr result (AppendsFront (W.contents (device_of writer.old)) (W.contents (device_of writer.new)) (end_text style.now.format style.now.elements.now (schema_of flat.now).comps out.now)) }
    ensures count { failures_of writer.new ≡ write_failures result }
    ensures unread { read_failures result ≡ 0 }
{
    match out {
        Some(row) => write_out(line, style, flat, &row.as_slice(), writer),
        None => write_last(line, style, false, writer),
    }
}

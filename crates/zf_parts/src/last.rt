//! The last line.
ghost use Rattle.std.specs.Prelude.{◌≡◌, ◌++◌, cond, IfOk, OnOk, OnErr};
ghost use Rattle.zf_parts.specs.Prelude.{Appends, AppendsFront, device_of, end_line, failures_of, more_line, out_line, read_failures, write_failures, Done, PastBounds, schema_of};

use std::alloc::AllocError;
use std::io::Write;
use zf_format::Format;
use zf_lines::{
    Counted, RunFault, Status, Style, append_end_line, append_more_line, append_out_line,
    write_text,
};
use zf_meaning::Row;
use zf_term::Flat;

/// Writes that a row is out of bounds.
pub fn write_out<R: Row, W: Write>(
    line: &mut Vec<u8>,
    style: &Style<'_>,
    flat: &Flat<'_>,
    row: &R,
    writer: &mut Counted<W>,
) -> Result<Status, RunFault>
    requires unfailed { failures_of writer.old ≡ 0 }
    ensures ok { OnOk result (Appends (W.contents (device_of writer.old)) (W.contents (device_of writer.new)) (out_line style.now.format style.now.elements.now (schema_of flat.now).comps (R.values row.now))) }
    ensures status { IfOk result (λ status. status ≡ PastBounds) }
    ensures err { OnErr result (AppendsFront (W.contents (device_of writer.old)) (W.contents (device_of writer.new)) (out_line style.now.format style.now.elements.now (schema_of flat.now).comps (R.values row.now))) }
    ensures count { failures_of writer.new ≡ write_failures result }
    ensures unread { read_failures result ≡ 0 }
{
    line.clear();
    append_out_line(line, style.format, flat, style.elements, row)?;
    write_text(writer, line)?;
    Ok(Status::PastBounds)
}

/// Writes that the limit is reached, or that no part is left.
pub fn write_last<W: Write>(
    line: &mut Vec<u8>,
    style: &Style<'_>,
    is_more: bool,
    writer: &mut Counted<W>,
) -> Result<Status, RunFault>
    requires unfailed { failures_of writer.old ≡ 0 }
    ensures ok { OnOk result (Appends (W.contents (device_of writer.old)) (W.contents (device_of writer.new)) (cond is_more (more_line style.now.format) (end_line style.now.format))) }
    ensures status { IfOk result (λ status. status ≡ Done) }
    ensures err { OnErr result (AppendsFront (W.contents (device_of writer.old)) (W.contents (device_of writer.new)) (cond is_more (more_line style.now.format) (end_line style.now.format))) }
    ensures count { failures_of writer.new ≡ write_failures result }
    ensures unread { read_failures result ≡ 0 }
{
    line.clear();
    append_last(line, style.format, is_more)?;
    write_text(writer, line)?;
    Ok(Status::Done)
}

/// Appends that the limit is reached, or that no part is left.
fn append_last(line: &mut Vec<u8>, format: Format, is_more: bool) -> Result<(), AllocError>
    ensures { OnOk result (line.new.items ≡ line.old.items ++ cond is_more (more_line format) (end_line format)) }
{
    if is_more {
        append_more_line(line, format)
    } else {
        append_end_line(line, format)
    }
}

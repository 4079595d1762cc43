//! The lines of rows, the last lines of a search, and that of the number of tests, each with its newline.
ghost use Rattle.std.specs.Prelude.{◌≡◌, ◌++◌, OnOk};
ghost use Rattle.zf_lines.specs.Prelude.{schema_of};
ghost use Rattle.zf_lines.specs.Texts as spec;

use itoa::Buffer;
use std::alloc::AllocError;
use zf_format::Format;
use zf_meaning::Row;
use zf_print::{Spelling, append_row};
use zf_term::Flat;

/// Appends the line of a row. A refusal leaves a part of it.
pub fn append_row_line<R: Row>(
    line: &mut Vec<u8>,
    format: Format,
    flat: &Flat<'_>,
    elements: &[Spelling],
    row: &R,
) -> Result<(), AllocError>
    ensures { OnOk result (line.new.items ≡ line.old.items ++ spec.row_line format elements.now (schema_of flat.now).comps (R.values row.now)) }
{
    append_row(line, format, flat, elements, row)?;
    line.push(b'\n')?;
    Ok(())
}

/// Appends the last line where the row is out of bounds. A refusal leaves a part of it.
pub fn append_out_line<R: Row>(
    line: &mut Vec<u8>,
    format: Format,
    flat: &Flat<'_>,
    elements: &[Spelling],
    row: &R,
) -> Result<(), AllocError>
    ensures { OnOk result (line.new.items ≡ line.old.items ++ spec.out_line format elements.now (schema_of flat.now).comps (R.values row.now)) }
{
    match format {
        Format::Lines => {
            line.extend_from_slice(b"out of bounds at: ")?;
            append_row_line(line, format, flat, elements, row)
        }
        Format::Objects => {
            line.extend_from_slice(b"{\"out of bounds at\": ")?;
            append_row(line, format, flat, elements, row)?;
            line.extend_from_slice(b"}\n")
        }
    }
}

/// Appends the last line where the limit is reached. A refusal leaves a part of it.
pub fn append_more_line(line: &mut Vec<u8>, format: Format) -> Result<(), AllocError>
    ensures { OnOk result (line.new.items ≡ line.old.items ++ spec.more_line format) }
{
    match format {
        Format::Lines => line.extend_from_slice(b"more\n"),
        Format::Objects => line.extend_from_slice(b"{\"more\": true}\n"),
    }
}

/// Appends the last line where no row is left. A refusal leaves a part of it.
pub fn append_end_line(line: &mut Vec<u8>, format: Format) -> Result<(), AllocError>
    ensures { OnOk result (line.new.items ≡ line.old.items ++ spec.end_line format) }
{
    match format {
        Format::Lines => line.extend_from_slice(b"end\n"),
        Format::Objects => line.extend_from_slice(b"{\"end\": true}\n"),
    }
}

/// Appends the line of the number of tests. A refusal leaves a part of it.
pub fn append_tests_line(line: &mut Vec<u8>, format: Format, number: u64) -> Result<(), AllocError>
    ensures { OnOk result (line.new.items ≡ line.old.items ++ spec.tests_line format number) }
{
    let mut buffer = Buffer::new();
    let digits = buffer.format(number).as_bytes();
    match format {
        Format::Lines => {
            line.extend_from_slice(b"tests: ")?;
            line.extend_from_slice(digits)?;
            line.extend_from_slice(b"\n")
        }
        Format::Objects => {
            line.extend_from_slice(b"{\"tests\": ")?;
            line.extend_from_slice(digits)?;
            line.extend_from_slice(b"}\n")
        }
    }
}

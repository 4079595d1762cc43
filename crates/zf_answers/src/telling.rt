//! What is reported in the place of bindings, states or causes.
ghost use Rattle.std.specs.Prelude.{◌≡◌};
ghost use Rattle.zf_answers.specs.Prelude.{device_of, failures_of, read_failures, write_failures};
ghost use Rattle.zf_answers.specs.{Tells, WritesText};

use crate::stop::Stop;
use std::alloc::Global;
use std::io::Write;
use zf_format::Format;
use zf_lines::{Counted, RunFault, Status, write_text};
use zf_messages::messages_text;

/// Writes the messages of what is reported, in this format.
pub fn tell<W: Write>(
    alloc: Global,
    format: Format,
    file: &[u8],
    stop: Stop,
    writer: &mut Counted<W>,
) -> Result<Status, RunFault>
    requires { failures_of writer.old ≡ 0 }
    ensures told { Tells format file.now stop (W.contents (device_of writer.old)) (W.contents (device_of writer.new)) result }
    ensures count { failures_of writer.new ≡ write_failures result }
    ensures unread { read_failures result ≡ 0 }
{
    match stop {
        Stop::Answered(told, status) => {
            let text = messages_text(alloc, format, file, told.as_slice())?;
            write_whole(&text, status, writer)
        }
        Stop::OutOfMemory => Err(RunFault::OutOfMemory),
    }
}

/// Writes a text that is whole.
pub fn write_whole<W: Write>(
    text: &[u8],
    status: Status,
    writer: &mut Counted<W>,
) -> Result<Status, RunFault>
    requires { failures_of writer.old ≡ 0 }
    ensures written { WritesText text.now status (W.contents (device_of writer.old)) (W.contents (device_of writer.new)) result }
    ensures count { failures_of writer.new ≡ write_failures result }
    ensures unread { read_failures result ≡ 0 }
{
    write_text(writer, text)?;
    Ok(status)
}

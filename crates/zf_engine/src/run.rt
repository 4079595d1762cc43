//! A run: it reads a source, and writes the answer of a job.
ghost use Rattle.std.specs.Prelude.{◌≡◌, ◌+◌, OnErr, IfOk, IsErrOf};
ghost use Rattle.zf_engine.specs.Prelude.{Keeps, device_of, failures_of, read_failures, write_failures, SOURCE_MAX};
ghost use Rattle.zf_answers.specs.{GaveAtMost};
ghost use Rattle.zf_engine.specs.{AnswersReader, IsLimited, StopsInReader};

use crate::answer::answer;
use std::alloc::Global;
use std::io::{Read, Write};
use zf_answers::read_source;
use zf_command::Job;
use zf_lines::{Counted, RunFault, Status};

/// Reads a source, of which it reads no more than one byte past the greatest length, and writes the answer of a
/// job. Each line is written before the next is looked for, and all is flushed once at the end. No call of a
/// device is tried again after an error.
pub fn run<R: Read, W: Write>(
    alloc: Global,
    job: &Job,
    file_name: &str,
    reader: &mut Counted<R>,
    writer: &mut Counted<W>,
) -> Result<Status, RunFault>
    requires unfailed_reader { failures_of reader.old ≡ 0 }
    requires unfailed_writer { failures_of writer.old ≡ 0 }
    requires limited { IsLimited job.now }
    ensures answered { IfOk result (λ status. AnswersReader job.now file_name.now
        (R.remaining (device_of reader.old)) (R.remaining (device_of reader.new))
        (W.contents (device_of writer.old)) (W.contents (device_of writer.new)) status) }
    ensures stopped { OnErr result (StopsInReader job.now file_name.now
        (R.remaining (device_of reader.old)) (R.remaining (device_of reader.new))
        (W.contents (device_of writer.old)) (W.contents (device_of writer.new))) }
    ensures unread { IsErrOf result RunFault.ReadFailed → Keeps (W.contents (device_of writer.old)) (W.contents (device_of writer.new)) }
    ensures bound { GaveAtMost (SOURCE_MAX + 1) (R.remaining (device_of reader.old)) (R.remaining (device_of reader.new)) }
    ensures reads { failures_of reader.new ≡ read_failures result }
    ensures writes { failures_of writer.new ≡ write_failures result }
{
    let source = read_source(alloc, reader)?;
    let status = answer(alloc, job, file_name, &source, writer)?;
    match writer.flush() {
        Ok(()) => Ok(status),
        Err(_) => Err(RunFault::WriteFailed),
    }
}

//! The loop that reads a source.
ghost use Rattle.std.specs.Prelude.{◌≡◌, ◌≤◌, ◌+◌, IfOk, vec_len};
ghost use Rattle.zf_answers.specs.Prelude.{device_of, failures_of, read_failures, write_failures};
ghost use Rattle.zf_answers.specs.{Gave, GaveAtMost};

use std::alloc::Global;
use std::io::Read;
use zf_lines::{Counted, RunFault};
use zf_scan::scan::SOURCE_MAX;

const CHUNK: usize = 65_536;

/// All that the reader gives, or one byte more than a source may have. After an error of any kind
/// the reader is not called again.
pub fn read_source<R: Read>(alloc: Global, reader: &mut Counted<R>) -> Result<Vec<u8>, RunFault>
    requires { failures_of reader.old ≡ 0 }
    ensures gave { IfOk result (λ v. Gave (R.remaining (device_of reader.old)) (R.remaining (device_of reader.new)) v.items) }
    ensures bound { GaveAtMost (SOURCE_MAX + 1) (R.remaining (device_of reader.old)) (R.remaining (device_of reader.new)) }
    ensures len { IfOk result (λ v. vec_len v ≤ SOURCE_MAX + 1) }
    ensures count { failures_of reader.new ≡ read_failures result }
    ensures unwritten { write_failures result ≡ 0 }
{
    let mut source = Vec::new(alloc);
    let mut buffer = [0u8; CHUNK];
    while source.len() < SOURCE_MAX + 1 {
        let most = (SOURCE_MAX + 1 - source.len()).min(CHUNK);
        match reader.read(&mut buffer[..most]) {
            Ok(0) => return Ok(source),
            Ok(n) => source.extend_from_slice(&buffer[..n])?,
            Err(_) => return Err(RunFault::ReadFailed),
        }
    }
    Ok(source)
}

//! The loop that writes a text.
ghost use Rattle.std.specs.Prelude.{◌≡◌, OnOk, OnErr, IsOkUnless};
ghost use Rattle.zf_lines.specs.Prelude.{Appends};
ghost use Rattle.zf_lines.specs.{AppendsFront, device_of, failures_of, write_failures};

use crate::counted::Counted;
use crate::fault::RunFault;
use std::io::Write;

/// Writes the text, by as many calls as the device needs, and stops at the first that fails or takes nothing.
pub fn write_text<W: Write>(writer: &mut Counted<W>, text: &[u8]) -> Result<(), RunFault>
    requires { failures_of writer.old ≡ 0 }
    ensures ok { OnOk result (Appends (W.contents (device_of writer.old)) (W.contents (device_of writer.new)) text.now) }
    ensures err { OnErr result (AppendsFront (W.contents (device_of writer.old)) (W.contents (device_of writer.new)) text.now) }
    ensures only { IsOkUnless result RunFault.WriteFailed }
    ensures count { failures_of writer.new ≡ write_failures result }
{
    let mut rest = text;
    while !rest.is_empty() {
        match writer.write(rest) {
            Ok(0) => return Err(RunFault::WriteFailed),
            Ok(n) => rest = &rest[n..],
            Err(_) => return Err(RunFault::WriteFailed),
        }
    }
    Ok(())
}

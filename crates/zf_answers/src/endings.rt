//! The last line of `why`.
ghost use Rattle.std.specs.Prelude.{◌≡◌, ◌++◌, OnOk};
ghost use Rattle.zf_answers.specs.Prelude.{Lines, Objects};
ghost use Rattle.zf_answers.specs.{cause_text, no_binding_line, satisfied_line};

use std::alloc::AllocError;
use zf_format::Format;
use zf_messages::append_member;
use zf_why::Cause;

/// The last line where there is a binding.
pub fn satisfied_line(format: Format) -> &'static [u8]
    ensures { result.now ≡ satisfied_line format }
{
    match format {
        Format::Lines => b"satisfied\n",
        Format::Objects => b"{\"satisfied\": true}\n",
    }
}

/// Appends the last line where there is none, with the kind of the cause.
pub fn append_no_binding(
    text: &mut Vec<u8>,
    format: Format,
    cause: &Cause,
) -> Result<(), AllocError>
    ensures { OnOk result (text.new.items ≡ text.old.items ++ no_binding_line format (cause_text cause.now)) }
{
    let kind = cause_text(cause);
    match format {
        Format::Lines => append_ending_line(text, kind),
        Format::Objects => append_ending_object(text, kind),
    }
}

fn cause_text(cause: &Cause) -> &'static [u8]
    ensures { result.now ≡ cause_text cause.now }
{
    match cause {
        Cause::Empty(_) => b"empty",
        Cause::Alone(_) => b"each alone",
        Cause::Together(_) => b"only together",
    }
}

fn append_ending_line(text: &mut Vec<u8>, kind: &[u8]) -> Result<(), AllocError>
    ensures { OnOk result (text.new.items ≡ text.old.items ++ no_binding_line Lines kind.now) }
{
    text.extend_from_slice(b"no binding: ")?;
    text.extend_from_slice(kind)?;
    text.extend_from_slice(b"\n")
}

fn append_ending_object(text: &mut Vec<u8>, kind: &[u8]) -> Result<(), AllocError>
    ensures { OnOk result (text.new.items ≡ text.old.items ++ no_binding_line Objects kind.now) }
{
    text.extend_from_slice(b"{")?;
    append_member(text, b"no binding", kind)?;
    text.extend_from_slice(b"}\n")
}

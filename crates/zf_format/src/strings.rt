//! Strings of JSON.
ghost use Rattle.std.specs.Prelude.{◌≡◌, ◌<◌, ◌++◌, OnOk};
ghost use Rattle.std.specs.Char.{digit_char};
ghost use Rattle.zf_format.specs.{hidden_text, string_byte, string_text};

use std::alloc::AllocError;

/// Appends the bytes as a string. A refusal leaves a part of it.
pub fn append_string(text: &mut Vec<u8>, bytes: &[u8]) -> Result<(), AllocError>
    ensures { OnOk result (text.new.items ≡ text.old.items ++ string_text bytes.now) }
{
    let is_utf8 = str::from_utf8(bytes).is_ok();
    text.push(b'"')?;
    for &byte in bytes {
        append_byte(text, is_utf8, byte)?;
    }
    text.push(b'"')?;
    Ok(())
}

/// Appends a byte of a string.
fn append_byte(text: &mut Vec<u8>, is_utf8: bool, byte: u8) -> Result<(), AllocError>
    ensures { OnOk result (text.new.items ≡ text.old.items ++ string_byte is_utf8 byte) }
{
    if byte == b'"' || byte == b'\\' {
        return text.extend_from_slice(&[b'\\', byte]);
    }
    if byte < 32 || byte == 127 || (byte >= 128 && !is_utf8) {
        return append_hidden(text, byte);
    }
    text.push(byte)?;
    Ok(())
}

/// Appends the number of a byte, `\u00` with two digits.
fn append_hidden(text: &mut Vec<u8>, byte: u8) -> Result<(), AllocError>
    ensures { OnOk result (text.new.items ≡ text.old.items ++ hidden_text byte) }
{
    text.extend_from_slice(b"\\u00")?;
    text.extend_from_slice(&[digit(byte / 16), digit(byte % 16)])
}

/// The digit of a number below 16.
fn digit(number: u8) -> u8
    requires { number < 16 }
    ensures { result ≡ digit_char number }
{
    if number < 10 {
        b'0' + number
    } else {
        b'a' - 10 + number
    }
}

//! How messages are written: as lines, or as objects.
ghost use Rattle.std.specs.Prelude.{◌≡◌, ◌++◌, IfOk, OnOk};
ghost use Rattle.std.specs.List.{flat_map};
ghost use Rattle.zf_messages.specs.{messages_text};
ghost use Rattle.zf_messages.specs.Messages as spec;

use crate::message::{At, Detail, Message};
use itoa::Buffer;
use std::alloc::{AllocError, Global};
use zf_format::{Format, append_string};

/// The text of messages about a file.
pub fn messages_text(
    alloc: Global,
    format: Format,
    file: &[u8],
    messages: &[Message],
) -> Result<Vec<u8>, AllocError>
    ensures { IfOk result (λ v. v.items ≡ messages_text format file.now messages.now) }
{
    match format {
        Format::Lines => all_lines(alloc, file, messages),
        Format::Objects => all_objects(alloc, file, messages),
    }
}

// ---- as lines

fn all_lines(alloc: Global, file: &[u8], messages: &[Message]) -> Result<Vec<u8>, AllocError>
    ensures { IfOk result (λ v. v.items ≡ flat_map (spec.message_lines file.now) messages.now) }
{
    let mut text = Vec::new(alloc);
    for message in messages {
        append_lines(&mut text, file, message)?;
    }
    Ok(text)
}

fn append_lines(text: &mut Vec<u8>, file: &[u8], message: &Message) -> Result<(), AllocError>
    ensures { OnOk result (text.new.items ≡ text.old.items ++ spec.message_lines file.now message.now) }
{
    append_place(text, file, message.at)?;
    text.extend_from_slice(message.text.as_slice())?;
    text.extend_from_slice(b"\n")?;
    append_detail_lines(text, message.details.as_slice())
}

/// Appends `FILE:LINE: `, so far as there are a file and a line.
pub fn append_place(text: &mut Vec<u8>, file: &[u8], at: At) -> Result<(), AllocError>
    ensures { OnOk result (text.new.items ≡ text.old.items ++ spec.place_text file.now at) }
{
    match at {
        At::Nowhere => Ok(()),
        At::File => {
            text.extend_from_slice(file)?;
            text.extend_from_slice(b": ")
        }
        At::Line(line) => {
            let mut number = Buffer::new();
            text.extend_from_slice(file)?;
            text.extend_from_slice(b":")?;
            text.extend_from_slice(number.format(line).as_bytes())?;
            text.extend_from_slice(b": ")
        }
    }
}

/// Appends each detail, on a line of its own.
pub fn append_detail_lines(text: &mut Vec<u8>, details: &[Detail]) -> Result<(), AllocError>
    ensures { OnOk result (text.new.items ≡ text.old.items ++ flat_map spec.detail_line details.now) }
{
    for detail in details {
        append_detail_line(text, detail)?;
    }
    Ok(())
}

fn append_detail_line(text: &mut Vec<u8>, detail: &Detail) -> Result<(), AllocError>
    ensures { OnOk result (text.new.items ≡ text.old.items ++ spec.detail_line detail.now) }
{
    text.extend_from_slice(b"    ")?;
    text.extend_from_slice(detail.word.as_slice())?;
    text.extend_from_slice(b": ")?;
    text.extend_from_slice(detail.text.as_slice())?;
    text.extend_from_slice(b"\n")
}

// ---- as objects

fn all_objects(alloc: Global, file: &[u8], messages: &[Message]) -> Result<Vec<u8>, AllocError>
    ensures { IfOk result (λ v. v.items ≡ flat_map (spec.message_object file.now) messages.now) }
{
    let mut text = Vec::new(alloc);
    for message in messages {
        append_object(&mut text, file, message)?;
    }
    Ok(text)
}

fn append_object(text: &mut Vec<u8>, file: &[u8], message: &Message) -> Result<(), AllocError>
    ensures { OnOk result (text.new.items ≡ text.old.items ++ spec.message_object file.now message.now) }
{
    text.extend_from_slice(b"{")?;
    append_place_members(text, file, message.at)?;
    append_member(text, b"message", message.text.as_slice())?;
    append_detail_members(text, message.details.as_slice())?;
    text.extend_from_slice(b"}\n")
}

/// Appends `"file": FILE, "line": LINE, `, so far as there are a file and a line.
pub fn append_place_members(text: &mut Vec<u8>, file: &[u8], at: At) -> Result<(), AllocError>
    ensures { OnOk result (text.new.items ≡ text.old.items ++ spec.place_members file.now at) }
{
    match at {
        At::Nowhere => Ok(()),
        At::File => {
            append_member(text, b"file", file)?;
            text.extend_from_slice(b", ")
        }
        At::Line(line) => {
            let mut number = Buffer::new();
            append_member(text, b"file", file)?;
            text.extend_from_slice(b", \"line\": ")?;
            text.extend_from_slice(number.format(line).as_bytes())?;
            text.extend_from_slice(b", ")
        }
    }
}

/// Appends each detail, after `, `.
pub fn append_detail_members(text: &mut Vec<u8>, details: &[Detail]) -> Result<(), AllocError>
    ensures { OnOk result (text.new.items ≡ text.old.items ++ flat_map spec.detail_member details.now) }
{
    for detail in details {
        append_detail_member(text, detail)?;
    }
    Ok(())
}

fn append_detail_member(text: &mut Vec<u8>, detail: &Detail) -> Result<(), AllocError>
    ensures { OnOk result (text.new.items ≡ text.old.items ++ spec.detail_member detail.now) }
{
    text.extend_from_slice(b", ")?;
    append_member(text, detail.word.as_slice(), detail.text.as_slice())
}

/// Appends `NAME: VALUE`, both as strings.
pub fn append_member(text: &mut Vec<u8>, name: &[u8], value: &[u8]) -> Result<(), AllocError>
    ensures { OnOk result (text.new.items ≡ text.old.items ++ spec.member name.now value.now) }
{
    append_string(text, name)?;
    text.extend_from_slice(b": ")?;
    append_string(text, value)
}

//! Places of a source: lines, and what stands there.
ghost use Rattle.std.specs.Prelude.{◌≡◌, ◌++◌, ℕ, List, IfOk, OnOk};
ghost use Rattle.zf_messages.specs.{line_at, quoted, slice, squeezed};
ghost use Rattle.zf_messages.specs.Places as spec;

use std::alloc::{AllocError, Global};
use zf_tree::{Span, back, front};

/// Where a text stands while it is squeezed.
#[derive(Clone, Copy)]
pub enum Mode {
    /// After a byte that is kept.
    Symbols,
    /// In a gap between symbols.
    Gap,
    /// In a comment, which is part of a gap.
    Comment,
    /// After a backslash, which comes after a gap or not.
    Command(bool),
    /// After a backslash and a `t`.
    Tab(bool),
}

/// A place of a source, and its line.
#[derive(Clone, Copy)]
pub struct Known {
    pub place: usize,
    pub line: u64,
}

impl Known {
    /// The beginning of any source.
    pub fn start() -> Known
        ensures { (source : List ℕ) → spec.IsKnown source result }
    {
        Known { place: 0, line: 1 }
    }

    /// The line of a place, from 1; that is what is known then. Only what is between is looked at.
    pub fn line_at(&mut self, source: &[u8], place: u32) -> u64
        requires { spec.IsKnown source.now self.old }
        ensures line { result ≡ line_at source.now place }
        ensures known { spec.IsKnown source.now self.new }
    {
        let place = place as usize;
        let line = self.line_from(source, place);
        *self = Known { place, line };
        line
    }

    #[tactic(auto, using(crate::proofs::Lines::lines_passed))]
    fn line_from(self, source: &[u8], place: usize) -> u64
        requires { spec.IsKnown source.now self }
        ensures { result ≡ line_at source.now place }
    {
        if place < self.place {
            let passed = newlines(front(back(source, place), self.place - place));
            return self.line - passed as u64;
        }
        let passed = newlines(front(back(source, self.place), place - self.place));
        self.line + passed as u64
    }
}

/// The line of a place, from 1.
pub fn line_of(source: &[u8], place: u32) -> u64
    ensures { result ≡ line_at source.now place }
{
    1 + newlines(front(source, place as usize)) as u64
}

/// How many lines end there.
fn newlines(bytes: &[u8]) -> usize
    ensures { result ≡ spec.newlines bytes.now }
{
    bytes.iter().filter(|b| **b == b'\n').count()
}

/// What the source has there.
pub fn slice(source: &[u8], span: Span) -> &[u8]
    ensures { result.now ≡ slice source.now span }
{
    let len = span.stop.saturating_sub(span.start);
    front(back(source, span.start as usize), len as usize)
}

/// What the source has there, on one line.
pub fn quoted(alloc: Global, source: &[u8], span: Span) -> Result<Vec<u8>, AllocError>
    ensures { IfOk result (λ v. v.items ≡ quoted source.now span) }
{
    let mut text = Vec::new(alloc);
    append_squeezed(&mut text, slice(source, span))?;
    Ok(text)
}

/// Appends a text on one line, each gap as one blank.
fn append_squeezed(text: &mut Vec<u8>, bytes: &[u8]) -> Result<(), AllocError>
    ensures { OnOk result (text.new.items ≡ text.old.items ++ squeezed bytes.now) }
{
    let mut mode = Mode::Symbols;
    for byte in bytes {
        mode = append_byte(text, mode, *byte)?;
    }
    Ok(())
}

/// Appends what a byte adds, and says what follows it.
fn append_byte(text: &mut Vec<u8>, mode: Mode, byte: u8) -> Result<Mode, AllocError>
    ensures adds { OnOk result (text.new.items ≡ text.old.items ++ (spec.step mode byte).adds) }
    ensures next { IfOk result (λ next. next ≡ (spec.step mode byte).next) }
{
    match mode {
        Mode::Symbols => append_first(text, false, byte),
        Mode::Gap => append_first(text, true, byte),
        Mode::Comment => Ok(behind_comment(byte)),
        Mode::Command(after_gap) => append_command(text, after_gap, byte),
        Mode::Tab(after_gap) => append_tab(text, after_gap, byte),
    }
}

/// The same of a byte with which a symbol or a gap may begin.
fn append_first(text: &mut Vec<u8>, after_gap: bool, byte: u8) -> Result<Mode, AllocError>
    ensures adds { OnOk result (text.new.items ≡ text.old.items ++ (spec.first after_gap byte).adds) }
    ensures next { IfOk result (λ next. next ≡ (spec.first after_gap byte).next) }
{
    if is_gap(byte) {
        return Ok(Mode::Gap);
    }
    if byte == b'%' {
        return Ok(Mode::Comment);
    }
    if byte == b'\\' {
        return Ok(Mode::Command(after_gap));
    }
    append_blank(text, after_gap)?;
    text.push(byte)?;
    Ok(Mode::Symbols)
}

fn append_blank(text: &mut Vec<u8>, after_gap: bool) -> Result<(), AllocError>
    ensures { OnOk result (text.new.items ≡ text.old.items ++ spec.blank after_gap) }
{
    if after_gap {
        text.push(b' ')?;
    }
    Ok(())
}

/// What follows a byte of a comment.
fn behind_comment(byte: u8) -> Mode
    ensures { result ≡ spec.behind_comment byte }
{
    if byte == b'\n' {
        Mode::Gap
    } else {
        Mode::Comment
    }
}

/// Appends what a byte after a backslash adds: a space is a gap.
fn append_command(text: &mut Vec<u8>, after_gap: bool, byte: u8) -> Result<Mode, AllocError>
    ensures adds { OnOk result (text.new.items ≡ text.old.items ++ (spec.behind_backslash after_gap byte).adds) }
    ensures next { IfOk result (λ next. next ≡ (spec.behind_backslash after_gap byte).next) }
{
    if is_spacing(byte) {
        return Ok(Mode::Gap);
    }
    if byte == b't' {
        return Ok(Mode::Tab(after_gap));
    }
    append_blank(text, after_gap)?;
    text.extend_from_slice(&[b'\\', byte])?;
    Ok(Mode::Symbols)
}

/// Appends what a byte after `\t` adds: a tabulator is a gap.
fn append_tab(text: &mut Vec<u8>, after_gap: bool, byte: u8) -> Result<Mode, AllocError>
    ensures adds { OnOk result (text.new.items ≡ text.old.items ++ (spec.behind_tab after_gap byte).adds) }
    ensures next { IfOk result (λ next. next ≡ (spec.behind_tab after_gap byte).next) }
{
    if is_tab(byte) {
        return Ok(Mode::Gap);
    }
    append_blank(text, after_gap)?;
    text.extend_from_slice(b"\\t")?;
    append_first(text, false, byte)
}

fn is_gap(byte: u8) -> bool
    ensures { result ≡ spec.is_gap byte }
{
    byte.is_ascii_whitespace() || byte == b'~'
}

/// Whether a backslash before it makes a space.
fn is_spacing(byte: u8) -> bool
    ensures { result ≡ spec.is_spacing byte }
{
    byte == b',' || byte == b':' || byte == b';' || byte == b'!' || byte == b' '
}

/// Whether `\t` before it makes a tabulator.
fn is_tab(byte: u8) -> bool
    ensures { result ≡ spec.is_tab byte }
{
    b'1' <= byte && byte <= b'9'
}

//! The piece that begins a text inside a box.
ghost use Rattle.std.specs.Prelude.{◌≡◌, ◌<◌, ◌≤◌, IsTrue, length, slice_index_or, nat_le, if◌then◌else◌, Some, None};
ghost use Rattle.zf_scan.specs.Pieces as spec;
ghost use Rattle.zf_scan.specs.{look_up, seen, symbols, match_of};
ghost use Rattle.zf_scan.specs.Steps as steps;

use crate::fault::TextFaultKind;
use crate::next::Next;
use crate::pieces::{
    Lexeme, Match, Region, Run, after, begins, front, is_digit, is_letter, run_len, step,
};
use crate::signs::symbol_at;
use crate::symbols::fixed;
use crate::token::Separator;

/// The greatest number.
pub const NUMBER_MAX: u64 = 9223372036854775807;

/// How the box is closed.
fn closing(place: Region) -> &'static [u8]
    ensures { result.now ≡ steps.closing place }
{
    match place {
        Region::Outside => b"",
        Region::Zed(_) => b"\\end{zed}",
        Region::Schema(_) => b"\\end{schema}",
    }
}

/// The piece at the front of a text in a box.
#[tactic(auto, unfolding(crate::specs::Steps::inside_found))]
pub fn inside_at(place: Region, rest: &[u8]) -> Match
    requires end_len { 2 ≤ length (steps.closing place) }
    requires end_second { slice_index_or (steps.closing place) 1 0 ≡ 101 }
    ensures { match_of rest.now result ≡ steps.inside_found (steps.closing place) rest.now }
{
    let [first, ..] = rest else {
        return Match::of(Lexeme::Refused(TextFaultKind::UnclosedBox), 0);
    };
    match *first {
        b'%' => comment_at(rest),
        b'\\' => command_at(place, rest),
        b if is_letter(b) => word_at(rest),
        b if is_digit(b) => number_at(rest),
        _ => symbol_at(rest),
    }
}

/// A comment, from its `%` on.
#[tactic(auto, unfolding(crate::specs::Steps::comment_found))]
pub fn comment_at(rest: &[u8]) -> Match
    requires { 0 < length rest.now }
    ensures { match_of rest.now result ≡ steps.comment_found rest.now }
{
    let len = 1 + run_len(Run::Line, after(rest, 1));
    let lexeme = if is_directive(front(rest, len)) {
        Lexeme::Refused(TextFaultKind::NotInProfile)
    } else {
        Lexeme::Plain
    };
    Match::of(lexeme, len)
}

fn is_directive(comment: &[u8]) -> bool
    ensures { result ≡ spec.is_directive comment.now }
{
    match comment {
        [a, b, c, ..] => *a == b'%' && *b == b'%' && b'a' <= *c && *c <= b'z',
        _ => false,
    }
}

// A command, or the closing of the box. The most frequent ones are recognized by their second byte.
fn command_at(place: Region, rest: &[u8]) -> Match
    requires end_len { 2 ≤ length (steps.closing place) }
    requires end_second { slice_index_or (steps.closing place) 1 0 ≡ 101 }
    requires some { 0 < length rest.now }
    requires first { slice_index_or rest.now 0 0 ≡ 92 }
    ensures { match_of rest.now result ≡ steps.command_found (steps.closing place) rest.now }
{
    match rest {
        [_, b'\\', ..] => Match::of(Lexeme::Symbol(Next::Separator(Separator::NewLine)), 2),
        [_, b'{', ..] => Match::of(Lexeme::Symbol(Next::OpenBrace), 2),
        [_, b'}', ..] => Match::of(Lexeme::Symbol(Next::CloseBrace), 2),
        _ => named_command_at(place, rest),
    }
}

#[tactic(auto, unfolding(crate::specs::Steps::command_found))]
fn named_command_at(place: Region, rest: &[u8]) -> Match
    requires end_len { 2 ≤ length (steps.closing place) }
    requires end_second { slice_index_or (steps.closing place) 1 0 ≡ 101 }
    requires some { 0 < length rest.now }
    ensures { match_of rest.now result ≡ steps.command_found (steps.closing place) rest.now }
{
    let end = closing(place);
    if closes(end, rest) {
        return Match::of(Lexeme::Symbol(Next::EndBox), end.len());
    }
    let short = command_len(rest);
    let long = short + tail_len(after(rest, short));
    match fixed(front(rest, long)) {
        Some(lexeme) => Match::of(lexeme, long),
        None => short_command(rest, short),
    }
}

// Whether the box is closed here. Its end begins with `\e`.
fn closes(end: &[u8], rest: &[u8]) -> bool
    requires end_len { 2 ≤ length end.now }
    requires end_second { slice_index_or end.now 1 0 ≡ 101 }
    ensures value { result ≡ steps.begins rest.now end.now }
    ensures room { IsTrue result → length end.now ≤ length rest.now }
{
    match rest {
        [_, b'e', ..] => begins(rest, end),
        _ => false,
    }
}

#[tactic(auto, unfolding(crate::specs::Steps::short_command))]
fn short_command(rest: &[u8], len: usize) -> Match
    requires { len ≤ length rest.now }
    ensures { match_of rest.now result ≡ steps.short_command rest.now len }
{
    match fixed(front(rest, len)) {
        Some(lexeme) => Match::of(lexeme, len),
        None => Match::of(Lexeme::Refused(TextFaultKind::UnknownCommand), len),
    }
}

// The backslash with its letters, or with one byte.
fn command_len(rest: &[u8]) -> usize
    requires { 0 < length rest.now }
    ensures value { result ≡ steps.command_len rest.now }
    ensures within { result ≤ length rest.now }
{
    let letters = run_len(Run::Letters, after(rest, 1));
    if letters == 0 {
        rest.len().min(2)
    } else {
        1 + letters
    }
}

// What may belong to a command after its letters: `_1` or a digit.
fn tail_len(rest: &[u8]) -> usize
    ensures value { result ≡ steps.tail_len rest.now }
    ensures within { result ≤ length rest.now }
{
    if begins(rest, b"_1") {
        2
    } else {
        step(Run::Digits, rest)
    }
}

// A name, `true` or `false`.
#[tactic(auto, unfolding(crate::specs::Steps::word_found))]
fn word_at(rest: &[u8]) -> Match
    ensures { match_of rest.now result ≡ steps.word_found rest.now }
{
    let base = base_len(rest);
    let strokes = run_len(Run::Strokes, after(rest, base));
    let len = base + strokes;
    match fixed_word(front(rest, len)) {
        Some(lexeme) => Match::of(lexeme, len),
        None => Match {
            lexeme: Lexeme::Symbol(Next::Name),
            amount: base,
            len,
        },
    }
}

// The piece of one spelling that a word is, if it is one.
fn fixed_word(word: &[u8]) -> Option<Lexeme>
    ensures { seen word.now result ≡ look_up word.now symbols }
{
    let [first, ..] = word else {
        return fixed(word);
    };
    match *first {
        b't' | b'f' => fixed(word),
        b if is_letter(b) => None,
        _ => fixed(word),
    }
}

/// How long the base of a name is that begins a text, 0 if none does.
pub fn base_len(rest: &[u8]) -> usize
    ensures value { result ≡ steps.base_len rest.now }
    ensures within { result ≤ length rest.now }
{
    match rest {
        [first, more @ ..] if is_letter(*first) => 1 + run_len(Run::Base, more),
        _ => 0,
    }
}

#[tactic(auto, unfolding(crate::specs::Steps::number_found))]
fn number_at(rest: &[u8]) -> Match
    ensures { match_of rest.now result ≡ steps.number_found rest.now }
{
    let len = run_len(Run::Digits, rest);
    match value_of(front(rest, len)) {
        Some(value) => Match {
            lexeme: Lexeme::Symbol(Next::Number),
            amount: value as usize,
            len,
        },
        None => Match::of(Lexeme::Refused(TextFaultKind::NumberTooLarge), len),
    }
}

fn value_of(digits: &[u8]) -> Option<u64>
    ensures { result ≡ (if nat_le (spec.value digits.now) spec.number_max then Some (spec.value digits.now) else None) }
{
    let mut n: u64 = 0;
    for b in digits {
        let digit = u64::from(b.saturating_sub(b'0'));
        if n > (NUMBER_MAX - digit) / 10 {
            return None;
        }
        n = 10 * n + digit;
    }
    Some(n)
}

//! What a source is refused for, as it is spelled.
ghost use Rattle.std.specs.Prelude.{◌≡◌, ℕ};
ghost use Rattle.zf_scan.specs.Placing as spec;

use crate::inside::base_len;
use crate::pieces::{Run, begins, run_len};
use crate::placed::between;
use crate::symbols::fixed;
use zf_tree::{back, front};

/// The piece that is refused at a place of a source: a command, with what it begins; a `\begin` or `\end` with its environment;
/// the first word of a directive; a character; or a byte. Nothing at the end of the source.
pub fn refused_at(source: &[u8], start: usize) -> &[u8]
    ensures { (stop : ℕ) × (result.now ≡ spec.between start stop source.now) }
{
    let len = refused_len(back(source, start));
    between(source, start, start.saturating_add(len))
}

/// What stands before the name in the opening of a schema box.
const OPENING: &[u8] = b"\\begin{schema}{";

/// Where in a refused piece its fault is. In the opening of a schema box it is the first byte outside ASCII of the name, if it
/// has one.
pub fn refused_place(source: &[u8], start: usize) -> usize {
    let rest = back(source, start);
    if !begins(rest, OPENING) {
        return start;
    }
    let place = OPENING
        .len()
        .saturating_add(base_len(back(rest, OPENING.len())));
    match back(rest, place) {
        [byte, ..] if !byte.is_ascii() => start.saturating_add(place),
        _ => start,
    }
}

fn refused_len(rest: &[u8]) -> usize {
    match rest {
        [b'%', b'%', words @ ..] => run_len(Run::Letters, words).saturating_add(2),
        [b'\\', ..] => command_len(rest),
        _ => character_len(rest),
    }
}

/// A command, with what belongs to it.
fn command_len(rest: &[u8]) -> usize {
    if begins(rest, b"\\begin{") {
        environment_len(back(rest, 6)).saturating_add(6)
    } else if begins(rest, b"\\end{") {
        environment_len(back(rest, 4)).saturating_add(4)
    } else {
        plain_len(rest)
    }
}

/// `{NAME}` or `{NAME*}`; 0 if neither begins a text.
fn environment_len(rest: &[u8]) -> usize {
    let name = run_len(Run::Letters, back(rest, 1)).saturating_add(1);
    let behind = back(rest, name);
    if begins(behind, b"}") {
        name.saturating_add(1)
    } else if begins(behind, b"*}") {
        name.saturating_add(2)
    } else {
        0
    }
}

/// The backslash with its letters, or with one byte; and `_1`, where that belongs to it.
fn plain_len(rest: &[u8]) -> usize {
    let letters = run_len(Run::Letters, back(rest, 1));
    let short = letters.max(1).saturating_add(1);
    let long = short.saturating_add(2);
    if begins(back(rest, short), b"_1") && fixed(front(rest, long)).is_some() {
        long
    } else {
        short
    }
}

/// How many bytes the character at the front of a text has. What is not UTF-8, and a control character outside ASCII, is one
/// byte.
fn character_len(rest: &[u8]) -> usize {
    let len = match rest {
        [0xC2, 0x80..=0x9F, ..] => 1,
        [0xC2..=0xDF, ..] => 2,
        [0xE0..=0xEF, ..] => 3,
        [0xF0..=0xF4, ..] => 4,
        _ => 1,
    };
    match str::from_utf8(front(rest, len)) {
        Ok(_) => len,
        Err(_) => 1,
    }
}

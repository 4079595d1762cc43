//! Z that is left out: which commands it has, and where a text has them. Nothing is promised of it.

use bumpalo::Bump;
use bumpalo::collections::into_bump_slice;
use std::alloc::AllocError;
use zf_tree::{back, front};

/// Z that is left out, as the text has it.
#[derive(Clone, Copy, Debug)]
pub struct LeftOut<'a> {
    pub symbol: &'a [u8],
    /// The place of its first byte.
    pub start: u32,
}

/// A part of the page on the language: its title, and the commands that it is about.
struct Entry {
    title: &'static [u8],
    commands: &'static [&'static [u8]],
}

const ENTRIES: &[Entry] = &[
    Entry {
        title: b"Paragraphs and boxes",
        commands: &[
            b"\\begin{axdef}",
            b"\\begin{gendef}",
            b"\\begin{syntax}",
            b"\\ldata",
            b"\\rdata",
            b"\\vdash",
            b"\\shows",
        ],
    },
    Entry {
        title: b"Schemas",
        commands: &[
            b"\\theta",
            b"\\hide",
            b"\\project",
            b"\\semi",
            b"\\pipe",
            b"\\pre",
        ],
    },
    Entry {
        title: b"Predicates, sets and functions",
        commands: &[
            b"\\lambda",
            b"\\mu",
            b"\\LET",
            b"\\IF",
            b"\\THEN",
            b"\\ELSE",
            b"\\bigcup",
            b"\\bigcap",
            b"\\power_1",
            b"\\finset_1",
            b"\\id",
            b"\\surj",
            b"\\bij",
            b"\\psurj",
            b"\\ffun",
            b"\\finj",
            b"\\circ",
            b"\\plus",
            b"\\star",
            b"\\bsup",
            b"\\esup",
            b"\\disjoint",
            b"\\partition",
            b"\\inrel",
            b"\\lblot",
            b"\\rblot",
        ],
    },
    Entry {
        title: b"Sequences and bags",
        commands: &[
            b"\\seq",
            b"\\seq_1",
            b"\\iseq",
            b"\\langle",
            b"\\rangle",
            b"\\cat",
            b"\\filter",
            b"\\extract",
            b"\\prefix",
            b"\\suffix",
            b"\\inseq",
            b"\\dcat",
            b"\\bag",
            b"\\lbag",
            b"\\rbag",
            b"\\bcount",
            b"\\inbag",
            b"\\subbageq",
            b"\\uplus",
            b"\\uminus",
            b"\\otimes",
        ],
    },
];

/// The title of the part that is about the symbol; empty where there is none.
pub(crate) fn entry_of(symbol: &[u8]) -> &'static [u8] {
    for entry in ENTRIES {
        for command in entry.commands {
            if *command == symbol {
                return entry.title;
            }
        }
    }
    b""
}

/// All Z that is left out from a place of a box on.
pub(crate) fn left_out<'a>(
    arena: &'a Bump,
    source: &'a [u8],
    start: usize,
) -> Result<&'a [LeftOut<'a>], AllocError> {
    let mut found = Vec::new(arena);
    let mut is_inside = true;
    let mut next = start;
    for place in start..source.len() {
        if next <= place {
            let piece = piece_at(back(source, place));
            if is_inside || piece.starts_with(b"\\begin") {
                push_left_out(&mut found, piece, place)?;
            }
            is_inside = is_inside_behind(is_inside, piece);
            next = place.saturating_add(piece.len());
        }
    }
    Ok(into_bump_slice(found))
}

fn push_left_out<'a>(
    found: &mut Vec<LeftOut<'a>, &'a Bump>,
    piece: &'a [u8],
    place: usize,
) -> Result<(), AllocError> {
    if !entry_of(piece).is_empty() {
        found.push(LeftOut {
            symbol: piece,
            start: place.min(u32::MAX as usize) as u32,
        })?;
    }
    Ok(())
}

/// Whether what follows the piece stands in a box.
fn is_inside_behind(is_inside: bool, piece: &[u8]) -> bool {
    match piece {
        b"\\begin{zed}" | b"\\begin{schema}" | b"\\begin{axdef}" | b"\\begin{gendef}" => true,
        b"\\end{zed}" | b"\\end{schema}" | b"\\end{axdef}" | b"\\end{gendef}" => false,
        _ => is_inside,
    }
}

/// A comment, a command with its letters and subscript, or a box's name, or one byte at the front of a text.
fn piece_at(rest: &[u8]) -> &[u8] {
    match rest {
        [b'%', ..] => front(rest, up_to(rest, b'\n')),
        [b'\\', ..] => command_at(rest),
        _ => front(rest, 1),
    }
}

fn command_at(rest: &[u8]) -> &[u8] {
    let letters = letters_len(rest);
    match front(rest, letters) {
        b"\\begin" | b"\\end" => front(rest, up_to(rest, b'}').saturating_add(1)),
        [_] => front(rest, 2),
        _ => front(rest, subscripted(rest, letters)),
    }
}

/// The length of a command with the subscript that it may have.
fn subscripted(rest: &[u8], letters: usize) -> usize {
    if back(rest, letters).starts_with(b"_1") {
        return letters.saturating_add(2);
    }
    letters
}

/// How many bytes there are before the first one of these.
fn up_to(bytes: &[u8], end: u8) -> usize {
    for place in 0..bytes.len() {
        if bytes[place] == end {
            return place;
        }
    }
    bytes.len()
}

/// The length of a command of letters, with its backslash.
fn letters_len(command: &[u8]) -> usize {
    for place in 1..command.len() {
        if !command[place].is_ascii_alphabetic() {
            return place;
        }
    }
    command.len()
}

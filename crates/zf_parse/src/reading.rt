//! Trees out of tokens, and out of a source.
ghost use Rattle.std.specs.Prelude.{◌≡◌, ◌≤◌, ◌<◌, ◌⊎◌, ◌++◌, ℕ, List, IfErr, OnOk, length, map, slice_index_or, slice_set};
ghost use Rattle.zf_parse.specs.Prelude.{IsBorder, IsBoxAtMost, IsCutOn, IsCutUpTo, IsStuck, IsWantOfMemory, reduced, starts_closed, token_at, BoxTree, Token};
ghost use Rattle.zf_parse.specs.{Parses, ReadsOneBox, ReadsSpec, ReadsUpTo, RefusesSource};
ghost use Rattle.zf_parse.specs.Reads.{Reads};
ghost use Rattle.zf_scan.specs.declared.placed.Placed.{Placed};

use crate::about::about;
use crate::commands::meant_by;
use crate::unread::{About, Unread};
use bumpalo::Bump;
use bumpalo::collections::into_bump_slice;
use std::alloc::Global;
use zf_data::Items;
use zf_grammar::Cursor;
use zf_grammar::boxes::{all, only};
use zf_scan::scan::{SOURCE_MAX, cut_rest, next_box};
use zf_scan::{
    Border, Laid, Placed, TextFault, TextFaultKind, Token, lay_out, refused_at, refused_place,
};
use zf_tree::{Span, Spec, ZBox, back};

/// Whether a separator before these symbols is dropped.
fn starts_closed(symbols: &[Placed]) -> bool
    ensures { (text : List ℕ) → result ≡ starts_closed (map (token_at text) symbols.now) }
{
    match symbols {
        [] => false,
        [first, ..] => first.next.closes(),
    }
}

/// Puts a symbol to a place before its own; mostly it stands there.
#[inline(always)]
fn put(symbols: &mut Vec<Placed>, to: usize, from: usize)
    requires before { to ≤ from }
    requires within { from < length symbols.old.items }
    ensures { (symbol : Placed) → symbol ≡ slice_index_or symbols.old.items from symbol → symbols.new.items ≡ slice_set symbols.old.items to symbol }
{
    if to < from {
        symbols[to] = symbols[from];
    }
}

/// Takes out the separators that are dropped.
fn reduce(symbols: &mut Vec<Placed>)
    ensures { (text : List ℕ) → map (token_at text) symbols.new.items ≡ reduced (map (token_at text) symbols.old.items) }
{
    let mut kept = 0;
    let mut drops = true;
    for i in 0..symbols.len() {
        let symbol = symbols[i];
        if symbol.next.is_separator() {
            if !drops && !starts_closed(&symbols.as_slice()[i + 1..]) {
                symbols[kept] = symbol.as_separator();
                kept += 1;
                drops = true;
            }
        } else {
            put(symbols, kept, i);
            kept += 1;
            drops = symbol.next.opens();
        }
    }
    symbols.truncate(kept);
}

/// The limit of a term or schema expression.
const HEIGHT_LIMIT: u32 = 128;

/// The tree that reads the symbols of a text.
fn parsed<'a>(
    alloc: Global,
    arena: &'a Bump,
    text: &'a [u8],
    mut symbols: Vec<Placed>,
) -> Result<Spec<'a>, TextFault>
    ensures { Parses result (map (token_at text.now) symbols.items) }
{
    reduce(&mut symbols);
    let mut cursor = Cursor::new(text, symbols.as_slice());
    let boxes = all(alloc, arena, &mut cursor, HEIGHT_LIMIT)?;
    Ok(Spec { boxes })
}

/// The tree that reads the tokens.
pub fn parse<'a>(alloc: Global, arena: &'a Bump, tokens: &[Token]) -> Result<Spec<'a>, TextFault>
    ensures { Parses result tokens.now }
{
    let Laid { text, symbols } = lay_out(alloc, arena, tokens)?;
    parsed(alloc, arena, into_bump_slice(text), symbols)
}

/// The box that the symbols are, and nothing after it.
fn only_box<'a>(
    arena: &'a Bump,
    text: &'a [u8],
    symbols: &mut Vec<Placed>,
) -> Result<ZBox<'a>, Unread<'a>>
    ensures { ReadsOneBox result (reduced (map (token_at text.now) symbols.old.items)) }
{
    reduce(symbols);
    let mut cursor = Cursor::new(text, symbols.as_slice());
    match only(arena, &mut cursor, HEIGHT_LIMIT) {
        Ok(next) => Ok(next),
        Err(fault) => Err(Unread {
            fault,
            about: about(fault, text, symbols.as_slice(), cursor.left()),
        }),
    }
}

/// A place of a source, which has no further ones.
fn place(at: usize) -> u32 {
    at.min(SOURCE_MAX) as u32
}

/// The part of a source that begins at a place and is spelled so.
fn part(start: usize, spelled: &[u8]) -> Span {
    Span {
        start: place(start),
        stop: place(start.saturating_add(spelled.len())),
    }
}

/// What a fault of the scanner is about: the piece at the border.
fn refused<'a>(fault: TextFault, source: &'a [u8], border: Border) -> About<'a> {
    let Border { start } = border;
    match fault.kind {
        TextFaultKind::UnclosedBox => {
            let mut about = About::of(b"");
            about.other = refused_at(source, start);
            about.span = part(start, about.other);
            about
        }
        TextFaultKind::UnknownCommand => unknown(refused_at(source, start), back(source, start)),
        _ => About::of(refused_at(source, refused_place(source, start))),
    }
}

/// A command that is not known, in front of a text. What the page on the language tells of it says what to write.
fn unknown<'a>(command: &'a [u8], text: &[u8]) -> About<'a> {
    let mut about = About::of(command);
    if about.entry.is_empty() {
        about.like = meant_by(command, text);
    }
    about
}

/// The symbols of the next box, as `next_box` gives them, or the piece that is refused.
fn cut_next<'a>(
    source: &'a [u8],
    border: &mut Border,
    symbols: &mut Vec<Placed>,
) -> Result<(), Unread<'a>>
    requires { IsBorder source.now border.old }
    ensures cut { OnOk result ((tokens : List Token) → IsCutUpTo source.now border.old tokens → IsCutUpTo source.now border.new (tokens ++ map (token_at source.now) symbols.new.items)) }
    ensures one { OnOk result (IsBoxAtMost (map (token_at source.now) symbols.new.items)) }
    ensures further { OnOk result (border.old.start < length source.now → border.old.start < border.new.start) }
    ensures fault { IfErr result (λ unread. IsWantOfMemory unread.fault ⊎ IsStuck source.now unread.fault) }
{
    match next_box(source, border, symbols) {
        Ok(()) => Ok(()),
        Err(fault) => Err(Unread {
            fault,
            about: refused(fault, source, *border),
        }),
    }
}

/// Whether the rest of the source is cut, as `cut_rest` tells it, or the piece that is refused.
fn cut_others<'a>(
    source: &'a [u8],
    border: &mut Border,
    symbols: &mut Vec<Placed>,
) -> Result<(), Unread<'a>>
    requires { IsBorder source.now border.old }
    ensures cut { OnOk result ((tokens : List Token) → IsCutUpTo source.now border.old tokens → IsCutOn source.now tokens) }
    ensures fault { IfErr result (λ unread. IsWantOfMemory unread.fault ⊎ IsStuck source.now unread.fault) }
{
    match cut_rest(source, border, symbols) {
        Ok(()) => Ok(()),
        Err(fault) => Err(Unread {
            fault,
            about: refused(fault, source, *border),
        }),
    }
}

/// Adds the next box, if one is left. Where it is refused, the fault of a source that is not cut comes first.
fn push_next<'a>(
    arena: &'a Bump,
    source: &'a [u8],
    border: &mut Border,
    symbols: &mut Vec<Placed>,
    boxes: &mut Items<ZBox<'a>>,
) -> Result<(), Unread<'a>>
    requires { ReadsUpTo source.now border.old boxes.old }
    ensures ok { OnOk result (ReadsUpTo source.now border.new boxes.new) }
    ensures further { OnOk result (border.old.start < length source.now → border.old.start < border.new.start) }
    ensures wrong { IfErr result (λ unread. IsWantOfMemory unread.fault ⊎ RefusesSource source.now unread.fault) }
{
    cut_next(source, border, symbols)?;
    if symbols.as_slice().is_empty() {
        return Ok(());
    }
    match only_box(arena, source, symbols) {
        Ok(next) => {
            boxes.push(next)?;
            Ok(())
        }
        Err(unread) => {
            cut_others(source, border, symbols)?;
            Err(unread)
        }
    }
}

/// A box is mostly longer. Where a text has many shorter ones, the list of its boxes grows as it goes.
const BYTES_OF_A_BOX: usize = 64;

/// The tree that `scan` and then `parse` give. A fault says what it is about, as far as that helps.
pub fn read_spec<'a>(
    alloc: Global,
    arena: &'a Bump,
    source: &'a [u8],
) -> Result<Spec<'a>, Unread<'a>>
    ensures { ReadsSpec result source.now }
{
    match read_boxes(alloc, arena, source) {
        Ok(spec) => Ok(spec),
        Err(unread) => Err(unread.with_others(arena, source)),
    }
}

/// The tree, made box by box, so that few symbols stand in memory.
fn read_boxes<'a>(alloc: Global, arena: &'a Bump, source: &'a [u8]) -> Result<Spec<'a>, Unread<'a>>
    ensures { ReadsSpec result source.now }
{
    let mut border = match Border::of(source) {
        Ok(border) => border,
        Err(fault) => return Err(Unread::of(fault)),
    };
    let mut symbols = Vec::new(alloc);
    let mut boxes = Items::with_room(alloc, source.len() / BYTES_OF_A_BOX)?;
    while border.start < source.len() {
        push_next(arena, source, &mut border, &mut symbols, &mut boxes)?;
    }
    Ok(Spec { boxes })
}

/// A law: no tokens are read by two trees.
pub fn one_tree()
    ensures { (a b : List BoxTree) (tokens : List Token) → Reads a tokens → Reads b tokens → a ≡ b }
{}

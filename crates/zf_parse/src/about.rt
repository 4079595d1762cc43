//! What a fault of the grammar is about. Nothing is promised of it.

use crate::brackets::unclosed;
use crate::unread::About;
use zf_scan::{Next, Placed, TextFault, TextFaultKind};
use zf_tree::{Connective, Infix, Relation, Span};

/// What a fault of the grammar is about, where so many symbols are left: the next one, or, of a form that is not read, the one
/// before it.
pub(crate) fn about<'a>(
    fault: TextFault,
    text: &'a [u8],
    symbols: &[Placed],
    left: usize,
) -> About<'a> {
    let next = symbols.len().saturating_sub(left);
    match fault.kind {
        TextFaultKind::Unexpected => unexpected(text, symbols, next),
        TextFaultKind::NotInProfile => {
            About::of(spelled_at(text, symbols, next.saturating_sub(1)))
        }
        _ => About::of(spelled_at(text, symbols, next)),
    }
}

/// The symbol at a place, as the text spells it; nothing where there is none.
fn spelled_at<'a>(text: &'a [u8], symbols: &[Placed], place: usize) -> &'a [u8] {
    match symbols.get(place) {
        Some(symbol) => symbol.spelled(text),
        None => b"",
    }
}

/// An unexpected symbol, with the bracket before it that is not closed, what it may be meant for, and the part of the text before
/// it in which a separator may be missing.
fn unexpected<'a>(text: &'a [u8], symbols: &[Placed], place: usize) -> About<'a> {
    let mut about = About::of(spelled_at(text, symbols, place));
    if let Some(bracket) = unclosed(symbols, place) {
        about.other = bracket.spelled(text);
        about.span = bracket.span;
    }
    about.like = meant(symbols, place);
    about.across = unparted(symbols, place);
    about
}

/// The command that is meant by a symbol and the one right before it, as `\geq` by `>=`; or by the `==` before schemas that are
/// joined. Nothing where there is none.
fn meant(symbols: &[Placed], place: usize) -> &'static [u8] {
    let Some(symbol) = symbols.get(place) else {
        return b"";
    };
    match symbol.next {
        Next::Relation(second) => match symbols.get(place.saturating_sub(1)) {
            Some(before) if before.span.stop == symbol.span.start => joined(before.next, second),
            _ => b"",
        },
        Next::Connective(Connective::And | Connective::Or) if abbreviates(symbols, place) => {
            b"\\defs"
        }
        _ => b"",
    }
}

/// The command that is meant by two symbols with nothing between.
fn joined(first: Next, second: Relation) -> &'static [u8] {
    match (first, second) {
        (Next::Relation(Relation::Greater), Relation::Equal) => b"\\geq",
        (Next::Relation(Relation::Less), Relation::Equal) => b"\\leq",
        (Next::Relation(Relation::Equal), Relation::Greater) => b"\\implies",
        (Next::Infix(Infix::Minus), Relation::Greater) => b"\\fun",
        _ => b"",
    }
}

/// Whether the symbol stands in an abbreviation.
fn abbreviates(symbols: &[Placed], place: usize) -> bool {
    let end = place.min(symbols.len());
    for passed in 0..end {
        match symbols[end - 1 - passed].next {
            Next::Abbreviates => return true,
            Next::Separator(_) | Next::Defines | Next::BeginZed => return false,
            _ => (),
        }
    }
    false
}

/// From the last symbol of a declaration, a predicate or a paragraph to the first one of the next, where that, or the symbol
/// after the name that it is, is unexpected: if they stand on two lines, a separator is missing between.
fn unparted(symbols: &[Placed], place: usize) -> Span {
    let first = beginning(symbols, place);
    match (symbols.get(first.saturating_sub(1)), symbols.get(first)) {
        (Some(before), Some(symbol)) if 0 < first && may_end(before.next) => Span {
            start: before.span.start,
            stop: symbol.span.start,
        },
        _ => Span { start: 0, stop: 0 },
    }
}

/// Where the declaration, predicate or paragraph begins whose first symbol is unexpected, or the one after the name that it is;
/// 0 where none does.
fn beginning(symbols: &[Placed], place: usize) -> usize {
    match symbols.get(place) {
        Some(symbol) if follows_name(symbol.next) => place.saturating_sub(1),
        Some(symbol) if may_begin(symbol.next) => place,
        _ => 0,
    }
}

/// Whether the symbol stands right after a name with which a declaration or a paragraph begins.
fn follows_name(next: Next) -> bool {
    matches!(
        next,
        Next::Colon | Next::Comma | Next::Abbreviates | Next::FreeType | Next::Defines
    )
}

/// Whether a declaration, a predicate or a paragraph may begin with the symbol.
fn may_begin(next: Next) -> bool {
    matches!(
        next,
        Next::Name
            | Next::Delta
            | Next::Xi
            | Next::Not
            | Next::Quantifier(_)
            | Next::Prefix(_)
            | Next::OpenRound
            | Next::OpenSquare
            | Next::OpenBrace
    )
}

/// Whether one may end with the symbol.
fn may_end(next: Next) -> bool {
    matches!(
        next,
        Next::Name
            | Next::Number
            | Next::Constant(_)
            | Next::Inverse
            | Next::CloseRound
            | Next::CloseSquare
            | Next::CloseBrace
            | Next::CloseImage
    )
}

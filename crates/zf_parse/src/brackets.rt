//! The bracket that is not closed, where a symbol is unexpected.
ghost use Rattle.std.specs.Prelude.{◌<◌, IfSome, length};

use zf_scan::{Mark, Next, Placed};

/// What closes an opening bracket.
fn closing(next: Next) -> Option<Mark> {
    match next {
        Next::OpenRound => Some(Mark::CloseRound),
        Next::OpenSquare => Some(Mark::CloseSquare),
        Next::OpenBrace => Some(Mark::CloseBrace),
        Next::OpenImage => Some(Mark::CloseImage),
        _ => None,
    }
}

/// Whether this is a closing bracket.
fn is_closing(next: Next) -> bool {
    matches!(
        next,
        Next::CloseRound | Next::CloseSquare | Next::CloseBrace | Next::CloseImage
    )
}

/// Whether one bracket closes another.
fn closes(open: Next, next: Next) -> bool {
    match closing(open) {
        Some(mark) => next.is(mark),
        None => false,
    }
}

/// The last opening bracket before a place that is still open there, by its own place.
fn last_open(symbols: &[Placed], place: usize) -> Option<usize>
    ensures { IfSome result (λ at. at < length symbols.now) }
{
    let mut closed: usize = 0;
    let mut at = place.min(symbols.len());
    while at > 0 {
        at -= 1;
        let next = symbols[at].next;
        if is_closing(next) {
            closed = closed.saturating_add(1);
        } else if closing(next).is_some() {
            if closed == 0 {
                return Some(at);
            }
            closed -= 1;
        }
    }
    None
}

/// The innermost bracket before a symbol of a box that is still open there and that nothing closes later on. Brackets are paired
/// as they nest: the brackets that are open at the symbol are met from the innermost outwards by the closing brackets from there
/// on, but for those that pair with later opening ones. The first that meets one of another kind, or the end of the box, is not
/// closed.
pub fn unclosed(symbols: &[Placed], place: usize) -> Option<Placed> {
    let mut open = last_open(symbols, place)?;
    let mut depth: usize = 0;
    for i in place..symbols.len() {
        let next = symbols[i].next;
        if closing(next).is_some() {
            depth = depth.saturating_add(1);
        } else if is_closing(next) {
            if depth > 0 {
                depth -= 1;
            } else if closes(symbols[open].next, next) {
                open = last_open(symbols, open)?;
            } else {
                break;
            }
        }
    }
    symbols.get(open).copied()
}

//! The piece that begins a text outside the boxes.
ghost use Rattle.std.specs.Prelude.{◌≡◌, ◌≤◌, length};
ghost use Rattle.zf_scan.specs.{match_of};
ghost use Rattle.zf_scan.specs.Steps as steps;

use crate::fault::TextFaultKind;
use crate::inside::{base_len, comment_at};
use crate::next::Next;
use crate::pieces::{Lexeme, Match, after, begins, front};
use crate::symbols::fixed;

/// The piece at the front of a text outside the boxes.
#[tactic(auto, unfolding(crate::specs::Steps::outside_found))]
pub fn outside_at(rest: &[u8]) -> Match
    ensures { match_of rest.now result ≡ steps.outside_found rest.now }
{
    let [first, ..] = rest else {
        return Match::of(Lexeme::Plain, 0);
    };
    if *first == b'\\' {
        opening_at(rest)
    } else if *first == b'%' {
        comment_at(rest)
    } else {
        Match::of(Lexeme::Plain, 1)
    }
}

// What begins with a backslash: the opening of a box, or informal text.
#[tactic(auto, unfolding(crate::specs::Steps::opening_found))]
fn opening_at(rest: &[u8]) -> Match
    ensures { match_of rest.now result ≡ steps.opening_found rest.now }
{
    if !begins(rest, b"\\begin{") {
        Match::of(Lexeme::Plain, rest.len().min(2))
    } else if begins(rest, b"\\begin{schema}{") {
        schema_at(rest)
    } else {
        other_opening_at(rest)
    }
}

#[tactic(auto, unfolding(crate::specs::Steps::other_opening_found))]
fn other_opening_at(rest: &[u8]) -> Match
    ensures { match_of rest.now result ≡ steps.other_opening_found rest.now }
{
    if begins(rest, b"\\begin{zed}") {
        Match::of(Lexeme::Symbol(Next::BeginZed), 11)
    } else if begins(rest, b"\\begin{schema}") {
        Match::of(Lexeme::Refused(TextFaultKind::BadByte), 14)
    } else if begins(rest, b"\\begin{axdef}") {
        Match::of(Lexeme::Refused(TextFaultKind::NotInProfile), 13)
    } else if begins(rest, b"\\begin{gendef}") {
        Match::of(Lexeme::Refused(TextFaultKind::NotInProfile), 14)
    } else if begins(rest, b"\\begin{syntax}") {
        Match::of(Lexeme::Refused(TextFaultKind::NotInProfile), 14)
    } else {
        Match::of(Lexeme::Plain, 2)
    }
}

// `\begin{schema}{` with the name and the brace that follow.
#[tactic(auto, unfolding(crate::specs::Steps::schema_found))]
fn schema_at(rest: &[u8]) -> Match
    requires { 15 ≤ length rest.now }
    ensures { match_of rest.now result ≡ steps.schema_found rest.now }
{
    let behind = after(rest, 15);
    let len = base_len(behind);
    if len == 0 || !begins(after(behind, len), b"}") || fixed(front(behind, len)).is_some() {
        return Match::of(Lexeme::Refused(TextFaultKind::BadByte), 14);
    }
    Match {
        lexeme: Lexeme::Symbol(Next::BeginSchema),
        amount: len,
        len: 16 + len,
    }
}

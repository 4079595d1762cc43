//! The symbols of a box that are neither words, numbers nor commands.
ghost use Rattle.std.specs.Prelude.{◌≡◌, ◌<◌, ◌≤◌, ℕ, List, ◌∷◌, length};
ghost use Rattle.zf_scan.specs.{match_of};
ghost use Rattle.zf_scan.specs.Steps as steps;

use crate::fault::TextFaultKind;
use crate::next::Next;
use crate::pieces::{Lexeme, Match, begins, front};
use crate::symbols::fixed;
use zf_tree::{Infix, Relation};

/// A symbol. The most frequent ones are recognized by their first bytes.
#[tactic(auto, unfolding(crate::specs::Steps::symbol_found, crate::specs::Pieces::symbols))]
pub fn symbol_at(rest: &[u8]) -> Match
    ensures { match_of rest.now result ≡ steps.symbol_found rest.now }
{
    let [first, ..] = rest else {
        return Match::of(Lexeme::Refused(TextFaultKind::BadByte), 1);
    };
    match *first {
        b'(' => Match::of(Lexeme::Symbol(Next::OpenRound), 1),
        b')' => Match::of(Lexeme::Symbol(Next::CloseRound), 1),
        b',' => Match::of(Lexeme::Symbol(Next::Comma), 1),
        b'[' => Match::of(Lexeme::Symbol(Next::OpenSquare), 1),
        b']' => Match::of(Lexeme::Symbol(Next::CloseSquare), 1),
        b'|' => Match::of(Lexeme::Symbol(Next::Bar), 1),
        b'@' => Match::of(Lexeme::Symbol(Next::At), 1),
        b'+' => Match::of(Lexeme::Symbol(Next::Infix(Infix::Plus)), 1),
        b'<' => Match::of(Lexeme::Symbol(Next::Relation(Relation::Less)), 1),
        b'>' => Match::of(Lexeme::Symbol(Next::Relation(Relation::Greater)), 1),
        b':' => colon_at(rest),
        b'=' => equals_at(rest),
        _ => other_symbol_at(rest),
    }
}

#[tactic(auto, unfolding(crate::specs::Steps::symbol_found, crate::specs::Pieces::symbols))]
fn colon_at(rest: &[u8]) -> Match
    ensures { (more : List ℕ) → rest.now ≡ 58 ∷ more → match_of rest.now result ≡ steps.symbol_found rest.now }
{
    match rest {
        [_, b':', b'=', ..] => Match::of(Lexeme::Symbol(Next::FreeType), 3),
        _ => Match::of(Lexeme::Symbol(Next::Colon), 1),
    }
}

#[tactic(auto, unfolding(crate::specs::Steps::symbol_found, crate::specs::Pieces::symbols))]
fn equals_at(rest: &[u8]) -> Match
    ensures { (more : List ℕ) → rest.now ≡ 61 ∷ more → match_of rest.now result ≡ steps.symbol_found rest.now }
{
    match rest {
        [_, b'=', ..] => Match::of(Lexeme::Symbol(Next::Abbreviates), 2),
        _ => Match::of(Lexeme::Symbol(Next::Relation(Relation::Equal)), 1),
    }
}

#[tactic(auto, unfolding(crate::specs::Steps::symbol_found))]
fn other_symbol_at(rest: &[u8]) -> Match
    requires { 0 < length rest.now }
    ensures { match_of rest.now result ≡ steps.symbol_found rest.now }
{
    let len = symbol_len(rest);
    match fixed(front(rest, len)) {
        Some(lexeme) => Match::of(lexeme, len),
        None => Match::of(Lexeme::Refused(TextFaultKind::BadByte), len),
    }
}

fn symbol_len(rest: &[u8]) -> usize
    requires { 0 < length rest.now }
    ensures value { result ≡ steps.symbol_len rest.now }
    ensures within { result ≤ length rest.now }
{
    if begins(rest, b"::=") {
        3
    } else if begins(rest, b"==") {
        2
    } else {
        1
    }
}

//! From bytes to tokens.
ghost use Rattle.std.specs.Prelude.{◌≡◌, ◌≤◌, ◌<◌, ◌⊎◌, ◌++◌, [], ℕ, List, IsTrue, length, map, IfOk, IfErr, OnOk};
ghost use Rattle.zf_scan.specs.{IsBorder, IsBoxAtMost, IsCutOn, IsCutUpTo, kind_of, token_at, match_of};
ghost use Rattle.zf_scan.specs.Cuts as cuts;
ghost use Rattle.zf_scan.specs.CutLaws as cuts_laws;
ghost use Rattle.zf_scan.specs.CutViews as cuts_views;
ghost use Rattle.zf_scan.specs.Steps as steps;
ghost use Rattle.zf_scan.specs.declared.pieces.Piece.TheVariants.{Plain, Symbol};
ghost use Rattle.zf_scan.specs.declared.token.Token.{Token};

use crate::fault::{NOWHERE, TextFault, TextFaultKind};
use crate::inside::inside_at;
use crate::next::Next;
use crate::outside::outside_at;
use crate::pieces::{Lexeme, Match, Region, after};
use crate::placed::Placed;
use crate::token::Token;
use std::alloc::{AllocError, Global};
use zf_data::Items;
use zf_tree::Span;

/// The greatest length of a source.
pub const SOURCE_MAX: usize = 1_048_576;

/// A place outside of all boxes, up to which a source is cut.
#[derive(Clone, Copy)]
pub struct Border {
    pub start: usize,
}

impl Border {
    /// The beginning of a source that is not too long.
    pub fn of(source: &[u8]) -> Result<Border, TextFault>
        ensures begun { IfOk result (λ border. IsCutUpTo source.now border []) }
        ensures fault { IfErr result (λ fault. cuts.IsTooLong source.now fault) }
    {
        if source.len() > SOURCE_MAX {
            return Err(fault_at(TextFaultKind::TooLong, Region::Outside, 0));
        }
        Ok(Border { start: 0 })
    }
}

/// The symbols of the next box, with their places, instead of those in the list; none where no box is left. The border is then
/// the one after the box; of a piece that is refused, its place; of a box that the source does not close, its end.
pub fn next_box(
    source: &[u8],
    border: &mut Border,
    symbols: &mut Vec<Placed>,
) -> Result<(), TextFault>
    requires { IsBorder source.now border.old }
    ensures cut { OnOk result ((tokens : List Token) → IsCutUpTo source.now border.old tokens → IsCutUpTo source.now border.new (tokens ++ map (token_at source.now) symbols.new.items)) }
    ensures one { OnOk result (IsBoxAtMost (map (token_at source.now) symbols.new.items)) }
    ensures further { OnOk result (border.old.start < length source.now → border.old.start < border.new.start) }
    ensures fault { IfErr result (λ fault. cuts_views.IsWantOfMemory fault ⊎ cuts.IsStuck source.now fault) }
{
    symbols.clear();
    let mut place = Region::Outside;
    let mut start = border.start;
    while start < source.len() {
        let rest = after(source, start);
        if is_blank(place, rest) {
            start += 1;
            continue;
        }
        let Match {
            lexeme,
            amount,
            len,
        } = piece_at(place, rest);
        match lexeme {
            Lexeme::Plain => (),
            Lexeme::Symbol(next) => {
                let stop = start + len;
                let span = from_to(start, stop);
                symbols.push(Placed {
                    next,
                    span,
                    start,
                    stop,
                    amount,
                })?;
                if next.ends_box() {
                    *border = Border { start: stop };
                    return Ok(());
                }
                place = behind(place, span, next);
            }
            Lexeme::Refused(kind) => {
                *border = Border { start };
                return Err(fault_at(kind, place, start));
            }
        }
        start += len;
    }
    *border = Border { start };
    match place {
        Region::Outside => Ok(()),
        _ => Err(fault_at(TextFaultKind::UnclosedBox, place, start)),
    }
}

/// Whether the rest of a source is cut, after the border; else the fault of the source, whose piece is then at the border. The
/// list lends its room.
pub fn cut_rest(
    source: &[u8],
    border: &mut Border,
    symbols: &mut Vec<Placed>,
) -> Result<(), TextFault>
    requires { IsBorder source.now border.old }
    ensures cut { OnOk result ((tokens : List Token) → IsCutUpTo source.now border.old tokens → IsCutOn source.now tokens) }
    ensures fault { IfErr result (λ fault. cuts_views.IsWantOfMemory fault ⊎ cuts.IsStuck source.now fault) }
{
    while border.start < source.len() {
        next_box(source, border, symbols)?;
    }
    Ok(())
}

/// The tokens of a source.
pub fn scan(alloc: Global, source: &[u8]) -> Result<Items<Token>, TextFault>
    // Ok exactly where the source is cut, with its tokens; otherwise its fault.
    ensures cut { IfOk result (λ tokens. cuts.IsCutInto source.now tokens) }
    ensures fault { IfErr result (λ fault. cuts_views.IsWantOfMemory fault ⊎ cuts.HasFault source.now fault) }
    ensures uncut { IfErr result (λ fault. cuts_views.IsWantOfMemory fault ⊎ cuts_views.IsUncut source.now) }
{
    let mut border = Border::of(source)?;
    let mut symbols = Vec::new(alloc);
    let mut tokens = Items::new(alloc);
    while border.start < source.len() {
        next_box(source, &mut border, &mut symbols)?;
        push_tokens(alloc, source, symbols.as_slice(), &mut tokens)?;
    }
    Ok(tokens)
}

// Adds the tokens of symbols.
fn push_tokens(
    alloc: Global,
    source: &[u8],
    symbols: &[Placed],
    tokens: &mut Items<Token>,
) -> Result<(), AllocError>
    ensures { OnOk result (tokens.new ≡ tokens.old ++ map (token_at source.now) symbols.now) }
{
    for symbol in symbols {
        tokens.push(symbol.token(alloc, source)?)?;
    }
    Ok(())
}

// Whether a blank begins a text inside a box.
#[tactic(auto, unfolding(crate::specs::Steps::found_at, crate::specs::Steps::inside_found, crate::specs::Steps::symbol_found, crate::specs::Pieces::symbols))]
fn is_blank(place: Region, rest: &[u8]) -> bool
    ensures { IsTrue result → steps.found_at place rest.now ≡ steps.found Plain 1 }
{
    match place {
        Region::Outside => false,
        Region::Zed(_) | Region::Schema(_) => matches!(rest, [b' ' | b'\n' | b'\t', ..]),
    }
}

// The piece at the front of a text.
#[tactic(auto, unfolding(crate::specs::Steps::found_at))]
fn piece_at(place: Region, rest: &[u8]) -> Match
    ensures { match_of rest.now result ≡ steps.found_at place rest.now }
{
    match place {
        Region::Outside => outside_at(rest),
        Region::Zed(_) | Region::Schema(_) => inside_at(place, rest),
    }
}

// Where the text after a symbol stands.
fn behind(place: Region, span: Span, next: Next) -> Region
    ensures { (amount : ℕ) (text : List ℕ) → result ≡ cuts.entered place span (Symbol (kind_of next amount text)) }
{
    match next {
        Next::BeginZed => Region::Zed(span),
        Next::BeginSchema => Region::Schema(span),
        Next::EndBox | Next::End => Region::Outside,
        _ => place,
    }
}

// The part of a source from one place to another.
fn from_to(start: usize, stop: usize) -> Span
    requires first { start ≤ SOURCE_MAX }
    requires last { stop ≤ SOURCE_MAX }
    ensures { result ≡ cuts.from_to start stop }
{
    Span {
        start: start as u32,
        stop: stop as u32,
    }
}

// A refusal before what stands at a place. A box that is not closed is reported by its `\begin`.
fn fault_at(kind: TextFaultKind, place: Region, start: usize) -> TextFault
    requires { start ≤ SOURCE_MAX }
    ensures kind { result.kind ≡ kind }
    ensures span { result.span ≡ cuts.reported place start kind }
{
    let span = match kind {
        TextFaultKind::UnclosedBox => begun(place),
        _ => from_to(start, start),
    };
    TextFault { kind, span }
}

fn begun(place: Region) -> Span
    ensures { result ≡ cuts.begun place }
{
    match place {
        Region::Outside => NOWHERE,
        Region::Zed(span) | Region::Schema(span) => span,
    }
}

/// A source is cut in one way, or it has one fault: laws of the definitions, and no code.
pub fn one_cut()
    ensures pieces { cuts_laws.IsCutOnce }
    ensures fault { cuts_laws.FaultsOnce }
    ensures some { cuts_laws.IsCutOrFaults }
    ensures apart { cuts_laws.IsNotBoth }
{}

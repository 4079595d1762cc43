//! What a source is cut into, and the runs of bytes that pieces are made of.
ghost use Rattle.std.specs.Prelude.{◌≡◌, ◌≤◌, IsTrue, length, nat_eq, take, drop};
ghost use Rattle.std.specs.Str.{bytes_eq};
ghost use Rattle.std.specs.List.{starts_with};
ghost use Rattle.zf_scan.specs.Pieces as spec;
ghost use Rattle.std.specs.Char.{is_ascii_digit};
ghost use Rattle.zf_scan.specs.Steps as steps;

use crate::fault::TextFaultKind;
use crate::next::Next;
use crate::token::Kind;
use zf_tree::Span;

/// What a piece is. The scanner keeps a `Lexeme` of it, and the text stays in the source.
#[derive(Drop)]
pub enum Piece {
    /// Informal text, a comment or a blank: no token.
    Plain,
    Symbol(Kind),
    Refused(TextFaultKind),
}

/// A piece without its text.
#[derive(Clone, Copy)]
pub enum Lexeme {
    Plain,
    Symbol(Next),
    Refused(TextFaultKind),
}

/// What begins a text: its length, and a name's length without strokes or a number's value.
#[derive(Clone, Copy)]
pub struct Match {
    pub lexeme: Lexeme,
    pub amount: usize,
    pub len: usize,
}

impl Match {
    /// A piece that is no name and no number.
    pub fn of(lexeme: Lexeme, len: usize) -> Match
        ensures { result ≡ record { lexeme = lexeme; amount = 0; len = len } }
    {
        Match {
            lexeme,
            amount: 0,
            len,
        }
    }
}

/// Where a piece stands: outside the boxes, or in a box with its `\begin`.
#[derive(Clone, Copy)]
pub enum Region {
    Outside,
    Zed(Span),
    Schema(Span),
}

/// The runs of bytes that pieces are made of.
#[derive(Clone, Copy)]
pub enum Run {
    Letters,
    Digits,
    /// The base of a name, after its first letter.
    Base,
    Strokes,
    /// The rest of a line.
    Line,
}

pub fn is_letter(b: u8) -> bool
    ensures { result ≡ spec.is_letter b }
{
    b.is_ascii_alphabetic()
}

pub fn is_digit(b: u8) -> bool
    ensures { result ≡ is_ascii_digit b }
{
    b'0' <= b && b <= b'9'
}

fn is_one(run: Run, b: u8) -> bool
    ensures { result ≡ spec.is_one run b }
{
    match run {
        Run::Letters => is_letter(b),
        Run::Digits => is_digit(b),
        Run::Base => is_letter(b) || is_digit(b),
        Run::Strokes => b == b'\'' || b == b'?' || b == b'!',
        Run::Line => b != b'\n',
    }
}

fn is_two(run: Run, b: u8, c: u8) -> bool
    ensures { result ≡ spec.is_two run b c }
{
    match run {
        Run::Base => b == b'\\' && c == b'_',
        Run::Strokes => b == b'_' && is_digit(c),
        Run::Letters | Run::Digits | Run::Line => false,
    }
}

/// How many bytes at the front are the next step of the run.
pub fn step(run: Run, bytes: &[u8]) -> usize
    ensures value { result ≡ steps.step_len run bytes.now }
    ensures within { result ≤ length bytes.now }
{
    match bytes {
        [] => 0,
        [b, ..] if is_one(run, *b) => 1,
        [b, c, ..] if is_two(run, *b, *c) => 2,
        _ => 0,
    }
}

/// How long the longest run at the front is.
pub fn run_len(run: Run, bytes: &[u8]) -> usize
    ensures value { result ≡ steps.run_len run bytes.now }
    ensures within { result ≤ length bytes.now }
{
    let mut n = 0;
    loop {
        let more = step(run, after(bytes, n));
        if more == 0 {
            return n;
        }
        n += more;
    }
}

/// Whether two texts are the same. The second is mostly a literal.
pub fn same(a: &[u8], b: &[u8]) -> bool
    ensures { result ≡ bytes_eq a.now b.now }
{
    a.len() == b.len() && begins(a, b)
}

/// Whether a text begins with another.
pub fn begins(bytes: &[u8], front: &[u8]) -> bool
    ensures value { result ≡ starts_with nat_eq bytes.now front.now }
    ensures room { IsTrue result → length front.now ≤ length bytes.now }
{
    if bytes.len() < front.len() {
        return false;
    }
    for i in 0..front.len() {
        if bytes[i] != front[i] {
            return false;
        }
    }
    true
}

pub fn front(bytes: &[u8], len: usize) -> &[u8]
    requires { len ≤ length bytes.now }
    ensures { result.now ≡ take len bytes.now }
{
    bytes.split_at(len).0
}

pub fn after(bytes: &[u8], len: usize) -> &[u8]
    requires { len ≤ length bytes.now }
    ensures { result.now ≡ drop len bytes.now }
{
    bytes.split_at(len).1
}

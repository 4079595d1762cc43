//! The pieces of one spelling: tables by their first byte, those of commands by the byte after the backslash.
#![tactic(auto)]

ghost use Rattle.std.specs.Prelude.{◌≡◌, ◌∷◌, ◌++◌, [], List, ℕ};
ghost use Rattle.zf_scan.specs.{listed_in, look_up, seen, symbols};

use crate::fault::TextFaultKind;
use crate::next::Next;
use crate::pieces::{Lexeme, same};
use crate::token::Separator;
use zf_tree::{Arrow, Connective, Constant, Infix, Prefix, Quantifier, Relation};

/// What stands after the bytes that a table is for, and the piece that is spelled so.
type Row = (&'static [u8], Lexeme);

const NOT_IN_PROFILE: Lexeme = Lexeme::Refused(TextFaultKind::NotInProfile);

/// The piece that a text spells, if it is of one spelling.
pub fn fixed(text: &[u8]) -> Option<Lexeme>
    ensures { seen text.now result ≡ look_up text.now symbols }
{
    match text {
        [b'\\', second, rest @ ..] => lexeme_in(rest, commands(*second)),
        [b'\\'] => None,
        [first, rest @ ..] => lexeme_in(rest, signs(*first)),
        [] => None,
    }
}

fn lexeme_in(text: &[u8], rows: &[Row]) -> Option<Lexeme>
    ensures { (front : List ℕ) → seen (front ++ text.now) result ≡ listed_in front text.now rows.now }
{
    for row in rows {
        if same(text, row.0) {
            return Some(row.1);
        }
    }
    None
}

// The spellings that begin with a byte, but for the commands.
#[tactic(auto, unfolding(crate::specs::Pieces::symbols))]
fn signs(first: u8) -> &'static [Row]
    ensures { (text : List ℕ) → (first ≡ 92 → ⊥) → listed_in (first ∷ []) text result.now ≡ look_up (first ∷ text) symbols }
{
    match first {
        b'\t' => &[(b"", Lexeme::Plain)],
        b'\n' => &[(b"", Lexeme::Plain)],
        b'\r' => &[(b"", Lexeme::Plain)],
        b' ' => &[(b"", Lexeme::Plain)],
        b'~' => &[(b"", Lexeme::Plain)],
        b';' => &[(b"", Lexeme::Symbol(Next::Separator(Separator::Semicolon)))],
        b'(' => &[(b"", Lexeme::Symbol(Next::OpenRound))],
        b')' => &[(b"", Lexeme::Symbol(Next::CloseRound))],
        b'[' => &[(b"", Lexeme::Symbol(Next::OpenSquare))],
        b']' => &[(b"", Lexeme::Symbol(Next::CloseSquare))],
        b',' => &[(b"", Lexeme::Symbol(Next::Comma))],
        b'|' => &[(b"", Lexeme::Symbol(Next::Bar))],
        b'@' => &[(b"", Lexeme::Symbol(Next::At))],
        b'<' => &[(b"", Lexeme::Symbol(Next::Relation(Relation::Less)))],
        b'>' => &[(b"", Lexeme::Symbol(Next::Relation(Relation::Greater)))],
        b'+' => &[(b"", Lexeme::Symbol(Next::Infix(Infix::Plus)))],
        b'-' => &[(b"", Lexeme::Symbol(Next::Infix(Infix::Minus)))],
        b'*' => &[(b"", Lexeme::Symbol(Next::Infix(Infix::Times)))],
        b't' => &[(b"rue", Lexeme::Symbol(Next::Constant(Constant::True)))],
        b'f' => &[(b"alse", Lexeme::Symbol(Next::Constant(Constant::False)))],
        b'{' => &[(b"", NOT_IN_PROFILE)],
        b'}' => &[(b"", NOT_IN_PROFILE)],
        b':' => &[
            (b"", Lexeme::Symbol(Next::Colon)),
            (b":=", Lexeme::Symbol(Next::FreeType)),
        ],
        b'=' => &[
            (b"=", Lexeme::Symbol(Next::Abbreviates)),
            (b"", Lexeme::Symbol(Next::Relation(Relation::Equal))),
        ],
        _ => &[],
    }
}

// The commands that go on with a byte after their backslash.
#[tactic(auto, unfolding(crate::specs::Pieces::symbols))]
fn commands(first: u8) -> &'static [Row]
    ensures { (text : List ℕ) → listed_in (92 ∷ first ∷ []) text result.now ≡ look_up (92 ∷ first ∷ text) symbols }
{
    match first {
        b',' => &[(b"", Lexeme::Plain)],
        b':' => &[(b"", Lexeme::Plain)],
        b';' => &[(b"", Lexeme::Plain)],
        b'!' => &[(b"", Lexeme::Plain)],
        b' ' => &[(b"", Lexeme::Plain)],
        b'\\' => &[(b"", Lexeme::Symbol(Next::Separator(Separator::NewLine)))],
        b'{' => &[(b"", Lexeme::Symbol(Next::OpenBrace))],
        b'}' => &[(b"", Lexeme::Symbol(Next::CloseBrace))],
        b'#' => &[(b"", Lexeme::Symbol(Next::Prefix(Prefix::Size)))],
        b'a' => &[(b"lso", Lexeme::Symbol(Next::Separator(Separator::Also)))],
        b'b' => &[
            (b"egin", Lexeme::Refused(TextFaultKind::UnclosedBox)),
            (b"ag", NOT_IN_PROFILE),
            (b"igcup", NOT_IN_PROFILE),
            (b"igcap", NOT_IN_PROFILE),
            (b"ij", NOT_IN_PROFILE),
        ],
        b'c' => &[
            (b"up", Lexeme::Symbol(Next::Infix(Infix::Union))),
            (b"ap", Lexeme::Symbol(Next::Infix(Infix::Intersection))),
            (b"omp", Lexeme::Symbol(Next::Infix(Infix::Composition))),
            (b"ross", Lexeme::Symbol(Next::Cross)),
        ],
        b'd' => &[
            (b"efs", Lexeme::Symbol(Next::Defines)),
            (b"iv", Lexeme::Symbol(Next::Infix(Infix::Div))),
            (
                b"res",
                Lexeme::Symbol(Next::Infix(Infix::DomainRestriction)),
            ),
            (b"om", Lexeme::Symbol(Next::Prefix(Prefix::Domain))),
        ],
        b'e' => &[
            (b"mptyset", Lexeme::Symbol(Next::EmptySet)),
            (
                b"xists",
                Lexeme::Symbol(Next::Quantifier(Quantifier::Exists)),
            ),
            (
                b"xists_1",
                Lexeme::Symbol(Next::Quantifier(Quantifier::ExistsOne)),
            ),
            (b"nd", Lexeme::Refused(TextFaultKind::UnclosedBox)),
        ],
        b'f' => &[
            (b"un", Lexeme::Symbol(Next::Arrow(Arrow::TotalFunction))),
            (b"inset", Lexeme::Symbol(Next::Prefix(Prefix::Finset))),
            (
                b"orall",
                Lexeme::Symbol(Next::Quantifier(Quantifier::ForAll)),
            ),
            (b"fun", NOT_IN_PROFILE),
            (b"inset_1", NOT_IN_PROFILE),
        ],
        b'g' => &[(b"eq", Lexeme::Symbol(Next::Relation(Relation::AtLeast)))],
        b'h' => &[(b"ide", NOT_IN_PROFILE)],
        b'i' => &[
            (b"nj", Lexeme::Symbol(Next::Arrow(Arrow::TotalInjection))),
            (b"nv", Lexeme::Symbol(Next::Inverse)),
            (b"n", Lexeme::Symbol(Next::Relation(Relation::Member))),
            (
                b"mplies",
                Lexeme::Symbol(Next::Connective(Connective::Implies)),
            ),
            (b"ff", Lexeme::Symbol(Next::Connective(Connective::Iff))),
            (b"d", NOT_IN_PROFILE),
        ],
        b'l' => &[
            (b"img", Lexeme::Symbol(Next::OpenImage)),
            (b"eq", Lexeme::Symbol(Next::Relation(Relation::AtMost))),
            (b"not", Lexeme::Symbol(Next::Not)),
            (b"and", Lexeme::Symbol(Next::Connective(Connective::And))),
            (b"or", Lexeme::Symbol(Next::Connective(Connective::Or))),
            (b"ambda", NOT_IN_PROFILE),
            (b"data", NOT_IN_PROFILE),
        ],
        b'm' => &[
            (b"apsto", Lexeme::Symbol(Next::Infix(Infix::Maplet))),
            (b"od", Lexeme::Symbol(Next::Infix(Infix::Mod))),
            (b"u", NOT_IN_PROFILE),
        ],
        b'n' => &[
            (
                b"dres",
                Lexeme::Symbol(Next::Infix(Infix::DomainSubtraction)),
            ),
            (
                b"rres",
                Lexeme::Symbol(Next::Infix(Infix::RangeSubtraction)),
            ),
            (b"um", Lexeme::Symbol(Next::Constant(Constant::Integers))),
            (b"at", Lexeme::Symbol(Next::Constant(Constant::Naturals))),
            (b"at_1", Lexeme::Symbol(Next::Constant(Constant::Positives))),
            (b"eq", Lexeme::Symbol(Next::Relation(Relation::NotEqual))),
            (b"otin", Lexeme::Symbol(Next::Relation(Relation::NotMember))),
        ],
        b'o' => &[(b"plus", Lexeme::Symbol(Next::Infix(Infix::Overriding)))],
        b'p' => &[
            (b"fun", Lexeme::Symbol(Next::Arrow(Arrow::PartialFunction))),
            (b"inj", Lexeme::Symbol(Next::Arrow(Arrow::PartialInjection))),
            (b"ower", Lexeme::Symbol(Next::Prefix(Prefix::Power))),
            (b"ower_1", NOT_IN_PROFILE),
            (b"roject", NOT_IN_PROFILE),
            (b"re", NOT_IN_PROFILE),
            (b"ipe", NOT_IN_PROFILE),
        ],
        b'r' => &[
            (b"img", Lexeme::Symbol(Next::CloseImage)),
            (b"res", Lexeme::Symbol(Next::Infix(Infix::RangeRestriction))),
            (b"el", Lexeme::Symbol(Next::Arrow(Arrow::Relation))),
            (b"an", Lexeme::Symbol(Next::Prefix(Prefix::Range))),
            (b"data", NOT_IN_PROFILE),
        ],
        b's' => &[
            (b"etminus", Lexeme::Symbol(Next::Infix(Infix::Difference))),
            (b"ubseteq", Lexeme::Symbol(Next::Relation(Relation::Subset))),
            (
                b"ubset",
                Lexeme::Symbol(Next::Relation(Relation::ProperSubset)),
            ),
            (b"eq", NOT_IN_PROFILE),
            (b"urj", NOT_IN_PROFILE),
            (b"emi", NOT_IN_PROFILE),
        ],
        b't' => &[
            (b"1", Lexeme::Plain),
            (b"2", Lexeme::Plain),
            (b"3", Lexeme::Plain),
            (b"4", Lexeme::Plain),
            (b"5", Lexeme::Plain),
            (b"6", Lexeme::Plain),
            (b"7", Lexeme::Plain),
            (b"8", Lexeme::Plain),
            (b"9", Lexeme::Plain),
            (b"heta", NOT_IN_PROFILE),
        ],
        b'u' => &[(b"pto", Lexeme::Symbol(Next::Infix(Infix::UpTo)))],
        b'w' => &[(b"here", Lexeme::Symbol(Next::Where))],
        b'D' => &[(b"elta", Lexeme::Symbol(Next::Delta))],
        b'E' => &[(b"LSE", NOT_IN_PROFILE)],
        b'I' => &[(b"F", NOT_IN_PROFILE)],
        b'L' => &[(b"ET", NOT_IN_PROFILE)],
        b'T' => &[(b"HEN", NOT_IN_PROFILE)],
        b'X' => &[(b"i", Lexeme::Symbol(Next::Xi))],
        _ => &[],
    }
}

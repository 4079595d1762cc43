//! The words and items of a line, by their places.
ghost use Rattle.std.specs.Prelude.{◌≡◌, ◌+◌, ◌≤◌, ◌<◌, ◌^◌, ◌++◌, ℕ, ℤ, length, drop, decimal, IfOk, IfErr, MatchOption, MatchBool, FitsSigned};
ghost use Rattle.zf_read.specs.Prelude.{comma_before};
ghost use Rattle.std.specs.Fmt.{signed_decimal};
ghost use Rattle.std.specs.Int.{w64};
ghost use Rattle.zf_print.specs.Words as spec;
ghost use Rattle.zf_read.specs.{IfMisfit, IsItem, IsNoItem, IsWordAt};

use crate::expected::Expected;
use crate::fault::AfterFault;
use itoa::Buffer;

/// Whether the byte may stand in a name, a number or an element.
pub(crate) fn is_in_word(byte: u8) -> bool
    ensures { result ≡ spec.is_in_word byte }
{
    byte.is_ascii_alphanumeric() || matches!(byte, b'!' | b'\'' | b'-' | b'.' | b'?' | b'\\' | b'_')
}

/// The longest word at the place.
pub(crate) fn word_at(text: &[u8], place: usize) -> &[u8]
    requires { place ≤ length text.now }
    ensures { IsWordAt text.now place result.now }
{
    for end in place..text.len() {
        if !is_in_word(text[end]) {
            return &text[place..end];
        }
    }
    &text[place..]
}

/// What follows the front, if the bytes begin with it.
pub(crate) fn behind<'t>(bytes: &'t [u8], front: &[u8]) -> Option<&'t [u8]>
    ensures { MatchOption result (IsNoItem front.now bytes.now) (λ rest. bytes.now ≡ front.now ++ rest.now) }
{
    bytes.strip_prefix(front)
}

/// Whether the item stands at the place.
pub(crate) fn stands(text: &[u8], place: usize, item: &[u8]) -> bool
    requires { place ≤ length text.now }
    ensures { MatchBool result (IsItem text.now place item.now (place + length item.now)) (IsNoItem item.now (drop place text.now)) }
{
    behind(&text[place..], item).is_some()
}

/// The place after the item, which stands at the place; or else this was expected.
pub(crate) fn item(
    text: &[u8],
    place: usize,
    item: &[u8],
    expected: Expected,
) -> Result<usize, AfterFault>
    requires { place ≤ length text.now }
    ensures read { IfOk result (λ end. IsItem text.now place item.now end) }
    ensures refused { IfErr result (IfMisfit (IsNoItem item.now (drop place text.now))) }
{
    if stands(text, place, item) {
        return Ok(place + item.len());
    }
    Err(AfterFault::NotABinding(misfit(text, place, item), expected))
}

/// The place after what stands before a part, after so many others; or else what these words say was expected.
pub(crate) fn separated(
    text: &[u8],
    place: usize,
    count: usize,
    words: &'static [u8],
) -> Result<usize, AfterFault>
    requires { place ≤ length text.now }
    ensures read { IfOk result (λ end. IsItem text.now place (comma_before count) end) }
    ensures refused { IfErr result (IfMisfit (IsNoItem (comma_before count) (drop place text.now))) }
{
    if count == 0 {
        return Ok(place);
    }
    item(text, place, b", ", Expected::Words(words))
}

/// The place of an item that doesn't stand there: the end of the text, where that comes before the end of the item.
pub(crate) fn misfit(text: &[u8], place: usize, item: &[u8]) -> usize
    requires { place ≤ length text.now }
{
    if item.starts_with(&text[place..]) {
        text.len()
    } else {
        place
    }
}

/// The number that a word is the text of.
pub(crate) fn signed(word: &[u8]) -> Option<i64>
    ensures { MatchOption result ((n : ℤ) → FitsSigned w64 n → word.now ≡ signed_decimal n → ⊥) (λ n. FitsSigned w64 n × (word.now ≡ signed_decimal n)) }
{
    let Ok(text) = str::from_utf8(word) else {
        return None;
    };
    let Ok(number) = text.parse::<i64>() else {
        return None;
    };
    if Buffer::new().format(number).as_bytes() == word {
        Some(number)
    } else {
        None
    }
}

/// The number without a sign that a word is the text of.
pub(crate) fn unsigned(word: &[u8]) -> Option<u64>
    ensures { MatchOption result ((n : ℕ) → n < 2 ^ 64 → word.now ≡ decimal n → ⊥) (λ n. word.now ≡ decimal n) }
{
    let Ok(text) = str::from_utf8(word) else {
        return None;
    };
    let Ok(number) = text.parse::<u64>() else {
        return None;
    };
    if Buffer::new().format(number).as_bytes() == word {
        Some(number)
    } else {
        None
    }
}

//! Elements by their spellings.
ghost use Rattle.std.specs.Prelude.{◌≡◌, ◌+◌, ◌≤◌, ◌<◌, ◌^◌, ◌++◌, ℕ, Some, length, drop, codes, decimal, slice_get, IfOk, IfErr, MatchOption};
ghost use Rattle.zf_read.specs.Prelude.{environment_of, basic, spelled};
ghost use Rattle.zf_print.specs.declared.spelling.Spelling.TheVariants.{Named};
ghost use Rattle.zf_read.specs.{HasNoElements, IfMisfit, IsNoSpelledType, IsNoValue, IsSpelledType, IsValueAt, SpellsNone};

use crate::expected::Expected;
use crate::fault::AfterFault;
use crate::read::{Line, Read};
use crate::words::{behind, unsigned, word_at};
use zf_data::Text;
use zf_meaning::{Env, number_named};
use zf_print::Spelling;
use zf_value::{Form, Value};

/// The element of the type of this name at the place.
pub(crate) fn read_element(line: &Line<'_, '_, '_, '_>, place: usize, name: &[u8]) -> Read<Value>
    requires { place ≤ length line.now.text.now }
    ensures read { IfOk result (λ p. IsValueAt line.now.spellings.now (environment_of line.now.env.now) (basic name.now) line.now.text.now place p.0 p.1) }
    ensures refused { IfErr result (IfMisfit (IsNoValue line.now.spellings.now (environment_of line.now.env.now) (basic name.now) (drop place line.now.text.now))) }
{
    let Some((number, count, spelling)) = spelled_type(name, line.env, line.spellings) else {
        return Err(AfterFault::NotABinding(place, Expected::Value));
    };
    let word = word_at(line.text, place);
    match place_among(word, spelling, count) {
        Some(index) => {
            let form = Form::Elem(number, index);
            Ok((Value { form }, place + word.len()))
        }
        None => {
            let misfit = misfit(line.text, place, word, spelling);
            Err(AfterFault::NotABinding(misfit, Expected::Value))
        }
    }
}

/// The number of the type of this name, how many elements it has, and how they are spelled.
fn spelled_type<'s>(
    name: &[u8],
    env: &Env<'_, '_>,
    spellings: &'s [Spelling],
) -> Option<(u32, u64, &'s Spelling)>
    ensures { MatchOption result (IsNoSpelledType spellings.now (environment_of env.now) name.now) (λ p. IsSpelledType spellings.now (environment_of env.now) name.now p.0 p.1 p.2.now) }
{
    match number_named(env.globals(), name) {
        Some(number) => sized_type(number, env, spellings),
        None => None,
    }
}

/// The number of a type in 32 bits, how many elements it has, and how they are spelled.
fn sized_type<'s>(
    number: usize,
    env: &Env<'_, '_>,
    spellings: &'s [Spelling],
) -> Option<(u32, u64, &'s Spelling)>
    ensures { MatchOption result (HasNoElements spellings.now (environment_of env.now) number) (λ p. (number ≡ p.0) × (slice_get (environment_of env.now).sizes p.0 ≡ Some p.1) × (slice_get spellings.now p.0 ≡ Some p.2.now)) }
{
    match u32::try_from(number) {
        Ok(number) => match env.size(number) {
            Some(count) => match spellings.get(number as usize) {
                Some(spelling) => Some((number, count, spelling)),
                None => None,
            },
            None => None,
        },
        Err(_) => None,
    }
}

/// The place among the first so many elements of the one that is spelled by the word.
fn place_among(word: &[u8], spelling: &Spelling, count: u64) -> Option<u64>
    ensures { MatchOption result (SpellsNone spelling.now count word.now) (λ i. (i < count) × (word.now ≡ spelled spelling.now i)) }
{
    match spelling {
        Spelling::Numbered(name) => numbered(word, name.as_slice(), count),
        Spelling::Named(names) => named(word, names.as_slice(), count),
    }
}

fn numbered(word: &[u8], name: &[u8], count: u64) -> Option<u64>
    ensures { MatchOption result ((i : ℕ) → i < count → word.now ≡ name.now ++ codes "." ++ decimal (i + 1) → ⊥) (λ i. (i < count) × (word.now ≡ name.now ++ codes "." ++ decimal (i + 1))) }
{
    match behind(word, name) {
        Some(rest) => match behind(rest, b".") {
            Some(digits) => counted(digits, count),
            None => None,
        },
        None => None,
    }
}

/// The place of the number that the digits are, among the first so many.
fn counted(digits: &[u8], count: u64) -> Option<u64>
    ensures { MatchOption result ((i : ℕ) → i < count → digits.now ≡ decimal (i + 1) → ⊥) (λ i. (i < count) × (digits.now ≡ decimal (i + 1))) }
{
    match unsigned(digits) {
        Some(number) => place_of(number, count),
        None => None,
    }
}

/// The place of a number from 1 to the count.
fn place_of(number: u64, count: u64) -> Option<u64>
    ensures place { MatchOption result ((i : ℕ) → i < count → number ≡ i + 1 → ⊥) (λ i. (i < count) × (number ≡ i + 1)) }
    ensures small { number < 2 ^ 64 }
{
    if number == 0 {
        return None;
    }
    if number > count {
        return None;
    }
    Some(number - 1)
}

fn named(word: &[u8], names: &[Text], count: u64) -> Option<u64>
    ensures { MatchOption result ((i : ℕ) → i < count → i < length names.now → word.now ≡ spelled (Named names.now) i → ⊥) (λ i. (i < count) × (word.now ≡ spelled (Named names.now) i)) }
{
    for place in 0..names.len() {
        if place as u64 >= count {
            return None;
        }
        if names[place].as_slice() == word {
            return Some(place as u64);
        }
    }
    None
}

/// The place of a word that spells no element: the end of the text, where a longer word might be one.
fn misfit(text: &[u8], place: usize, word: &[u8], spelling: &Spelling) -> usize
    requires { place + length word.now ≤ length text.now }
{
    if place + word.len() == text.len() && is_front(word, spelling) {
        text.len()
    } else {
        place
    }
}

/// Whether an element's spelling goes on after the word.
fn is_front(word: &[u8], spelling: &Spelling) -> bool {
    match spelling {
        Spelling::Numbered(name) => is_numbered_front(word, name.as_slice()),
        Spelling::Named(names) => names
            .as_slice()
            .iter()
            .any(|name| name.as_slice().starts_with(word)),
    }
}

fn is_numbered_front(word: &[u8], name: &[u8]) -> bool {
    match word.strip_prefix(name) {
        Some(digits) => digits.is_empty() || digits == b".".as_slice(),
        None => name.starts_with(word),
    }
}

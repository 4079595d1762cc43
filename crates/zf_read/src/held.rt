//! Lines of some components, as they are read.
ghost use Rattle.std.specs.Prelude.{◌≡◌, ◌≤◌, ◌<◌, length, drop, map, IfOk, IfErr, MatchBool, MatchOption};
ghost use Rattle.zf_read.specs.Prelude.{environment_of, comp_of, schema_of, Ends};
ghost use Rattle.zf_read.specs.{BeginsWithName, BeginsWithoutName, GoesOn, IfMisfit, IsHeldLine, IsNamed, IsNoHeldLine, IsNoHeldRest, IsPartAt, NamesNone, nothing_of};

use crate::expected::Expected;
use crate::fault::AfterFault;
use crate::read::{Line, Read, read_component};
use crate::words::{behind, is_in_word, separated};
use std::alloc::{AllocError, Global};
use zf_data::Text;
use zf_meaning::Env;
use zf_print::Spelling;
use zf_term::{Component, Flat};
use zf_value::Value;

/// The values that a line of some of the components holds, by the components' places.
pub fn read_held(
    alloc: Global,
    text: &[u8],
    flat: &Flat<'_>,
    env: &Env<'_, '_>,
    spellings: &[Spelling],
) -> Result<Vec<Option<Value>>, AfterFault>
    ensures read { IfOk result (λ held. IsHeldLine spellings.now (environment_of env.now) (schema_of flat.now).comps text.now held.items) }
    ensures refused { IfErr result (IfMisfit (IsNoHeldLine spellings.now (environment_of env.now) (schema_of flat.now).comps text.now)) }
{
    let line = Line {
        alloc,
        text,
        env,
        spellings,
    };
    let components = flat.components.as_slice();
    let mut held = nothing_held(alloc, components)?;
    let mut place = 0;
    let mut count = 0;
    while place < text.len() {
        let ((next, value), end) = read_part(&line, place, count, components, &held)?;
        held[next] = Some(value);
        place = end;
        count += 1;
    }
    Ok(held)
}

/// A value of none of the components.
fn nothing_held(
    alloc: Global,
    components: &[Component<'_>],
) -> Result<Vec<Option<Value>>, AllocError>
    ensures { IfOk result (λ held. held.items ≡ nothing_of (map comp_of components.now)) }
{
    let mut held = Vec::new(alloc);
    for _ in components {
        held.push(None)?;
    }
    Ok(held)
}

/// The next part of a line, after so many others: the place of its component, its value, and the place after it.
fn read_part(
    line: &Line<'_, '_, '_, '_>,
    place: usize,
    count: usize,
    components: &[Component<'_>],
    held: &[Option<Value>],
) -> Read<(usize, Value)>
    requires place { place < length line.now.text.now }
    requires all { length held.now ≡ length components.now }
    ensures read { IfOk result (λ p. IsPartAt line.now.spellings.now (environment_of line.now.env.now) (map comp_of components.now) line.now.text.now count place held.now p.0.0 p.0.1 p.1) }
    ensures refused { IfErr result (IfMisfit (IsNoHeldRest line.now.spellings.now (environment_of line.now.env.now) (map comp_of components.now) count (drop place line.now.text.now) held.now)) }
{
    let start = separated(line.text, place, count, behind_part(held))?;
    let Some(next) = named_at(line.text, start, components, held) else {
        return Err(unnamed(line, place, start, components, held));
    };
    let (value, end) = read_component(line, start, &components[next])?;
    Ok(((next, value), end))
}

/// The place of the component without a value whose name stands at the place.
fn named_at(
    text: &[u8],
    place: usize,
    components: &[Component<'_>],
    held: &[Option<Value>],
) -> Option<usize>
    requires place { place ≤ length text.now }
    requires all { length held.now ≡ length components.now }
    ensures { MatchOption result (NamesNone (map comp_of components.now) held.now (drop place text.now)) (IsNamed (map comp_of components.now) held.now (drop place text.now)) }
{
    for next in 0..components.len() {
        if held[next].is_none() && is_word(text, place, components[next].name.as_slice()) {
            return Some(next);
        }
    }
    None
}

/// Whether the name stands at the place, and no word goes on after it.
fn is_word(text: &[u8], place: usize, name: &[u8]) -> bool
    requires { place ≤ length text.now }
    ensures { MatchBool result (BeginsWithName name.now (drop place text.now)) (BeginsWithoutName name.now (drop place text.now)) }
{
    match behind(&text[place..], name) {
        Some(rest) => ends(rest),
        None => false,
    }
}

/// Whether no word goes on with the bytes.
fn ends(bytes: &[u8]) -> bool
    ensures { MatchBool result (Ends bytes.now) (GoesOn bytes.now) }
{
    match bytes.first() {
        Some(byte) => {
            if is_in_word(*byte) {
                return false;
            }
            true
        }
        None => true,
    }
}

/// What is expected behind a part.
fn behind_part(held: &[Option<Value>]) -> &'static [u8] {
    if held.iter().all(|value| value.is_some()) {
        return b"the end";
    }
    b"\", \" or the end"
}

/// The fault where no name of a component without a value stands: at the place after what separates it, or where no such
/// component is left before that.
fn unnamed(
    line: &Line<'_, '_, '_, '_>,
    place: usize,
    start: usize,
    components: &[Component<'_>],
    held: &[Option<Value>],
) -> AfterFault
    requires start { start ≤ length line.now.text.now }
    requires all { length held.now ≡ length components.now }
{
    match free_names(line.alloc, components, held) {
        Ok(names) => {
            if names.as_slice().is_empty() {
                return AfterFault::NotABinding(place, Expected::Words(b"the end"));
            }
            AfterFault::NotABinding(
                misfit(line.text, start, components, held),
                Expected::Names(names),
            )
        }
        Err(_) => AfterFault::OutOfMemory,
    }
}

/// The names of the components without a value, parted by commas.
fn free_names(
    alloc: Global,
    components: &[Component<'_>],
    held: &[Option<Value>],
) -> Result<Text, AllocError>
    requires all { length held.now ≡ length components.now }
{
    let mut names = Vec::new(alloc);
    for next in 0..components.len() {
        if held[next].is_none() {
            if !names.is_empty() {
                names.extend_from_slice(b", ")?;
            }
            names.extend_from_slice(components[next].name.as_slice())?;
        }
    }
    Text::of(alloc, &names)
}

/// The place, or the end of the text, where the name of a component without a value goes on after it.
fn misfit(text: &[u8], place: usize, components: &[Component<'_>], held: &[Option<Value>]) -> usize
    requires place { place ≤ length text.now }
    requires all { length held.now ≡ length components.now }
{
    for next in 0..components.len() {
        if held[next].is_none() && components[next].name.as_slice().starts_with(&text[place..]) {
            return text.len();
        }
    }
    place
}

//! The messages for a schema or a size that is missing: if details are asked for, with the names that there are.
ghost use Rattle.std.specs.Prelude.{◌≡◌, ◌++◌, ◌∷◌, [], IfOk, MatchOption, OnOk, codes};
ghost use Rattle.zf_messages.specs.{detail_if_any, schema_at};
ghost use Rattle.zf_messages.specs.Missing as spec;
ghost use Rattle.zf_term.specs.{globals_of};

use crate::details::add_if_any;
use crate::message::{Detail, Message};
use crate::texts::about_words;
use std::alloc::{AllocError, Global};
use zf_data::{Items, Text};
use zf_term::{Entry, Globals, is_like};

/// The message for a name that no schema has.
pub fn no_schema_message(
    alloc: Global,
    details: bool,
    globals: &Globals<'_>,
    name: &[u8],
) -> Result<Message, AllocError>
    ensures { IfOk result (λ m. m ≡ spec.no_schema_message details (globals_of globals.now) name.now) }
{
    let mut message = about_words(alloc, b"no schema ", name, b"")?;
    if details {
        add_schemas(&mut message.details, alloc, globals, name)?;
    }
    Ok(message)
}

/// The first schema with a name like this one, and all schemas.
fn add_schemas(
    details: &mut Items<Detail>,
    alloc: Global,
    globals: &Globals<'_>,
    name: &[u8],
) -> Result<(), AllocError>
    ensures { OnOk result (details.new ≡ details.old ++ (detail_if_any (codes "like") (spec.first_like name.now (spec.schemas (globals_of globals.now))) ++ detail_if_any (codes "schemas") (spec.names_text (spec.schemas (globals_of globals.now))))) }
{
    let names = schemas(alloc, globals)?;
    let text = names_text(alloc, &names)?;
    add_if_any(details, alloc, b"like", first_like(name, &names))?;
    add_if_any(details, alloc, b"schemas", &text)
}

/// The message for a given set without a size, where these are all such sets.
pub fn no_size_message(
    alloc: Global,
    details: bool,
    sets: &[Text],
    name: &[u8],
) -> Result<Message, AllocError>
    ensures { IfOk result (λ m. m ≡ spec.no_size_message details sets.now name.now) }
{
    let mut message = about_words(alloc, b"no size for ", name, b"")?;
    if details {
        let text = names_text(alloc, sets)?;
        add_if_any(&mut message.details, alloc, b"no size for", &text)?;
    }
    Ok(message)
}

/// The names of the schemas, in order of definition.
fn schemas(alloc: Global, globals: &Globals<'_>) -> Result<Vec<Text>, AllocError>
    ensures { IfOk result (λ names. names.items ≡ spec.schemas (globals_of globals.now)) }
{
    let mut names = Vec::new(alloc);
    for place in 0..globals.len() {
        add_schema(alloc, globals, place, &mut names)?;
    }
    Ok(names)
}

/// Adds the name of the global at this place, if it is a schema.
fn add_schema(
    alloc: Global,
    globals: &Globals<'_>,
    place: usize,
    names: &mut Vec<Text>,
) -> Result<(), AllocError>
    ensures { OnOk result (names.new.items ≡ names.old.items ++ schema_at place (globals_of globals.now)) }
{
    if let Some(name) = schema_at(globals, place) {
        names.push(Text::of(alloc, name)?)?;
    }
    Ok(())
}

/// The name of the global at this place, if it is a schema.
fn schema_at<'g>(globals: &'g Globals<'_>, place: usize) -> Option<&'g [u8]>
    ensures { MatchOption result (schema_at place (globals_of globals.now) ≡ []) (λ name. schema_at place (globals_of globals.now) ≡ name.now ∷ []) }
{
    match globals.in_order(place) {
        Some((name, Entry::Schema(_))) => Some(name),
        _ => None,
    }
}

/// The first of the names that is like this one.
fn first_like<'n>(name: &[u8], names: &'n [Text]) -> &'n [u8]
    ensures { result.now ≡ spec.first_like name.now names.now }
{
    for other in names {
        if is_like(name, other.as_slice()) {
            return other.as_slice();
        }
    }
    b""
}

/// `A, B, C`
fn names_text(alloc: Global, names: &[Text]) -> Result<Vec<u8>, AllocError>
    ensures { IfOk result (λ v. v.items ≡ spec.names_text names.now) }
{
    let mut text = Vec::new(alloc);
    for name in names {
        append_name(&mut text, name.as_slice())?;
    }
    Ok(text)
}

/// One name more.
fn append_name(text: &mut Vec<u8>, name: &[u8]) -> Result<(), AllocError>
    ensures { OnOk result (text.new.items ≡ spec.and_name text.old.items name.now) }
{
    if !text.is_empty() {
        text.extend_from_slice(b", ")?;
    }
    text.extend_from_slice(name)
}

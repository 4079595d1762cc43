//! The messages of faults and of refusals, without details.
ghost use Rattle.std.specs.Prelude.{◌≡◌, ◌++◌, [], if◌then◌else◌, codes, decimal, IfOk};
ghost use Rattle.zf_messages.specs.{detail_if_any};
ghost use Rattle.zf_messages.specs.Texts as spec;

use crate::details::add_if_any;
use crate::message::{At, Message};
use itoa::Buffer;
use std::alloc::{AllocError, Global};
use zf_scan::TextFaultKind;
use zf_term::TypeFaultKind;

/// The text of a fault of a text.
pub fn text_fault_text(kind: TextFaultKind) -> &'static [u8]
    ensures { result.now ≡ spec.text_fault_text kind }
{
    match kind {
        TextFaultKind::BadByte => b"byte not in the markup",
        TextFaultKind::UnknownCommand => b"unknown command",
        TextFaultKind::NotInProfile => b"not in this profile",
        TextFaultKind::UnclosedBox => b"box is not closed",
        TextFaultKind::Unexpected => b"unexpected symbol",
        TextFaultKind::NumberTooLarge => b"number too large",
        TextFaultKind::TooDeep => b"nested too deeply",
        TextFaultKind::TooLong => b"source too long",
        TextFaultKind::OutOfMemory => b"out of memory",
    }
}

/// The text of a fault of a type.
pub fn type_fault_text(kind: TypeFaultKind) -> &'static [u8]
    ensures { result.now ≡ spec.type_fault_text kind }
{
    match kind {
        TypeFaultKind::NotDeclared => b"name not declared",
        TypeFaultKind::AlreadyDefined => b"name already defined",
        TypeFaultKind::Mismatch => b"types differ",
        TypeFaultKind::NotASet => b"a set is needed",
        TypeFaultKind::NotANumber => b"a number is needed",
        TypeFaultKind::NotARelation => b"a relation is needed",
        TypeFaultKind::NotAPredicate => b"a predicate is needed",
        TypeFaultKind::NotAnExpression => b"an expression is needed",
        TypeFaultKind::ComponentClash => b"component has two types",
        TypeFaultKind::NotASchema => b"a schema is needed",
        TypeFaultKind::LocalTwice => b"variable declared twice",
        TypeFaultKind::TooLarge => b"too large",
    }
}

/// A message about the words of a command: a name between two texts.
pub(crate) fn about_words(
    alloc: Global,
    before: &[u8],
    name: &[u8],
    after: &[u8],
) -> Result<Message, AllocError>
    ensures { IfOk result (λ m. m ≡ spec.about_words (before.now ++ name.now ++ after.now)) }
{
    let mut text = Vec::from_slice(alloc, b"zf: ")?;
    text.extend_from_slice(before)?;
    text.extend_from_slice(name)?;
    text.extend_from_slice(after)?;
    Message::of(alloc, At::Nowhere, &text)
}

/// `zf: S has no component x`
pub fn no_component(alloc: Global, schema: &[u8], component: &[u8]) -> Result<Message, AllocError>
    ensures { IfOk result (λ m. m ≡ spec.no_component schema.now component.now) }
{
    about_words(alloc, schema, b" has no component ", component)
}

/// `zf: numbers are too large`
pub fn numbers_too_large(alloc: Global) -> Result<Message, AllocError>
    ensures { IfOk result (λ m. m ≡ spec.numbers_too_large) }
{
    about_words(alloc, b"numbers are too large", b"", b"")
}

/// `zf: N is not a given set`
pub fn not_given(alloc: Global, name: &[u8]) -> Result<Message, AllocError>
    ensures { IfOk result (λ m. m ≡ spec.not_given name.now) }
{
    about_words(alloc, b"", name, b" is not a given set")
}

/// `zf: two sizes for N`
pub fn size_twice(alloc: Global, name: &[u8]) -> Result<Message, AllocError>
    ensures { IfOk result (λ m. m ≡ spec.size_twice name.now) }
{
    about_words(alloc, b"two sizes for ", name, b"")
}

/// `zf: size of N is too large`
pub fn size_too_large(alloc: Global, name: &[u8]) -> Result<Message, AllocError>
    ensures { IfOk result (λ m. m ≡ spec.size_too_large name.now) }
{
    about_words(alloc, b"size of ", name, b" is too large")
}

/// A place in a text, after what is said of it.
fn at_byte(alloc: Global, before: &[u8], place: usize) -> Result<Message, AllocError>
    ensures { IfOk result (λ m. m ≡ spec.about_words (before.now ++ decimal place)) }
{
    let mut number = Buffer::new();
    about_words(alloc, before, number.format(place).as_bytes(), b"")
}

/// `zf: after: not a binding at byte K`
pub fn not_a_binding(
    alloc: Global,
    place: usize,
    details: bool,
    expected: &[u8],
) -> Result<Message, AllocError>
    ensures { IfOk result (λ m. m ≡ spec.not_a_binding details (place, expected.now)) }
{
    let message = at_byte(alloc, b"after: not a binding at byte ", place)?;
    expecting(alloc, message, details, expected)
}

/// `zf: only: not components at byte K`
pub fn not_components(alloc: Global, place: usize) -> Result<Message, AllocError>
    ensures { IfOk result (λ m. m ≡ spec.not_components place) }
{
    at_byte(alloc, b"only: not components at byte ", place)
}

/// `zf: with: not a binding at byte K`
pub fn not_held(
    alloc: Global,
    place: usize,
    details: bool,
    expected: &[u8],
) -> Result<Message, AllocError>
    ensures { IfOk result (λ m. m ≡ spec.not_held details (place, expected.now)) }
{
    let message = at_byte(alloc, b"with: not a binding at byte ", place)?;
    expecting(alloc, message, details, expected)
}

/// The message, with what was expected if details are asked for.
fn expecting(
    alloc: Global,
    message: Message,
    details: bool,
    expected: &[u8],
) -> Result<Message, AllocError>
    ensures { IfOk result (λ m. m ≡ record { at = message.at; text = message.text; details = message.details ++ (if details then detail_if_any (codes "expected") expected.now else []) }) }
{
    let mut message = message;
    if details {
        add_if_any(&mut message.details, alloc, b"expected", expected)?;
    }
    Ok(message)
}

/// `out of bounds in the declaration of x`
pub fn declared_out(alloc: Global, name: &[u8]) -> Result<Message, AllocError>
    ensures { IfOk result (λ m. m ≡ spec.declared_out name.now) }
{
    let mut text = Vec::from_slice(alloc, b"out of bounds in the declaration of ")?;
    text.extend_from_slice(name)?;
    Message::of(alloc, At::Nowhere, &text)
}

//! What was expected where a line does not go on.
ghost use Rattle.zf_read.specs.{TellsAsMuch};

use crate::fault::AfterFault;
use std::alloc::{AllocError, Global};
use zf_data::Text;
use zf_term::ZType;
use zf_term::type_text::type_text;

/// What was expected where a line does not go on.
#[derive(Debug, Drop)]
pub enum Expected {
    /// What these words say.
    Words(&'static [u8]),
    /// One of these names, which are parted by commas.
    Names(Text),
    /// A value. Its type is named by who knows it.
    Value,
    /// A value of the type of this text.
    ValueOf(Text),
}

impl Expected {
    /// What was expected, in words.
    pub fn text(&self, alloc: Global) -> Result<Text, AllocError> {
        match self {
            Expected::Words(words) => Text::of(alloc, words),
            Expected::Names(names) => Text::of(alloc, names.as_slice()),
            Expected::Value => Text::of(alloc, b"a value"),
            Expected::ValueOf(ztype) => {
                let mut text = Vec::from_slice(alloc, b"a value of ")?;
                text.extend_from_slice(ztype.as_slice())?;
                Text::of(alloc, &text)
            }
        }
    }
}

/// The fault where the name was expected.
pub(crate) fn unnamed(alloc: Global, place: usize, name: &[u8]) -> AfterFault {
    match Text::of(alloc, name) {
        Ok(name) => AfterFault::NotABinding(place, Expected::Names(name)),
        Err(_) => AfterFault::OutOfMemory,
    }
}

/// The fault, if a value was expected, with its type.
pub(crate) fn of_type(alloc: Global, fault: AfterFault, ztype: &ZType<'_>) -> AfterFault
    ensures { TellsAsMuch fault result }
{
    match fault {
        AfterFault::NotABinding(place, Expected::Value) => no_value(alloc, place, ztype),
        AfterFault::NotABinding(place, expected) => AfterFault::NotABinding(place, expected),
        AfterFault::OutOfMemory => AfterFault::OutOfMemory,
    }
}

/// The fault where a value of the type was expected.
fn no_value(alloc: Global, place: usize, ztype: &ZType<'_>) -> AfterFault {
    match type_text(alloc, ztype) {
        Ok(text) => AfterFault::NotABinding(place, Expected::ValueOf(text)),
        Err(_) => AfterFault::OutOfMemory,
    }
}

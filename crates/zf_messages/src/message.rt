//! Messages: where something is wrong, what it is, and what it is about.
ghost use Rattle.std.specs.Prelude.{◌≡◌, ◌++◌, IfOk, OnOk};
ghost use Rattle.zf_messages.specs.{detail, plain};

use std::alloc::{AllocError, Global};
use zf_data::{Items, Text};

/// Where the thing that a message is about stands.
#[derive(Clone, Copy)]
pub enum At {
    /// In no file: the message is about the words of the command.
    Nowhere,
    File,
    /// On this line of the file, from 1.
    Line(u64),
}

/// What a message is about: a word that says what this is, and its text.
#[derive(Drop)]
pub struct Detail {
    pub word: Text,
    pub text: Text,
}

/// What is reported. No text has a line end.
#[derive(Drop)]
pub struct Message {
    pub at: At,
    pub text: Text,
    pub details: Items<Detail>,
}

impl Message {
    /// The message without details.
    pub fn of(alloc: Global, at: At, text: &[u8]) -> Result<Message, AllocError>
        ensures { IfOk result (λ m. m ≡ plain at text.now) }
    {
        Ok(Message {
            at,
            text: Text::of(alloc, text)?,
            details: Items::new(alloc),
        })
    }
}

/// Adds a detail. As for all that follow, a refusal leaves a part of what is added.
pub fn add_detail(
    details: &mut Items<Detail>,
    alloc: Global,
    word: &[u8],
    text: &[u8],
) -> Result<(), AllocError>
    ensures { OnOk result (details.new ≡ details.old ++ detail word.now text.now) }
{
    let word = Text::of(alloc, word)?;
    let text = Text::of(alloc, text)?;
    details.push(Detail { word, text })
}

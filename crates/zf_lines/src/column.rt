//! The parts of lines that were printed, so that each is worked out once.
ghost use Rattle.std.specs.Prelude.{◌≡◌, ◌<◌, ◌++◌, ℕ, List, length, IfOk, OnOk, IfSome};
ghost use Rattle.zf_lines.specs.Prelude.{schema_of, comma_before, name_in};
ghost use Rattle.zf_lines.specs.{AreColumns, Keeps};
ghost use Rattle.zf_value.specs.declared.plain.Value as value;

use crate::style::Style;
use std::alloc::{AllocError, Global};
use zf_data::Text;
use zf_print::append_name;
use zf_term::Flat;

/// How many bytes all that is kept of a search may take.
const ROOM: usize = 2_097_152;

/// How many slots a column has at most.
const SLOTS: usize = 2_048;

/// How many bytes a slot takes.
const SLOT_SIZE: usize = 64;

/// A part of a line, and the place of its value.
#[derive(Drop)]
struct Kept {
    place: usize,
    text: Text,
}

/// The parts of lines of one component, by the places of the values. Places with one remainder share a slot, and the first part that comes to it stays.
#[derive(Drop)]
pub struct Column {
    /// What stands before each value.
    head: Text,
    slots: Vec<Option<Kept>>,
    /// How many bytes may still be taken.
    room: usize,
}

impl Column {
    fn new(alloc: Global, head: Text, room: usize) -> Column
        ensures head { result.head ≡ head }
        ensures none { (f : ℕ → List ℕ) → Keeps f result }
    {
        Column {
            head,
            slots: Vec::new(alloc),
            room,
        }
    }

    pub fn head(&self) -> &[u8]
        ensures { result.now ≡ self.now.head }
    {
        self.head.as_slice()
    }

    /// The part for the value at this place, if it is kept.
    pub fn find(&self, place: usize) -> Option<&[u8]>
        ensures { IfSome result (λ text. (f : ℕ → List ℕ) → Keeps f self.now → text.now ≡ f place) }
    {
        match self.slots.get(place % SLOTS) {
            Some(Some(kept)) => {
                if kept.place == place {
                    Some(kept.text.as_slice())
                } else {
                    None
                }
            }
            _ => None,
        }
    }

    /// Keeps the part for the value at this place, if there is room for it.
    pub fn keep(&mut self, place: usize, text: &[u8]) -> Result<(), AllocError>
        ensures kept { OnOk result ((f : ℕ → List ℕ) → Keeps f self.old → text.now ≡ f place → Keeps f self.new) }
        ensures head { self.new.head ≡ self.old.head }
    {
        let slot = place % SLOTS;
        let more = (slot + 1).saturating_sub(self.slots.len());
        let cost = (more * SLOT_SIZE).saturating_add(text.len());
        if cost > self.room {
            return Ok(());
        }
        let left = self.room - cost;
        self.make_slot(slot)?;
        if self.slots[slot].is_none() {
            let text = Text::of(*self.slots.allocator(), text)?;
            self.slots[slot] = Some(Kept { place, text });
            self.room = left;
        }
        Ok(())
    }

    /// Makes slots up to this one, without parts.
    fn make_slot(&mut self, slot: usize) -> Result<(), AllocError>
        ensures there { OnOk result (slot < length self.new.slots.items) }
        ensures kept { (f : ℕ → List ℕ) → Keeps f self.old → Keeps f self.new }
        ensures head { self.new.head ≡ self.old.head }
    {
        while self.slots.len() <= slot {
            self.slots.push(None)?;
        }
        Ok(())
    }
}

/// A column for each component, without parts.
pub fn columns_of(style: &Style<'_>, flat: &Flat<'_>) -> Result<Vec<Column>, AllocError>
    ensures { IfOk result (λ made. (ranges : List (List value.Value)) → AreColumns style.now.format style.now.elements.now (schema_of flat.now).comps ranges made.items) }
{
    let components = flat.components.as_slice();
    let room = ROOM / components.len().max(1);
    let mut columns = Vec::with_capacity(style.alloc, components.len())?;
    for place in 0..components.len() {
        let head = head_of(style, place, components[place].name.as_slice())?;
        columns.push(Column::new(style.alloc, head, room))?;
    }
    Ok(columns)
}

/// What stands before the value of a component, after so many others.
fn head_of(style: &Style<'_>, count: usize, name: &[u8]) -> Result<Text, AllocError>
    ensures { IfOk result (λ text. text ≡ comma_before count ++ name_in style.now.format name.now) }
{
    let mut head = Vec::new(style.alloc);
    if count > 0 {
        head.extend_from_slice(b", ")?;
    }
    append_name(&mut head, style.format, name)?;
    Text::of(style.alloc, &head)
}

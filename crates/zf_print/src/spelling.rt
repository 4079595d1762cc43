//! How elements are spelled.
ghost use Rattle.std.specs.Prelude.{◌≡◌, ◌+◌, ◌++◌, List, drop, IfOk, OnOk};
ghost use Rattle.zf_term.specs.{definition_of, globals_of};
ghost use Rattle.zf_print.specs.declared.spelling.Spelling as declared;
ghost use Rattle.zf_print.specs.{spellings, with_spelling};

use std::alloc::{AllocError, Global};
use zf_data::arena::Lent;
use zf_data::{Items, Text};
use zf_term::{Entry, Globals};

/// How the elements of a given set or free type are spelled.
#[derive(Drop)]
pub enum Spelling {
    /// `NAME.1`, `NAME.2`, and so on, with the name of the given set.
    Numbered(Text),
    /// By the names of the constructors, in their order.
    Named(Items<Text>),
}

/// How the elements of each given set and free type are spelled, by the number of the type.
pub fn spellings_of(alloc: Global, globals: &Globals<'_>) -> Result<Vec<Spelling>, AllocError>
    ensures { IfOk result (λ made. made.items ≡ spellings (globals_of globals.now)) }
{
    let mut made = Vec::new(alloc);
    for place in 0..globals.len() {
        add_at(alloc, &mut made, globals, place)?;
    }
    Ok(made)
}

/// Adds the spelling of the global at this place, if it has elements.
fn add_at(
    alloc: Global,
    made: &mut Vec<Spelling>,
    globals: &Globals<'_>,
    place: usize,
) -> Result<(), AllocError>
    ensures { OnOk result (made.new.items ++ spellings (drop (place + 1) (globals_of globals.now)) ≡ made.old.items ++ spellings (drop place (globals_of globals.now))) }
{
    match globals.in_order(place) {
        Some((name, entry)) => add(alloc, made, name, entry),
        None => Ok(()),
    }
}

/// Adds the spelling of what is defined, if it has elements.
fn add(
    alloc: Global,
    made: &mut Vec<Spelling>,
    name: &[u8],
    entry: &Entry<'_>,
) -> Result<(), AllocError>
    ensures { OnOk result ((later : List declared.Spelling) → made.new.items ++ later ≡ made.old.items ++ with_spelling name.now (definition_of entry.now) later) }
{
    match entry {
        Entry::Given(_) => made.push(Spelling::Numbered(Text::of(alloc, name)?))?,
        Entry::Free(_, names) => made.push(Spelling::Named(copied(alloc, names.as_slice())?))?,
        Entry::Constructor(_, _, _) => {}
        Entry::Abbrev(_, _, _) => {}
        Entry::Schema(_) => {}
    }
    Ok(())
}

/// The names, on the heap.
fn copied(alloc: Global, names: &[Lent<'_>]) -> Result<Items<Text>, AllocError>
    ensures { IfOk result (λ texts. texts ≡ names.now) }
{
    let mut texts = Items::with_room(alloc, names.len())?;
    for name in names {
        texts.push(Text::of(alloc, name.as_slice())?)?;
    }
    Ok(texts)
}

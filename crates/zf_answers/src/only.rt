//! The components that alone are shown.
ghost use Rattle.std.specs.Prelude.{IfErr, IfOk, OnOk, Some, map};
ghost use Rattle.zf_answers.specs.Prelude.{comp_of};
ghost use Rattle.zf_answers.specs.{IfAnswered, IsAdded, IsMisnamed, NamesParts, TellsNoParts, TellsPlaceMisnamed};

use crate::stop::Stop;
use std::alloc::Global;
use zf_lines::Status;
use zf_messages::texts;
use zf_term::{Component, component_of};

/// The places of the components that a text names, parted by commas. The answer where it names something else, or one of
/// them twice.
pub fn places_named(
    alloc: Global,
    components: &[Component<'_>],
    text: &[u8],
) -> Result<Vec<usize>, Stop>
    ensures named { IfOk result (λ places. NamesParts (map comp_of components.now) text.now places.items) }
    ensures stop { IfErr result (λ s. IfAnswered s (TellsNoParts (map comp_of components.now) (Some text.now))) }
{
    let mut places = Vec::new(alloc);
    let mut at: usize = 0;
    for name in text.split(|byte| *byte == b',') {
        add_place(alloc, components, name, at, &mut places)?;
        at = at.saturating_add(name.len() + 1);
    }
    Ok(places)
}

/// Adds the place of the component that is named between blanks, unless there is none, or it is there already.
fn add_place(
    alloc: Global,
    components: &[Component<'_>],
    name: &[u8],
    at: usize,
    places: &mut Vec<usize>,
) -> Result<(), Stop>
    ensures added { OnOk result (IsAdded (map comp_of components.now) name.now places.old.items places.new.items) }
    ensures stop { IfErr result (λ s. IfAnswered s (IsMisnamed (map comp_of components.now) name.now places.old.items)) }
{
    let trimmed = name.trim_ascii_start().trim_ascii_end();
    let Some((place, _)) = component_of(components, trimmed) else {
        return Err(not_components(alloc, at, name));
    };
    if places.contains(&place) {
        return Err(not_components(alloc, at, name));
    }
    places.push(place)?;
    Ok(())
}

/// The answer for a name that does not fit, which stands after blanks at a place.
fn not_components(alloc: Global, at: usize, name: &[u8]) -> Stop
    ensures { IfAnswered result TellsPlaceMisnamed }
{
    let blanks = name.len().saturating_sub(name.trim_ascii_start().len());
    match texts::not_components(alloc, at.saturating_add(blanks)) {
        Ok(message) => Stop::told(alloc, message, Status::BadRequest),
        Err(_) => Stop::OutOfMemory,
    }
}

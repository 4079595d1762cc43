//! The sizes that are stated.
ghost use Rattle.std.specs.Prelude.{◌≡◌, ◌++◌, IfOk, OnOk, Some, map};
ghost use Rattle.zf_answers.specs.Prelude.{list_any, bytes_eq, given_sets, globals_of};
ghost use Rattle.zf_answers.specs.Settings as spec;

use std::alloc::{AllocError, Global};
use zf_command::{Setting, Size};
use zf_data::Text;
use zf_meaning::{Size as StatedSize, given_names};
use zf_term::Globals;

/// The sizes of words, and then the one size of each given set that no word names.
pub fn stated_sizes(
    alloc: Global,
    globals: &Globals<'_>,
    setting: &Setting,
) -> Result<Vec<StatedSize>, AllocError>
    ensures { IfOk result (λ sizes. sizes.items ≡ spec.stated (globals_of globals.now) setting.now) }
{
    let mut sizes = worded(alloc, setting.sizes.as_slice())?;
    if let Some(count) = setting.size {
        let sets = sets_without_size(alloc, globals, &sizes)?;
        add_sizes(alloc, &sets, count, &mut sizes)?;
    }
    Ok(sizes)
}

/// The sizes of words, as an environment takes them.
fn worded(alloc: Global, words: &[Size]) -> Result<Vec<StatedSize>, AllocError>
    ensures { IfOk result (λ sizes. sizes.items ≡ map spec.stated_size words.now) }
{
    let mut sizes = Vec::with_capacity(alloc, words.len())?;
    for word in words {
        sizes.push(stated_size(alloc, word)?)?;
    }
    Ok(sizes)
}

fn stated_size(alloc: Global, word: &Size) -> Result<StatedSize, AllocError>
    ensures { IfOk result (λ size. size ≡ spec.stated_size word.now) }
{
    Ok(StatedSize {
        name: Text::of(alloc, word.name.as_bytes())?,
        count: word.count,
    })
}

/// Adds one size of each of the sets.
fn add_sizes(
    alloc: Global,
    sets: &[Text],
    count: u64,
    sizes: &mut Vec<StatedSize>,
) -> Result<(), AllocError>
    ensures { OnOk result (sizes.new.items ≡ sizes.old.items ++ spec.with_size (Some count) sets.now) }
{
    for set in sets {
        let name = set.copy(alloc)?;
        sizes.push(StatedSize { name, count })?;
    }
    Ok(())
}

/// The given sets for which no size is stated, in order of definition.
pub fn sets_without_size(
    alloc: Global,
    globals: &Globals<'_>,
    sizes: &[StatedSize],
) -> Result<Vec<Text>, AllocError>
    ensures { IfOk result (λ sets. sets.items ≡ spec.without_size sizes.now (given_sets (globals_of globals.now))) }
{
    let mut sets = given_names(alloc, globals)?;
    sets.retain(|set| !is_sized(sizes, set.as_slice()));
    Ok(sets)
}

/// Whether a size is stated for the set.
fn is_sized(sizes: &[StatedSize], set: &[u8]) -> bool
    ensures { result ≡ list_any (λ s. bytes_eq s.name set.now) sizes.now }
{
    sizes.iter().any(|size| size.name.as_slice() == set)
}

//! The sizes of the given sets.
ghost use Rattle.std.specs.Prelude.{◌≡◌, [], ◌∷◌, ◌++◌, ◌↔◌, ℕ, Option, option_to_list, Contains, IsTrue, IfOk, IfErr, OnOk, MatchOption};
ghost use Rattle.zf_meaning.specs.Prelude.{globals_of};
ghost use Rattle.zf_meaning.specs.{AreAccepted, AreComplete, AreSizes, CountsAt, given_at, given_sets, IsAccepted, IsRefusal, IsSizeFault, IsStated, names};
ghost use Rattle.zf_meaning.specs.declared.sizes.SizeFault.TheVariants.{OutOfMemory};

use std::alloc::{AllocError, AllocFailed, Global};
use thiserror::Error;
use zf_data::Text;
use zf_term::{Entry, Globals};
use zf_value::SET_MAX;

/// The size that is stated for a given set.
#[derive(Debug, Drop)]
pub struct Size {
    pub name: Text,
    pub count: u64,
}

/// Why the stated sizes do not serve, with the name in question.
#[derive(Debug, Drop, Error)]
pub enum SizeFault {
    #[error("no size for a given set")]
    NoSize(Text),
    #[error("a size for a name that is no given set")]
    NotGiven(Text),
    #[error("two sizes for a given set")]
    SizeTwice(Text),
    #[error("size of a given set is too large")]
    SizeTooLarge(Text),
    #[error("out of memory")]
    OutOfMemory,
}

impl From<AllocError> for SizeFault {
    ghost from_gives = { λ _ fault. fault ≡ OutOfMemory };

    fn from(_error: AllocError) -> SizeFault {
        SizeFault::OutOfMemory
    }
}

impl<T: Drop> From<AllocFailed<T>> for SizeFault {
    ghost from_gives = { λ _ fault. fault ≡ OutOfMemory };

    fn from(_error: AllocFailed<T>) -> SizeFault {
        SizeFault::OutOfMemory
    }
}

/// The names of the given sets, in order of definition.
pub fn given_names(alloc: Global, globals: &Globals<'_>) -> Result<Vec<Text>, AllocError>
    ensures { IfOk result (λ sets. sets.items ≡ given_sets (globals_of globals.now)) }
{
    let mut sets = Vec::new(alloc);
    for place in 0..globals.len() {
        add_name(alloc, globals, place, &mut sets)?;
    }
    Ok(sets)
}

/// Adds the name of the global at this place, if it is a given set.
fn add_name(
    alloc: Global,
    globals: &Globals<'_>,
    place: usize,
    sets: &mut Vec<Text>,
) -> Result<(), AllocError>
    ensures { OnOk result (sets.new.items ≡ sets.old.items ++ given_at place (globals_of globals.now)) }
{
    if let Some(name) = given_name(globals, place) {
        sets.push(Text::of(alloc, name)?)?;
    }
    Ok(())
}

/// The name of the global at this place, if it is a given set.
fn given_name<'g>(globals: &'g Globals<'_>, place: usize) -> Option<&'g [u8]>
    ensures { MatchOption result (given_at place (globals_of globals.now) ≡ []) (λ name. given_at place (globals_of globals.now) ≡ name.now ∷ []) }
{
    match globals.in_order(place) {
        Some((name, Entry::Given(_))) => Some(name),
        _ => None,
    }
}

/// Refuses the first size that is not accepted, or the first given set that has none.
pub(crate) fn check_sizes(alloc: Global, sets: &[Text], sizes: &[Size]) -> Result<(), SizeFault>
    ensures ok { OnOk result (AreComplete sets.now sizes.now) }
    ensures err { IfErr result (IsRefusal sets.now sizes.now) }
{
    check_accepted(alloc, sets, sizes)?;
    for set in sets {
        if !is_sized(sizes, set.as_slice()) {
            return Err(SizeFault::NoSize(set.copy(alloc)?));
        }
    }
    Ok(())
}

/// Refuses the first size that is not accepted.
fn check_accepted(alloc: Global, sets: &[Text], sizes: &[Size]) -> Result<(), SizeFault>
    ensures ok { OnOk result (AreAccepted sets.now sizes.now) }
    ensures err { IfErr result (IsRefusal sets.now sizes.now) }
{
    for (i, size) in sizes.iter().enumerate() {
        check_size(alloc, sets, &sizes[..i], size)?;
    }
    Ok(())
}

/// Refuses a size that is not accepted after the earlier ones.
fn check_size(alloc: Global, sets: &[Text], earlier: &[Size], size: &Size) -> Result<(), SizeFault>
    ensures ok { OnOk result (IsAccepted sets.now earlier.now size.now) }
    ensures err { IfErr result (IsSizeFault sets.now earlier.now size.now) }
{
    let name = size.name.as_slice();
    if !is_given(sets, name) {
        return Err(SizeFault::NotGiven(Text::of(alloc, name)?));
    }
    if is_sized(earlier, name) {
        return Err(SizeFault::SizeTwice(Text::of(alloc, name)?));
    }
    if size.count > SET_MAX as u64 {
        return Err(SizeFault::SizeTooLarge(Text::of(alloc, name)?));
    }
    Ok(())
}

/// Whether a given set has the name.
fn is_given(sets: &[Text], name: &[u8]) -> bool
    ensures { IsTrue result ↔ Contains sets.now name.now }
{
    for set in sets {
        if set.as_slice() == name {
            return true;
        }
    }
    false
}

/// Whether a size is stated for the name.
fn is_sized(sizes: &[Size], name: &[u8]) -> bool
    ensures { IsTrue result ↔ Contains (names sizes.now) name.now }
{
    count_of(sizes, name).is_some()
}

/// The size that is stated for the name, if there is one.
fn count_of(sizes: &[Size], name: &[u8]) -> Option<u64>
    ensures { MatchOption result (¬ (Contains (names sizes.now) name.now)) (λ count. IsStated sizes.now name.now count) }
{
    for size in sizes {
        if size.name.as_slice() == name {
            return Some(size.count);
        }
    }
    None
}

/// How many elements each given set and free type has, in order of definition.
pub(crate) fn sizes_of(
    alloc: Global,
    globals: &Globals<'_>,
    sizes: &[Size],
) -> Result<Vec<u64>, AllocError>
    requires { AreComplete (given_sets (globals_of globals.now)) sizes.now }
    ensures { IfOk result (λ counts. AreSizes sizes.now (globals_of globals.now) counts.items) }
{
    let mut counts = Vec::new(alloc);
    for place in 0..globals.len() {
        add_count(globals, place, sizes, &mut counts)?;
    }
    Ok(counts)
}

/// Adds how many elements the global at this place has, if it is a given set or free type.
fn add_count(
    globals: &Globals<'_>,
    place: usize,
    sizes: &[Size],
    counts: &mut Vec<u64>,
) -> Result<(), AllocError>
    requires { AreComplete (given_sets (globals_of globals.now)) sizes.now }
    ensures { OnOk result ((o : Option ℕ) × CountsAt sizes.now place (globals_of globals.now) o × (counts.new.items ≡ counts.old.items ++ option_to_list o)) }
{
    if let Some(count) = count_at(globals, place, sizes) {
        counts.push(count)?;
    }
    Ok(())
}

/// How many elements the global at this place has, if it is a given set or free type.
fn count_at(globals: &Globals<'_>, place: usize, sizes: &[Size]) -> Option<u64>
    requires { AreComplete (given_sets (globals_of globals.now)) sizes.now }
    ensures { CountsAt sizes.now place (globals_of globals.now) result }
{
    match globals.in_order(place) {
        Some((name, Entry::Given(_))) => count_of(sizes, name),
        Some((_, Entry::Free(_, names))) => Some(names.len() as u64),
        _ => None,
    }
}

//! Parts that are the first values of bindings: each is written as soon as it is met, and the search passes over its other bindings.
ghost use Rattle.std.specs.Prelude.{◌≡◌, ◌≤◌, ℕ, List, length, true, IfOk, OnErr, MatchBool};
ghost use Rattle.zf_parts.specs.Prelude.{Appends, option_copied, device_of, failures_of, HasLimit, IsAtStart, read_failures, write_failures, AreFirst, schema_of, value_order, IsLater};
ghost use Rattle.zf_places.specs.Places as spec;
ghost use Rattle.zf_parts.specs.{part_wording, StopsParts, WritesParts};

use crate::asked::Parts;
use crate::collecting::is_later;
use crate::last::{write_last, write_out};
use std::alloc::{AllocError, Global};
use std::io::Write;
use zf_enum::{Passing, Search};
use zf_lines::show::write_row;
use zf_lines::{Counted, Printed, RunFault, Status, Style, is_spent, one_less};
use zf_places::values_at;
use zf_walk::Step;

/// Whether these are the first places, and no fewer than so many.
pub fn are_first(places: &[usize], count: usize) -> bool
    ensures { result ≡ true → AreFirst places.now × (count ≤ length places.now) }
{
    for i in 0..places.len() {
        if places[i] != i {
            return false;
        }
    }
    count <= places.len()
}

/// Writes the lines of the parts that the bindings ahead have, and the last line, where they are the first values.
pub fn show_fronts<S: Passing, W: Write>(
    style: &Style<'_>,
    parts: Parts<'_, '_>,
    search: &mut S,
    limit: Option<u64>,
    writer: &mut Counted<W>,
) -> Result<Status, RunFault>
    requires unfailed { failures_of writer.old ≡ 0 }
    requires start { IsAtStart (schema_of parts.flat.now) (S.Search.goal search.old) (S.Search.stage search.old) }
    requires limited { HasLimit limit }
    requires first { AreFirst parts.places.now × (length (schema_of parts.schema.now).comps ≤ length parts.places.now) }
    ensures ok { IfOk result (λ status. (text : List ℕ) × WritesParts (part_wording style.now.format style.now.elements.now (schema_of parts.entry.schema.now).comps (schema_of parts.entry.flat.now).comps) limit (S.Search.goal search.old).environment (schema_of parts.entry.flat.now) (S.Search.stage search.old) parts.entry.places.now (option_copied parts.entry.after) text status × Appends (W.contents (device_of writer.old)) (W.contents (device_of writer.new)) text) }
    ensures err { OnErr result (StopsParts (part_wording style.now.format style.now.elements.now (schema_of parts.entry.schema.now).comps (schema_of parts.entry.flat.now).comps) limit (S.Search.goal search.old).environment (schema_of parts.entry.flat.now) (S.Search.stage search.old) parts.entry.places.now (option_copied parts.entry.after) (W.contents (device_of writer.old)) (W.contents (device_of writer.new))) }
    ensures count { failures_of writer.new ≡ write_failures result }
    ensures unread { read_failures result ≡ 0 }
{
    let mut printed = Printed::new(style, parts.schema)?;
    let mut line = Vec::new(style.alloc);
    let mut left = limit;
    'parts: loop {
        match search.advance()? {
            Step::Holds => {
                if is_asked(style.alloc, parts, search)? {
                    write_row(&mut printed, style, parts.schema, search, writer)?;
                    left = one_less(left);
                    if is_spent(left) {
                        return write_last(&mut line, style, true, writer);
                    }
                }
            }
            Step::Breaks => {
                if is_asked(style.alloc, parts, search)? {
                    return write_out(&mut line, style, parts.flat, search, writer);
                }
            }
            Step::End => return write_last(&mut line, style, false, writer),
        }
        search.pass(parts.places.len());
    }
}

/// Whether the part of the binding that the last step gave is asked for.
pub fn is_asked<S: Search>(
    alloc: Global,
    parts: Parts<'_, '_>,
    search: &S,
) -> Result<bool, AllocError>
    ensures { IfOk result (λ asked. MatchBool asked (IsLater value_order (option_copied parts.entry.after) (spec.values_at parts.entry.places.now (S.values search.now))) (IsLater value_order (option_copied parts.entry.after) (spec.values_at parts.entry.places.now (S.values search.now)) → ⊥)) }
{
    if parts.after.is_none() {
        return Ok(true);
    }
    let values = values_at(alloc, parts.places, search)?;
    Ok(is_later(parts.after, values.as_slice()))
}

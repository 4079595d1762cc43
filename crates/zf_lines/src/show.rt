//! The lines of the bindings, each written before the next is looked for.
ghost use Rattle.std.specs.Prelude.{◌≡◌, ◌++◌, ℕ, List, true, false, IfOk, OnOk, OnErr};
ghost use Rattle.zf_lines.specs.Prelude.{Appends, counted_goal, schema_of, SameRanges};
ghost use Rattle.zf_lines.specs.{AppendsFront, device_of, EndsBy, failures_of, HasLimit, IsAtStart, IsCountingAtStart, IsPrinted, last_text, read_failures, row_line, row_wording, StopsLines, StopsShown, write_failures, WritesAll};

use crate::counted::Counted;
use crate::ending::Ending;
use crate::fault::{RunFault, Status};
use crate::limit::{is_spent, one_less};
use crate::printed::Printed;
use crate::style::Style;
use crate::texts::{append_end_line, append_more_line, append_out_line, append_tests_line};
use crate::writing::write_text;
use std::alloc::AllocError;
use std::io::Write;
use zf_enum::{Bindings, Located, Search};
use zf_term::Flat;
use zf_walk::Step;

/// Writes the lines of the bindings that are ahead, and the last line.
pub fn show<S: Search, W: Write>(
    style: &Style<'_>,
    flat: &Flat<'_>,
    search: &mut S,
    limit: Option<u64>,
    writer: &mut Counted<W>,
) -> Result<Status, RunFault>
    requires unfailed { failures_of writer.old ≡ 0 }
    requires start { IsAtStart (schema_of flat.now) (S.goal search.old) (S.stage search.old) }
    requires limited { HasLimit limit }
    ensures ok { IfOk result (λ status. (text : List ℕ) × WritesAll (row_wording style.now.format style.now.elements.now (schema_of flat.now).comps) limit false (S.goal search.old).environment (schema_of flat.now) (S.stage search.old) text status × Appends (W.contents (device_of writer.old)) (W.contents (device_of writer.new)) text) }
    ensures err { OnErr result (StopsShown (row_wording style.now.format style.now.elements.now (schema_of flat.now).comps) limit false (S.goal search.old).environment (schema_of flat.now) (S.stage search.old) (W.contents (device_of writer.old)) (W.contents (device_of writer.new))) }
    ensures count { failures_of writer.new ≡ write_failures result }
    ensures unread { read_failures result ≡ 0 }
{
    let ending = write_lines(style, flat, search, limit, writer)?;
    let mut line = Vec::new(style.alloc);
    append_last(&mut line, style, flat, search, ending)?;
    write_text(writer, &line)?;
    Ok(ending.status())
}

/// Writes the lines of the bindings that are ahead, the last line, and that of the number of tests.
pub fn show_with_tests<W: Write>(
    style: &Style<'_>,
    flat: &Flat<'_>,
    bindings: &mut Bindings<'_, '_, '_, '_>,
    limit: Option<u64>,
    writer: &mut Counted<W>,
) -> Result<Status, RunFault>
    requires unfailed { failures_of writer.old ≡ 0 }
    requires start { IsCountingAtStart (schema_of flat.now) bindings.old }
    requires limited { HasLimit limit }
    ensures ok { IfOk result (λ status. (text : List ℕ) × WritesAll (row_wording style.now.format style.now.elements.now (schema_of flat.now).comps) limit true (counted_goal bindings.old.walk).environment (schema_of flat.now) bindings.old.walk.stage text status × Appends (W.contents (device_of writer.old)) (W.contents (device_of writer.new)) text) }
    ensures err { OnErr result (StopsShown (row_wording style.now.format style.now.elements.now (schema_of flat.now).comps) limit true (counted_goal bindings.old.walk).environment (schema_of flat.now) bindings.old.walk.stage (W.contents (device_of writer.old)) (W.contents (device_of writer.new))) }
    ensures count { failures_of writer.new ≡ write_failures result }
    ensures unread { read_failures result ≡ 0 }
{
    let ending = write_lines(style, flat, bindings, limit, writer)?;
    let mut line = Vec::new(style.alloc);
    append_last(&mut line, style, flat, bindings, ending)?;
    append_tests_line(&mut line, style.format, bindings.tests())?;
    write_text(writer, &line)?;
    Ok(ending.status())
}

/// Writes the lines of the bindings that are ahead, up to the limit or the first one that leaves the bounds.
fn write_lines<S: Search, W: Write>(
    style: &Style<'_>,
    flat: &Flat<'_>,
    search: &mut S,
    limit: Option<u64>,
    writer: &mut Counted<W>,
) -> Result<Ending, RunFault>
    requires unfailed { failures_of writer.old ≡ 0 }
    requires start { IsAtStart (schema_of flat.now) (S.goal search.old) (S.stage search.old) }
    requires limited { HasLimit limit }
    ensures ok { IfOk result (λ ending. EndsBy (row_wording style.now.format style.now.elements.now (schema_of flat.now).comps) limit (S.goal search.old).environment (schema_of flat.now) (S.stage search.old) ending (S.stage search.new) (W.contents (device_of writer.old)) (W.contents (device_of writer.new))) }
    ensures same { OnOk result ((S.goal search.new ≡ S.goal search.old) × SameRanges (S.stage search.old) (S.stage search.new)) }
    ensures counts { OnOk result (S.Counts search.new) }
    ensures err { OnErr result (StopsLines (row_wording style.now.format style.now.elements.now (schema_of flat.now).comps) limit (S.goal search.old).environment (schema_of flat.now) (S.stage search.old) (W.contents (device_of writer.old)) (W.contents (device_of writer.new))) }
    ensures count { failures_of writer.new ≡ write_failures result }
    ensures unread { read_failures result ≡ 0 }
{
    let mut printed = Printed::new(style, flat)?;
    let mut left = limit;
    'lines: loop {
        match search.advance()? {
            Step::Holds => {
                write_row(&mut printed, style, flat, search, writer)?;
                left = one_less(left);
                if is_spent(left) {
                    return Ok(Ending::More);
                }
            }
            Step::Breaks => return Ok(Ending::Out),
            Step::End => return Ok(Ending::End),
        }
    }
}

/// Writes the line of a row, or of its first values, if there are no components for the others.
pub fn write_row<P: Located, W: Write>(
    printed: &mut Printed,
    style: &Style<'_>,
    flat: &Flat<'_>,
    row: &P,
    writer: &mut Counted<W>,
) -> Result<(), RunFault>
    requires unfailed { failures_of writer.old ≡ 0 }
    requires printed { IsPrinted style.now.format style.now.elements.now (schema_of flat.now).comps (P.ranges row.now) printed.old }
    ensures ok { OnOk result (Appends (W.contents (device_of writer.old)) (W.contents (device_of writer.new)) (row_line style.now.format style.now.elements.now (schema_of flat.now).comps (P.values row.now))) }
    ensures printed { OnOk result (IsPrinted style.now.format style.now.elements.now (schema_of flat.now).comps (P.ranges row.now) printed.new) }
    ensures err { OnErr result (AppendsFront (W.contents (device_of writer.old)) (W.contents (device_of writer.new)) (row_line style.now.format style.now.elements.now (schema_of flat.now).comps (P.values row.now))) }
    ensures count { failures_of writer.new ≡ write_failures result }
    ensures unread { read_failures result ≡ 0 }
{
    printed.print(style, flat, row)?;
    write_text(writer, printed.line())
}

/// Appends the last line.
fn append_last<S: Search>(
    line: &mut Vec<u8>,
    style: &Style<'_>,
    flat: &Flat<'_>,
    search: &S,
    ending: Ending,
) -> Result<(), AllocError>
    ensures { OnOk result (line.new.items ≡ line.old.items ++ last_text (row_wording style.now.format style.now.elements.now (schema_of flat.now).comps) ending (S.values search.now)) }
{
    match ending {
        Ending::More => append_more_line(line, style.format),
        Ending::Out => append_out_line(line, style.format, flat, style.elements, search),
        Ending::End => append_end_line(line, style.format),
    }
}

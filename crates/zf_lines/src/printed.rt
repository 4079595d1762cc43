//! The line of a row, printed over that of the row before, with the parts that both have in front.
ghost use Rattle.std.specs.Prelude.{◌≡◌, ◌<◌, ◌≤◌, ◌++◌, ℕ, List, [], length, take, IfOk, OnOk, Some, slice_get, slice_index_or};
ghost use Rattle.zf_lines.specs.Prelude.{Comp, schema_of, components_in, parted, Spelling};
ghost use Rattle.zf_lines.specs.{AreParts, front, IsPrinted, Keeps, opening, part_at, row_line};
ghost use Rattle.zf_lines.specs.LastLine.{IsFront};
ghost use Rattle.zf_value.specs.declared.plain.Value as value;

use crate::column::{Column, columns_of};
use crate::style::Style;
use std::alloc::AllocError;
use zf_enum::Located;
use zf_format::Format;
use zf_print::append_value;
use zf_term::Flat;

/// A part of a line: where its value stands in the range, and where the part ends.
#[derive(Drop)]
struct Part {
    place: usize,
    end: usize,
}

/// The line that was printed last, its parts, and the parts of lines that are kept.
#[derive(Drop)]
pub struct Printed {
    columns: Vec<Column>,
    line: Vec<u8>,
    parts: Vec<Part>,
}

impl Printed {
    /// No line yet.
    pub fn new(style: &Style<'_>, flat: &Flat<'_>) -> Result<Printed, AllocError>
        ensures { IfOk result (λ made. (ranges : List (List value.Value)) → IsPrinted style.now.format style.now.elements.now (schema_of flat.now).comps ranges made) }
    {
        let columns = columns_of(style, flat)?;
        let mut printed = Printed {
            columns,
            line: Vec::new(style.alloc),
            parts: Vec::new(style.alloc),
        };
        printed.begin(style.format)?;
        Ok(printed)
    }

    pub fn line(&self) -> &[u8]
        ensures { result.now ≡ self.now.line.items }
    {
        &self.line
    }

    /// Prints the line of a row, or of its first values, if there are no components for the others. A refusal leaves a part of it.
    pub fn print<P: Located>(
        &mut self,
        style: &Style<'_>,
        flat: &Flat<'_>,
        row: &P,
    ) -> Result<(), AllocError>
        requires { IsPrinted style.now.format style.now.elements.now (schema_of flat.now).comps (P.ranges row.now) self.old }
        ensures line { OnOk result (self.new.line.items ≡ row_line style.now.format style.now.elements.now (schema_of flat.now).comps (P.values row.now)) }
        ensures printed { OnOk result (IsPrinted style.now.format style.now.elements.now (schema_of flat.now).comps (P.ranges row.now) self.new) }
    {
        let count = self.common(row);
        self.cut(style.format, count)?;
        self.append_parts(style, flat, row, count)?;
        match style.format {
            Format::Lines => self.line.extend_from_slice(b"\n"),
            Format::Objects => self.line.extend_from_slice(b"}\n"),
        }
    }

    /// How many parts in front are those of the row too.
    fn common<P: Located>(&self, row: &P) -> usize
        ensures there { result ≤ length self.now.parts.items }
        ensures within { result ≤ length (P.values row.now) }
        ensures alike { (i : ℕ) (part : _) → i < result → slice_get self.now.parts.items i ≡ Some part → slice_get (P.values row.now) i ≡ slice_get (slice_index_or (P.ranges row.now) i []) part.place }
    {
        let count = self.parts.len().min(row.len());
        for i in 0..count {
            if row.place(i) != self.parts[i].place {
                return i;
            }
        }
        count
    }

    /// Cuts the line off after so many parts. A refusal leaves no line.
    fn cut(&mut self, format: Format, count: usize) -> Result<(), AllocError>
        requires there { count ≤ length self.old.parts.items }
        ensures line { OnOk result ((ss : List Spelling) (cs : List Comp) (ranges : List (List value.Value)) (row : List value.Value) (rest : List ℕ) → AreParts format ss cs ranges row self.old.parts.items → self.old.line.items ≡ front format ss cs row (length self.old.parts.items) ++ rest → self.new.line.items ≡ front format ss cs row count) }
        ensures parts { OnOk result (self.new.parts.items ≡ take count self.old.parts.items) }
        ensures columns { self.new.columns ≡ self.old.columns }
    {
        if count == 0 {
            return self.begin(format);
        }
        self.line.truncate(self.parts[count - 1].end);
        self.parts.truncate(count);
        Ok(())
    }

    /// Begins a line. A refusal leaves none.
    fn begin(&mut self, format: Format) -> Result<(), AllocError>
        ensures line { OnOk result (self.new.line.items ≡ opening format) }
        ensures parts { self.new.parts.items ≡ [] }
        ensures columns { self.new.columns ≡ self.old.columns }
    {
        self.parts.clear();
        self.line.clear();
        match format {
            Format::Lines => Ok(()),
            Format::Objects => self.line.extend_from_slice(b"{"),
        }
    }

    /// Appends the parts of the line after those that are there.
    fn append_parts<P: Located>(
        &mut self,
        style: &Style<'_>,
        flat: &Flat<'_>,
        row: &P,
        count: usize,
    ) -> Result<(), AllocError>
        requires front { IsFront style.now.format style.now.elements.now (schema_of flat.now).comps (P.ranges row.now) (P.values row.now) count self.old }
        requires within { count ≤ length (P.values row.now) }
        ensures line { OnOk result (self.new.line.items ≡ opening style.now.format ++ parted (components_in style.now.format style.now.elements.now (schema_of flat.now).comps (P.values row.now))) }
        ensures front { OnOk result (IsFront style.now.format style.now.elements.now (schema_of flat.now).comps (P.ranges row.now) (P.values row.now) (length self.new.parts.items) self.new) }
    {
        for place in count..flat.components.len() {
            if place == row.len() {
                return Ok(());
            }
            append_part(&mut self.line, &mut self.columns[place], style, row, place)?;
            self.parts.push(Part {
                place: row.place(place),
                end: self.line.len(),
            })?;
        }
        Ok(())
    }
}

/// Appends the part of the line for one component: as it is kept, or as it is worked out, and then kept.
fn append_part<P: Located>(
    line: &mut Vec<u8>,
    column: &mut Column,
    style: &Style<'_>,
    row: &P,
    i: usize,
) -> Result<(), AllocError>
    requires index { i < length (P.values row.now) }
    requires column { Keeps (part_at column.old.head style.now.format style.now.elements.now (slice_index_or (P.ranges row.now) i [])) column.old }
    ensures line { OnOk result (line.new.items ≡ line.old.items ++ part_at column.old.head style.now.format style.now.elements.now (P.values row.now) i) }
    ensures column { OnOk result (Keeps (part_at column.old.head style.now.format style.now.elements.now (slice_index_or (P.ranges row.now) i [])) column.new) }
    ensures head { column.new.head ≡ column.old.head }
{
    let place = row.place(i);
    if let Some(text) = column.find(place) {
        return line.extend_from_slice(text);
    }
    let start = line.len();
    line.extend_from_slice(column.head())?;
    append_value(line, style.format, style.elements, row.get(i))?;
    column.keep(place, &line[start..])
}

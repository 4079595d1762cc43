//! What an exploration asks of a schema and of an environment. It names neither type, so that the machine's statements stay small; nor does a value of the environment's stand in them.
ghost use Rattle.std.specs.Prelude.{◌≡◌, ◌++◌, OnOk};
ghost use Rattle.zf_steps.specs.{laid_out};

use crate::labels::append_column;
use crate::layout::Layout;
use std::alloc::AllocError;
use std::marker::Brand;
use zf_format::Format;
use zf_meaning::Row;
use zf_print::{Spelling, append_row};
use zf_term::Flat;

/// What an environment means, in proofs alone: at `Brand` a caller picks it.
pub trait Surrounding {
    ghost use Rattle.zf_meaning.specs.Environments.{Environment};

    ghost environment: { Environment };
}

impl Surrounding for Brand {
    ghost use Rattle.zf_steps.specs.SystemViews.{no_environment};

    ghost environment = { no_environment };
}

/// A schema, whose bindings can be written.
pub trait Schematic {
    ghost use Rattle.zf_term.specs.Definitions.{Schema};

    ghost schema: { Self → Schema };

    /// Appends a row, on one line without its end, as a column, or as an object. A refusal leaves a part of it.
    fn append_row<R: Row>(
        &self,
        text: &mut Vec<u8>,
        elements: &[Spelling],
        layout: Layout,
        row: &R,
    ) -> Result<(), AllocError>
        ensures { OnOk result (text.new.items ≡ text.old.items ++ laid_out elements.now layout (schema self.now).comps (R.values row.now)) };
}

impl<'a> Schematic for Flat<'a> {
    ghost use Rattle.zf_term.specs.SchemaViews.{schema_of};

    ghost schema = { schema_of };

    fn append_row<R: Row>(
        &self,
        text: &mut Vec<u8>,
        elements: &[Spelling],
        layout: Layout,
        row: &R,
    ) -> Result<(), AllocError> {
        match layout {
            Layout::Line => append_row(text, Format::Lines, self, elements, row),
            Layout::Column => append_column(text, self, elements, row),
            Layout::Object => append_row(text, Format::Objects, self, elements, row),
        }
    }
}
